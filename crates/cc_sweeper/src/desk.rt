//! What a sweeper and whoever asks it share.

ghost use Rattle.std.specs.Prelude.{◌≡◌, IfOk};
ghost use Rattle.std.specs.Arc.{arc_value};
ghost use Rattle.crossbeam_utils.specs.Seq.{cell_view};
ghost use Rattle.cc_sweeper.specs.Errands.{idle_asker, idle_hand};

use crate::errand::{Errand, ErrandCell, ErrandPass, Hires};
use cc_shared::Sharing;
use std::alloc::{AllocError, Global};
use std::sync::atomic::{AtomicBool, AtomicU64, Ordering};
use std::sync::{Arc, Wait};

/// The errand, and how the sweeper hears of it. Of plain words that threads share no clause knows anything: what is promised
/// rests on none of them.
#[derive(Drop)]
pub struct SweepDesk<L: Sharing> {
    pub errand: ErrandCell<L>,
    /// Counts what the sweeper is to look at.
    news: AtomicU64,
    stopping: AtomicBool,
}

/// A desk with nothing to do, with the pass of who asks and that of the sweeper.
pub fn new_desk<L: Sharing>(
    alloc: Global,
) -> Result<(Arc<SweepDesk<L>>, ErrandPass, ErrandPass), AllocError>
    ensures asker { IfOk result (λ made. (made.1.table_id ≡ (arc_value made.0).errand.table.shared.table_id) × (cell_view made.1 ≡ idle_asker)) }
    ensures hand { IfOk result (λ made. (made.2.table_id ≡ (arc_value made.0).errand.table.shared.table_id) × (cell_view made.2 ≡ idle_hand)) }
{
    let (errand, mut asker) = ErrandCell::<L>::ruled(alloc, Errand::Nothing)?;
    let hand = errand.split_pass::<Hires>(&mut asker);
    let desk = Arc::new(
        alloc,
        SweepDesk {
            errand,
            news: AtomicU64::new(0),
            stopping: AtomicBool::new(false),
        },
    )?;
    Ok((desk, asker, hand))
}

impl<L: Sharing> SweepDesk<L> {
    /// What the sweeper reads before it looks, and waits with where there is nothing to do.
    pub fn news(&self) -> u64 {
        self.news.load(Ordering::SeqCst)
    }

    /// Waits for as long as there is nothing new.
    pub fn wait<R: Wait>(&self, rt: &R, seen: u64) {
        self.news.park(rt, (seen & 0xffff_ffff) as u32);
    }

    /// There is something to look at.
    pub fn tell(&self) {
        self.news.fetch_add(1, Ordering::SeqCst);
        self.news.wake_all();
    }

    pub fn is_stopping(&self) -> bool {
        self.stopping.load(Ordering::SeqCst)
    }

    /// The sweeper is to end, once nothing is to be done.
    pub fn stop(&self) {
        self.stopping.store(true, Ordering::SeqCst);
        self.tell();
    }
}
