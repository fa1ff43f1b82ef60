//! What a node keeps of its book.

ghost use Rattle.std.specs.Prelude.{◌≡◌, []};
ghost use Rattle.pool_node.specs.Booked.{HasSwept, HasTakenIn, new_book};
ghost use Rattle.pool_node.specs.Events.{with_events_on};
ghost use Rattle.pool_node.specs.Sweeping.{is_due};

use crate::events::BookEvents;
use crate::figures::BookFigures;
use crate::refusing::Refusals;
use crate::sweeping::NextSweep;
use crate::timing::Timing;
use cc_sweeper::SweepDone;
use dia_base::Moment;
use farm_node::Refused;
use farm_record::Recorder;
use front_pool::Finished;
use std::alloc::Global;
use std::marker::Model;

/// When a book is swept next, what it has come to as far as answers were collected, and what is to be recorded and logged of it. Whatever
/// is collected is taken in here, so that no figure and no event is left out.
#[derive(Drop)]
pub struct Booked {
    next_sweep: NextSweep,
    figures: BookFigures,
    events: BookEvents,
    /// What a log says of requests that were refused. Contracts do not see it.
    refusals: Refusals,
}

impl Model for Booked {
    ghost use Rattle.pool_node.specs.Booked.{BookState};

    ghost Value = { BookState };

    ghost view = { λ b. record { next_sweep = b.next_sweep; figures = b.figures; events = b.events } };
}

impl Booked {
    /// A book of which nothing was collected since it was opened.
    pub fn new(alloc: Global, timing: Timing) -> Self
        ensures { result ≡ new_book timing }
    {
        Booked {
            next_sweep: NextSweep::From {
                moment: timing.first_sweep,
            },
            figures: timing.figures,
            events: BookEvents::off(alloc),
            refusals: Refusals::new(alloc),
        }
    }

    /// Whether it is to be swept at this moment.
    pub fn is_due(&self, moment: Moment) -> bool
        ensures { result ≡ is_due self.now.next_sweep moment }
    {
        self.next_sweep.is_due(moment)
    }

    /// What it has come to.
    pub fn figures(&self) -> BookFigures
        ensures { result ≡ self.now.figures }
    {
        self.figures
    }

    /// From now on what is done is kept until it is told.
    pub fn begin_record(&mut self)
        ensures { self.new ≡ record self.old { events = with_events_on self.old.events } }
    {
        self.events.begin();
    }

    /// A finished job was collected.
    pub fn collected(&mut self, finished: &Finished)
        ensures { HasTakenIn finished.now self.old self.new }
    {
        self.figures.collected(finished);
        self.events.collected(finished);
        self.refusals.collected(finished);
    }

    /// From now on requests that credit control itself refused are to be logged too.
    pub fn log_credit(&mut self)
        ensures { self.new ≡ self.old }
    {
        self.refusals.keep_credit();
    }

    /// Takes what is to be logged of the oldest request that was refused.
    pub fn take_refused(&mut self) -> Option<Refused>
        ensures { self.new ≡ self.old }
    {
        self.refusals.take_first()
    }

    /// A sweep was collected.
    pub fn swept(&mut self, done: &SweepDone)
        ensures { HasSwept done.now self.old self.new }
    {
        self.next_sweep = NextSweep::after(done.moment, &done.swept);
        self.figures.swept(&done.swept);
        self.events.swept(done.moment, &done.swept);
    }

    /// Tells all that was done since it told last.
    pub fn tell(&mut self, alloc: Global, recorder: &mut Recorder)
        ensures { self.new ≡ record self.old { events = record self.old.events { events = [] } } }
    {
        self.events.tell(alloc, recorder);
    }
}
