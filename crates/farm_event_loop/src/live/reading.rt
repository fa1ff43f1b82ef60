//! Which connections a turn reads, and in which order.

ghost use Rattle.std.specs.Prelude.{◌≡◌, ◌++◌, ◌∷◌, ◌||◌, [], IfOk, true};

use super::Live;
use crate::fault::LoopFault;
use crate::sockets::{Callers, Ready, Source};
use dia_avp::ViewWire;
use dia_base::{ConnId, Moment};
use farm_base::Site;
use farm_node::Node;
use std::mem::swap;
use std::rt::Clock;

/// A connection that is read again at the next turn.
#[derive(Clone, Copy)]
pub(super) struct Unread {
    pub(super) conn: ConnId,
    /// Whether nothing comes behind what is there: it is read until it ends.
    closes: bool,
    /// Whether it was not read at all, since others are behind, or since it has its share open.
    waits: bool,
    /// Since when it was not read.
    since: Moment,
}

/// The same one where it is reported once more: an end that was reported stays one.
fn reported(unread: Unread, closes: bool) -> Unread
    ensures { result ≡ record unread { closes = unread.closes || closes } }
{
    Unread {
        closes: unread.closes || closes,
        ..unread
    }
}

impl<N: Node + Drop> Live<N> {
    /// Whether there is something to do at once: a connection that was not read until it would wait and may be read, or a
    /// listener like that.
    pub(super) fn may_not_wait(&self, site: &Site, moment: Moment) -> bool {
        for unread in &self.later {
            let most = self
                .outgoing
                .most_on(site, &self.serving, unread.conn, unread.since, moment);
            if most > 0 {
                return true;
            }
        }
        self.has_callers(moment)
    }

    /// Whether connections may wait at a listener, of which the system is to be asked at this moment.
    fn has_callers(&self, moment: Moment) -> bool {
        self.sockets
            .listeners
            .iter()
            .any(|listening| listening.callers.may_wait(moment))
    }

    /// Reads on a connection for one turn, unless it has to wait for others, or for its own answers. Where more may be there, it is
    /// read again at the next one.
    fn read_one<O: Clock>(
        &mut self,
        os: &O,
        site: &Site,
        unread: Unread,
        moment: Moment,
    ) -> Result<(), LoopFault> {
        self.outgoing.look(&self.serving, moment);
        let most = self
            .outgoing
            .most_on(site, &self.serving, unread.conn, unread.since, moment);
        self.read_at_most(os, unread, most, moment)
    }

    /// Reads so many messages at most on a connection. Where it has to wait, it is not forgotten, however often.
    fn read_at_most<O: Clock>(
        &mut self,
        os: &O,
        unread: Unread,
        most: usize,
        moment: Moment,
    ) -> Result<(), LoopFault>
        ensures { most ≡ 0 → IfOk result (λ _. self.new.later.items ≡ self.old.later.items ++ record unread { waits = true } ∷ []) }
    {
        if most == 0 {
            self.later.push(Unread {
                waits: true,
                ..unread
            })?;
            return Ok(());
        }
        self.set_clock(os)?;
        let piece = self.sockets.piece.as_mut_slice();
        if piece.is_empty() {
            return Ok(());
        }
        self.serving
            .readable::<ViewWire>(unread.conn, piece, most, moment);
        if let Some(link) = self.serving.link(unread.conn) {
            let half = link.conn.reader().device();
            if link.end.is_none() && half.may_have_more(unread.closes) {
                self.later.push(Unread {
                    waits: false,
                    since: moment,
                    ..unread
                })?;
            }
        }
        Ok(())
    }

    /// Reads where more may be there: first those that have waited for others, so that each has its turn.
    pub(super) fn read_again<O: Clock>(
        &mut self,
        os: &O,
        site: &Site,
        moment: Moment,
    ) -> Result<(), LoopFault> {
        swap(&mut self.again, &mut self.later);
        self.later.clear();
        self.read_those(os, site, true, moment)?;
        self.read_those(os, site, false, moment)
    }

    /// Reads again those that have waited for others, or those that have not.
    fn read_those<O: Clock>(
        &mut self,
        os: &O,
        site: &Site,
        waits: bool,
        moment: Moment,
    ) -> Result<(), LoopFault> {
        for at in 0..self.again.len() {
            if let Some(unread) = self.again.get(at)
                && unread.waits == waits
            {
                let unread = *unread;
                self.read_one(os, site, unread, moment)?;
            }
        }
        Ok(())
    }

    /// Serves one thing that was reported. A connection that was read for this turn is read again at the next one.
    pub(super) fn serve_one<O: Clock>(
        &mut self,
        os: &O,
        site: &Site,
        ready: Ready,
        moment: Moment,
    ) -> Result<(), LoopFault> {
        match ready.source {
            Source::Waker => {
                self.set_clock(os)?;
                self.serving.wake::<ViewWire>(moment);
            }
            Source::Listener { place } => {
                if let Some(listening) = self.sockets.listeners.get_mut(place) {
                    listening.callers = Callers::MayWait;
                }
            }
            Source::Conn { conn } if ready.reads => {
                let known = self.later.iter_mut().find(|unread| unread.conn == conn);
                if let Some(unread) = known {
                    *unread = reported(*unread, ready.closes);
                    return Ok(());
                }
                let unread = Unread {
                    conn,
                    closes: ready.closes,
                    waits: false,
                    since: moment,
                };
                self.read_one(os, site, unread, moment)?;
            }
            Source::Conn { .. } => {}
        }
        Ok(())
    }
}
