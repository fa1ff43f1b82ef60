//! Why neighbours were lost last.

ghost use Rattle.std.specs.Prelude.{◌≡◌, []};
ghost use Rattle.farm_event_loop.specs.Lost.{IsSet, is_of, place_of, why_of};

use crate::why::Why;
use dia_base::NodeNo;
use std::alloc::Global;

/// Why a neighbour of a node was lost last.
#[derive(Clone, Copy)]
pub struct Cause {
    pub local: NodeNo,
    pub peer: NodeNo,
    pub why: Why,
}

impl Cause {
    /// Whether it is of this neighbour of this node.
    fn is_of(&self, local: NodeNo, peer: NodeNo) -> bool
        ensures { result ≡ is_of local peer self.now }
    {
        self.local.0 == local.0 && self.peer.0 == peer.0
    }
}

/// Why neighbours were lost last: one cause of each that was.
#[derive(Drop)]
pub struct Causes {
    last: Vec<Cause>,
}

impl Causes {
    /// None was.
    pub fn none(alloc: Global) -> Causes
        ensures { result.last.items ≡ [] }
    {
        Causes {
            last: Vec::new(alloc),
        }
    }

    /// The place of a neighbour.
    fn place_of(&self, local: NodeNo, peer: NodeNo) -> Option<usize>
        ensures { result ≡ place_of local peer self.now.last.items }
    {
        self.last.iter().position(|cause| cause.is_of(local, peer))
    }

    /// A neighbour is lost. Without memory it is not told why, unless it was lost before.
    pub fn set(&mut self, cause: Cause)
        ensures { IsSet cause (place_of cause.local cause.peer self.old.last.items) self.old.last.items self.new.last.items }
    {
        match self.place_of(cause.local, cause.peer) {
            Some(place) => self.last[place] = cause,
            None => {
                let _ = self.last.push(cause);
            }
        }
    }

    /// Why a neighbour was lost last, if it was.
    pub fn of(&self, local: NodeNo, peer: NodeNo) -> Option<Why>
        ensures { result ≡ why_of (place_of local peer self.now.last.items) self.now.last.items }
    {
        let place = self.place_of(local, peer)?;
        Some(self.last[place].why)
    }
}
