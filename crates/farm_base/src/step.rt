//! The steps of a schedule.

use cc_book::TermsChange;
use dia_base::{Moment, NodeNo};
use dia_message::Message;

/// One step of the farm. A step that does not apply is skipped when the schedule is run.
#[derive(Drop)]
pub enum Step {
    /// A connection between two nodes comes up, and both know it: `Accept` and then `Opened`.
    Up {
        a: NodeNo,
        b: NodeNo,
    },
    /// A node accepts a connection that another one opens. It knows the connection; the other does not yet.
    Accept {
        at: NodeNo,
        from: NodeNo,
    },
    /// The node that opens a connection learns that it is made, even where the other has dropped it by then.
    Opened {
        a: NodeNo,
        b: NodeNo,
    },
    /// A client sends a message to a node.
    Send {
        client: NodeNo,
        to: NodeNo,
        message: Message,
    },
    /// The message at this place of those in flight arrives. Places count from 0.
    Deliver {
        from: NodeNo,
        to: NodeNo,
        place: u64,
    },
    /// The message at this place of those in flight is lost.
    Lose {
        from: NodeNo,
        to: NodeNo,
        place: u64,
    },
    /// All that is in flight between two nodes is lost, and their connection ends: `Drop` by the one, then by
    /// the other.
    Cut {
        a: NodeNo,
        b: NodeNo,
    },
    /// A node learns that its connection with another one has ended; of one that it has not learned of yet it
    /// never will. What is on its way to it is gone. The other node knows nothing of that.
    Drop {
        a: NodeNo,
        b: NodeNo,
    },
    /// A relay or a front begins anew, and all that it held is gone: `Crash`, and then `Drop` by each of its peers.
    Restart {
        node: NodeNo,
    },
    /// A relay or a front forgets everything, and what is on its way to it is gone. Its peers know nothing of that.
    Crash {
        node: NodeNo,
    },
    /// An idle worker takes the first job of the front's queue. Workers count from 0.
    Pick {
        front: NodeNo,
        worker: u64,
    },
    /// A worker charges its job at this moment.
    Charge {
        front: NodeNo,
        worker: u64,
        moment: Moment,
    },
    /// A worker refuses its job without the book.
    Refuse {
        front: NodeNo,
        worker: u64,
    },
    /// A worker sends its answer.
    Emit {
        front: NodeNo,
        worker: u64,
    },
    /// The book ends the sessions that are due at this moment (RFC 8506, section 13). It always applies.
    Sweep {
        moment: Moment,
    },
    /// The terms of the book change at this moment. It always applies: a change that the book refuses, for a fault or
    /// because it is full, leaves all as it is.
    ChangeTerms {
        moment: Moment,
        change: TermsChange,
    },
}
