//! The event loop of a process that is nodes of a site: its TCP sockets (RFC 6733, section 2.1), the time, and its node with its
//! connections. It decides nothing: what a node does is its own, what becomes of connections is `farm_connections`'s, and who may
//! come up on them `farm_access`'s.
//!
//! - [`Live`]: such a process. A turn has two halves: [`Live::hear`] waits 100 milliseconds at most, reads what is ready, and
//!   ends with one tick; [`Live::answer`] writes. Between the two, what happened may be recorded. [`Live::turn`] is both. Who
//!   calls them says when to end, by [`Live::close`].
//! - [`Sockets`]: its sockets. [`Sockets::waker`] ends a wait from another thread, and the node is woken then.
//! - [`Outgoing`]: which connections are read while others are behind with what is to be written, by [`Pause`], and how much of
//!   them where they share the room of their node, by [`share_of`] and [`room_left`].
//! - [`Dial`]: a connection that it makes itself, again and again (section 2.1); [`wait_after`]: how long it waits before that, by
//!   the Disconnect-Cause (section 5.4.3).
//! - [`StatusPort`]: where it says what it does, over HTTP. Who shows its token may ask for its end there.
//! - [`LoopFault`]: why it cannot go on.
//!
//! What a socket gives or takes, and what the system reports, no contract can say: all of this is proved safe, `Dial` is
//! proved to be made when it is due and to be tried by its definition ([`are_tried`]), `Pause` to let each connection be read
//! by its rule, `room_left` to leave no connection more than its share, and a half to tell whether more may be there. The rest
//! is tested.
#![tactic(auto)]

mod causes;
mod coming;
mod dial;
mod fault;
mod half;
mod kind;
mod limits;
mod live;
mod outgoing;
mod pause;
mod port;
mod rejected;
mod share;
mod sockets;
mod tell;
mod telling;
mod turn_clock;
mod why;

pub use dial::{Dial, DialState, PATIENT_INTERVALS, are_tried, wait_after};
use farm_connections::Serving;
use farm_net::Counted;
pub use fault::LoopFault;
pub use half::Half;
pub use live::Live;
pub use outgoing::Outgoing;
pub use pause::{BEHIND, PATIENCE, PIECE, Pause, Traffic, is_behind, traffic_on};
pub use port::{StatusPort, Wanted};
pub use share::{room_left, share_of};
pub use sockets::Sockets;
pub use why::Why;

/// A node with its connections over sockets.
pub type Served<N> = Serving<N, Counted<Half>, Counted<Half>>;
