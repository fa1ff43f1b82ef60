//! Why connections are not made, and why they end, in words.

ghost use Rattle.std.specs.Prelude.{◌≡◌};
ghost use Rattle.farm_event_loop.specs.Ending.{is_wished};

use crate::half::Half;
use farm_connections::End;
use farm_net::{Conn, Counted, Loss};
use farm_watch::DisconnectCause;
use std::io::ErrorKind;
use std::{fmt, io};

/// What the system calls a fault of a socket, where it is one of those that a network gives.
fn words_of(kind: ErrorKind) -> Option<&'static str> {
    match kind {
        ErrorKind::ConnectionRefused => Some("Connection refused"),
        ErrorKind::ConnectionReset => Some("Connection reset by peer"),
        ErrorKind::ConnectionAborted => Some("Software caused connection abort"),
        ErrorKind::HostUnreachable => Some("No route to host"),
        ErrorKind::NetworkUnreachable => Some("Network is unreachable"),
        ErrorKind::NetworkDown => Some("Network is down"),
        ErrorKind::TimedOut => Some("Connection timed out"),
        ErrorKind::BrokenPipe => Some("Broken pipe"),
        ErrorKind::AddrNotAvailable => Some("Cannot assign requested address"),
        ErrorKind::AddrInUse => Some("Address already in use"),
        ErrorKind::PermissionDenied => Some("Permission denied"),
        _ => None,
    }
}

/// A fault of a socket in the system's words, without its number where it is one that a network gives.
#[derive(Clone, Copy)]
pub struct Fault<'a>(pub &'a io::Error);

impl fmt::Display for Fault<'_> {
    fn fmt<W: fmt::Write>(&self, f: &mut fmt::Formatter<W>) -> fmt::Result {
        match words_of(self.0.kind()) {
            Some(words) => f.write_str(words),
            None => write!(f, "{}", self.0),
        }
    }
}

/// Why a connection has ended, with the fault of the call by which it was lost, if a call has failed; and why the node at its other end
/// has said goodbye, where the node here was told of that.
#[derive(Clone, Copy)]
pub struct Why {
    pub end: End,
    pub fault: Option<ErrorKind>,
    pub farewell: Option<DisconnectCause>,
}

impl Why {
    /// Why this connection has ended, which `end` says as far as the octets tell.
    pub fn of(
        end: End,
        farewell: Option<DisconnectCause>,
        conn: &Conn<Counted<Half>, Counted<Half>>,
    ) -> Why
        ensures { (result.end ≡ end) × (result.farewell ≡ farewell) }
    {
        let fault = match end {
            End::Loss(Loss::Read) => conn.reader().device().fault(),
            End::Loss(Loss::Write) => conn.writer().device().fault(),
            End::Loss(Loss::End | Loss::Frame(_) | Loss::Unsent | Loss::OutOfMemory)
            | End::Unwelcome
            | End::Silent
            | End::Disconnected
            | End::Closed
            | End::Refused(_)
            | End::OutOfMemory => None,
        };
        Why {
            end,
            fault,
            farewell,
        }
    }

    /// Whether the connection has ended as one of its ends wished, and not by a fault.
    pub fn is_wished(self) -> bool
        ensures { result ≡ is_wished self.end self.farewell }
    {
        match self.end {
            End::Disconnected | End::Closed => true,
            End::Loss(Loss::End) => self.farewell.is_some(),
            End::Loss(Loss::Read | Loss::Frame(_) | Loss::Write | Loss::Unsent | Loss::OutOfMemory)
            | End::Unwelcome
            | End::Silent
            | End::Refused(_)
            | End::OutOfMemory => false,
        }
    }
}

impl fmt::Display for Why {
    fn fmt<W: fmt::Write>(&self, f: &mut fmt::Formatter<W>) -> fmt::Result {
        match self.fault.and_then(words_of) {
            Some(words) => f.write_str(words),
            None => write!(f, "{}", self.end),
        }
    }
}
