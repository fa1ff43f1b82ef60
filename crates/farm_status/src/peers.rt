//! What Prometheus reads of each neighbour.

ghost use Rattle.std.specs.Prelude.{◌≡◌};
ghost use Rattle.farm_status.specs.Neighbours.{figure_of};

use crate::escape::push_label;
use crate::metrics::{Kind, head};
use crate::status::{Peer, PeerState};
use std::alloc::AllocError;

/// A number of a neighbour.
#[derive(Clone, Copy)]
pub(crate) enum PeerFigure {
    /// 1 where it is up, else 0.
    Up,
    /// For how many seconds it is up, or lost.
    Since,
    /// How often it was lost.
    Losses,
    /// How often it was lost since it was silent (RFC 6733, section 5.5).
    Silences,
    /// Requests that it has sent.
    Requests,
    /// Answers that were sent to it.
    Answers,
    /// How many of those were no success.
    Refusals,
}

const FIGURES: [PeerFigure; 7] = [
    PeerFigure::Up,
    PeerFigure::Since,
    PeerFigure::Losses,
    PeerFigure::Silences,
    PeerFigure::Requests,
    PeerFigure::Answers,
    PeerFigure::Refusals,
];

impl PeerFigure {
    fn name(self) -> &'static str {
        match self {
            PeerFigure::Up => "farm_peer_up",
            PeerFigure::Since => "farm_peer_state_seconds",
            PeerFigure::Losses => "farm_peer_losses_total",
            PeerFigure::Silences => "farm_peer_silences_total",
            PeerFigure::Requests => "farm_peer_requests_total",
            PeerFigure::Answers => "farm_peer_answers_total",
            PeerFigure::Refusals => "farm_peer_refusals_total",
        }
    }

    fn kind(self) -> Kind {
        match self {
            PeerFigure::Up | PeerFigure::Since => Kind::Gauge,
            PeerFigure::Losses
            | PeerFigure::Silences
            | PeerFigure::Requests
            | PeerFigure::Answers
            | PeerFigure::Refusals => Kind::Counter,
        }
    }

    fn help(self) -> &'static str {
        match self {
            PeerFigure::Up => "Whether a node of the process is connected with its neighbour.",
            PeerFigure::Since => "For how long the neighbour is up, or lost.",
            PeerFigure::Losses => "How often the neighbour was lost.",
            PeerFigure::Silences => "How often the neighbour was lost since it was silent.",
            PeerFigure::Requests => "Requests that the neighbour has sent.",
            PeerFigure::Answers => "Answers that were sent to the neighbour.",
            PeerFigure::Refusals => "Answers that were sent to the neighbour and were no success.",
        }
    }

    /// This number of a neighbour. One that was never up has only the first.
    fn of(self, peer: &Peer) -> Option<u64>
        ensures { result ≡ figure_of self peer.now }
    {
        if let PeerFigure::Up = self {
            return Some(u64::from(peer.state == PeerState::Up));
        }
        let past = peer.past.as_ref()?;
        let number = match self {
            PeerFigure::Up | PeerFigure::Since => past.since / 1_000,
            PeerFigure::Losses => past.count.losses,
            PeerFigure::Silences => past.count.silences,
            PeerFigure::Requests => past.count.requests,
            PeerFigure::Answers => past.count.answers,
            PeerFigure::Refusals => past.count.refusals,
        };
        Some(number)
    }
}

/// A sample of a neighbour.
fn push_sample(out: &mut String, name: &str, peer: &Peer, value: u64) -> Result<(), AllocError> {
    write!(out, "{name}{{node=\"")?;
    push_label(out, &peer.local)?;
    write!(out, "\",peer=\"")?;
    push_label(out, &peer.name)?;
    write!(out, "\"}} {value}\n")
}

/// A metric with a sample for each neighbour that has it.
fn push_figure(out: &mut String, figure: PeerFigure, peers: &[Peer]) -> Result<(), AllocError> {
    let name = figure.name();
    head(out, name, figure.kind(), figure.help())?;
    for peer in peers {
        if let Some(value) = figure.of(peer) {
            push_sample(out, name, peer, value)?;
        }
    }
    Ok(())
}

/// What is counted of each neighbour.
pub(crate) fn push_peers(out: &mut String, peers: &[Peer]) -> Result<(), AllocError> {
    for figure in FIGURES {
        push_figure(out, figure, peers)?;
    }
    Ok(())
}
