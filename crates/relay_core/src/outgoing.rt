//! The peers that a request has already passed as it goes out (RFC 6733, sections 6.1.3 and 6.1.9).

ghost use Rattle.std.specs.Prelude.{◌≡◌};
ghost use Rattle.relay_peers.specs.PeerTable.{peer_numbered};
ghost use Rattle.relay_core.specs.NextHop.{names_peer};
ghost use Rattle.std.specs.Option.{option_copied};
ghost use Rattle.relay_core.specs.Outgoing.{drawn, is_from};

use dia_base::{Identity, NodeNo};
use relay_peers::Peers;
use relay_routes::loop_check::loops;

/// The body of a request from its first Route-Record on, and the peer that it has just come from, whose
/// Route-Record goes out behind it. Of a request that goes out again there is none: its Route-Record is in the body.
#[derive(Clone, Copy)]
pub struct Outgoing<'a> {
    pub records: Option<&'a [u8]>,
    pub sender: Option<&'a Identity>,
}

impl Outgoing<'_> {
    /// Whether a Route-Record of the request as it goes out is the identity of the peer of this number. It
    /// takes no memory.
    pub(crate) fn passes_over(self, peers: &Peers, peer: NodeNo) -> bool
        ensures { result ≡ names_peer (drawn self.entry) (peer_numbered peers.now.linked peer) }
    {
        match peers.numbered(peer) {
            Some(peer) => {
                is_sender(self.sender, &peer.name)
                    || self.records.is_some_and(|octets| loops(&peer.name, octets))
            }
            None => false,
        }
    }
}

fn is_sender(sender: Option<&Identity>, name: &Identity) -> bool
    ensures { result ≡ is_from name.now (option_copied sender.entry) }
{
    match sender {
        Some(sender) => sender == name,
        None => false,
    }
}
