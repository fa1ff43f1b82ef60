//! Laws of the map from peers to connections.

ghost use Rattle.std.specs.Prelude.{◌≡◌, ◌==◌, ◌↔◌, ◌∷◌, List, [], Some, None, map, codes, if◌then◌else◌};
ghost use Rattle.dia_base.specs.declared.number.NodeNo.{NodeNo};
ghost use Rattle.dia_base.specs.declared.number.ConnId.{ConnId};
ghost use Rattle.dia_base.specs.declared.node.NodeKind.TheVariants.{Client, Front};
ghost use Rattle.relay_peers.specs.declared.peers.Link.{Link};
ghost use Rattle.relay_peers.specs.PeerExample.{node, conn, relay, front, four_peers, client_up, front_up, client_down, client_up_again};
ghost use Rattle.relay_peers.specs.PeerTable.{IsOneToOne, conn_in, kind_in, peer_in, peer_named, peer_numbered, with_link, without_conn, but_for};

/// A peer that comes up has its connection, and every other peer has the one that it had.
pub fn conns_after_up()
    ensures { (links : List Link) (peer other : NodeNo) (conn : ConnId) → conn_in links peer ≡ None → conn_in (with_link links peer conn) other ≡ (if peer.0 == other.0 then Some conn else conn_in links other) }
{}

/// Each of the two look-ups undoes the other.
pub fn each_finds_the_other()
    ensures { (links : List Link) (peer : NodeNo) (conn : ConnId) → IsOneToOne links → (conn_in links peer ≡ Some conn) ↔ (peer_in links conn ≡ Some peer) }
{}

/// When a connection ends, the peer that had it is not up, and every other one has the connection
/// that it had.
pub fn conns_after_down()
    ensures { (links : List Link) (peer : NodeNo) (ended : ConnId) → IsOneToOne links → conn_in (without_conn links ended) peer ≡ but_for ended (conn_in links peer) }
{}

/// Worked examples: a peer is found by its number, and by its whole identity in either case. Of several the first counts.
pub fn peers_are_found_without_case()
    ensures number { map (peer_numbered four_peers) (node 2 ∷ node 3 ∷ []) ≡ Some front ∷ None ∷ [] }
    ensures identity { map (peer_named four_peers) (codes "R2.Example" ∷ codes "r2.example." ∷ codes "r2" ∷ []) ≡ Some relay ∷ None ∷ None ∷ [] }
    ensures kind { map (kind_in four_peers) (node 4 ∷ node 2 ∷ node 3 ∷ []) ≡ Some Client ∷ Some Front ∷ None ∷ [] }
    ensures first_number { peer_numbered (relay ∷ record front { peer = node 1 } ∷ []) (node 1) ≡ Some relay }
    ensures first_identity { peer_named (front ∷ record relay { name = codes "F1.EXAMPLE" } ∷ []) (codes "f1.example") ≡ Some front }
{}

/// Worked examples: which peers are up, and on which connections.
pub fn peers_are_up_on_one_connection()
    ensures nobody { map (conn_in []) (node 4 ∷ node 2 ∷ []) ≡ None ∷ None ∷ [] }
    // So the client is refused a second connection, and any other peer is refused this one.
    ensures client { (conn_in client_up (node 4) ≡ Some (conn 1)) × (peer_in client_up (conn 1) ≡ Some (node 4)) }
    // So the front may come up on another connection.
    ensures free { (conn_in client_up (node 2) ≡ None) × (peer_in client_up (conn 2) ≡ None) }
    ensures both { map (conn_in front_up) (node 4 ∷ node 2 ∷ []) ≡ Some (conn 1) ∷ Some (conn 2) ∷ [] }
    ensures by_connection { map (peer_in front_up) (conn 1 ∷ conn 2 ∷ conn 3 ∷ []) ≡ Some (node 4) ∷ Some (node 2) ∷ None ∷ [] }
    // What the front has once one connection of the two has ended.
    ensures other_ended { map (λ ended. conn_in (without_conn front_up ended) (node 2)) (conn 1 ∷ conn 2 ∷ []) ≡ Some (conn 2) ∷ None ∷ [] }
    ensures down { map (conn_in client_down) (node 4 ∷ node 2 ∷ []) ≡ None ∷ Some (conn 2) ∷ [] }
    ensures ended { peer_in client_down (conn 1) ≡ None }
    ensures again { map (conn_in client_up_again) (node 4 ∷ node 2 ∷ []) ≡ Some (conn 3) ∷ Some (conn 2) ∷ [] }
    // So no peer is found on either connection after a restart, which leaves no links.
    ensures restarted { map (peer_in []) (conn 2 ∷ conn 3 ∷ []) ≡ None ∷ None ∷ [] }
{}
