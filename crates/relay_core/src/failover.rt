//! What becomes of the requests that were sent on a connection which has ended (RFC 6733, section 5.5.4).
//! All that takes memory is prepared first, while the connection is still there; then the table is changed.

ghost use Rattle.std.specs.Prelude.{◌≡◌, ◌==◌, ◌≤◌, ℕ, [], None, Some, IfOk, length, vec_capacity, option_to_list, if◌then◌else◌};
ghost use Rattle.relay_peers.specs.PeerTable.{peer_in};
ghost use Rattle.relay_hops.specs.declared.row.Held.{Held as HeldRequest};
ghost use Rattle.relay_hops.specs.PendingTable.{but_from, held_at, without_origin};
ghost use Rattle.relay_core.specs.declared.node.RelayNode.{RelayNode as Node};
ghost use Rattle.relay_core.specs.Failover.{Failover, RequestFailover, next_hop_again, without_origins};
ghost use Rattle.relay_core.specs.Giving.{SendsAgain};
ghost use Rattle.relay_core.specs.FailoverPlan.{IsFailoverPlan, choice_of};
ghost use Rattle.relay_core.specs.Routing.{node_for};

use crate::deciding::next_hop;
use crate::reading::read_again;
use crate::routing::Routing;
use cc_view::{Refusal, ResultCode, refusal_bytes};
use dia_avp::Wire;
use dia_base::{ConnId, Listing};
use dia_message::{Message, Out};
use relay_hops::{Held, Hop, Origin, Pending};
use std::alloc::{AllocError, Global};

/// What is to be sent for a request whose connection has ended.
#[derive(Drop)]
pub enum FailoverChoice {
    /// Nothing: nobody waits for its answer.
    Forget,
    /// The request itself, with T set, on another connection. Its identifier is not chosen yet.
    SendAgain { to: ConnId, request: Message },
    /// A refusal to the one who asked.
    GiveUp { conn: ConnId, answer: Message },
}

/// The same with the identifier under which the request is pending.
#[derive(Drop)]
pub struct PlannedFailover {
    pub hop: Hop,
    pub choice: FailoverChoice,
}

/// What is to be sent for each request that is pending on the connection, by rising identifier, when that
/// connection ends, which the routing has to leave out.
pub(crate) fn failover_plan<W: Wire>(
    alloc: Global,
    routing: Routing,
    pending: &Pending,
    lost: ConnId,
) -> Result<Vec<PlannedFailover>, AllocError>
    ensures { IfOk result (λ plan. IsFailoverPlan (node_for routing.entry) lost (without_origins lost pending.now.rows) plan.items) }
{
    let hops = pending.sent_to(alloc, lost)?;
    let mut plan = Vec::new(alloc);
    for hop in hops.as_slice() {
        let choice = match pending.held(lost, *hop) {
            Some(held) => choice_of::<W>(alloc, routing, held, lost)?,
            None => FailoverChoice::Forget,
        };
        plan.push(PlannedFailover { hop: *hop, choice })?;
    }
    Ok(plan)
}

/// What is to be sent for one of them.
fn choice_of<W: Wire>(
    alloc: Global,
    routing: Routing,
    held: &Held,
    lost: ConnId,
) -> Result<FailoverChoice, AllocError>
    ensures { IfOk result (λ choice. choice ≡ choice_of (node_for routing.entry) (without_origin lost held.now)) }
{
    let Some(origin) = origin_elsewhere(held.origin, lost) else {
        return Ok(FailoverChoice::Forget);
    };
    match next_hop_again(routing, &held.request) {
        Ok(to) => {
            let mut request = held.request.clone()?;
            request.header.resent = true;
            Ok(FailoverChoice::SendAgain { to, request })
        }
        Err(code) => {
            let refusal = Refusal { code, failed: None };
            let mut answer = refusal_bytes::<W>(
                alloc,
                &routing.node.name,
                &routing.node.realm,
                &held.request,
                &refusal,
            )?;
            answer.header.hop = origin.hop;
            Ok(FailoverChoice::GiveUp {
                conn: origin.conn,
                answer,
            })
        }
    }
}

/// Where a request came from, unless that connection ends.
fn origin_elsewhere(origin: Option<Origin>, ended: ConnId) -> Option<Origin>
    ensures { result ≡ but_from ended origin }
{
    match origin {
        Some(origin) => {
            if origin.conn == ended {
                None
            } else {
                Some(origin)
            }
        }
        None => None,
    }
}

/// Where a request that was sent goes once the connection has ended. It takes no memory.
fn next_hop_again(routing: Routing, request: &Message) -> Result<ConnId, ResultCode>
    ensures { result ≡ next_hop_again (node_for routing.entry) request.now }
{
    let reading = read_again(request.body.as_slice());
    next_hop(routing, request, reading, None)
}

/// The plan is carried out, one request after the other; nothing is pending on the lost connection then. It takes no
/// memory: there is room for what is sent.
pub(crate) fn fail_over(
    pending: &mut Pending,
    lost: ConnId,
    plan: Vec<PlannedFailover>,
    room: Vec<(ConnId, Message)>,
) -> Out
    requires empty { room.items ≡ [] }
    requires enough { length plan.items ≤ vec_capacity room }
    ensures ok { (node : Node) → peer_in node.peers.links lost ≡ None → IsFailoverPlan node lost pending.old.rows plan.items → Failover node lost pending.old.rows result.items pending.new.rows }
    ensures again { (node : Node) → peer_in node.peers.links lost ≡ None → IsFailoverPlan node lost pending.old.rows plan.items → SendsAgain pending.old result.items pending.new }
    ensures limit { pending.new.limit ≡ pending.old.limit }
{
    let mut items = room;
    for planned in plan {
        let PlannedFailover { hop, choice } = planned;
        if let Some(item) = fail_over_one(pending, lost, hop, choice) {
            items.push_reserved(item);
        }
    }
    Out {
        items: Listing::from_vec(items),
    }
}

/// One request is forgotten, goes out again, or is given up. The answer is what is sent for it.
fn fail_over_one(
    pending: &mut Pending,
    lost: ConnId,
    hop: Hop,
    choice: FailoverChoice,
) -> Option<(ConnId, Message)>
    ensures ok { (node : Node) (held : HeldRequest) → held_at pending.old.rows lost hop ≡ Some held → choice ≡ choice_of node held → RequestFailover node lost held pending.old.rows (option_to_list result) pending.new.rows }
    // On the lost connection one identifier is in use no more, and all others as before.
    ensures left { (node : Node) (held : HeldRequest) → held_at pending.old.rows lost hop ≡ Some held → choice ≡ choice_of node held → peer_in node.peers.links lost ≡ None → (other : ℕ) → held_at pending.new.rows lost other ≡ (if other == hop then None else held_at pending.old.rows lost other) }
    // What is sent again keeps its identifier.
    ensures again { (node : Node) (held : HeldRequest) → held_at pending.old.rows lost hop ≡ Some held → choice ≡ choice_of node held → peer_in node.peers.links lost ≡ None → SendsAgain pending.old (option_to_list result) pending.new }
    ensures limit { pending.new.limit ≡ pending.old.limit }
{
    match choice {
        FailoverChoice::Forget => {
            let _forgotten = pending.settle(lost, hop);
            None
        }
        FailoverChoice::SendAgain { to, request } => {
            let mut request = request;
            request.header.hop = pending.move_to(lost, hop, to)?;
            Some((to, request))
        }
        FailoverChoice::GiveUp { conn, answer } => {
            let _given_up = pending.settle(lost, hop);
            Some((conn, answer))
        }
    }
}
