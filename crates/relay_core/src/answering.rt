//! An answer comes: it goes back to where its request came from (RFC 6733, section 6.2).

ghost use Rattle.std.specs.Prelude.{◌≡◌, None, IfOk, OnErr, IsOk, IsOkUnless};
ghost use Rattle.relay_core.specs.declared.node.RelayNode.{RelayNode};
ghost use Rattle.relay_core.specs.RelayStep.{OnAnswer, asker_of};

use crate::error::RelayError;
use dia_base::ConnId;
use dia_message::{Message, Out};
use relay_hops::Pending;
use std::alloc::Global;

/// An answer goes back to where its request came from, if that connection stands. One that none waits
/// for is dropped, and takes no memory.
pub(crate) fn on_answer(
    alloc: Global,
    pending: &mut Pending,
    conn: ConnId,
    answer: Message,
) -> Result<Out, RelayError>
    ensures ok { (node : RelayNode) → IfOk result (λ out. OnAnswer (record { node = node; pending = pending.old }) conn answer out.items (record { node = node; pending = pending.new })) }
    ensures dropped { asker_of pending.old.rows conn answer.header.hop ≡ None → IsOk result }
    ensures err { OnErr result (pending.new ≡ pending.old) }
    ensures memory { IsOkUnless result RelayError.OutOfMemory }
{
    let hop = answer.header.hop;
    let Some(held) = pending.held(conn, hop) else {
        return Ok(Out::nothing(alloc));
    };
    let Some(origin) = held.origin else {
        let _dropped = pending.settle(conn, hop);
        return Ok(Out::nothing(alloc));
    };
    let mut answer = answer;
    answer.header.hop = origin.hop;
    let out = Out::of_one(alloc, origin.conn, answer)?;
    let _answered = pending.settle(conn, hop);
    Ok(out)
}
