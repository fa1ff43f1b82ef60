//! By which names nodes come up that were connected to (RFC 6733, section 5.3).

ghost use Rattle.std.specs.Prelude.{◌≡◌, IfOk};
ghost use Rattle.farm_connections.specs.Naming.{awaited, is_cea, is_own, misnamed};
ghost use Rattle.farm_watch.specs.PeerMessages.{kind_of};

use crate::link::Link;
use dia_avp::Wire;
use dia_base::NodeNo;
use dia_message::Message;
use farm_watch::{MessageKind, Waits, WatchSite, is_named_in, kind_of};
use std::alloc::{AllocError, Global};

/// By which name a node comes up that was connected to, and answers.
#[derive(Clone, Copy)]
pub enum NameRule {
    /// By any.
    Any,
    /// By its own alone.
    Own,
}

fn is_own(names: NameRule) -> bool
    ensures { result ≡ is_own names }
{
    match names {
        NameRule::Any => false,
        NameRule::Own => true,
    }
}

fn is_cea(kind: MessageKind) -> bool
    ensures { result ≡ is_cea kind }
{
    match kind {
        MessageKind::Cea => true,
        MessageKind::Cer
        | MessageKind::Dwr
        | MessageKind::Dwa
        | MessageKind::Dpr
        | MessageKind::Dpa
        | MessageKind::Other => false,
    }
}

/// The node that was connected to, where a connection waits for its answer.
fn awaited(waits: Waits) -> Option<NodeNo>
    ensures { result ≡ awaited waits }
{
    match waits {
        Waits::ForCea { node, .. } => Some(node),
        Waits::ForCer { .. }
        | Waits::ForMessage { .. }
        | Waits::ForDwa { .. }
        | Waits::ForDpa { .. }
        | Waits::ForClose { .. }
        | Waits::ForNothing => None,
    }
}

/// The node that was connected to, where the message is its answer and does not name it, and it comes up by its own name
/// alone.
pub(crate) fn misnamed<P: Wire, R, W>(
    alloc: Global,
    link: &Link<R, W>,
    site: &WatchSite,
    message: &Message,
) -> Result<Option<NodeNo>, AllocError>
    ensures { IfOk result (λ node. node ≡ misnamed link.now site.now message.now) }
{
    if !is_own(link.names) || !is_cea(kind_of(&message.header)) {
        return Ok(None);
    }
    let Some(node) = awaited(link.watch.waits()) else {
        return Ok(None);
    };
    if is_named_in::<P>(alloc, site, &message.body, node)? {
        Ok(None)
    } else {
        Ok(Some(node))
    }
}
