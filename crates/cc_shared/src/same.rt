//! Whether two replies are the same.

ghost use Rattle.std.specs.Prelude.{◌≡◌};
ghost use Rattle.std.specs.Bool.{Decides};

use cc_view::{CcReply, ServiceReply};

/// Whether both say the same, in every part.
pub fn same_reply(one: &CcReply, other: &CcReply) -> bool
    ensures { Decides result (one.now ≡ other.now) }
{
    same_result(one, other)
        && same_service_replies(one.services.as_slice(), other.services.as_slice())
}

fn same_result(one: &CcReply, other: &CcReply) -> bool
    ensures { Decides result ((one.now.code ≡ other.now.code) × (one.now.cost ≡ other.now.cost) × (one.now.check ≡ other.now.check)) }
{
    one.code == other.code && one.cost == other.cost && one.check == other.check
}

fn same_service_replies(one: &[ServiceReply], other: &[ServiceReply]) -> bool
    ensures { Decides result (one.now ≡ other.now) }
{
    one == other
}
