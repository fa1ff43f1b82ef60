//! What a request asks, and whether another asks the same (RFC 8506, section 8.2).

ghost use Rattle.std.specs.Prelude.{◌≡◌};
ghost use Rattle.std.specs.Bool.{Decides};

use cc_view::{CcRequest, Service, Subscription};

/// Whether both requests ask the same, in every part that is read. It goes over each of them once at most, and takes no
/// memory.
pub fn same_request(one: &CcRequest, other: &CcRequest) -> bool
    ensures { Decides result (one.now ≡ other.now) }
{
    same_command(one, other)
        && same_subscriptions(one.subscriptions.as_slice(), other.subscriptions.as_slice())
        && same_services(one.services.as_slice(), other.services.as_slice())
}

fn same_command(one: &CcRequest, other: &CcRequest) -> bool
    ensures { Decides result ((one.now.session ≡ other.now.session) × (one.now.number ≡ other.now.number) × (one.now.kind ≡ other.now.kind) × (one.now.action ≡ other.now.action)) }
{
    one.session == other.session
        && one.number == other.number
        && one.kind == other.kind
        && one.action == other.action
}

fn same_subscriptions(one: &[Subscription], other: &[Subscription]) -> bool
    ensures { Decides result (one.now ≡ other.now) }
{
    one == other
}

fn same_services(one: &[Service], other: &[Service]) -> bool
    ensures { Decides result (one.now ≡ other.now) }
{
    one == other
}
