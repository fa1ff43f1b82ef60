//! Laws of who may come up. Each is the contract of a function without a body.

ghost use Rattle.std.specs.Prelude.{◌≡◌, ◌<◌, ◌==◌, Bool, List, Some, false, length, not, slice_get, true};
ghost use Rattle.std.specs.List.{list_any};
ghost use Rattle.std.specs.declared.net.ip_addr.IpAddr.{IpAddr};
ghost use Rattle.dia_base.specs.declared.number.NodeNo.{NodeNo};
ghost use Rattle.farm_access.specs.declared.coming.AddressRule.{AddressRule};
ghost use Rattle.farm_access.specs.declared.coming.Coming.{Coming};
ghost use Rattle.farm_access.specs.Rules.{Policy, barred_from, has_addresses, is_among, may_come_up, permits};
ghost use Rattle.farm_access.specs.Strictness.{lenient};

use crate::coming::Coming;

/// Where a site holds to names, a node that it does not have as the side that connects comes up by connecting only from an
/// address of its own key `from`, and a node that was connected to only by an answer that names it.
pub fn names_are_held_to()
    ensures connects { (policy : Policy) (node : NodeNo) (address : IpAddr) (rule : AddressRule)
        → policy.strict.names ≡ true → slice_get policy.rules node.0 ≡ Some rule
        → may_come_up policy node (Coming.Connects address false) ≡ true
        → (has_addresses rule ≡ true) × (permits rule address ≡ true) }
    ensures answers { (policy : Policy) (node : NodeNo)
        → policy.strict.names ≡ true → may_come_up policy node (Coming.Answers false) ≡ false }
{}

/// Where a site does not hold to names, addresses alone decide who comes up by connecting, and whoever was connected to does.
pub fn addresses_alone_decide_without_names()
    ensures connects { (policy : Policy) (node : NodeNo) (address : IpAddr) (is_caller : Bool) (rule : AddressRule)
        → policy.strict.names ≡ false → slice_get policy.rules node.0 ≡ Some rule
        → may_come_up policy node (Coming.Connects address is_caller) ≡ permits rule address }
    ensures answers { (policy : Policy) (node : NodeNo) (is_named : Bool)
        → policy.strict.names ≡ false → may_come_up policy node (Coming.Answers is_named) ≡ true }
{}

/// Nobody comes up since a site holds to names who would not have come up else.
pub fn names_only_bar()
    ensures { (policy : Policy) (node : NodeNo) (coming : Coming) → may_come_up policy node coming ≡ true
        → may_come_up (record policy { strict = lenient }) node coming ≡ true }
{}

/// The nodes that are kept from a connection are those that may not come up on it, of those that the site has.
pub fn barred_are_those_who_may_not()
    ensures { (policy : Policy) (callers : List NodeNo) (address : IpAddr) (node : NodeNo) → node.0 < length policy.rules
        → list_any (λ other. other.0 == node.0) (barred_from policy.strict callers 0 policy.rules address)
        ≡ not (may_come_up policy node (Coming.Connects address (is_among callers node.0))) }
{}
