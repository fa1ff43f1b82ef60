//! A law of who connects to whom: the contract of a function without a body.

ghost use Rattle.std.specs.Prelude.{◌≡◌, ◌==◌};
ghost use Rattle.std.specs.List.{list_any};
ghost use Rattle.dia_base.specs.declared.number.NodeNo.{NodeNo};
ghost use Rattle.farm_base.specs.declared.site.Site.{Site};
ghost use Rattle.farm_endpoints.specs.Endpoints.{callers_of, connects};

/// Of two nodes the one is among those that connect to the other exactly where the site has it connect there.
pub fn callers_call()
    ensures { (site : Site) (from to : NodeNo) → list_any (λ caller. caller.0 == from.0) (callers_of site to) ≡ connects site from to.0 }
{}
