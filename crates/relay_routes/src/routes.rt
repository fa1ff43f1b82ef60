//! Which peers a request may be sent to.

ghost use Rattle.std.specs.Prelude.{◌≡◌, MatchResult, find};
ghost use Rattle.std.specs.List.{list_any};
ghost use Rattle.std.specs.Option.{option_copied};
ghost use Rattle.relay_routes.specs.Routing.{has_realm, has_realm_and_app, candidates_of};

use dia_base::{Identity, Listing, NodeNo};
use std::marker::Model;
use thiserror::Error;

/// Where requests of an application go to reach a realm: to the first of the peers that is up.
#[derive(Drop)]
pub struct Route {
    pub realm: Identity,
    /// The Application-ID.
    pub app: u32,
    pub peers: Listing<NodeNo>,
}

/// Why there is no route.
#[derive(Clone, Copy, Debug, PartialEq, Eq, Error)]
pub enum RouteFault {
    #[error("no route has the realm")]
    RealmUnknown,
    #[error("the realm has no route for the application")]
    NoApplication,
}

/// The routes of a relay, which contracts see as a list.
#[derive(Drop)]
pub struct Routes {
    routes: Vec<Route>,
}

impl Model for Routes {
    ghost use Rattle.std.specs.Prelude.{List};
    ghost use Rattle.relay_routes.specs.declared.routes.Route.{Route};

    ghost Value = { List Route };

    ghost view = { λ r. r.routes.items };
}

fn is_for_realm(route: &Route, realm: &[u8]) -> bool
    ensures { result ≡ has_realm realm.now route.now }
{
    route.realm.as_slice().eq_ignore_ascii_case(realm)
}

fn is_for(route: &Route, realm: &[u8], app: u32) -> bool
    ensures { result ≡ has_realm_and_app realm.now app route.now }
{
    is_for_realm(route, realm) && route.app == app
}

impl Routes {
    /// The routes of the vector, which takes no memory. Of several routes for one realm and
    /// application the first counts.
    pub fn new(routes: Vec<Route>) -> Self
        ensures { result ≡ routes.items }
    {
        Routes { routes }
    }

    /// The peers of the route for a realm, compared whole and without ASCII case, and an
    /// application, in the route's order (RFC 6733, section 6.1.6). It takes no memory.
    pub fn candidates(&self, realm: &[u8], app: u32) -> Result<&[NodeNo], RouteFault>
        ensures { MatchResult result (λ peers. candidates_of self.now realm.now app ≡ Ok peers.now) (λ fault. candidates_of self.now realm.now app ≡ Err fault) }
    {
        match self.first_for(realm, app) {
            Some(route) => Ok(route.peers.as_slice()),
            None if self.has_realm(realm) => Err(RouteFault::NoApplication),
            None => Err(RouteFault::RealmUnknown),
        }
    }

    fn first_for(&self, realm: &[u8], app: u32) -> Option<&Route>
        ensures { option_copied result ≡ find (has_realm_and_app realm.now app) self.now }
    {
        self.routes.iter().find(|route| is_for(route, realm, app))
    }

    fn has_realm(&self, realm: &[u8]) -> bool
        ensures { result ≡ list_any (has_realm realm.now) self.now }
    {
        self.routes.iter().any(|route| is_for_realm(route, realm))
    }
}
