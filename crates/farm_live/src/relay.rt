//! A process that serves as a relay.

ghost use Rattle.std.specs.Prelude.{◌≡◌, IfOk};
ghost use Rattle.farm_base.specs.CheckedSite.{IsChecked};
ghost use Rattle.farm_live.specs.Serving.{IsRelayOf};
ghost use Rattle.farm_endpoints.specs.Endpoints.{Serves};
ghost use Rattle.relay_core.specs.AnswerMatching.{compares_end};

use crate::fault::Fault;
use crate::serving::{alone, serve_alone, start_by_chance};
use crate::setting::Setting;
use dia_base::{NodeKind, NodeNo};
use farm_access::Strictness;
use farm_base::Site;
use farm_endpoints::{Endpoint, EndpointFault, endpoint_of_relay};
use farm_world::relay_starting_at;
use relay_core::{Matching, MatchingRelay, PartingRelay, Relay};
use std::net::Net;
use std::random::RandomSource;
use std::rt::Clock;
use std::sync::Wait;
use std::thread::Threads;

/// The relay of this number. Its identifiers rise from a start by chance (RFC 6733, section 3), so that those of a process
/// that is started again are others.
fn relay_at(rt: &HostRuntime, site: &Site, node: NodeNo) -> Result<Relay, Fault>
    requires { IsChecked site.now }
    ensures { IfOk result (λ relay. IsRelayOf site.now node relay) }
{
    match site.nodes.as_slice().get(node.0 as usize) {
        Some(found) if found.kind == NodeKind::Relay => {
            let start = start_by_chance(rt);
            Ok(relay_starting_at(rt.alloc(), site, node, &found.name, start)?)
        }
        Some(_) | None => Err(Fault::Endpoint(EndpointFault::NoAddress)),
    }
}

/// By which identifiers a relay matches answers, by what its site asks for.
fn matching_for(strictness: Strictness) -> Matching
    ensures { compares_end result ≡ strictness.end_to_end }
{
    if strictness.end_to_end {
        Matching::EndToEnd
    } else {
        Matching::HopByHop
    }
}

/// The same relay, as its site asks for. Its peers leave only where the site asks for goodbyes: else none of its connections tells.
fn parting_relay_at(
    rt: &HostRuntime,
    site: &Site,
    strictness: Strictness,
    node: NodeNo,
) -> Result<PartingRelay, Fault>
    requires { IsChecked site.now }
    ensures relay { IfOk result (λ made. IsRelayOf site.now node made.matched.relay) }
    ensures matching { IfOk result (λ made. compares_end made.matched.matching ≡ strictness.end_to_end) }
{
    let relay = relay_at(rt, site, node)?;
    let matched = MatchingRelay::new(relay, matching_for(strictness));
    Ok(PartingRelay::new(rt.alloc(), matched))
}

/// Serves as the relay of this name until so many answers were sent, 0 for ever, or until it is asked to end.
pub fn serve_relay<O: Threads + Wait + Net + Clock + RandomSource + Copy + Send + 'static>(
    setting: &Setting<'_, O>,
    name: &str,
    answers: u64,
) -> Result<(), Fault>
    requires { IsChecked setting.now.site.now }
{
    let (alloc, site) = (setting.rt.alloc(), setting.site);
    match endpoint_of_relay(alloc, site, name.as_bytes()) {
        Ok(endpoint) => serve_at(setting, endpoint, answers),
        Err(fault) => Err(Fault::Endpoint(fault)),
    }
}

/// Serves as the relay at this endpoint.
fn serve_at<O: Threads + Wait + Net + Clock + RandomSource + Copy + Send + 'static>(
    setting: &Setting<'_, O>,
    endpoint: Endpoint,
    answers: u64,
) -> Result<(), Fault>
    requires checked { IsChecked setting.now.site.now }
    requires endpoint { Serves setting.now.site.now endpoint }
{
    let strictness = setting.access.strictness();
    let relay = parting_relay_at(setting.rt, setting.site, strictness, endpoint.node)?;
    serve_as(setting, relay, endpoint, answers)
}

/// Serves as this relay, at its endpoint.
fn serve_as<O: Threads + Wait + Net + Clock + RandomSource + Copy + Send + 'static>(
    setting: &Setting<'_, O>,
    relay: PartingRelay,
    endpoint: Endpoint,
    answers: u64,
) -> Result<(), Fault>
    requires endpoint { Serves setting.now.site.now endpoint }
    requires relay { IsRelayOf setting.now.site.now endpoint.node relay.matched.relay }
    requires matching { compares_end relay.matched.matching ≡ setting.now.access.now.strict.end_to_end }
{
    let node = endpoint.node;
    let endpoints = alone(setting.rt.alloc(), endpoint)?;
    serve_alone(setting, node, relay, endpoints, answers)
}
