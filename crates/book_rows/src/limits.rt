//! The limits of a request's services, as the view of a request tests them.

ghost use Rattle.std.specs.Prelude.{◌≡◌};
ghost use Rattle.std.specs.List.{list_all, list_any};
ghost use Rattle.cc_view.specs.RequestView.Content.{are_within_limits, has_small_sums, have_names_of_their_own, same_name};

use cc_view::Service;
use dia_base::SERVICE_LIMIT;

/// What no sum of used units reaches.
const SUM_LIMIT: u128 = 1 << 78;

/// Whether these are at most 32 services with names of their own and sums below 2^78.
pub fn are_within_limits(services: &[Service]) -> bool
    ensures { result ≡ are_within_limits services.now }
{
    services.len() <= SERVICE_LIMIT
        && have_names_of_their_own(services)
        && have_small_sums(services)
}

fn have_small_sums(services: &[Service]) -> bool
    ensures { result ≡ list_all has_small_sums services.now }
{
    services.iter().all(|service| has_small_sums(service))
}

fn has_small_sums(service: &Service) -> bool
    ensures { result ≡ has_small_sums service.now }
{
    service.used.iter().all(|sum| *sum < SUM_LIMIT)
}

fn have_names_of_their_own(services: &[Service]) -> bool
    ensures { result ≡ have_names_of_their_own services.now }
{
    let mut rest = services;
    while let [service, others @ ..] = rest {
        if is_named(others, service) {
            return false;
        }
        rest = others;
    }
    true
}

/// Whether one of these has the name of the service.
fn is_named(services: &[Service], service: &Service) -> bool
    ensures { result ≡ list_any (same_name service.now) services.now }
{
    services.iter().any(|other| same_name(service, other))
}

fn same_name(a: &Service, b: &Service) -> bool
    ensures { result ≡ same_name a.now b.now }
{
    a.group == b.group && a.ident == b.ident
}
