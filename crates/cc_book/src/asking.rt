//! What the services of a request ask and have used, by the tariffs.

ghost use Rattle.std.specs.Prelude.{◌≡◌, ◌<◌, ◌^◌};
ghost use Rattle.cc_view.specs.Request.ServiceLimits.{HasSmallSums};
ghost use Rattle.cc_book.specs.ServiceRating.{asked_of, unit_code, used_of};

use cc_rating::{Tariff, UnitKind};
use cc_view::Service;
use dia_base::Code;

/// CC-Time (RFC 8506, section 8.21).
const CC_TIME: Code = Code(420);

/// CC-Total-Octets (RFC 8506, section 8.23).
const CC_TOTAL_OCTETS: Code = Code(421);

/// CC-Service-Specific-Units (RFC 8506, section 8.26).
const CC_SERVICE_SPECIFIC_UNITS: Code = Code(417);

/// The code of the AVP in which units are told.
pub fn unit_code(kind: UnitKind) -> Code
    ensures { result ≡ unit_code kind }
{
    match kind {
        UnitKind::Time => CC_TIME,
        UnitKind::Octets => CC_TOTAL_OCTETS,
        UnitKind::Units => CC_SERVICE_SPECIFIC_UNITS,
    }
}

/// The units that a service asks for. None without a Requested-Service-Unit.
pub fn asked_of(tariff: &Tariff, service: &Service) -> Option<u64>
    ensures { result ≡ asked_of tariff.now service.now }
{
    let [time, octets, units] = service.asked?;
    let count = match tariff.kind {
        UnitKind::Time => time,
        UnitKind::Octets => octets,
        UnitKind::Units => units,
    };
    Some(count.unwrap_or(tariff.quantum))
}

/// The units that a service has used.
pub fn used_of(tariff: &Tariff, service: &Service) -> u128
    requires { HasSmallSums service.now }
    ensures value { result ≡ used_of tariff.now service.now }
    ensures most { result < 2 ^ 78 }
{
    let [time, octets, units] = service.used;
    match tariff.kind {
        UnitKind::Time => time,
        UnitKind::Octets => octets,
        UnitKind::Units => units,
    }
}
