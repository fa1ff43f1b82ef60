//! The units of an answer: grants, costs and balances (RFC 8506, sections 3.2 and 8).

ghost use Rattle.std.specs.Prelude.{◌≡◌, [], ◌∷◌, ◌++◌, OnOk};
ghost use Rattle.cc_view.specs.Answer.{bare_final_part, bare_granted_part, bare_in, bare_validity_part, cost_avp, cost_part, final_part, granted_part, service_avp, services_part, unit_avp, units_part};
ghost use Rattle.cc_view.specs.Answer.Writing.{group_avp, i32_avp, i64_avp, spelling_of};
ghost use Rattle.dia_base.specs.Codes.{exponent, unit_value, value_digits};

use crate::answer::draft::Draft;
use crate::reply::{CcReply, Cost, ServiceReply};
use dia_base::Code;
use dia_base::codes::{
    CC_TIME, CHECK_BALANCE_RESULT, COST_INFORMATION, CURRENCY_CODE, EXPONENT, FINAL_UNIT_ACTION,
    FINAL_UNIT_INDICATION, GRANTED_SERVICE_UNIT, MULTIPLE_SERVICES, RATING_GROUP, RESULT_CODE,
    SERVICE_IDENTIFIER, UNIT_VALUE, VALIDITY_TIME, VALUE_DIGITS,
};
use std::alloc::AllocError;

/// Final-Unit-Action: the service ends with the units granted.
const TERMINATE: u32 = 0;

/// Adds what a reply says of units, costs and the balance.
pub(crate) fn push_units(draft: &mut Draft, reply: &CcReply) -> Result<(), AllocError>
    ensures { OnOk result (draft.new ≡ draft.old ++ spelling_of (units_part reply.now)) }
{
    let services = reply.services.as_slice();
    let bare = bare_in(services);
    push_bare_granted(draft, bare)?;
    push_services(draft, services)?;
    push_optional_cost(draft, reply.cost)?;
    push_bare_final(draft, bare)?;
    draft.push_optional_u32(CHECK_BALANCE_RESULT, reply.check)?;
    push_bare_validity(draft, bare)
}

/// The service that stands for the units of the command itself.
fn bare_in(services: &[ServiceReply]) -> Option<ServiceReply>
    ensures { result ≡ bare_in services.now }
{
    services.iter().copied().find(|service| service.bare)
}

fn push_bare_granted(draft: &mut Draft, bare: Option<ServiceReply>) -> Result<(), AllocError>
    ensures { OnOk result (draft.new ≡ draft.old ++ spelling_of (bare_granted_part bare)) }
{
    match bare {
        Some(service) => push_granted(draft, &service),
        None => Ok(()),
    }
}

fn push_bare_final(draft: &mut Draft, bare: Option<ServiceReply>) -> Result<(), AllocError>
    ensures { OnOk result (draft.new ≡ draft.old ++ spelling_of (bare_final_part bare)) }
{
    match bare {
        Some(service) => push_final(draft, service.last),
        None => Ok(()),
    }
}

fn push_bare_validity(draft: &mut Draft, bare: Option<ServiceReply>) -> Result<(), AllocError>
    ensures { OnOk result (draft.new ≡ draft.old ++ spelling_of (bare_validity_part bare)) }
{
    match bare {
        Some(service) => draft.push_optional_u32(VALIDITY_TIME, service.validity),
        None => Ok(()),
    }
}

fn push_optional_cost(draft: &mut Draft, cost: Option<Cost>) -> Result<(), AllocError>
    ensures { OnOk result (draft.new ≡ draft.old ++ spelling_of (cost_part cost)) }
{
    match cost {
        Some(cost) => push_cost(draft, &cost),
        None => Ok(()),
    }
}

fn push_services(draft: &mut Draft, services: &[ServiceReply]) -> Result<(), AllocError>
    ensures { OnOk result (draft.new ≡ draft.old ++ spelling_of (services_part services.now)) }
{
    for service in services {
        if !service.bare {
            push_service(draft, service)?;
        }
    }
    Ok(())
}

/// Adds the Multiple-Services-Credit-Control of a service.
fn push_service(draft: &mut Draft, service: &ServiceReply) -> Result<(), AllocError>
    ensures { OnOk result (draft.new ≡ draft.old ++ spelling_of (service_avp service.now ∷ [])) }
{
    let start = draft.open_group(MULTIPLE_SERVICES)?;
    push_granted(draft, service)?;
    draft.push_optional_u32(SERVICE_IDENTIFIER, service.name.ident)?;
    draft.push_optional_u32(RATING_GROUP, service.name.group)?;
    draft.push_optional_u32(VALIDITY_TIME, service.validity)?;
    draft.push_u32(RESULT_CODE, service.code.number())?;
    push_final(draft, service.last)?;
    draft.close_group(start);
    Ok(())
}

/// Adds Granted-Service-Unit where units are granted by a tariff.
fn push_granted(draft: &mut Draft, service: &ServiceReply) -> Result<(), AllocError>
    ensures { OnOk result (draft.new ≡ draft.old ++ spelling_of (granted_part service.now.kind service.now.granted)) }
{
    let (Some(kind), Some(units)) = (service.kind, service.granted) else {
        return Ok(());
    };
    let start = draft.open_group(GRANTED_SERVICE_UNIT)?;
    push_unit(draft, kind, units)?;
    draft.close_group(start);
    Ok(())
}

/// Adds the AVP of the tariff's unit. CC-Time has 4 octets, all others have 8.
fn push_unit(draft: &mut Draft, kind: Code, units: u64) -> Result<(), AllocError>
    ensures { OnOk result (draft.new ≡ draft.old ++ spelling_of (unit_avp kind units ∷ [])) }
{
    if kind.0 == CC_TIME {
        draft.push_u32(CC_TIME, u32::try_from(units).unwrap_or(u32::MAX))
    } else {
        draft.push_u64(kind.0, units)
    }
}

/// Adds Final-Unit-Indication where the grant is the last one.
fn push_final(draft: &mut Draft, last: bool) -> Result<(), AllocError>
    ensures { OnOk result (draft.new ≡ draft.old ++ spelling_of (final_part last)) }
{
    if !last {
        return Ok(());
    }
    let start = draft.open_group(FINAL_UNIT_INDICATION)?;
    draft.push_u32(FINAL_UNIT_ACTION, TERMINATE)?;
    draft.close_group(start);
    Ok(())
}

/// Adds Cost-Information.
fn push_cost(draft: &mut Draft, cost: &Cost) -> Result<(), AllocError>
    ensures { OnOk result (draft.new ≡ draft.old ++ spelling_of (cost_avp cost.now ∷ [])) }
{
    let start = draft.open_group(COST_INFORMATION)?;
    push_value(draft, cost)?;
    draft.push_u32(CURRENCY_CODE, cost.currency)?;
    draft.close_group(start);
    Ok(())
}

/// Adds the Unit-Value of a cost.
fn push_value(draft: &mut Draft, cost: &Cost) -> Result<(), AllocError>
    ensures { OnOk result (draft.new ≡ draft.old ++ spelling_of (group_avp unit_value (i64_avp value_digits cost.now.digits ∷ i32_avp exponent cost.now.exponent ∷ []) ∷ [])) }
{
    let start = draft.open_group(UNIT_VALUE)?;
    draft.push_i64(VALUE_DIGITS, cost.digits)?;
    draft.push_i32(EXPONENT, cost.exponent)?;
    draft.close_group(start);
    Ok(())
}
