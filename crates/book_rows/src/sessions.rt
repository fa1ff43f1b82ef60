//! Open sessions: how they are written.

ghost use Rattle.std.specs.Prelude.{OnOk};
ghost use Rattle.book_rows.specs.Form.{Adds, AddsAll, listed};
ghost use Rattle.book_rows.specs.SessionParts.{hold, name, price, session};

use crate::numbers::{push_octets, push_optional_u32, push_u64, push_u128};
use crate::tariffs::push_tariff;
use cc_book::{Hold, OpenSession, Price};
use cc_view::ServiceName;
use std::alloc::AllocError;

fn push_name(out: &mut Vec<u8>, value: ServiceName) -> Result<(), AllocError>
    ensures { OnOk result (Adds name value out.old.items out.new.items) }
{
    push_optional_u32(out, value.group)?;
    push_optional_u32(out, value.ident)?;
    Ok(())
}

fn push_hold(out: &mut Vec<u8>, value: &Hold) -> Result<(), AllocError>
    ensures { OnOk result (Adds hold value.now out.old.items out.new.items) }
{
    push_name(out, value.service)?;
    push_u128(out, value.cost)?;
    Ok(())
}

fn push_all_holds(out: &mut Vec<u8>, values: &[Hold]) -> Result<(), AllocError>
    ensures { OnOk result (AddsAll hold values.now out.old.items out.new.items) }
{
    for value in values {
        push_hold(out, value)?;
    }
    Ok(())
}

fn push_holds(out: &mut Vec<u8>, values: &[Hold]) -> Result<(), AllocError>
    ensures { OnOk result (Adds (listed hold) values.now out.old.items out.new.items) }
{
    push_u64(out, values.len() as u64)?;
    push_all_holds(out, values)?;
    Ok(())
}

fn push_price(out: &mut Vec<u8>, value: &Price) -> Result<(), AllocError>
    ensures { OnOk result (Adds price value.now out.old.items out.new.items) }
{
    push_name(out, value.service)?;
    push_tariff(out, &value.tariff)?;
    Ok(())
}

fn push_all_prices(out: &mut Vec<u8>, values: &[Price]) -> Result<(), AllocError>
    ensures { OnOk result (AddsAll price values.now out.old.items out.new.items) }
{
    for value in values {
        push_price(out, value)?;
    }
    Ok(())
}

fn push_prices(out: &mut Vec<u8>, values: &[Price]) -> Result<(), AllocError>
    ensures { OnOk result (Adds (listed price) values.now out.old.items out.new.items) }
{
    push_u64(out, values.len() as u64)?;
    push_all_prices(out, values)?;
    Ok(())
}

/// Adds an open session: its Session-Id, its account (8), the moment of its last request (8), what it holds, each by its service with
/// its cost (16), and the prices of its services.
pub fn push_session(out: &mut Vec<u8>, value: &OpenSession) -> Result<(), AllocError>
    ensures { OnOk result (Adds session value.now out.old.items out.new.items) }
{
    push_octets(out, &value.id)?;
    push_u64(out, value.account as u64)?;
    push_u64(out, value.last.0)?;
    push_holds(out, value.holds.as_slice())?;
    push_prices(out, value.prices.as_slice())?;
    Ok(())
}
