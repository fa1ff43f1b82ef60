//! How the services of a request and of its reply stand in a line.

ghost use Rattle.std.specs.Prelude.{◌≡◌, ◌++◌, Option, List, ℕ, OnOk};
ghost use Rattle.std.specs.List.{flat_map};
ghost use Rattle.cc_view.specs.ResultNumber.{number_of};
ghost use Rattle.book_lines.specs.Services.{asked_text, count_text, granted_text, name_text, service_text};
ghost use Rattle.book_lines.specs.Words.{optional_text};

use crate::words::{push_optional, push_optional_u32};
use cc_view::{ResultCode, Service, ServiceReply};
use std::alloc::{AllocError, Global};

/// Adds Rating-Group and Service-Identifier.
pub fn push_name(
    alloc: Global,
    out: &mut Vec<u8>,
    group: Option<u32>,
    ident: Option<u32>,
) -> Result<(), AllocError>
    ensures { OnOk result (out.new.items ≡ out.old.items ++ name_text group ident) }
{
    push_optional_u32(alloc, out, group)?;
    push_optional_u32(alloc, out, ident)
}

fn push_counts(alloc: Global, out: &mut Vec<u8>, counts: &[Option<u64>]) -> Result<(), AllocError>
    ensures { OnOk result (out.new.items ≡ out.old.items ++ flat_map optional_text counts.now) }
{
    for count in counts {
        push_optional(alloc, out, *count)?;
    }
    Ok(())
}

/// Adds the counts that are asked for: seconds, octets and units.
fn push_asked(
    alloc: Global,
    out: &mut Vec<u8>,
    asked: &Option<[Option<u64>; 3]>,
) -> Result<(), AllocError>
    ensures { OnOk result (out.new.items ≡ out.old.items ++ asked_text asked.now) }
{
    match asked {
        Some(counts) => push_counts(alloc, out, counts),
        None => out.extend_from_slice(b" - - -"),
    }
}

/// Adds a number behind a space.
pub fn push_sum(alloc: Global, out: &mut Vec<u8>, sum: u128) -> Result<(), AllocError>
    ensures { OnOk result (out.new.items ≡ out.old.items ++ count_text sum) }
{
    let text = format!(in alloc; " {sum}")?;
    out.extend_from_slice(text.as_bytes())
}

/// Adds each of these numbers, behind a space.
pub fn push_sums(alloc: Global, out: &mut Vec<u8>, sums: &[u128]) -> Result<(), AllocError>
    ensures { OnOk result (out.new.items ≡ out.old.items ++ flat_map count_text sums.now) }
{
    for sum in sums {
        push_sum(alloc, out, *sum)?;
    }
    Ok(())
}

fn push_service(alloc: Global, out: &mut Vec<u8>, service: &Service) -> Result<(), AllocError>
    ensures { OnOk result (out.new.items ≡ out.old.items ++ service_text service.now) }
{
    out.extend_from_slice(b" asked")?;
    push_name(alloc, out, service.group, service.ident)?;
    push_asked(alloc, out, &service.asked)?;
    out.extend_from_slice(b" used")?;
    push_sums(alloc, out, &service.used)
}

/// Adds what each service asks for, and what of it was used.
pub fn push_services(
    alloc: Global,
    out: &mut Vec<u8>,
    services: &[Service],
) -> Result<(), AllocError>
    ensures { OnOk result (out.new.items ≡ out.old.items ++ flat_map service_text services.now) }
{
    for service in services {
        push_service(alloc, out, service)?;
    }
    Ok(())
}

/// Adds the number of a Result-Code behind a space.
pub fn push_code(alloc: Global, out: &mut Vec<u8>, code: ResultCode) -> Result<(), AllocError>
    ensures { OnOk result (out.new.items ≡ out.old.items ++ count_text (number_of code)) }
{
    let number = code.number();
    let text = format!(in alloc; " {number}")?;
    out.extend_from_slice(text.as_bytes())
}

fn push_reply(alloc: Global, out: &mut Vec<u8>, reply: &ServiceReply) -> Result<(), AllocError>
    ensures { OnOk result (out.new.items ≡ out.old.items ++ granted_text reply.now) }
{
    out.extend_from_slice(b" granted")?;
    push_name(alloc, out, reply.name.group, reply.name.ident)?;
    push_code(alloc, out, reply.code)?;
    push_optional(alloc, out, reply.granted)
}

/// Adds what each service is answered.
pub fn push_replies(
    alloc: Global,
    out: &mut Vec<u8>,
    replies: &[ServiceReply],
) -> Result<(), AllocError>
    ensures { OnOk result (out.new.items ≡ out.old.items ++ flat_map granted_text replies.now) }
{
    for reply in replies {
        push_reply(alloc, out, reply)?;
    }
    Ok(())
}
