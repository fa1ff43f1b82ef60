//! The line of an entry.

ghost use Rattle.std.specs.Prelude.{◌≡◌, ◌++◌, IfOk, OnOk, string_bytes};
ghost use Rattle.std.specs.List.{concat};
ghost use Rattle.book_lines.specs.Lines.{account_text, answered_text, charge_line, charged_text, cost_text, debit_text, head, known_text, price_text, request_text, result_text, sweep_line};

use crate::services::{push_code, push_replies, push_services};
use crate::words::{action_word, kind_word, push_optional_u32, push_quoted};
use cc_book::{Account, Outcome};
use cc_view::{CcReply, CcRequest, Cost};
use dia_base::Moment;
use std::alloc::{AllocError, Global};

/// Adds `entry PLACE moment MOMENT`.
#[tactic(auto, unfolding(crate::specs::Lines::head))]
pub fn push_head(
    alloc: Global,
    out: &mut Vec<u8>,
    place: u64,
    moment: Moment,
) -> Result<(), AllocError>
    ensures { OnOk result (out.new.items ≡ out.old.items ++ head place moment) }
{
    let number = moment.0;
    let text = format!(in alloc; "entry {place} moment {number}")?;
    out.extend_from_slice(text.as_bytes())
}

/// Adds the line of a look at the clock that ended sessions.
pub fn push_sweep_line(
    alloc: Global,
    out: &mut Vec<u8>,
    place: u64,
    moment: Moment,
) -> Result<(), AllocError>
    ensures { OnOk result (out.new.items ≡ out.old.items ++ sweep_line place moment) }
{
    push_head(alloc, out, place, moment)?;
    out.extend_from_slice(b" sweep\n")
}

/// Adds what was asked, but for its services.
#[tactic(auto, unfolding(crate::specs::Lines::request_text))]
fn push_request(alloc: Global, out: &mut Vec<u8>, request: &CcRequest) -> Result<(), AllocError>
    ensures { OnOk result (out.new.items ≡ out.old.items ++ request_text request.now) }
{
    let number = request.number;
    let number = format!(in alloc; " number {number} type ")?;
    out.extend_from_slice(b" session ")?;
    push_quoted(out, request.session.as_slice())?;
    out.extend_from_slice(number.as_bytes())?;
    out.extend_from_slice(kind_word(request.kind).as_bytes())?;
    out.extend_from_slice(b" action ")?;
    out.extend_from_slice(action_word(request.action).as_bytes())
}

/// Adds an account: type and text of its Subscription-Id.
#[tactic(auto, unfolding(crate::specs::Lines::known_text))]
pub fn push_known(alloc: Global, out: &mut Vec<u8>, account: &Account) -> Result<(), AllocError>
    ensures { OnOk result (out.new.items ≡ out.old.items ++ known_text account.now) }
{
    let kind = account.id_kind;
    let text = format!(in alloc; " account {kind} ")?;
    out.extend_from_slice(text.as_bytes())?;
    push_quoted(out, account.id.as_slice())
}

/// Adds the account that is charged, if there is one.
fn push_account(
    alloc: Global,
    out: &mut Vec<u8>,
    accounts: &[Account],
    place: Option<usize>,
) -> Result<(), AllocError>
    ensures { OnOk result (out.new.items ≡ out.old.items ++ account_text accounts.now place) }
{
    let Some(place) = place else {
        return out.extend_from_slice(b" account - -");
    };
    let Some(account) = accounts.get(place) else {
        return out.extend_from_slice(b" account - -");
    };
    push_known(alloc, out, account)
}

/// Adds a price, if there is one.
fn push_cost(alloc: Global, out: &mut Vec<u8>, cost: Option<Cost>) -> Result<(), AllocError>
    ensures { OnOk result (out.new.items ≡ out.old.items ++ cost_text cost) }
{
    let Some(cost) = cost else {
        return out.extend_from_slice(b" cost -");
    };
    let text = price_text(alloc, cost.digits, cost.exponent)?;
    out.extend_from_slice(text.as_bytes())
}

/// A price as a number.
#[tactic(auto, unfolding(crate::specs::Lines::price_text))]
fn price_text(alloc: Global, digits: i64, exponent: i32) -> Result<String, AllocError>
    ensures { IfOk result (λ text. string_bytes text ≡ price_text digits exponent) }
{
    format!(in alloc; " cost {digits}e{exponent}")
}

/// Adds what was answered, but for its services.
#[tactic(auto, unfolding(crate::specs::Lines::result_text))]
fn push_result(alloc: Global, out: &mut Vec<u8>, reply: &CcReply) -> Result<(), AllocError>
    ensures { OnOk result (out.new.items ≡ out.old.items ++ result_text reply.now) }
{
    out.extend_from_slice(b" result")?;
    push_code(alloc, out, reply.code)?;
    push_cost(alloc, out, reply.cost)?;
    out.extend_from_slice(b" check")?;
    push_optional_u32(alloc, out, reply.check)
}

/// `debit DEBIT`.
#[tactic(auto, unfolding(crate::specs::Lines::debit_text))]
fn debit_text(alloc: Global, debit: i128) -> Result<String, AllocError>
    ensures { IfOk result (λ text. string_bytes text ≡ debit_text debit) }
{
    format!(in alloc; " debit {debit}")
}

/// Adds which request it is, what account it charges, and by how much.
#[tactic(auto, unfolding(crate::specs::Lines::charged_text))]
fn push_charged(
    alloc: Global,
    out: &mut Vec<u8>,
    accounts: &[Account],
    place: u64,
    moment: Moment,
    request: &CcRequest,
    outcome: &Outcome,
) -> Result<(), AllocError>
    ensures { OnOk result (out.new.items ≡ out.old.items
        ++ charged_text accounts.now place moment request.now outcome.now.account outcome.now.debit) }
{
    let debit = debit_text(alloc, outcome.debit)?;
    push_head(alloc, out, place, moment)?;
    out.extend_from_slice(b" charge")?;
    push_request(alloc, out, request)?;
    push_account(alloc, out, accounts, outcome.account)?;
    out.extend_from_slice(debit.as_bytes())
}

/// Adds what it is answered, what its services ask for and used, and what they are answered.
#[tactic(auto, unfolding(crate::specs::Lines::answered_text))]
fn push_answered(
    alloc: Global,
    out: &mut Vec<u8>,
    request: &CcRequest,
    reply: &CcReply,
) -> Result<(), AllocError>
    ensures { OnOk result (out.new.items ≡ out.old.items ++ answered_text request.now reply.now) }
{
    push_result(alloc, out, reply)?;
    push_services(alloc, out, request.services.as_slice())?;
    push_replies(alloc, out, reply.services.as_slice())?;
    out.extend_from_slice(b"\n")
}

/// Adds the line of a request that was taken, and does this.
#[tactic(auto, unfolding(crate::specs::Lines::charge_line))]
pub fn push_charge_line(
    alloc: Global,
    out: &mut Vec<u8>,
    accounts: &[Account],
    place: u64,
    moment: Moment,
    request: &CcRequest,
    outcome: &Outcome,
) -> Result<(), AllocError>
    ensures { OnOk result (out.new.items ≡ out.old.items
        ++ charge_line accounts.now place moment request.now outcome.now.account outcome.now.debit outcome.now.reply) }
{
    push_charged(alloc, out, accounts, place, moment, request, outcome)?;
    push_answered(alloc, out, request, &outcome.reply)
}
