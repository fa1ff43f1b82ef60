//! The step that the words behind `terms` spell: a change of the terms.

ghost use Rattle.std.specs.Prelude.{◌≡◌, ◌≤◌, ◌++◌, ◌∷◌, [], codes, map, false, Ok, Some, None, IfSome, IfNone, IfOk, OnOk};
ghost use Rattle.std.specs.List.{filter_map, list_all};
ghost use Rattle.std.specs.Str.{bytes_eq};
ghost use Rattle.farm_base.specs.CheckedSite.{is_visible};
ghost use Rattle.farm_script.specs.TermsWords.{account_of, account_said, amount_of, behind_tariffs, change_of, closing_of, faultless, form_at_item, form_fault, is_sound_id, item_of, item_said, items_from, joining_of, key_of, last_form, named, next_form, number_up_to, reopening_of, some_tariffs_of, step_said, tariff_of, tariffs_from, tariffs_of, terms_of, units_of, with_id};
ghost use Rattle.farm_script.specs.Words.{Answers};

use crate::fault::LineFault;
use crate::word::number_of;
use cc_book::{Account, Accounts, TermsChange};
use cc_rating::{Tariff, TariffFault, Tariffs, UnitKind};
use cc_view::Subscription;
use dia_avp::Octets;
use dia_base::{Listing, Moment};
use farm_base::Step;
use std::alloc::{AllocError, Global};

const ACCOUNT: &[u8] = b"account";

const TARIFFS: &[u8] = b"tariffs";

const TARIFF: &[u8] = b"tariff";

/// What is said of an account that closes, in place of its opening.
const CLOSED: &[u8] = b"closed";

/// What is said of one that opens again.
const OPEN: &[u8] = b"open";

/// How many words an account has behind its own.
const ACCOUNT_WORDS: usize = 3;

/// How many words a tariff has behind its own.
const TARIFF_WORDS: usize = 7;

/// The word for a group or an identifier that a tariff does not have.
const NO_KEY: &[u8] = b"-";

const TIME: &[u8] = b"time";

const OCTETS: &[u8] = b"octets";

const UNITS: &[u8] = b"units";

/// The greatest Subscription-Id-Type (RFC 8506, section 8.47).
const ID_KIND_LIMIT: u64 = 4;

/// The longest Subscription-Id-Data of an account.
const ID_LIMIT: usize = 64;

/// The most that an opening balance is above or below 0.
const OPENING_LIMIT: u64 = 4_611_686_018_427_387_904;

/// The greatest Rating-Group and Service-Identifier.
const KEY_LIMIT: u64 = 4_294_967_295;

/// How far items are read: whether they stand behind `tariffs`, and how many words are left of the last one.
#[derive(Clone, Copy)]
struct Form {
    in_tariffs: bool,
    left: usize,
}

/// What is said of an account.
#[derive(Drop)]
enum AccountItem {
    Joins(Account),
    Closes(Subscription),
    Reopens(Subscription),
}

/// What is said of accounts, by what they do, in the order in which it is said.
#[derive(Drop)]
struct Parted {
    joining: Vec<Account>,
    closing: Vec<Subscription>,
    reopening: Vec<Subscription>,
}

impl Parted {
    fn of(alloc: Global, items: Vec<AccountItem>) -> Result<Self, AllocError>
        ensures joining { IfOk result (λ parted. parted.joining.items ≡ filter_map joining_of items.items) }
        ensures closing { IfOk result (λ parted. parted.closing.items ≡ filter_map closing_of items.items) }
        ensures reopening { IfOk result (λ parted. parted.reopening.items ≡ filter_map reopening_of items.items) }
    {
        let mut parted = Parted {
            joining: Vec::new(alloc),
            closing: Vec::new(alloc),
            reopening: Vec::new(alloc),
        };
        for item in items {
            parted.add(item)?;
        }
        Ok(parted)
    }

    fn add(&mut self, item: AccountItem) -> Result<(), AllocError>
        ensures joining { OnOk result (self.new.joining.items ≡ self.old.joining.items ++ filter_map joining_of (item ∷ [])) }
        ensures closing { OnOk result (self.new.closing.items ≡ self.old.closing.items ++ filter_map closing_of (item ∷ [])) }
        ensures reopening { OnOk result (self.new.reopening.items ≡ self.old.reopening.items ++ filter_map reopening_of (item ∷ [])) }
    {
        match item {
            AccountItem::Joins(account) => self.joining.push(account)?,
            AccountItem::Closes(subscription) => self.closing.push(subscription)?,
            AccountItem::Reopens(subscription) => self.reopening.push(subscription)?,
        }
        Ok(())
    }
}

/// The step that the words behind `terms` spell, or the line's first fault.
pub fn terms_of(alloc: Global, words: &[&[u8]]) -> Result<Step, LineFault>
    ensures { Answers (terms_of (map (λ word. word.now) words.now)) result }
{
    let Some((moment, items)) = words.split_first() else {
        return Err(LineFault::WrongCount);
    };
    match form_fault(items) {
        Some(fault) => Err(fault),
        None => step_said(alloc, moment, items),
    }
}

/// The account that the words of a line of its own spell, or the line's first fault.
pub fn account_of(alloc: Global, words: &[&[u8]]) -> Result<Account, LineFault>
    ensures { Answers (account_of (map (λ word. word.now) words.now)) result }
{
    let Some((word, said)) = words.split_first() else {
        return Err(LineFault::WrongCount);
    };
    if is_account(word) {
        account_said(alloc, said)
    } else {
        Err(LineFault::UnknownWord)
    }
}

/// The account that the words behind `account` spell.
fn account_said(alloc: Global, words: &[&[u8]]) -> Result<Account, LineFault>
    ensures { Answers (account_said (map (λ word. word.now) words.now)) result }
{
    match words {
        [kind, id, opening] => {
            let kind = number_up_to(ID_KIND_LIMIT, kind)?;
            let opening = amount_of(opening)?;
            with_id(alloc, kind as u32, id, opening)
        }
        _ => Err(LineFault::WrongCount),
    }
}

fn step_said(alloc: Global, moment: &[u8], items: &[&[u8]]) -> Result<Step, LineFault>
    ensures { Answers (step_said moment.now (map (λ word. word.now) items.now)) result }
{
    let moment = Moment(number_of(moment)?);
    let change = change_of(alloc, items)?;
    Ok(Step::ChangeTerms { moment, change })
}

/// What is wrong with the form of the items.
#[tactic(auto, using(crate::proofs::TermsReading::form_next))]
fn form_fault(items: &[&[u8]]) -> Option<LineFault>
    ensures { result ≡ form_fault (Ok (record { in_tariffs = false; left = 0 })) (map (λ word. word.now) items.now) }
{
    let mut form = Form {
        in_tariffs: false,
        left: 0,
    };
    for word in items {
        match next_form(form, word) {
            Ok(next) => form = next,
            Err(fault) => return Some(fault),
        }
    }
    last_form(form)
}

fn last_form(form: Form) -> Option<LineFault>
    ensures { result ≡ last_form form }
{
    if form.left > 0 {
        Some(LineFault::WrongCount)
    } else {
        None
    }
}

/// The form behind one word more.
fn next_form(form: Form, word: &[u8]) -> Result<Form, LineFault>
    ensures { result ≡ next_form form word.now }
{
    if form.left > 0 {
        Ok(Form {
            in_tariffs: form.in_tariffs,
            left: form.left - 1,
        })
    } else {
        form_at_item(form.in_tariffs, word)
    }
}

/// The form behind the first word of an item.
fn form_at_item(in_tariffs: bool, word: &[u8]) -> Result<Form, LineFault>
    ensures { result ≡ form_at_item in_tariffs word.now }
{
    if in_tariffs {
        if word == TARIFF {
            Ok(Form {
                in_tariffs: true,
                left: TARIFF_WORDS,
            })
        } else {
            Err(LineFault::UnknownWord)
        }
    } else if is_account(word) {
        Ok(Form {
            in_tariffs: false,
            left: ACCOUNT_WORDS,
        })
    } else if are_tariffs(word) {
        Ok(Form {
            in_tariffs: true,
            left: 0,
        })
    } else {
        Err(LineFault::UnknownWord)
    }
}

/// Whether a word begins an account.
fn is_account(word: &[u8]) -> bool
    ensures { result ≡ bytes_eq word.now (codes "account") }
{
    word == ACCOUNT
}

/// Whether a word is the one before the tariffs.
fn are_tariffs(word: &[u8]) -> bool
    ensures { result ≡ bytes_eq word.now (codes "tariffs") }
{
    word == TARIFFS
}

/// The change that items say, whose form is right.
fn change_of(alloc: Global, items: &[&[u8]]) -> Result<TermsChange, LineFault>
    ensures { Answers (change_of (map (λ word. word.now) items.now)) result }
{
    let accounts = account_items(alloc, items)?;
    let tariffs = some_tariffs_of(alloc, items)?;
    let parted = Parted::of(alloc, accounts.into_vec())?;
    Ok(TermsChange {
        joining: Accounts::from_vec(alloc, parted.joining)?,
        closing: Listing::from_vec(parted.closing),
        reopening: Listing::from_vec(parted.reopening),
        tariffs,
    })
}

/// What is said of accounts before `tariffs`.
fn account_items(alloc: Global, items: &[&[u8]]) -> Result<Listing<AccountItem>, LineFault>
    ensures { Answers (items_from [] (map (λ word. word.now) items.now)) result }
{
    let mut accounts = Vec::new(alloc);
    let mut rest = items;
    while let [word, kind, id, said, behind @ ..] = rest {
        if !is_account(word) {
            return Ok(Listing::from_vec(accounts));
        }
        let item = item_of(alloc, kind, id, said)?;
        accounts.push(item)?;
        rest = behind;
    }
    Ok(Listing::from_vec(accounts))
}

fn item_of(alloc: Global, kind: &[u8], id: &[u8], said: &[u8]) -> Result<AccountItem, LineFault>
    ensures { Answers (item_of kind.now id.now said.now) result }
{
    let kind = number_up_to(ID_KIND_LIMIT, kind)?;
    item_said(alloc, kind as u32, id, said)
}

/// What is said of an account: that it is closed, or open again, or with which opening it joins.
fn item_said(alloc: Global, kind: u32, id: &[u8], said: &[u8]) -> Result<AccountItem, LineFault>
    ensures { Answers (item_said kind id.now said.now) result }
{
    if said == CLOSED {
        Ok(AccountItem::Closes(named(alloc, kind, id)?))
    } else if said == OPEN {
        Ok(AccountItem::Reopens(named(alloc, kind, id)?))
    } else {
        let opening = amount_of(said)?;
        Ok(AccountItem::Joins(with_id(alloc, kind, id, opening)?))
    }
}

/// A Subscription-Id.
fn named(alloc: Global, kind: u32, id: &[u8]) -> Result<Subscription, LineFault>
    ensures { Answers (named kind id.now) result }
{
    if !is_sound_id(id) {
        return Err(LineFault::BadNumber);
    }
    Ok(Subscription {
        kind,
        text: Octets::copy_of(alloc, id)?,
    })
}

fn with_id(alloc: Global, id_kind: u32, id: &[u8], opening: i64) -> Result<Account, LineFault>
    ensures { Answers (with_id id_kind id.now opening) result }
{
    if !is_sound_id(id) {
        return Err(LineFault::BadNumber);
    }
    Ok(Account {
        id_kind,
        id: Octets::copy_of(alloc, id)?,
        opening,
    })
}

/// Whether octets are 1 to 64 of visible ASCII.
fn is_sound_id(id: &[u8]) -> bool
    ensures { result ≡ is_sound_id id.now }
{
    1 <= id.len() && id.len() <= ID_LIMIT && are_visible(id)
}

fn are_visible(octets: &[u8]) -> bool
    ensures { result ≡ list_all is_visible octets.now }
{
    octets.iter().all(|octet| 33 <= *octet && *octet <= 126)
}

/// A number up to a limit.
fn number_up_to(limit: u64, word: &[u8]) -> Result<u64, LineFault>
    ensures value { result ≡ number_up_to limit word.now }
    ensures most { IfOk result (λ number. number ≤ limit) }
{
    let number = number_of(word)?;
    if number <= limit {
        Ok(number)
    } else {
        Err(LineFault::BadNumber)
    }
}

/// An amount, which begins with a minus where it is below 0.
fn amount_of(word: &[u8]) -> Result<i64, LineFault>
    ensures { result ≡ amount_of word.now }
{
    match word {
        [] | [b'-'] => Err(LineFault::BadNumber),
        [b'-', digits @ ..] => Ok(-(number_up_to(OPENING_LIMIT, digits)? as i64)),
        _ => Ok(number_up_to(OPENING_LIMIT, word)? as i64),
    }
}

/// The words behind `tariffs`, if it is there.
#[tactic(auto, using(crate::proofs::TermsReading::here_are_tariffs, crate::proofs::TermsReading::no_tariffs, crate::proofs::TermsReading::tariffs_are_later))]
fn behind_tariffs<'a>(items: &'a [&'a [u8]]) -> Option<&'a [&'a [u8]]>
    ensures some { IfSome result (λ words. behind_tariffs (map (λ word. word.now) items.now) ≡ Some (map (λ word. word.now) words.now)) }
    ensures none { IfNone result (behind_tariffs (map (λ word. word.now) items.now) ≡ None) }
{
    let mut rest = items;
    while let [word, behind @ ..] = rest {
        if are_tariffs(word) {
            return Some(behind);
        }
        let [_, _, _, later @ ..] = behind else {
            return None;
        };
        rest = later;
    }
    None
}

/// The tariffs of the items, if they say any.
fn some_tariffs_of(alloc: Global, items: &[&[u8]]) -> Result<Option<Tariffs>, LineFault>
    ensures { Answers (some_tariffs_of (behind_tariffs (map (λ word. word.now) items.now))) result }
{
    match behind_tariffs(items) {
        Some(words) => Ok(Some(tariffs_of(alloc, words)?)),
        None => Ok(None),
    }
}

/// The tariffs that words say, whose form is right.
fn tariffs_of(alloc: Global, words: &[&[u8]]) -> Result<Tariffs, LineFault>
    ensures { Answers (tariffs_of (map (λ word. word.now) words.now)) result }
{
    let tariffs = tariffs_in(alloc, words)?;
    faultless(alloc, tariffs)
}

fn faultless(alloc: Global, tariffs: Listing<Tariff>) -> Result<Tariffs, LineFault>
    ensures { Answers (faultless tariffs) result }
{
    match Tariffs::new(alloc, tariffs.into_vec()) {
        Ok(tariffs) => Ok(tariffs),
        Err(TariffFault::OutOfMemory) => Err(LineFault::OutOfMemory),
        Err(TariffFault::Twice | TariffFault::OutOfRange) => Err(LineFault::BadNumber),
    }
}

/// The tariffs that words say, whatever they are.
#[tactic(auto, using(crate::proofs::TermsReading::no_tariff, crate::proofs::TermsReading::tariff_more))]
fn tariffs_in(alloc: Global, words: &[&[u8]]) -> Result<Listing<Tariff>, LineFault>
    ensures { Answers (tariffs_from [] (map (λ word. word.now) words.now)) result }
{
    let mut tariffs = Vec::new(alloc);
    let mut rest = words;
    while let [
        _,
        group,
        ident,
        units,
        block,
        price,
        quantum,
        greatest,
        behind @ ..,
    ] = rest
    {
        let tariff = tariff_of(group, ident, units, block, price, quantum, greatest)?;
        tariffs.push(tariff)?;
        rest = behind;
    }
    Ok(Listing::from_vec(tariffs))
}

fn tariff_of(
    group: &[u8],
    ident: &[u8],
    units: &[u8],
    block: &[u8],
    price: &[u8],
    quantum: &[u8],
    greatest: &[u8],
) -> Result<Tariff, LineFault>
    ensures { result ≡ tariff_of group.now ident.now units.now block.now price.now quantum.now greatest.now }
{
    Ok(Tariff {
        group: key_of(group)?,
        ident: key_of(ident)?,
        kind: units_of(units)?,
        block: number_of(block)?,
        price: number_of(price)?,
        quantum: number_of(quantum)?,
        greatest: number_of(greatest)?,
    })
}

/// A Rating-Group or a Service-Identifier, or `-` for none.
fn key_of(word: &[u8]) -> Result<Option<u32>, LineFault>
    ensures { result ≡ key_of word.now }
{
    if word == NO_KEY {
        return Ok(None);
    }
    Ok(Some(number_up_to(KEY_LIMIT, word)? as u32))
}

fn units_of(word: &[u8]) -> Result<UnitKind, LineFault>
    ensures { result ≡ units_of word.now }
{
    if word == TIME {
        Ok(UnitKind::Time)
    } else if word == OCTETS {
        Ok(UnitKind::Octets)
    } else if word == UNITS {
        Ok(UnitKind::Units)
    } else {
        Err(LineFault::BadNumber)
    }
}
