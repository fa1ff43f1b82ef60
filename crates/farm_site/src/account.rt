//! The accounts of a site file.

ghost use Rattle.std.specs.Prelude.{◌≡◌, ◌≤◌, IfErr, IfOk, vec_len, true, nat_le, length, ◌&&◌};
ghost use Rattle.std.specs.List.{list_all, list_any};
ghost use Rattle.farm_base.specs.CheckedSite.{is_sound_account, is_visible, is_within, same_account, size_of};
ghost use Rattle.farm_site.specs.Faults.{IsAccountFault, IsFaultOf, IsOfKeys, IsTableFault};
ghost use Rattle.farm_site.specs.Forms.{need_of_account};
ghost use Rattle.farm_site.specs.Growing.{AreSound};
ghost use Rattle.farm_site.specs.Spelling.{SpellsAccount, SpellsTable, number, value_at};
ghost use Rattle.toml.specs.Data.{string, integer};
ghost use Rattle.toml.specs.View.{table_view};

use crate::entry::Entry;
use crate::fault::SiteFault;
use crate::key::Key;
use cc_book::Account;
use dia_avp::Octets;
use std::alloc::{AllocError, Global};
use std::collections::BTreeSet;

/// The most accounts of a site.
const ACCOUNT_LIMIT: usize = 65_536;

/// The longest Subscription-Id-Data of an account.
const ID_LIMIT: usize = 64;

/// The greatest Subscription-Id-Type (RFC 8506, section 8.47).
const ID_KIND_LIMIT: u32 = 4;

/// The most that an opening balance is above or below 0.
const OPENING_LIMIT: u64 = 4_611_686_018_427_387_904;

/// The Subscription-Id of an account.
#[derive(Clone, Copy, PartialEq, Eq, PartialOrd, Ord)]
struct Owner<'a> {
    id_kind: u32,
    id: &'a [u8],
}

/// The accounts of the file, in its order.
pub fn accounts_of(alloc: Global, file: Entry) -> Result<Vec<Account>, SiteFault>
    ensures count { IfOk result (λ accounts. vec_len accounts ≤ 65536) }
    ensures sound { IfOk result (λ accounts. AreSound is_sound_account same_account accounts.items) }
    ensures spelled { IfOk result (λ accounts. SpellsTable SpellsAccount Key.Account (table_view file.entry.table.now) accounts.items) }
    ensures fault { IfErr result (IsTableFault SpellsAccount IsAccountFault Key.Account (table_view file.entry.table.now)) }
{
    let entries = file.entries(alloc, Key::Account, ACCOUNT_LIMIT)?;
    let mut owners = BTreeSet::new(alloc);
    let mut accounts = Vec::new(alloc);
    for entry in &entries {
        let owner = owner_of(*entry)?;
        let is_new = owners.insert(owner)?;
        if !is_new {
            return Err(SiteFault::Twice { key: Key::Id });
        }
        let account = account_of(alloc, *entry, owner)?;
        accounts.push(account)?;
    }
    Ok(accounts)
}

/// The Subscription-Id of an entry.
fn owner_of(entry: Entry<'_>) -> Result<Owner<'_>, SiteFault>
    ensures kind { IfOk result (λ owner. nat_le owner.id_kind 4 ≡ true) }
    ensures id { IfOk result (λ owner. (is_within 1 64 (length owner.id.now) && list_all is_visible owner.id.now) ≡ true) }
    ensures kind_spelled { IfOk result (λ owner. value_at Key.IdKind (table_view entry.entry.table.now) ≡ Some (number owner.id_kind)) }
    ensures id_spelled { IfOk result (λ owner. value_at Key.Id (table_view entry.entry.table.now) ≡ Some (string owner.id.now)) }
    ensures fault { IfErr result (IsFaultOf (table_view entry.entry.table.now)) }
    ensures told { IfErr result (IsOfKeys need_of_account) }
{
    let id_kind = entry.unsigned32(Key::IdKind, 0, ID_KIND_LIMIT)?;
    let id = entry.text(Key::Id)?.as_bytes();
    if is_sound_id(id) {
        Ok(Owner { id_kind, id })
    } else {
        Err(SiteFault::OutOfRange { key: Key::Id })
    }
}

/// Whether octets are 1 to 64 of visible ASCII.
fn is_sound_id(id: &[u8]) -> bool
    ensures { result ≡ (is_within 1 64 (length id.now) && list_all is_visible id.now) }
{
    1 <= id.len() && id.len() <= ID_LIMIT && are_visible(id)
}

fn are_visible(octets: &[u8]) -> bool
    ensures { result ≡ list_all is_visible octets.now }
{
    octets.iter().all(|octet| 33 <= *octet && *octet <= 126)
}

/// The account of an entry, with this Subscription-Id.
fn account_of(alloc: Global, entry: Entry, owner: Owner) -> Result<Account, SiteFault>
    ensures kind { IfOk result (λ account. account.id_kind ≡ owner.entry.id_kind) }
    ensures id { IfOk result (λ account. account.id ≡ owner.entry.id.now) }
    ensures opening { IfOk result (λ account. nat_le (size_of account.opening) 4611686018427387904 ≡ true) }
    ensures opening_spelled { IfOk result (λ account. value_at Key.Opening (table_view entry.entry.table.now) ≡ Some (integer account.opening)) }
    ensures fault { IfErr result (IsFaultOf (table_view entry.entry.table.now)) }
    ensures told { IfErr result (IsOfKeys need_of_account) }
{
    Ok(Account {
        id_kind: owner.id_kind,
        id: Octets::copy_of(alloc, owner.id)?,
        opening: entry.integer(Key::Opening, OPENING_LIMIT)?,
    })
}
