//! The keys of one table, read one by one.

ghost use Rattle.std.specs.Prelude.{◌≡◌, ◌≤◌, ◌⊎◌, [], ◌∷◌, IfErr, IfOk, None, true, false, length, vec_len, nat_le, map, option_map, pos};
ghost use Rattle.std.specs.List.{list_all};
ghost use Rattle.dia_base.specs.Identity.{fault_of};
ghost use Rattle.farm_base.specs.CheckedSite.{is_within, same_number, size_of};
ghost use Rattle.farm_base.specs.Lists.{are_distinct};
ghost use Rattle.farm_site.specs.Faults.{IsFaultOf, IsNumberTwice, IsOfKey, IsOfOptionalKey, StandsAt};
ghost use Rattle.farm_site.specs.Forms.{all_items, covers, form_of, has_more_than, identity_text, integer_of_size, is_for_text, is_from_to, is_integer, is_number, is_string, is_table, list_of_numbers, list_of_numbers_from, list_of_tables, list_of_texts, list_of_words, units_number};
ghost use Rattle.farm_site.specs.Spelling.{has_32_bits, may_have_32_bits, value_at, value_or, number, numbers, texts, tables, tables_of};
ghost use Rattle.toml.specs.Data.{string, integer, array, table, as_array};
ghost use Rattle.toml.specs.View.{table_view, view, items_view};

use crate::fault::SiteFault;
use crate::key::Key;
use dia_base::{Identity, IdentityFault};
use std::alloc::Global;
use toml::{Table, Value};

/// A table of the file: the whole of it, or an entry of an array of tables.
#[derive(Clone, Copy)]
pub struct Entry<'a> {
    table: &'a Table,
}

impl<'a> Entry<'a> {
    /// A table of the file.
    pub fn new(table: &'a Table) -> Self
        ensures { result.table ≡ table.entry }
    {
        Entry { table }
    }

    /// What stands at a key, if the key is there.
    fn find(self, key: Key) -> Option<&'a Value>
        ensures { option_map (λ value. view value.now) result ≡ value_at key (table_view self.entry.table.now) }
    {
        self.table.get(key.as_str())
    }

    /// What stands at a key that must be there.
    fn value(self, key: Key) -> Result<&'a Value, SiteFault>
        ensures value { IfOk result (λ value. value_at key (table_view self.entry.table.now) ≡ Some (view value.now)) }
        ensures fault { IfErr result (IsFaultOf (table_view self.entry.table.now)) }
        ensures told { IfErr result (IsOfKey key) }
    {
        self.find(key).ok_or(SiteFault::Missing { key })
    }

    /// The text at a key that must be there.
    pub fn text(self, key: Key) -> Result<&'a str, SiteFault>
        ensures value { IfOk result (λ text. value_at key (table_view self.entry.table.now) ≡ Some (string text.now)) }
        ensures fault { is_for_text (form_of key) ≡ true → IfErr result (IsFaultOf (table_view self.entry.table.now)) }
        ensures told { IfErr result (IsOfKey key) }
    {
        text_of(key, self.value(key)?)
    }

    /// The text at a key that may be absent.
    pub fn optional_text(self, key: Key) -> Result<Option<&'a str>, SiteFault>
        ensures value { IfOk result (λ text. value_at key (table_view self.entry.table.now) ≡ option_map (λ some_text. string some_text.now) text) }
        ensures fault { is_for_text (form_of key) ≡ true → IfErr result (IsFaultOf (table_view self.entry.table.now)) }
        ensures told { IfErr result (IsOfOptionalKey key) }
    {
        match self.find(key) {
            None => Ok(None),
            Some(value) => Ok(Some(text_of(key, value)?)),
        }
    }

    /// The identity at a key that must be there.
    pub fn identity(self, alloc: Global, key: Key) -> Result<Identity, SiteFault>
        ensures sound { IfOk result (λ identity. fault_of identity ≡ None) }
        ensures value { IfOk result (λ identity. value_at key (table_view self.entry.table.now) ≡ Some (string identity)) }
        ensures fault { form_of key ≡ identity_text → IfErr result (IsFaultOf (table_view self.entry.table.now)) }
        ensures told { IfErr result (IsOfKey key) }
    {
        match Identity::read(alloc, self.text(key)?.as_bytes()) {
            Ok(identity) => Ok(identity),
            Err(IdentityFault::OutOfMemory) => Err(SiteFault::OutOfMemory),
            Err(_) => Err(SiteFault::BadIdentity { key }),
        }
    }

    /// The integer at a key that must be there, which is of at most this size, below or above 0.
    #[tactic(auto, using(crate::proofs::Following::sized))]
    pub fn integer(self, key: Key, size: u64) -> Result<i64, SiteFault>
        ensures size { IfOk result (λ n. nat_le (size_of n) size ≡ true) }
        ensures value { IfOk result (λ n. value_at key (table_view self.entry.table.now) ≡ Some (integer n)) }
        ensures fault { form_of key ≡ integer_of_size size → IfErr result (IsFaultOf (table_view self.entry.table.now)) }
        ensures told { IfErr result (IsOfKey key) }
    {
        let number = integer_of(key, self.value(key)?)?;
        if number.unsigned_abs() <= size {
            Ok(number)
        } else {
            Err(SiteFault::OutOfRange { key })
        }
    }

    /// The number at a key that must be there.
    pub fn unsigned64(self, key: Key, least: u64, most: u64) -> Result<u64, SiteFault>
        ensures range { IfOk result (λ n. is_within least most n ≡ true) }
        ensures value { IfOk result (λ n. value_at key (table_view self.entry.table.now) ≡ Some (number n)) }
        ensures fault { covers least most (form_of key) ≡ true → IfErr result (IsFaultOf (table_view self.entry.table.now)) }
        ensures units { form_of key ≡ units_number → IfErr result (λ fault. IsFaultOf (table_view self.entry.table.now) fault ⊎ ((fault ≡ SiteFault.OutOfRange key) × StandsAt key (table_view self.entry.table.now) (λ value. is_number least most value ≡ false))) }
        ensures told { IfErr result (IsOfKey key) }
    {
        unsigned_of(key, self.value(key)?, least, most)
    }

    /// The number at a key, or this one where the key is absent.
    pub fn unsigned64_or(
        self,
        key: Key,
        least: u64,
        most: u64,
        absent: u64,
    ) -> Result<u64, SiteFault>
        requires { is_within least most absent ≡ true }
        ensures range { IfOk result (λ n. is_within least most n ≡ true) }
        ensures value { IfOk result (λ n. value_or (number absent) key (table_view self.entry.table.now) ≡ number n) }
        ensures fault { covers least most (form_of key) ≡ true → IfErr result (IsFaultOf (table_view self.entry.table.now)) }
        ensures told { IfErr result (IsOfOptionalKey key) }
    {
        match self.find(key) {
            None => Ok(absent),
            Some(value) => unsigned_of(key, value, least, most),
        }
    }

    /// The number at a key that must be there.
    pub fn unsigned32(self, key: Key, least: u32, most: u32) -> Result<u32, SiteFault>
        ensures range { IfOk result (λ n. is_within least most n ≡ true) }
        ensures value { IfOk result (λ n. value_at key (table_view self.entry.table.now) ≡ Some (number n)) }
        ensures fault { covers least most (form_of key) ≡ true → IfErr result (IsFaultOf (table_view self.entry.table.now)) }
        ensures told { IfErr result (IsOfKey key) }
    {
        let number = self.unsigned64(key, u64::from(least), u64::from(most))?;
        Ok(number as u32)
    }

    /// The number at a key, or this one where the key is absent.
    pub fn unsigned32_or(
        self,
        key: Key,
        least: u32,
        most: u32,
        absent: u32,
    ) -> Result<u32, SiteFault>
        requires { is_within least most absent ≡ true }
        ensures range { IfOk result (λ n. is_within least most n ≡ true) }
        ensures value { IfOk result (λ n. value_or (number absent) key (table_view self.entry.table.now) ≡ number n) }
        ensures fault { covers least most (form_of key) ≡ true → IfErr result (IsFaultOf (table_view self.entry.table.now)) }
        ensures told { IfErr result (IsOfOptionalKey key) }
    {
        let (least, most) = (u64::from(least), u64::from(most));
        let number = self.unsigned64_or(key, least, most, u64::from(absent))?;
        Ok(number as u32)
    }

    /// The number at a key that may be absent.
    pub fn optional_unsigned32(self, key: Key) -> Result<Option<u32>, SiteFault>
        ensures small { IfOk result (λ n. may_have_32_bits n ≡ true) }
        ensures value { IfOk result (λ n. value_at key (table_view self.entry.table.now) ≡ option_map number n) }
        ensures fault { covers 0 4294967295 (form_of key) ≡ true → IfErr result (IsFaultOf (table_view self.entry.table.now)) }
        ensures told { IfErr result (IsOfOptionalKey key) }
    {
        match self.find(key) {
            None => Ok(None),
            Some(value) => {
                let number = unsigned_of(key, value, 0, u64::from(u32::MAX))?;
                Ok(Some(number as u32))
            }
        }
    }

    /// The numbers of the array at a key, or this one alone where the key is absent.
    pub fn numbers_or(self, alloc: Global, key: Key, absent: u32) -> Result<Vec<u32>, SiteFault>
        ensures small { IfOk result (λ read. list_all has_32_bits read.items ≡ true) }
        ensures value { IfOk result (λ read. value_or (numbers (absent ∷ [])) key (table_view self.entry.table.now) ≡ numbers read.items) }
        ensures fault { form_of key ≡ list_of_numbers → IfErr result (IsFaultOf (table_view self.entry.table.now)) }
        ensures told { IfErr result (IsOfOptionalKey key) }
    {
        let Some(value) = self.find(key) else {
            return Ok(vec![in alloc; absent]?);
        };
        numbers_of(alloc, key, array_of(key, value)?, 0)
    }

    /// The numbers of the array at a key, from the least, each once; none where the key is absent. How many they are is
    /// judged before any is looked at, and that each is in range before which stands twice.
    pub fn numbers_once(
        self,
        alloc: Global,
        key: Key,
        least: u32,
        most: usize,
    ) -> Result<Vec<u32>, SiteFault>
        ensures count { IfOk result (λ read. vec_len read ≤ most) }
        ensures range { IfOk result (λ read. list_all (is_within least 4294967295) read.items ≡ true) }
        ensures once { IfOk result (λ read. are_distinct same_number read.items ≡ true) }
        ensures value { IfOk result (λ read. value_or (numbers []) key (table_view self.entry.table.now) ≡ numbers read.items) }
        ensures fault { form_of key ≡ list_of_numbers_from least most → IfErr result (λ fault. IsFaultOf (table_view self.entry.table.now) fault ⊎ ((fault ≡ SiteFault.Twice key) × IsNumberTwice key (table_view self.entry.table.now))) }
        ensures told { IfErr result (IsOfOptionalKey key) }
    {
        let Some(value) = self.find(key) else {
            return Ok(Vec::new(alloc));
        };
        let numbers = numbers_of(alloc, key, array_within(key, value, most)?, least)?;
        if are_distinct(&numbers) {
            Ok(numbers)
        } else {
            Err(SiteFault::Twice { key })
        }
    }

    /// The texts of the array at a key that must be there. How many they are is judged before any is looked at.
    pub fn texts(self, alloc: Global, key: Key, most: usize) -> Result<Vec<&'a str>, SiteFault>
        ensures count { IfOk result (λ read. vec_len read ≤ most) }
        ensures value { IfOk result (λ read. value_at key (table_view self.entry.table.now) ≡ Some (texts (map (λ text. text.now) read.items))) }
        ensures fault { form_of key ≡ list_of_texts most → IfErr result (IsFaultOf (table_view self.entry.table.now)) }
        ensures told { IfErr result (IsOfKey key) }
    {
        texts_of(alloc, key, array_within(key, self.value(key)?, most)?)
    }

    /// The texts of the array at a key, which has none where the key is absent.
    pub fn optional_texts(self, alloc: Global, key: Key) -> Result<Vec<&'a str>, SiteFault>
        ensures value { IfOk result (λ read. value_or (texts []) key (table_view self.entry.table.now) ≡ texts (map (λ text. text.now) read.items)) }
        ensures fault { form_of key ≡ list_of_words → IfErr result (IsFaultOf (table_view self.entry.table.now)) }
        ensures told { IfErr result (IsOfOptionalKey key) }
    {
        match self.find(key) {
            None => Ok(Vec::new(alloc)),
            Some(value) => texts_of(alloc, key, array_of(key, value)?),
        }
    }

    /// The entries of the array of tables at a key, which has none where the key is absent. How many they are is
    /// judged before any is looked at, and that they are tables before what is in them.
    pub fn entries(self, alloc: Global, key: Key, most: usize) -> Result<Vec<Entry<'a>>, SiteFault>
        ensures count { IfOk result (λ entries. vec_len entries ≤ most) }
        ensures value { IfOk result (λ entries. value_or (tables []) key (table_view self.entry.table.now) ≡ tables (tables_of entries.items)) }
        ensures fault { form_of key ≡ list_of_tables most → IfErr result (IsFaultOf (table_view self.entry.table.now)) }
        ensures told { IfErr result (IsOfOptionalKey key) }
    {
        let mut entries = Vec::new(alloc);
        let Some(value) = self.find(key) else {
            return Ok(entries);
        };
        let values = array_within(key, value, most)?;
        for value in values {
            entries.push(entry_of(key, value)?)?;
        }
        Ok(entries)
    }
}

fn entry_of(key: Key, value: &Value) -> Result<Entry<'_>, SiteFault>
    ensures value { IfOk result (λ entry. view value.now ≡ table (table_view entry.table.now)) }
    ensures fault { IfErr result (λ fault. (fault ≡ SiteFault.WrongType key) × (is_table (view value.now) ≡ false)) }
{
    match value.as_table() {
        Some(table) => Ok(Entry { table }),
        None => Err(SiteFault::WrongType { key }),
    }
}

fn text_of(key: Key, value: &Value) -> Result<&str, SiteFault>
    ensures value { IfOk result (λ text. view value.now ≡ string text.now) }
    ensures fault { IfErr result (λ fault. (fault ≡ SiteFault.WrongType key) × (is_string (view value.now) ≡ false)) }
{
    value.as_str().ok_or(SiteFault::WrongType { key })
}

fn integer_of(key: Key, value: &Value) -> Result<i64, SiteFault>
    ensures value { IfOk result (λ n. view value.now ≡ integer n) }
    ensures fault { IfErr result (λ fault. (fault ≡ SiteFault.WrongType key) × (is_integer (view value.now) ≡ false)) }
{
    value.as_integer().ok_or(SiteFault::WrongType { key })
}

fn unsigned_of(key: Key, value: &Value, least: u64, most: u64) -> Result<u64, SiteFault>
    ensures range { IfOk result (λ n. is_within least most n ≡ true) }
    ensures value { IfOk result (λ n. view value.now ≡ number n) }
    ensures fault { IfErr result (λ fault. ((fault ≡ SiteFault.WrongType key) × (is_integer (view value.now) ≡ false)) ⊎ ((fault ≡ SiteFault.OutOfRange key) × (is_number least most (view value.now) ≡ false))) }
{
    match u64::try_from(integer_of(key, value)?) {
        Ok(number) if least <= number && number <= most => Ok(number),
        _ => Err(SiteFault::OutOfRange { key }),
    }
}

/// The integer, where it is from the least to 4294967295.
fn small_of(key: Key, integer: i64, least: u32) -> Result<u32, SiteFault>
    ensures range { IfOk result (λ n. is_within least 4294967295 n ≡ true) }
    ensures value { IfOk result (λ n. integer ≡ pos n) }
    ensures fault { IfErr result (λ fault. (fault ≡ SiteFault.OutOfRange key) × (is_from_to least 4294967295 integer ≡ false)) }
{
    match u32::try_from(integer) {
        Ok(number) if least <= number => Ok(number),
        Ok(_) | Err(_) => Err(SiteFault::OutOfRange { key }),
    }
}

fn array_of(key: Key, value: &Value) -> Result<&[Value], SiteFault>
    ensures value { IfOk result (λ values. view value.now ≡ array (items_view values.now)) }
    ensures fault { IfErr result (λ fault. (fault ≡ SiteFault.WrongType key) × (as_array (view value.now) ≡ None)) }
{
    match value.as_array() {
        Some(values) => Ok(values.as_slice()),
        None => Err(SiteFault::WrongType { key }),
    }
}

fn array_within(key: Key, value: &Value, most: usize) -> Result<&[Value], SiteFault>
    ensures count { IfOk result (λ values. length values.now ≤ most) }
    ensures value { IfOk result (λ values. view value.now ≡ array (items_view values.now)) }
    ensures fault { IfErr result (λ fault. ((fault ≡ SiteFault.WrongType key) × (as_array (view value.now) ≡ None)) ⊎ ((fault ≡ SiteFault.TooMany key) × (has_more_than most (as_array (view value.now)) ≡ true))) }
{
    let values = array_of(key, value)?;
    if values.len() > most {
        return Err(SiteFault::TooMany { key });
    }
    Ok(values)
}

/// The numbers of an array. That all are integers is judged before the range of any.
#[tactic(auto, using(crate::proofs::Pushing::all_push))]
fn numbers_of(alloc: Global, key: Key, values: &[Value], least: u32) -> Result<Vec<u32>, SiteFault>
    ensures count { IfOk result (λ read. vec_len read ≡ length values.now) }
    ensures range { IfOk result (λ read. list_all (is_within least 4294967295) read.items ≡ true) }
    ensures value { IfOk result (λ read. map view values.now ≡ map number read.items) }
    ensures fault { IfErr result (λ fault. (fault ≡ SiteFault.OutOfMemory) ⊎ ((fault ≡ SiteFault.WrongType key) × (all_items is_integer (items_view values.now) ≡ false)) ⊎ ((fault ≡ SiteFault.OutOfRange key) × (all_items (is_number least 4294967295) (items_view values.now) ≡ false))) }
{
    let integers = integers_of(alloc, key, values)?;
    let mut numbers = Vec::new(alloc);
    for integer in &integers {
        numbers.push(small_of(key, *integer, least)?)?;
    }
    Ok(numbers)
}

/// Whether no number stands twice.
fn are_distinct(numbers: &[u32]) -> bool
    ensures { result ≡ are_distinct same_number numbers.now }
{
    for (place, number) in numbers.iter().enumerate() {
        if numbers[..place].contains(number) {
            return false;
        }
    }
    true
}

fn texts_of<'a>(alloc: Global, key: Key, values: &'a [Value]) -> Result<Vec<&'a str>, SiteFault>
    ensures count { IfOk result (λ read. vec_len read ≡ length values.now) }
    ensures value { IfOk result (λ read. map view values.now ≡ map string (map (λ text. text.now) read.items)) }
    ensures fault { IfErr result (λ fault. (fault ≡ SiteFault.OutOfMemory) ⊎ ((fault ≡ SiteFault.WrongType key) × (all_items is_string (items_view values.now) ≡ false))) }
{
    let mut texts = Vec::new(alloc);
    for value in values {
        texts.push(text_of(key, value)?)?;
    }
    Ok(texts)
}

fn integers_of(alloc: Global, key: Key, values: &[Value]) -> Result<Vec<i64>, SiteFault>
    ensures value { IfOk result (λ integers. map view values.now ≡ map integer integers.items) }
    ensures fault { IfErr result (λ fault. (fault ≡ SiteFault.OutOfMemory) ⊎ ((fault ≡ SiteFault.WrongType key) × (all_items is_integer (items_view values.now) ≡ false))) }
{
    let mut integers = Vec::new(alloc);
    for value in values {
        integers.push(integer_of(key, value)?)?;
    }
    Ok(integers)
}
