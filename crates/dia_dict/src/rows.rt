//! The rows of the dictionary, and the calls that look them up.

ghost use Rattle.std.specs.Prelude.{◌≡◌, ◌++◌, option_map, option_copied, MatchOption, OnOk, OnErr, IsOkUnless};
ghost use Rattle.dia_avp.specs.AvpList.{written};
ghost use Rattle.dia_dict.specs.Dictionary.{row_of, name_of, kind_of, code_of_name, entry_of};
ghost use Rattle.dia_dict.specs.Reading.{Answers, Spells, reading_by, reading_fault, reading_of, avp_of, spelling_fault};

use crate::check::value_fault;
use crate::fault::DictFault;
use crate::reading::value_in;
use crate::row::{Kind, Row};
use crate::spelling::spell_value;
use crate::value::Typed;
use dia_avp::RawAvp;
use dia_base::Code;
use std::alloc::Global;

/// The 64 rows, in four ranges of codes. The first token says what is made of the rows, the second
/// names the range, and in parentheses stands what that takes, the code first.
macro_rules! rows {
    ($mode:ident from_1 $args:tt) => {
        rows!(@ $mode $args
            1 "User-Name" Utf8String,
            33 "Proxy-State" OctetString,
            50 "Acct-Multi-Session-Id" Utf8String,
            55 "Event-Timestamp" Time,
            257 "Host-IP-Address" Address,
            258 "Auth-Application-Id" Unsigned32,
            259 "Acct-Application-Id" Unsigned32,
            260 "Vendor-Specific-Application-Id" Grouped,
            263 "Session-Id" Utf8String,
            264 "Origin-Host" DiameterIdentity,
            265 "Supported-Vendor-Id" Unsigned32,
            266 "Vendor-Id" Unsigned32,
            267 "Firmware-Revision" Unsigned32,
            268 "Result-Code" Unsigned32,
            269 "Product-Name" Utf8String,
            273 "Disconnect-Cause" Enumerated,
        )
    };
    ($mode:ident from_278 $args:tt) => {
        rows!(@ $mode $args
            278 "Origin-State-Id" Unsigned32,
            279 "Failed-AVP" Grouped,
            280 "Proxy-Host" DiameterIdentity,
            281 "Error-Message" Utf8String,
            282 "Route-Record" DiameterIdentity,
            283 "Destination-Realm" DiameterIdentity,
            284 "Proxy-Info" Grouped,
            293 "Destination-Host" DiameterIdentity,
            295 "Termination-Cause" Enumerated,
            296 "Origin-Realm" DiameterIdentity,
            299 "Inband-Security-Id" Unsigned32,
            411 "CC-Correlation-Id" OctetString,
            412 "CC-Input-Octets" Unsigned64,
            413 "CC-Money" Grouped,
            414 "CC-Output-Octets" Unsigned64,
            415 "CC-Request-Number" Unsigned32,
        )
    };
    ($mode:ident from_416 $args:tt) => {
        rows!(@ $mode $args
            416 "CC-Request-Type" Enumerated,
            417 "CC-Service-Specific-Units" Unsigned64,
            418 "CC-Session-Failover" Enumerated,
            419 "CC-Sub-Session-Id" Unsigned64,
            420 "CC-Time" Unsigned32,
            421 "CC-Total-Octets" Unsigned64,
            422 "Check-Balance-Result" Enumerated,
            423 "Cost-Information" Grouped,
            424 "Cost-Unit" Utf8String,
            425 "Currency-Code" Unsigned32,
            426 "Credit-Control" Enumerated,
            427 "Credit-Control-Failure-Handling" Enumerated,
            428 "Direct-Debiting-Failure-Handling" Enumerated,
            429 "Exponent" Integer32,
            430 "Final-Unit-Indication" Grouped,
            431 "Granted-Service-Unit" Grouped,
        )
    };
    ($mode:ident from_432 $args:tt) => {
        rows!(@ $mode $args
            432 "Rating-Group" Unsigned32,
            436 "Requested-Action" Enumerated,
            437 "Requested-Service-Unit" Grouped,
            439 "Service-Identifier" Unsigned32,
            443 "Subscription-Id" Grouped,
            444 "Subscription-Id-Data" Utf8String,
            445 "Unit-Value" Grouped,
            446 "Used-Service-Unit" Grouped,
            447 "Value-Digits" Integer64,
            448 "Validity-Time" Unsigned32,
            449 "Final-Unit-Action" Enumerated,
            450 "Subscription-Id-Type" Enumerated,
            455 "Multiple-Services-Indicator" Enumerated,
            456 "Multiple-Services-Credit-Control" Grouped,
            458 "User-Equipment-Info" Grouped,
            461 "Service-Context-Id" Utf8String,
        )
    };
    (@ row ($code:expr) $($row:literal $name:literal $kind:ident,)*) => {
        match $code {
            $($row => Some(Row { code: Code($row), vendor: 0, name: $name, kind: Kind::$kind }),)*
            _ => None,
        }
    };
    (@ name ($code:expr) $($row:literal $name:literal $kind:ident,)*) => {
        match $code {
            $($row => Some($name),)*
            _ => None,
        }
    };
    (@ kind ($code:expr) $($row:literal $name:literal $kind:ident,)*) => {
        match $code {
            $($row => Some(Kind::$kind),)*
            _ => None,
        }
    };
    (@ value ($code:expr, $alloc:expr, $octets:expr) $($row:literal $name:literal $kind:ident,)*) => {
        match $code {
            $($row => value_in($alloc, Kind::$kind, $row, $octets),)*
            code => Err(DictFault::NoRow { code }),
        }
    };
    (@ spelling ($code:expr, $out:expr, $value:expr) $($row:literal $name:literal $kind:ident,)*) => {
        match $code {
            $($row => spell_value($out, Kind::$kind, $row, $value),)*
            code => Err(DictFault::NoRow { code }),
        }
    };
}

/// The row of the AVP with this code and without vendor.
fn row_at(code: u32) -> Option<Row>
    ensures { option_map entry_of result ≡ row_of code 0 }
{
    match code {
        0..=273 => rows!(row from_1 (code)),
        274..=415 => rows!(row from_278 (code)),
        416..=431 => rows!(row from_416 (code)),
        _ => rows!(row from_432 (code)),
    }
}

/// The row of the AVP with this code and vendor, where the dictionary has one. It has rows of vendor
/// 0 alone.
pub fn row_of(code: Code, vendor: u32) -> Option<Row>
    ensures { option_map entry_of result ≡ row_of code.0 vendor }
{
    if vendor != 0 {
        return None;
    }
    row_at(code.0)
}

/// The name of the AVP with this code and without vendor.
pub fn name_of(code: Code) -> Option<&'static str>
    ensures { option_copied result ≡ name_of code.0 }
{
    match code.0 {
        0..=273 => rows!(name from_1 (code.0)),
        274..=415 => rows!(name from_278 (code.0)),
        416..=431 => rows!(name from_416 (code.0)),
        _ => rows!(name from_432 (code.0)),
    }
}

/// The kind of the AVP with this code and without vendor.
pub fn kind_of(code: Code) -> Option<Kind>
    ensures { result ≡ kind_of code.0 }
{
    match code.0 {
        0..=273 => rows!(kind from_1 (code.0)),
        274..=415 => rows!(kind from_278 (code.0)),
        416..=431 => rows!(kind from_416 (code.0)),
        _ => rows!(kind from_432 (code.0)),
    }
}

/// The greatest code that a row has.
const LAST_CODE: u32 = 461;

/// The code of the AVP with this name, where the dictionary has one. Names are compared with case.
pub fn code_of_name(name: &str) -> Option<Code>
    ensures { option_map (λ c. c.0) result ≡ code_of_name name.now }
{
    for number in 1..=LAST_CODE {
        if let Some(known) = name_of(Code(number)) {
            if known == name {
                return Some(Code(number));
            }
        }
    }
    None
}

/// The value that the octets are in the AVP with this code and without vendor.
fn value_at(alloc: Global, code: u32, octets: &[u8]) -> Result<Typed, DictFault>
    ensures { Answers (reading_by (row_of code 0) code octets.now) result }
{
    match code {
        0..=273 => rows!(value from_1 (code, alloc, octets)),
        274..=415 => rows!(value from_278 (code, alloc, octets)),
        416..=431 => rows!(value from_416 (code, alloc, octets)),
        _ => rows!(value from_432 (code, alloc, octets)),
    }
}

/// The value of the AVP, by the kind of its row.
///
/// A fault names the AVP's code. `NoRow` comes where the dictionary has no row for code and vendor,
/// `BadLength` where the value's length is none of the kind's, `BadUtf8` where a text is not UTF-8,
/// and `BadEnumerated` where CC-Request-Type is not 1 to 4 (RFC 8506, section 8.3) or
/// Requested-Action not 0 to 3 (section 8.41). `OutOfMemory` comes only where there is a value, and that is
/// no number.
pub fn typed(alloc: Global, avp: &RawAvp) -> Result<Typed, DictFault>
    ensures { Answers (reading_of avp.now) result }
{
    if avp.vendor != 0 {
        return Err(DictFault::NoRow { code: avp.code });
    }
    value_at(alloc, avp.code, avp.value.as_slice())
}

/// Why the AVP has no value, if it has none: the fault that [`typed`] answers. Nothing is copied, and it
/// takes no memory.
pub fn reading_fault(avp: &RawAvp) -> Option<DictFault>
    ensures { result ≡ reading_fault avp.now }
{
    match row_of(Code(avp.code), avp.vendor) {
        Some(row) => value_fault(row.kind, avp.code, avp.value.as_slice()),
        None => Some(DictFault::NoRow { code: avp.code }),
    }
}

/// Writes the AVP with this code, without vendor and with this value.
fn spell_at(out: &mut Vec<u8>, code: u32, value: &Typed) -> Result<(), DictFault>
    ensures { Spells (avp_of code value.now) value.now (spelling_fault code value.now) (reading_of (avp_of code value.now)) out.old.items out.new.items result }
{
    match code {
        0..=273 => rows!(spelling from_1 (code, out, value)),
        274..=415 => rows!(spelling from_278 (code, out, value)),
        416..=431 => rows!(spelling from_416 (code, out, value)),
        _ => rows!(spelling from_432 (code, out, value)),
    }
}

/// Writes the AVP with this code, without vendor and with this value at the end of `out`.
///
/// The flags are M, 40 in hexadecimal, and 0 for Product-Name; the padding is zero. `NoRow` comes
/// where the dictionary has no row for the code, `BadLength` where the value is of another kind or is
/// an Address that `typed` refuses, or where the AVP takes more than 2^24 - 1 octets, and
/// `BadEnumerated` as in `typed`. A fault leaves `out` as it was.
pub fn spell_typed(out: &mut Vec<u8>, code: Code, value: &Typed) -> Result<(), DictFault>
    ensures ok { OnOk result (out.new.items ≡ out.old.items ++ written (avp_of code.0 value.now)) }
    ensures fault { MatchOption (spelling_fault code.0 value.now) (IsOkUnless result DictFault.OutOfMemory) (λ f. result ≡ Err f) }
    ensures err { OnErr result (out.new.items ≡ out.old.items) }
    ensures read_back { OnOk result (reading_of (avp_of code.0 value.now) ≡ Ok value.now) }
{
    spell_at(out, code.0, value)
}
