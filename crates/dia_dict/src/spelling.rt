//! A value as octets.

ghost use Rattle.std.specs.Prelude.{◌≡◌, ◌<◌, ◌++◌, MatchOption, OnOk, OnErr, IsOkUnless};
ghost use Rattle.byteorder.specs.Endian.{big_bytes};
ghost use Rattle.dia_avp.specs.AvpList.{written};
ghost use Rattle.dia_dict.specs.Values.{InRange, content_fault, kind_in, octets_of};
ghost use Rattle.dia_dict.specs.Reading.{Spells, avp_of, avp_with, flags_of, octets_fault, reading_as, spelling_fault_as};

use crate::check::{has_length, is_in_range};
use crate::fault::DictFault;
use crate::row::Kind;
use crate::value::Typed;
use byteorder::{BigEndian, ByteOrder};
use dia_avp::layout::MANDATORY;
use dia_avp::{AvpFault, write_avp};
use dia_base::codes::PRODUCT_NAME;

/// The flags of a written AVP. Product-Name never has M (RFC 6733, section 4.5).
fn flags_of(code: u32) -> u8
    ensures { result ≡ flags_of code }
{
    if code == PRODUCT_NAME { 0 } else { MANDATORY }
}

/// Writes the AVP that has these octets for a value of the kind.
fn spell_octets(out: &mut Vec<u8>, kind: Kind, code: u32, octets: &[u8]) -> Result<(), DictFault>
    requires { content_fault kind code octets.now ≡ None }
    ensures ok { OnOk result (out.new.items ≡ out.old.items ++ written (avp_with code octets.now)) }
    ensures fault { MatchOption (octets_fault kind code octets.now) (IsOkUnless result DictFault.OutOfMemory) (λ f. result ≡ Err f) }
    ensures err { OnErr result (out.new.items ≡ out.old.items) }
{
    if !has_length(kind, octets) {
        return Err(DictFault::BadLength { code });
    }
    match write_avp(out, code, flags_of(code), 0, octets) {
        Ok(()) => Ok(()),
        Err(AvpFault::OutOfMemory) => Err(DictFault::OutOfMemory),
        Err(_) => Err(DictFault::BadLength { code }),
    }
}

fn octets_of_u32(number: u32) -> [u8; 4]
    ensures { result ≡ big_bytes 4 number }
{
    let mut octets = [0u8; 4];
    BigEndian::write_u32(&mut octets, number);
    octets
}

fn octets_of_u64(number: u64) -> [u8; 8]
    ensures { result ≡ big_bytes 8 number }
{
    let mut octets = [0u8; 8];
    BigEndian::write_u64(&mut octets, number);
    octets
}

/// Writes the AVP that has the number for a value of the kind Enumerated.
fn spell_enumerated(out: &mut Vec<u8>, code: u32, number: i32) -> Result<(), DictFault>
    ensures ok { OnOk result (out.new.items ≡ out.old.items ++ written (avp_of code (Typed.Enumerated number))) }
    ensures fault { MatchOption (spelling_fault_as Kind.Enumerated code (Typed.Enumerated number)) (IsOkUnless result DictFault.OutOfMemory) (λ f. result ≡ Err f) }
    ensures err { OnErr result (out.new.items ≡ out.old.items) }
{
    let bits = number.cast_unsigned();
    if !is_in_range(code, bits) {
        return Err(DictFault::BadEnumerated { code });
    }
    spell_octets(out, Kind::Enumerated, code, &octets_of_u32(bits))
}

/// Writes the AVP that has the value, in an AVP whose kind is that of the value.
fn spell_as_is(out: &mut Vec<u8>, code: u32, value: &Typed) -> Result<(), DictFault>
    ensures ok { OnOk result (out.new.items ≡ out.old.items ++ written (avp_of code value.now)) }
    ensures fault { MatchOption (octets_fault (kind_in value.now) code (octets_of value.now)) (IsOkUnless result DictFault.OutOfMemory) (λ f. result ≡ Err f) }
    ensures err { OnErr result (out.new.items ≡ out.old.items) }
    ensures range { InRange value.now }
{
    match value {
        Typed::Unsigned32(n) => spell_octets(out, Kind::Unsigned32, code, &octets_of_u32(*n)),
        Typed::Unsigned64(n) => spell_octets(out, Kind::Unsigned64, code, &octets_of_u64(*n)),
        Typed::Integer32(n) => {
            spell_octets(
                out,
                Kind::Integer32,
                code,
                &octets_of_u32(n.cast_unsigned()),
            )
        }
        Typed::Integer64(n) => {
            spell_octets(
                out,
                Kind::Integer64,
                code,
                &octets_of_u64(n.cast_unsigned()),
            )
        }
        Typed::Time(n) => spell_octets(out, Kind::Time, code, &octets_of_u32(*n)),
        Typed::Enumerated(n) => spell_enumerated(out, code, *n),
        Typed::Utf8String(text) => {
            spell_octets(out, Kind::Utf8String, code, text.as_str().as_bytes())
        }
        Typed::DiameterIdentity(octets) => {
            spell_octets(out, Kind::DiameterIdentity, code, octets.as_slice())
        }
        Typed::OctetString(octets) => {
            spell_octets(out, Kind::OctetString, code, octets.as_slice())
        }
        Typed::Address(octets) => spell_octets(out, Kind::Address, code, octets.as_slice()),
        Typed::Grouped(octets) => spell_octets(out, Kind::Grouped, code, octets.as_slice()),
    }
}

/// Writes the AVP that has the value, where that is of the kind.
pub(crate) fn spell_value(
    out: &mut Vec<u8>,
    kind: Kind,
    code: u32,
    value: &Typed,
) -> Result<(), DictFault>
    ensures { Spells (avp_of code value.now) value.now (spelling_fault_as kind code value.now) (reading_as kind code (octets_of value.now)) out.old.items out.new.items result }
{
    if value.kind() != kind {
        return Err(DictFault::BadLength { code });
    }
    spell_as_is(out, code, value)
}
