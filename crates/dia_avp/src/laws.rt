//! Laws of the spelling of AVPs (RFC 6733, section 4.1). Each is the contract of a function without a body.

ghost use Rattle.std.specs.Prelude.{◌≡◌, ◌↔◌, ◌∷◌, ◌++◌, ◌%◌, ◌^◌, ◌-◌, ℕ, List, [], length, map, codes, true, false, pos, negsuc, All, Result, Ok, Err};
ghost use Rattle.std.specs.Global.{Vec};
ghost use Rattle.byteorder.specs.Endian.{big_number, twos_complement};
ghost use Rattle.dia_avp.specs.declared.avp.RawAvp.{RawAvp};
ghost use Rattle.dia_avp.specs.declared.fault.AvpFault.{AvpFault};
ghost use Rattle.dia_avp.specs.declared.fault.AvpFault.TheVariants.{LengthTooSmall, Overrun, ShortHeader};
ghost use Rattle.dia_avp.specs.AvpExample.{answer, answer_text, avp, from_hex, letter, record_avp, record_text, request, request_text, session, session_text, split_hex, vendor_avp};
ghost use Rattle.dia_avp.specs.AvpList.{AreOctets, BeginsWith, HasPadding, Reads, Answers, HasSpelling, IsSpelling, has_vendor, header_len, is_mandatory, length_of, padding_of, raw_avp, with_avp, with_padding, written, written_list};
ghost use Rattle.dia_avp.specs.AvpReading.{split_of, IsAnswer};

/// Octets have one reading: one list of AVPs, or one first fault.
pub fn one_reading()
    ensures { (octets : List ℕ) (r : Result (List RawAvp) AvpFault) → Reads octets r ↔ (r ≡ split_of octets) }
{}

/// What a call may answer to octets is their one reading, or that memory ran out.
pub fn one_answer()
    ensures { (octets : List ℕ) (r : Result (Vec RawAvp) AvpFault) → Answers (Reads octets) r ↔ IsAnswer (split_of octets) r }
{}

/// Octets spell at most one list of AVPs.
pub fn one_list()
    ensures { (octets : List ℕ) (avps others : List RawAvp) → IsSpelling octets avps → IsSpelling octets others → avps ≡ others }
{}

/// What is written, with octets behind it that spell AVPs, reads as that AVP and those.
pub fn written_is_read()
    ensures { (avp : RawAvp) (avps : List RawAvp) (rest : List ℕ) → HasSpelling avp → IsSpelling rest avps → IsSpelling (written avp ++ rest) (avp ∷ avps) }
{}

/// A written list is read back.
pub fn written_list_is_read()
    ensures { (avps : List RawAvp) → All HasSpelling avps → IsSpelling (written_list avps) avps }
{}

/// Behind octets of whole AVPs with all of their padding, more AVPs may stand.
pub fn more_avps()
    ensures { (octets more : List ℕ) (avps others : List RawAvp) → length octets % 4 ≡ 0 → IsSpelling octets avps → IsSpelling more others → IsSpelling (octets ++ more) (avps ++ others) }
{}

/// Octets that spell AVPs spell them still with the padding that the last one may lack, and a whole AVP
/// may stand behind that.
pub fn one_avp_more()
    ensures padding { (octets : List ℕ) (avps : List RawAvp) → IsSpelling octets avps → IsSpelling (with_padding octets) avps }
    ensures avp { (octets : List ℕ) (avps : List RawAvp) (avp : RawAvp) → IsSpelling octets avps → HasSpelling avp → IsSpelling (with_avp octets avp) (avps ++ avp ∷ []) }
    ensures read { (octets : List ℕ) (avps : List RawAvp) (avp : RawAvp) → split_of octets ≡ Ok avps → HasSpelling avp → split_of (with_avp octets avp) ≡ Ok (avps ++ avp ∷ []) }
{}

/// Octets that begin with an AVP are its octets as they are written, padding, and the rest: two
/// spellings of an AVP differ in their padding alone. And padding may be any octets.
pub fn only_padding_differs()
    ensures read { (octets rest : List ℕ) (avp : RawAvp) → AreOctets octets → BeginsWith octets avp rest → HasPadding octets avp rest }
    ensures any { (octets rest : List ℕ) (avp : RawAvp) → HasSpelling avp → HasPadding octets avp rest → BeginsWith octets avp rest }
{}

/// What was read can be written.
pub fn read_is_writable()
    ensures { (octets : List ℕ) (avps : List RawAvp) → AreOctets octets → IsSpelling octets avps → All HasSpelling avps }
{}

/// Worked examples: the AVPs that octets spell, which stand here in hexadecimal.
pub fn octets_spell_their_avps()
    ensures none { split_hex [] ≡ Ok [] }
    ensures one { map split_hex (session_text ∷ record_text ∷ []) ≡ Ok (session ∷ []) ∷ Ok (record_avp ∷ []) ∷ [] }
    ensures request { split_hex request_text ≡ Ok request }
    ensures answer { split_hex answer_text ≡ Ok answer }
    // Behind the last AVP padding may be missing, in part or all of it. It may be any octets.
    ensures padding { map split_hex (codes "000001074000000963" ∷ codes "000001074000000963ff" ∷ codes "000001074000000963ffffff" ∷ []) ≡ Ok (letter ∷ []) ∷ Ok (letter ∷ []) ∷ Ok (letter ∷ []) ∷ [] }
    ensures between { split_hex (codes "000001074000000963ffffff000001074000000963") ≡ Ok (letter ∷ letter ∷ []) }
    ensures no_value { split_hex (codes "0000010700000008") ≡ Ok (raw_avp 263 0 0 [] ∷ []) }
    ensures vendor { map split_hex (codes "00000107c000000d000028af2a" ∷ codes "000001078000000c00000000" ∷ []) ≡ Ok (vendor_avp 263 (codes "*") ∷ []) ∷ Ok (raw_avp 263 128 0 [] ∷ []) ∷ [] }
{}

/// Worked examples: the first fault of octets, at its place.
pub fn first_fault_of_octets_is_told()
    ensures short { map split_hex (codes "00000107400000" ∷ codes "0000010740000009630000000000011a" ∷ []) ≡ Err (ShortHeader 0) ∷ Err (ShortHeader 12) ∷ [] }
    ensures too_small { map split_hex (codes "0000010740000007" ∷ codes "00000107c000000b00000000" ∷ []) ≡ Err (LengthTooSmall 0 263) ∷ Err (LengthTooSmall 0 263) ∷ [] }
    ensures overrun { map split_hex (codes "000001074000000a63" ∷ codes "0000010740000009630000000000011a400000ff" ∷ []) ≡ Err (Overrun 0 263) ∷ Err (Overrun 12 282) ∷ [] }
{}

/// Worked examples: the octets that AVPs are written as.
pub fn avps_are_written_with_zero_padding()
    ensures one { map written (session ∷ record_avp ∷ []) ≡ from_hex session_text ∷ from_hex record_text ∷ [] }
    ensures request { written_list request ≡ from_hex request_text }
    ensures answer { written_list answer ≡ from_hex answer_text }
    // A vendor is written only with the flag V.
    ensures vendor { map written (vendor_avp 263 (codes "*") ∷ raw_avp 263 64 10415 (codes "c") ∷ []) ≡ from_hex (codes "00000107c000000d000028af2a000000") ∷ from_hex (codes "000001074000000963000000") ∷ [] }
{}

/// Worked examples: a Route-Record behind no AVP and behind one, which gets the padding that it may lack.
pub fn one_avp_more_pads_the_last()
    ensures whole { map (λ digits. with_avp (from_hex digits) record_avp) ([] ∷ session_text ∷ []) ≡ from_hex record_text ∷ from_hex (session_text ++ record_text) ∷ [] }
    ensures one_octet { with_avp (from_hex (codes "000001074000000e63313b313b3100")) record_avp ≡ from_hex (session_text ++ record_text) }
    ensures two_octets { with_avp (from_hex (codes "000001074000000e63313b313b31")) record_avp ≡ from_hex (session_text ++ record_text) }
    ensures three_octets { with_avp (from_hex (codes "000001074000000d63313b313b")) record_avp ≡ from_hex (codes "000001074000000d63313b313b000000" ++ record_text) }
{}

/// Worked examples: the longest values, without and with a Vendor-ID, and those that are one octet too long.
pub fn avp_lengths_end_at_24_bits()
    ensures longest { (value : List ℕ) → length value ≡ 16777207 → length_of (avp 33 value) ≡ 2 ^ 24 - 1 }
    ensures longest_of_vendor { (value : List ℕ) → length value ≡ 16777203 → length_of (vendor_avp 33 value) ≡ 2 ^ 24 - 1 }
    ensures too_long { (value : List ℕ) → length value ≡ 16777208 → length_of (avp 33 value) ≡ 2 ^ 24 }
    ensures too_long_of_vendor { (value : List ℕ) → length value ≡ 16777204 → length_of (vendor_avp 33 value) ≡ 2 ^ 24 }
    // So the longest ones are written as 2 ^ 24 octets.
    ensures padding { padding_of (2 ^ 24 - 1) ≡ 1 }
{}

/// Worked examples: what the flags say, the lengths of headers, and the padding behind the lengths 8 to 12.
pub fn flags_are_bits_and_lengths_leave_padding_out()
    ensures vendor { map has_vendor (0 ∷ 127 ∷ 128 ∷ 192 ∷ []) ≡ false ∷ false ∷ true ∷ true ∷ [] }
    ensures mandatory { map is_mandatory (0 ∷ 191 ∷ 64 ∷ 192 ∷ []) ≡ false ∷ false ∷ true ∷ true ∷ [] }
    ensures header { map header_len (64 ∷ 192 ∷ []) ≡ 8 ∷ 12 ∷ [] }
    ensures padding { map padding_of (8 ∷ 9 ∷ 10 ∷ 11 ∷ 12 ∷ []) ≡ 0 ∷ 3 ∷ 2 ∷ 1 ∷ 0 ∷ [] }
{}

/// Worked examples: the numbers of values of four and of eight octets.
pub fn values_are_numbers_in_network_order()
    ensures unsigned32 { big_number 4 (from_hex (codes "ff000002")) ≡ 0xff000002 }
    ensures unsigned64 { big_number 8 (from_hex (codes "ff00000000000002")) ≡ 0xff00000000000002 }
    ensures integer32 { map (twos_complement 4) (0xff000002 ∷ 0 ∷ 0x7fffffff ∷ 0x80000000 ∷ 0xffffffff ∷ []) ≡ negsuc 0xfffffd ∷ pos 0 ∷ pos 2147483647 ∷ negsuc 2147483647 ∷ negsuc 0 ∷ [] }
    ensures integer64 { map (twos_complement 8) (0xff00000000000002 ∷ 0x7fffffffffffffff ∷ 0x8000000000000000 ∷ 0xffffffffffffffff ∷ []) ≡ negsuc 0xfffffffffffffd ∷ pos 9223372036854775807 ∷ negsuc 9223372036854775807 ∷ negsuc 0 ∷ [] }
{}
