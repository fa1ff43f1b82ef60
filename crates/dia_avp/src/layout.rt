//! How the octets of an AVP are laid out (RFC 6733, section 4.1): flags, header and padding.

ghost use Rattle.std.specs.Prelude.{◌≡◌, ◌≤◌, ◌<◌};
ghost use Rattle.dia_avp.specs.AvpList.{has_vendor, header_len, is_mandatory, padding_of};

/// The flag V: a Vendor-ID follows the length.
pub const VENDOR: u8 = 0x80;

/// The flag M: who does not know the AVP refuses the message.
pub const MANDATORY: u8 = 0x40;

/// Whether who does not know the AVP refuses the message.
pub fn is_mandatory(flags: u8) -> bool
    ensures { result ≡ is_mandatory flags }
{
    flags & MANDATORY != 0
}

/// Whether a Vendor-ID follows the length.
pub fn has_vendor(flags: u8) -> bool
    ensures { result ≡ has_vendor flags }
{
    flags & VENDOR != 0
}

/// The octets before the value: 12 with a Vendor-ID, 8 without.
pub fn header_len(flags: u8) -> usize
    ensures value { result ≡ header_len flags }
    ensures least { 8 ≤ result }
    ensures most { result ≤ 12 }
{
    if has_vendor(flags) { 12 } else { 8 }
}

/// The octets from this length up to the next multiple of 4, which the length does not count.
pub fn padding_of(len: usize) -> usize
    ensures value { result ≡ padding_of len }
    ensures most { result < 4 }
{
    (4 - len % 4) % 4
}
