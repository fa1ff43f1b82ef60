//! AVPs that are written one behind the other.

ghost use Rattle.std.specs.Prelude.{◌≡◌, ◌≤◌, ◌<◌, ◌+◌, ◌^◌, [], ◌∷◌, ◌++◌, ℕ, List, IfOk, OnOk, length};
ghost use Rattle.dia_avp.specs.AvpList.{raw_avp};
ghost use Rattle.dia_avp.specs.declared.avp.RawAvp.{RawAvp};
ghost use Rattle.cc_view.specs.Answer.Writing.{octets_avp, u32_avp, u64_avp, i32_avp, i64_avp, group_avp, spelling_of};
ghost use Rattle.cc_view.specs.Answer.{optional_u32, origin_part};
ghost use Rattle.cc_view.specs.Answer.Short.{IsShort};

use byteorder::{BigEndian, ByteOrder};
use dia_avp::layout::MANDATORY;
use dia_avp::{Octets, RawAvp, write_avp};
use dia_base::Identity;
use dia_base::codes::{ORIGIN_HOST, ORIGIN_REALM};
use std::alloc::{AllocError, Global};
use std::marker::Model;

/// For how many octets there is room at once: as many as most answers take.
const ROOM: usize = 256;

/// Where the header of an AVP says its length: behind the code and the flags.
const LENGTH_AT: usize = 5;

/// The octets of AVPs in the order in which they were added. What is made here has the flag M and vendor 0.
#[derive(Drop)]
pub(crate) struct Draft {
    octets: Vec<u8>,
}

impl Model for Draft {
    ghost use Rattle.std.specs.Prelude.{ℕ, List};

    ghost Value = { List ℕ };

    ghost view = { λ d. d.octets.items };
}

impl Draft {
    pub(crate) fn new(alloc: Global) -> Result<Self, AllocError>
        ensures { IfOk result (λ draft. draft ≡ []) }
    {
        Ok(Draft {
            octets: Vec::with_capacity(alloc, ROOM)?,
        })
    }

    /// The octets that were written.
    pub(crate) fn finish(self) -> Result<Octets, AllocError>
        ensures { IfOk result (λ octets. octets ≡ self) }
    {
        Octets::from_vec(self.octets)
    }

    /// Writes an AVP behind the others. It is short, so that only memory can be wanting.
    fn write(&mut self, code: u32, flags: u8, vendor: u32, value: &[u8]) -> Result<(), AllocError>
        requires { IsShort (raw_avp code flags vendor value.now) }
        ensures { OnOk result (self.new ≡ self.old ++ spelling_of (raw_avp code flags vendor value.now ∷ [])) }
    {
        write_avp(&mut self.octets, code, flags, vendor, value).map_err(|_| AllocError)
    }

    /// Adds an AVP with these octets as its value.
    pub(crate) fn push_octets(&mut self, code: u32, octets: &[u8]) -> Result<(), AllocError>
        requires { length octets.now ≤ 65536 }
        ensures { OnOk result (self.new ≡ self.old ++ spelling_of (octets_avp code octets.now ∷ [])) }
    {
        self.write(code, MANDATORY, 0, octets)
    }

    /// Adds an AVP as it was received.
    pub(crate) fn push_copy(&mut self, avp: &RawAvp) -> Result<(), AllocError>
        requires { IsShort avp.now }
        ensures { OnOk result (self.new ≡ self.old ++ spelling_of (avp.now ∷ [])) }
    {
        self.write(avp.code, avp.flags, avp.vendor, avp.value.as_slice())
    }

    /// Adds an Unsigned32.
    pub(crate) fn push_u32(&mut self, code: u32, n: u32) -> Result<(), AllocError>
        ensures { OnOk result (self.new ≡ self.old ++ spelling_of (u32_avp code n ∷ [])) }
    {
        let mut octets = [0u8; 4];
        BigEndian::write_u32(&mut octets, n);
        self.push_octets(code, &octets)
    }

    /// Adds an Unsigned64.
    pub(crate) fn push_u64(&mut self, code: u32, n: u64) -> Result<(), AllocError>
        ensures { OnOk result (self.new ≡ self.old ++ spelling_of (u64_avp code n ∷ [])) }
    {
        let mut octets = [0u8; 8];
        BigEndian::write_u64(&mut octets, n);
        self.push_octets(code, &octets)
    }

    /// Adds an Integer32.
    pub(crate) fn push_i32(&mut self, code: u32, z: i32) -> Result<(), AllocError>
        ensures { OnOk result (self.new ≡ self.old ++ spelling_of (i32_avp code z ∷ [])) }
    {
        let mut octets = [0u8; 4];
        BigEndian::write_i32(&mut octets, z);
        self.push_octets(code, &octets)
    }

    /// Adds an Integer64.
    pub(crate) fn push_i64(&mut self, code: u32, z: i64) -> Result<(), AllocError>
        ensures { OnOk result (self.new ≡ self.old ++ spelling_of (i64_avp code z ∷ [])) }
    {
        let mut octets = [0u8; 8];
        BigEndian::write_i64(&mut octets, z);
        self.push_octets(code, &octets)
    }

    /// Adds an Unsigned32 if there is a number.
    pub(crate) fn push_optional_u32(&mut self, code: u32, n: Option<u32>) -> Result<(), AllocError>
        ensures { OnOk result (self.new ≡ self.old ++ spelling_of (optional_u32 code n)) }
    {
        match n {
            Some(n) => self.push_u32(code, n),
            None => Ok(()),
        }
    }

    /// Adds Origin-Host and Origin-Realm.
    pub(crate) fn push_origin(
        &mut self,
        host: &Identity,
        realm: &Identity,
    ) -> Result<(), AllocError>
        ensures { OnOk result (self.new ≡ self.old ++ spelling_of (origin_part host.now realm.now)) }
    {
        self.push_octets(ORIGIN_HOST, host.as_slice())?;
        self.push_octets(ORIGIN_REALM, realm.as_slice())
    }

    /// Opens a group, whose members are to be added behind it, and tells where it begins. It is to be closed.
    pub(crate) fn open_group(&mut self, code: u32) -> Result<usize, AllocError>
        ensures place { IfOk result (λ start. start ≡ length self.old) }
        ensures empty { OnOk result (self.new ≡ self.old ++ spelling_of (group_avp code [] ∷ [])) }
    {
        let start = self.octets.len();
        self.push_octets(code, &[])?;
        Ok(start)
    }

    /// Closes the group that begins at this place: all that was added behind its header are its members. Its
    /// length is written over that of a group without any.
    pub(crate) fn close_group(&mut self, start: usize)
        requires header { start + 8 ≤ length self.old }
        requires short { length self.old < start + 2 ^ 24 }
        ensures { (front : List ℕ) (code : ℕ) (members : List RawAvp) → start ≡ length front →
            self.old ≡ front ++ spelling_of (group_avp code [] ∷ members) → self.new ≡ front ++ spelling_of (group_avp code members ∷ []) }
    {
        let len = self.octets.len() - start;
        BigEndian::write_u24(&mut self.octets[start + LENGTH_AT..], len as u32);
    }
}
