//! Lists of AVPs as octets, and back.

ghost use Rattle.std.specs.Prelude.{◌≡◌, ◌≤◌, ◌<◌, ◌^◌, ◌++◌, OnOk, OnErr, IsOkUnless};
ghost use Rattle.dia_avp.specs.AvpList.{Reads, Answers, length_of, written};

use crate::avp::RawAvp;
use crate::fault::AvpFault;
use crate::octets::Octets;
use std::alloc::Global;

/// How deep groups may be nested.
pub const DEPTH_LIMIT: u32 = 4;

/// Reads and writes lists of AVPs.
pub trait Wire {
    /// The AVPs that the octets spell.
    fn split(alloc: Global, body: &Octets) -> Result<Vec<RawAvp>, AvpFault>
        ensures { Answers (Reads body.now) result };

    /// The AVPs that the value of a group at this depth spells. At the top the depth is 1.
    fn inside(alloc: Global, avp: &RawAvp, depth: u32) -> Result<Vec<RawAvp>, AvpFault>
        ensures deep { 4 < depth → result ≡ Err AvpFault.TooDeep }
        ensures group { depth ≤ 4 → Answers (Reads avp.now.value) result };

    /// Writes an AVP at the end. A fault leaves `out` as it was.
    fn spell(out: &mut Vec<u8>, avp: &RawAvp) -> Result<(), AvpFault>
        ensures ok { OnOk result (out.new.items ≡ out.old.items ++ written avp.now) }
        ensures fits { length_of avp.now < 2 ^ 24 → IsOkUnless result AvpFault.OutOfMemory }
        ensures too_long { 2 ^ 24 ≤ length_of avp.now → result ≡ Err AvpFault.TooLong }
        ensures err { OnErr result (out.new.items ≡ out.old.items) };
}
