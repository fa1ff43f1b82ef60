//! Octets that may be no list of AVPs.

ghost use Rattle.std.specs.Prelude.{◌≡◌};
ghost use Rattle.cc_view.specs.RequestView.Splitting.{readable_of};

use dia_avp::{AvpFault, RawAvp};
use std::alloc::AllocError;

/// The AVPs of a split, none where the octets are no list of AVPs.
pub(crate) fn readable(
    split: Result<Vec<RawAvp>, AvpFault>,
) -> Result<Option<Vec<RawAvp>>, AllocError>
    ensures { result ≡ readable_of split }
{
    match split {
        Ok(avps) => Ok(Some(avps)),
        Err(fault) => match fault {
            AvpFault::OutOfMemory => Err(AllocError),
            _ => Ok(None),
        },
    }
}
