//! Why an AVP has no value of the dictionary, and why a value has no AVP.

ghost use Rattle.std.specs.Prelude.{◌≡◌};
ghost use Rattle.dia_dict.specs.declared.fault.DictFault.TheVariants.{OutOfMemory};

use std::alloc::AllocError;
use thiserror::Error;

/// What is wrong, with the code of the AVP at fault.
#[derive(Clone, Copy, Debug, PartialEq, Eq, Error)]
pub enum DictFault {
    #[error("the value of AVP {code} has a length that its kind has not")]
    BadLength { code: u32 },
    #[error("the text of AVP {code} is not UTF-8")]
    BadUtf8 { code: u32 },
    #[error("the value of AVP {code} is none of its enumeration")]
    BadEnumerated { code: u32 },
    #[error("the dictionary has no AVP {code}")]
    NoRow { code: u32 },
    #[error("out of memory")]
    OutOfMemory,
}

impl From<AllocError> for DictFault {
    ghost from_gives = { λ _ e. e ≡ OutOfMemory };

    fn from(_e: AllocError) -> DictFault {
        DictFault::OutOfMemory
    }
}
