//! AVPs by their codes. All are of vendor 0.

ghost use Rattle.std.specs.Prelude.{◌≡◌, find, IfOk};
ghost use Rattle.std.specs.Option.{option_copied};
ghost use Rattle.dia_grammar.specs.Grammar.{is_of};
ghost use Rattle.cc_view.specs.RequestView.Content.{octets_in};

use dia_avp::{Octets, RawAvp};
use dia_grammar::is_of;
use std::alloc::{AllocError, Global};

/// The first AVP of this code.
pub(crate) fn first_of(avps: &[RawAvp], code: u32) -> Option<&RawAvp>
    ensures { option_copied result ≡ find (is_of code) avps.now }
{
    avps.iter().find(|avp| is_of(avp, code))
}

/// A copy of the octets of the first AVP of this code.
pub(crate) fn octets_in(alloc: Global, avps: &[RawAvp], code: u32) -> Result<Octets, AllocError>
    ensures { IfOk result (λ octets. octets ≡ octets_in code avps.now) }
{
    match first_of(avps, code) {
        Some(avp) => Octets::copy_of(alloc, avp.value.as_slice()),
        None => Octets::from_vec(Vec::new(alloc)),
    }
}
