//! The Proxy-Info that goes back with an answer (RFC 6733, section 6.2). Most requests have none.

ghost use Rattle.std.specs.Prelude.{◌≡◌, ◌++◌, [], IsTrue, OnOk};
ghost use Rattle.dia_avp.specs.AvpReading.{split_of};
ghost use Rattle.cc_view.specs.Answer.Carried.{carriable_avps, proxies_in};
ghost use Rattle.cc_view.specs.Answer.Writing.{spelling_of};

use crate::answer::carried::{carriable_avps, push_proxies};
use crate::answer::draft::Draft;
use dia_avp::{Octets, Wire, front_of};
use dia_base::codes::PROXY_INFO;
use std::alloc::{AllocError, Global};

/// Adds each Proxy-Info of a body that may be carried back. The body is split only where there may be one.
pub(crate) fn push_proxies_of<W: Wire>(
    alloc: Global,
    draft: &mut Draft,
    body: &Octets,
) -> Result<(), AllocError>
    ensures { OnOk result (draft.new ≡ draft.old ++ spelling_of (proxies_in (carriable_avps (split_of body.now)))) }
{
    if lacks_proxies(body.as_slice()) {
        return Ok(());
    }
    let carried = carriable_avps::<W>(alloc, body)?;
    push_proxies(draft, &carried)
}

/// Whether a walk over the AVPs that octets spell finds no Proxy-Info. Octets that are no list of AVPs need not
/// show it. It takes no memory.
fn lacks_proxies(octets: &[u8]) -> bool
    ensures { IsTrue result → proxies_in (carriable_avps (split_of octets.now)) ≡ [] }
{
    let mut rest = octets;
    while let Ok((avp, behind)) = front_of(octets.len() - rest.len(), rest) {
        if avp.code == PROXY_INFO {
            return false;
        }
        rest = behind;
    }
    rest.is_empty()
}
