//! Failed-AVP (RFC 6733, section 7.5).

ghost use Rattle.std.specs.Prelude.{◌≡◌, ◌++◌, OnOk};
ghost use Rattle.cc_view.specs.Refusal.FailedAvp.{failed_part};
ghost use Rattle.cc_view.specs.Answer.Writing.{spelling_of};

use crate::answer::draft::Draft;
use crate::view::failed_avp::is_copied;
use dia_avp::RawAvp;
use dia_base::codes::FAILED_AVP;
use std::alloc::AllocError;

/// Adds Failed-AVP, if an AVP is at fault.
pub(crate) fn push_failed(draft: &mut Draft, failed: &Option<RawAvp>) -> Result<(), AllocError>
    ensures { OnOk result (draft.new ≡ draft.old ++ spelling_of (failed_part failed.now)) }
{
    let Some(avp) = failed else {
        return Ok(());
    };
    if !is_copied(avp) {
        return Ok(());
    }
    let start = draft.open_group(FAILED_AVP)?;
    draft.push_copy(avp)?;
    draft.close_group(start);
    Ok(())
}
