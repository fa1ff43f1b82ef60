//! What is read in a request (RFC 8506, section 3.1).

ghost use Rattle.std.specs.Prelude.{◌≡◌, Err};
ghost use Rattle.cc_view.specs.Finding.{PassesWith};
ghost use Rattle.dia_grammar.specs.Profile.{profile_of};
ghost use Rattle.cc_view.specs.RequestView.{IsCreditControl, IsView, request_refusal, view_of, view_under};
ghost use Rattle.cc_view.specs.RequestView.Reading.{AreGroupsOf};
ghost use Rattle.cc_view.specs.declared.view.ViewError.TheVariants.{OutOfMemory};

pub(crate) mod broken;
pub(crate) mod content;
pub(crate) mod counting;
pub(crate) mod counts;
pub(crate) mod failed_avp;
pub(crate) mod groups;
pub(crate) mod limits;
pub(crate) mod matching;
pub(crate) mod members;
pub(crate) mod refusals;
pub(crate) mod splitting;
pub(crate) mod units;
pub(crate) mod values;

use crate::answer::carried::carries_too_much;
use crate::code::ResultCode;
use crate::refusal::Refusal;
use crate::request::CcRequest;
use crate::view::content::content_of;
use crate::view::groups::{Groups, groups_of};
use crate::view::refusals::{avps_by, check_grammar, refusal_with};
use crate::view::values::{COMMAND_VALUES, check_values};
use dia_avp::{RawAvp, Wire};
use dia_base::codes::{CREDIT_CONTROL_APPLICATION, CREDIT_CONTROL_COMMAND};
use dia_grammar::Profile;
use dia_message::Message;
use std::alloc::{AllocError, AllocFailed, Global};
use thiserror::Error;

/// Why a message is not read as a request.
#[derive(Debug, Drop, Error)]
pub enum ViewError {
    #[error("the request is refused")]
    Refused(Refusal),
    #[error("out of memory")]
    OutOfMemory,
}

impl From<AllocError> for ViewError {
    ghost from_gives = { λ _ e. e ≡ OutOfMemory };

    fn from(_e: AllocError) -> ViewError {
        ViewError::OutOfMemory
    }
}

impl<T: Drop> From<AllocFailed<T>> for ViewError {
    ghost from_gives = { λ _ e. e ≡ OutOfMemory };

    fn from(_e: AllocFailed<T>) -> ViewError {
        ViewError::OutOfMemory
    }
}

/// What a message asks of a server that knows AVPs of these vendors, and knows and tolerates nothing
/// more, or why it is refused.
pub fn request_of<W: Wire>(
    alloc: Global,
    message: &Message,
    vendors: &[u32],
) -> Result<CcRequest, ViewError>
    ensures view { IsView (view_of vendors.now message.now) result }
    // No memory is taken for a message of another application or command.
    ensures memory { result ≡ Err OutOfMemory → IsCreditControl message.now.header }
{
    request_under::<W>(alloc, message, Profile::strict(vendors))
}

/// What a message asks of a server with this profile, or why it is refused. Of the header only the
/// Application-ID and the Command Code are read.
pub fn request_under<W: Wire>(
    alloc: Global,
    message: &Message,
    profile: Profile,
) -> Result<CcRequest, ViewError>
    ensures view { IsView (view_under (profile_of profile.entry) message.now) result }
    // No memory is taken for a message of another application or command.
    ensures memory { result ≡ Err OutOfMemory → IsCreditControl message.now.header }
{
    if message.header.application != CREDIT_CONTROL_APPLICATION {
        return Err(refusal_with(ResultCode::ApplicationUnsupported));
    }
    if message.header.command != CREDIT_CONTROL_COMMAND {
        return Err(refusal_with(ResultCode::CommandUnsupported));
    }
    let split = W::split(alloc, &message.body);
    let avps = avps_by(alloc, message.body.as_slice(), split)?;
    if carries_too_much(&avps) {
        return Err(refusal_with(ResultCode::UnableToComply));
    }
    let groups = checked_groups::<W>(alloc, profile, &avps)?;
    content_of(alloc, &avps, groups)
}

/// What the groups of a request say. Refuses AVPs that are none of a request: for the grammar, then for a value, then
/// for a group.
fn checked_groups<W: Wire>(
    alloc: Global,
    profile: Profile,
    avps: &[RawAvp],
) -> Result<Groups, ViewError>
    ensures { PassesWith (request_refusal (profile_of profile.entry) avps.now) (AreGroupsOf avps.now) result }
{
    check_grammar::<W>(alloc, profile, avps)?;
    check_values(alloc, &COMMAND_VALUES, avps)?;
    groups_of::<W>(alloc, profile, avps)
}
