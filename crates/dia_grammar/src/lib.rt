//! Which AVPs a Credit-Control-Request may and must have (RFC 8506, section 3.1; RFC 6733, section
//! 4.1), whatever most of their values are.
//!
//! - [`check`]: the first fault of a request's AVPs, as a [`GrammarFault`] with its code or place.
//! - [`check_under`]: the same under a [`Profile`]: what a server knows beside the dictionary, and each
//!   [`Tolerance`] that it has for what clients send.
//! - [`is_of`], [`is_among`], [`has_avp`], [`is_known`], [`first_unknown`], [`first_repeated`], [`first_missing`]:
//!   the same questions of any AVP or list of AVPs, for groups.
//!
//! An AVP that is named by its code is one of vendor 0. A place is one in the list of AVPs, counted
//! from 0. No call takes memory.
//!
//! `specs/Grammar` says what is asked of the AVPs, case by case in the order in which the cases
//! decide, and `specs/Profile` what a profile is. The functions of `laws` have no body: their contracts are laws of these definitions. They
//! say what a request is ([`faultless_avps_are_a_request`]) and what a fault is ([`told_faults_are_there`],
//! [`second_ones_are_counted`]), and what leaves the answer as it is ([`more_may_follow`],
//! [`route_record_may_follow`], [`values_do_not_count`]). Worked examples are laws too
//! ([`known_avps_may_stand_behind`], [`codes_of_a_profile_are_known`], [`faults_are_told_in_their_order`], [`session_ids_come_first`],
//! [`groups_lack_what_is_missing`]).
//!
//! ```
//! use dia_base::codes::{SUBSCRIPTION_ID_DATA, SUBSCRIPTION_ID_TYPE};
//! use dia_grammar::{GrammarFault, check, first_missing};
//!
//! /// What is wrong with a request, or with the group that is its last AVP.
//! fn fault(request: &[RawAvp], group: &[RawAvp], vendors: &[u32]) -> Option<GrammarFault> {
//!     match check(request, vendors) {
//!         Ok(()) => first_missing(group, &[SUBSCRIPTION_ID_TYPE, SUBSCRIPTION_ID_DATA])
//!             .map(|code| GrammarFault::Missing { code }),
//!         Err(fault) => Some(fault),
//!     }
//! }
//! ```
#![tactic(auto)]

mod asking;
mod fault;
mod laws;
mod profile;
mod request;

pub use asking::{
    first_missing, first_repeated, first_unknown, has_avp, is_among, is_known, is_of,
};
pub use fault::GrammarFault;
pub use laws::{
    codes_of_a_profile_are_known, faultless_avps_are_a_request, faults_are_told_in_their_order,
    groups_lack_what_is_missing, known_avps_may_stand_behind, more_may_follow,
    route_record_may_follow, second_ones_are_counted, session_ids_come_first,
    told_faults_are_there, values_do_not_count,
};
pub use profile::{Profile, SiteProfile, Tolerance};
pub use request::{check, check_under};
