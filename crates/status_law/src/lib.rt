//! Who may do what at the status port of a node: laws over the definitions of `farm_status`. No function here does anything, and nothing
//! stands on it.
#![tactic(auto)]

mod laws;

pub use laws::{no_token_is_nobodys, who_has_no_token_may_only_read};
