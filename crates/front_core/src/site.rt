//! What a front is configured with.

use dia_base::Identity;
use dia_grammar::SiteProfile;

/// The configuration of one front.
#[derive(Drop)]
pub struct FrontSite {
    /// Its Origin-Host.
    pub name: Identity,
    /// Its Origin-Realm.
    pub realm: Identity,
    /// What it knows beside the dictionary, and what it tolerates.
    pub profile: SiteProfile,
    /// How many workers it has.
    pub workers: u32,
    /// How many requests may wait.
    pub queue: u32,
}
