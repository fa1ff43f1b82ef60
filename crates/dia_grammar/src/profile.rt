//! What a server knows beside the dictionary, and what it tolerates in a request.

ghost use Rattle.std.specs.Prelude.{◌≡◌, ◌==◌, length};
ghost use Rattle.dia_grammar.specs.Profile.{is_application_in_group, is_origin_twice, profile_of, strict, tolerates_application_in_group, tolerates_origin_twice};

use dia_base::Listing;
use std::alloc::{AllocError, Global};
use std::marker::Model;

/// A deviation of clients that a server may tolerate.
#[derive(Clone, Copy, PartialEq, Eq)]
pub enum Tolerance {
    /// A further Origin-Host or Origin-Realm that has the octets of one before it is not counted.
    OriginTwice,
    /// An Auth-Application-Id of Credit-Control in a Vendor-Specific-Application-Id stands for one that
    /// is missing.
    ApplicationInGroup,
}

/// What of a request is known beside the dictionary, and what is tolerated beside the grammar.
#[derive(Clone, Copy)]
pub struct Profile<'a> {
    /// Vendors whose AVPs are known.
    pub vendors: &'a [u32],
    /// Codes of vendor 0 that are known. Their AVPs are opaque: nothing is read in them.
    pub known: &'a [u32],
    pub tolerated: &'a [Tolerance],
}

impl<'a> Profile<'a> {
    /// The profile that has these vendors and nothing more.
    pub fn strict(vendors: &'a [u32]) -> Self
        ensures { profile_of result ≡ strict vendors.now }
    {
        Profile {
            vendors,
            known: &[],
            tolerated: &[],
        }
    }

    /// Whether nothing is tolerated.
    pub fn tolerates_nothing(self) -> bool
        ensures { result ≡ (length (profile_of self.entry).tolerated == 0) }
    {
        self.tolerated.is_empty()
    }

    /// Whether a further Origin-Host or Origin-Realm of the same octets is tolerated.
    pub fn tolerates_origin_twice(self) -> bool
        ensures { result ≡ tolerates_origin_twice (profile_of self.entry) }
    {
        self.tolerated.iter().any(is_origin_twice)
    }

    /// Whether an Auth-Application-Id in a group is tolerated.
    pub fn tolerates_application_in_group(self) -> bool
        ensures { result ≡ tolerates_application_in_group (profile_of self.entry) }
    {
        self.tolerated.iter().any(is_application_in_group)
    }
}

/// A profile that a server keeps: what a [`Profile`] lends.
#[derive(Drop)]
pub struct SiteProfile {
    /// Vendors whose AVPs are known.
    pub vendors: Listing<u32>,
    /// Codes of vendor 0 that are known.
    pub known: Listing<u32>,
    pub tolerated: Listing<Tolerance>,
}

impl Model for SiteProfile {
    ghost use Rattle.dia_grammar.specs.Profile.{RequestProfile};

    ghost Value = { RequestProfile };

    ghost view = { λ p. record { vendors = p.vendors; known = p.known; tolerated = p.tolerated } };
}

impl SiteProfile {
    /// The profile that has these vendors and nothing more.
    pub fn strict(alloc: Global, vendors: Listing<u32>) -> Self
        ensures { result ≡ strict vendors }
    {
        SiteProfile {
            vendors,
            known: Listing::empty(alloc),
            tolerated: Listing::empty(alloc),
        }
    }

    /// What a view asks of it.
    pub fn as_profile(&self) -> Profile<'_>
        ensures { profile_of result ≡ self.now }
    {
        Profile {
            vendors: self.vendors.as_slice(),
            known: self.known.as_slice(),
            tolerated: self.tolerated.as_slice(),
        }
    }
}

impl Clone for SiteProfile {
    ghost is_clone = { λ a b. a ≡ b };

    fn clone(&self) -> Result<Self, AllocError> {
        Ok(SiteProfile {
            vendors: self.vendors.clone()?,
            known: self.known.clone()?,
            tolerated: self.tolerated.clone()?,
        })
    }
}

fn is_origin_twice(tolerance: &Tolerance) -> bool
    ensures { result ≡ is_origin_twice tolerance.now }
{
    match tolerance {
        Tolerance::OriginTwice => true,
        Tolerance::ApplicationInGroup => false,
    }
}

fn is_application_in_group(tolerance: &Tolerance) -> bool
    ensures { result ≡ is_application_in_group tolerance.now }
{
    match tolerance {
        Tolerance::OriginTwice => false,
        Tolerance::ApplicationInGroup => true,
    }
}
