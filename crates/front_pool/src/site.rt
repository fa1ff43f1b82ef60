//! What a pool is made with, and what names it.

use cc_shared::Sharing;
use dia_base::{Identity, NodeNo};
use dia_grammar::SiteProfile;
use farm_clock::Timer;
use std::marker::Brand;

/// What a pool is made with.
#[derive(Drop)]
pub struct PoolQueue {
    /// The front in whose name its answers are.
    pub front: NodeNo,
    /// The Origin-Host of its answers.
    pub name: Identity,
    /// Their Origin-Realm.
    pub realm: Identity,
    /// What it knows beside the dictionary, and what it tolerates.
    pub profile: SiteProfile,
    /// By which requests are charged.
    pub timer: Timer,
    /// How many jobs may wait, and how many finished answers: at least 1.
    pub jobs: usize,
}

/// The front in whose name a pool answers.
#[derive(Drop)]
pub struct PoolSite {
    /// Its Origin-Host.
    pub name: Identity,
    /// Its Origin-Realm.
    pub realm: Identity,
    /// What it knows beside the dictionary, and what it tolerates.
    pub profile: SiteProfile,
}

/// Names the pools on one book: its sharing, and the fronts in whose names they answer, by their numbers. Each call of a
/// program that starts pools picks it.
pub trait Pooling: Sharing {
    ghost use Rattle.dia_base.specs.declared.number.NodeNo.{NodeNo};
    ghost use Rattle.front_pool.specs.declared.site.PoolSite.{PoolSite};

    ghost site: { NodeNo → PoolSite };
}

impl Pooling for Brand {
    ghost use Rattle.std.specs.Prelude.{[]};
    ghost use Rattle.dia_grammar.specs.Profile.{strict};

    ghost site = { λ front. record { name = []; realm = []; profile = strict [] } };
}
