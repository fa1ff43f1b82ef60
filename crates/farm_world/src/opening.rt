//! The farm before its first step.

ghost use Rattle.std.specs.Prelude.{◌≡◌, ◌≤◌, ◌<◌, ◌^◌, IfOk, None};
ghost use Rattle.cc_rating.specs.Tariffs.{fault_of};
ghost use Rattle.farm_base.specs.CheckedSite.{IsChecked};
ghost use Rattle.farm_model.specs.Run.{fresh_front, front_if, fronts_from, empty_book, start};

mod relays;

use crate::world::World;
use cc_book::{Account, Book, Money};
use cc_rating::{Tariff, Tariffs};
use dia_base::{NodeKind, NodeNo};
use farm_model::{FrontAt, Node, Site};
use front_core::{Front, FrontSite};
pub use relays::{relay_starting_at, relays_of};
use std::alloc::{AllocError, Global};

fn fresh_front(alloc: Global, site: &Site, node: &Node) -> Result<Front, AllocError>
    ensures { IfOk result (λ front. front ≡ fresh_front site.now node.now) }
{
    let configured = FrontSite {
        name: node.name.clone()?,
        realm: site.realm.clone()?,
        profile: site.front_profile()?,
        workers: site.workers,
        queue: site.queue,
    };
    Front::of_site(alloc, configured)
}

/// The fronts among the nodes of the site, each with nothing in its queue.
pub fn fronts_of(alloc: Global, site: &Site) -> Result<Vec<FrontAt>, AllocError>
    requires { IsChecked site.now }
    ensures { IfOk result (λ fronts. fronts.items ≡ fronts_from site.now 0 site.now.nodes) }
{
    let mut fronts = Vec::new(alloc);
    for (place, node) in site.nodes.as_slice().iter().enumerate() {
        match node.kind {
            NodeKind::Front => {
                let front = fresh_front(alloc, site, node)?;
                let node = NodeNo(place as u32);
                fronts.push(FrontAt { node, front })?;
            }
            NodeKind::Relay => {}
            NodeKind::Client => {}
        }
    }
    Ok(fronts)
}

fn accounts_of(alloc: Global, accounts: &[Account]) -> Result<Vec<Account>, AllocError>
    ensures { IfOk result (λ copies. copies.items ≡ accounts.now) }
{
    let mut copies = Vec::new(alloc);
    for account in accounts {
        copies.push(Account {
            id_kind: account.id_kind,
            id: account.id.clone()?,
            opening: account.opening,
        })?;
    }
    Ok(copies)
}

fn tariffs_of(alloc: Global, tariffs: &[Tariff]) -> Result<Tariffs, AllocError>
    requires { fault_of tariffs.now ≡ None }
    ensures { IfOk result (λ made. made ≡ tariffs.now) }
{
    let copies = Vec::from_slice(alloc, tariffs)?;
    match Tariffs::new(alloc, copies) {
        Ok(made) => Ok(made),
        Err(_) => Err(AllocError),
    }
}

/// The book of the site: its accounts with what they are opened with, its tariffs, and no entry.
pub fn empty_book(alloc: Global, site: &Site) -> Result<Book, AllocError>
    requires { IsChecked site.now }
    ensures { IfOk result (λ book. book ≡ empty_book site.now) }
{
    let accounts = accounts_of(alloc, site.accounts.as_slice())?;
    let tariffs = tariffs_of(alloc, site.tariffs.as_slice())?;
    let money = Money {
        currency: site.currency,
        exponent: site.exponent,
    };
    Book::new(alloc, accounts, tariffs, site.validity, money, site.limit)
}

impl World {
    /// The farm of a site: its fronts and relays, no connection, and the book with its opening amounts.
    pub fn open(alloc: Global, site: &Site) -> Result<Self, AllocError>
        requires { IsChecked site.now }
        ensures { IfOk result (λ world. world ≡ start site.now) }
    {
        Ok(World {
            directions: Vec::new(alloc),
            fronts: fronts_of(alloc, site)?,
            relays: relays_of(alloc, site)?,
            book: empty_book(alloc, site)?,
            sent: Vec::new(alloc),
            received: Vec::new(alloc),
            ends: Vec::new(alloc),
        })
    }
}
