//! A front alone over a list of events: a debit comes, and its answer goes out.

use crate::sent::print_sent;
use cc_book::Book;
use dia_avp::ViewWire;
use dia_base::{ConnId, Identity, Listing, Moment};
use dia_grammar::SiteProfile;
use dia_message::Out;
use front_core::{Front, FrontEvent, FrontSite};
use samples_given::{ONE_ACCOUNT, book, debit};
use std::alloc::Global;

fn events(alloc: Global) -> anyhow::Result<Vec<FrontEvent>> {
    let conn = ConnId(1);
    let message = debit(alloc, 0)?;
    Ok(vec![in alloc;
        FrontEvent::Up { conn },
        FrontEvent::Message { conn, message },
        FrontEvent::Pick { worker: 0 },
        FrontEvent::Charge {
            worker: 0,
            moment: Moment(1_000)
        },
        FrontEvent::Emit { worker: 0 },
    ]?)
}

fn site(alloc: Global) -> anyhow::Result<FrontSite> {
    let name = Identity::read(alloc, b"f1.example")?;
    let realm = Identity::read(alloc, b"ocs.example")?;
    Ok(FrontSite {
        name,
        realm,
        profile: SiteProfile::strict(alloc, Listing::empty(alloc)),
        workers: 1,
        queue: 1,
    })
}

/// Prints what the front sends, and the balance of the account.
fn print(rt: &impl Print, alloc: Global, outs: &[Out], book: &Book) -> anyhow::Result<()> {
    print_sent(rt, alloc, outs)?;
    println!(rt; "balance {}", book.balance(0).unwrap_or(0))?;
    Ok(())
}

fn print_events(
    rt: &impl Print,
    alloc: Global,
    site: &FrontSite,
    events: &[FrontEvent],
) -> anyhow::Result<()> {
    let book = book(alloc, &ONE_ACCOUNT, 10)?;
    let (outs, book) = Front::run::<ViewWire>(alloc, site, book, events)?;
    print(rt, alloc, &outs, &book)
}

fn print_at(rt: &impl Print, alloc: Global, site: &FrontSite) -> anyhow::Result<()> {
    let events = events(alloc)?;
    print_events(rt, alloc, site, &events)
}

/// Prints what the front sends, and the balance of the account.
pub fn print_run(rt: &impl Print, alloc: Global) -> anyhow::Result<()> {
    let site = site(alloc)?;
    print_at(rt, alloc, &site)
}
