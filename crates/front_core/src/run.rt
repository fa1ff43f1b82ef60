//! A front over a list of events.

ghost use Rattle.std.specs.Prelude.{◌≡◌, [], map, IfOk, IsOkUnless, OnOk, if◌then◌else◌};
ghost use Rattle.cc_book.specs.Taking.{after_sweep};
ghost use Rattle.front_core.specs.ChangingTerms.{after_change};
ghost use Rattle.front_core.specs.FrontRun.{after_event, run_of};
ghost use Rattle.front_core.specs.FrontState.{new_front, is_among};
ghost use Rattle.front_core.specs.FrontStep.{after_arrival, sent_at_arrival};
ghost use Rattle.front_core.specs.Promise.{KeepsPromise};

use crate::error::FrontError;
use crate::event::FrontEvent;
use crate::front::Front;
use crate::site::FrontSite;
use cc_book::{Book, BookRefusal, ChangeRefusal, TermsChange};
use dia_avp::Wire;
use dia_base::{ConnId, Moment};
use dia_message::{Message, Out};
use std::alloc::{AllocError, Global};

/// A front of this site, of which it copies what it keeps.
fn front_of(alloc: Global, site: &FrontSite) -> Result<Front, AllocError>
    ensures { IfOk result (λ front. front ≡ new_front site.now) }
{
    let site = FrontSite {
        name: site.name.clone()?,
        realm: site.realm.clone()?,
        profile: site.profile.clone()?,
        workers: site.workers,
        queue: site.queue,
    };
    Front::of_site(alloc, site)
}

/// What is sent where a message comes. One on a connection that is not up is lost.
fn on_message<W: Wire>(
    alloc: Global,
    front: &mut Front,
    conn: ConnId,
    message: &Message,
) -> Result<Out, FrontError>
    ensures front { OnOk result (front.new ≡ (if is_among front.old.connections conn then after_arrival front.old conn message.now else front.old)) }
    ensures sent { IfOk result (λ out. out.items ≡ (if is_among front.old.connections conn then sent_at_arrival front.old conn message.now else [])) }
    ensures memory { IsOkUnless result FrontError.OutOfMemory }
{
    match front.on_message::<W>(alloc, conn, message.clone()?) {
        Err(FrontError::UnknownConn { .. }) => Ok(Out::nothing(alloc)),
        result => result,
    }
}

/// A sweep of the book. One that meets the limit of the history changes nothing.
fn sweep(book: &mut Book, moment: Moment) -> Result<(), FrontError>
    ensures book { OnOk result (book.new ≡ after_sweep book.old moment) }
    ensures memory { IsOkUnless result FrontError.OutOfMemory }
{
    match book.sweep(moment) {
        Ok(_) | Err(BookRefusal::Full { .. }) => Ok(()),
        Err(BookRefusal::OutOfMemory) => Err(FrontError::OutOfMemory),
    }
}

/// A change of the terms of the book. One that the book refuses changes nothing.
fn change_terms(
    alloc: Global,
    book: &mut Book,
    moment: Moment,
    change: &TermsChange,
) -> Result<(), FrontError>
    ensures book { OnOk result (book.new ≡ after_change book.old moment change.now) }
    ensures memory { IsOkUnless result FrontError.OutOfMemory }
{
    match book.change_terms(alloc, moment, change.copy(alloc)?) {
        Ok(_)
        | Err(
            ChangeRefusal::Nothing
            | ChangeRefusal::AlreadyThere { .. }
            | ChangeRefusal::Twice { .. }
            | ChangeRefusal::NotThere { .. }
            | ChangeRefusal::ClosedAlready { .. }
            | ChangeRefusal::ClosedTwice { .. }
            | ChangeRefusal::NotClosed { .. }
            | ChangeRefusal::ReopenedTwice { .. }
            | ChangeRefusal::Full { .. },
        ) => Ok(()),
        Err(ChangeRefusal::OutOfMemory) => Err(FrontError::OutOfMemory),
    }
}

/// What is sent at an event. A step that does not apply sends nothing.
fn on_event<W: Wire>(
    alloc: Global,
    front: &mut Front,
    book: &mut Book,
    event: &FrontEvent,
) -> Result<Out, FrontError>
    ensures front { OnOk result (front.new ≡ (after_event front.old book.old event.now).front) }
    ensures book { OnOk result (book.new ≡ (after_event front.old book.old event.now).ledger) }
    ensures sent { IfOk result (λ out. out.items ≡ (after_event front.old book.old event.now).sent) }
    ensures memory { IsOkUnless result FrontError.OutOfMemory }
{
    match event {
        FrontEvent::Up { conn } => front.conn_up(*conn)?,
        FrontEvent::Message { conn, message } => {
            return on_message::<W>(alloc, front, *conn, message);
        }
        FrontEvent::Pick { worker } => {
            front.pick(*worker);
        }
        FrontEvent::Charge { worker, moment } => {
            front.charge::<W>(alloc, *worker, book, *moment)?;
        }
        FrontEvent::Refuse { worker } => {
            front.refuse::<W>(alloc, *worker)?;
        }
        FrontEvent::Emit { worker } => {
            if let Some(out) = front.emit(alloc, *worker)? {
                return Ok(out);
            }
        }
        FrontEvent::Sweep { moment } => sweep(book, *moment)?,
        FrontEvent::ChangeTerms { moment, change } => change_terms(alloc, book, *moment, change)?,
        FrontEvent::Lost { conn } => front.conn_lost(*conn),
        FrontEvent::Restart => front.restart(),
    }
    Ok(Out::nothing(alloc))
}

impl Front {
    /// Runs a front of this site over the events, from no connection and with this book: what is sent
    /// at each event, and the book after the last. A step that does not apply sends nothing, nor does a
    /// message on a connection that is not up. Want of memory ends the run, and the book is given up.
    pub fn run<W: Wire>(
        alloc: Global,
        site: &FrontSite,
        book: Book,
        events: &[FrontEvent],
    ) -> Result<(Vec<Out>, Book), FrontError>
        ensures sent { IfOk result (λ ran. map (λ out. out.items) ran.0.items ≡ (run_of site.now book events.now).sent) }
        ensures book { IfOk result (λ ran. ran.1 ≡ (run_of site.now book events.now).ledger) }
        ensures promise { IfOk result (λ ran. KeepsPromise site.now book events.now (map (λ out. out.items) ran.0.items) ran.1) }
        ensures memory { IsOkUnless result FrontError.OutOfMemory }
    {
        let mut book = book;
        // The proof takes from it that the history is legal.
        let _kept = book.history();
        let mut front = front_of(alloc, site)?;
        let mut outs = Vec::new(alloc);
        for event in events {
            outs.push(on_event::<W>(alloc, &mut front, &mut book, event)?)?;
        }
        Ok((outs, book))
    }
}
