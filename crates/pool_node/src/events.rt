//! What fronts have done that nobody else can tell of.

ghost use Rattle.std.specs.Prelude.{◌≡◌, [], IfOk};
ghost use Rattle.pool_node.specs.Events.{Keeps, Tells, TellsSweep, event_of, no_events, with_events_on};

use cc_book::BookRefusal;
use dia_base::Moment;
use dia_message::Message;
use farm_record::{Age, Event, Recorder};
use front_pool::Finished;
use std::alloc::{AllocError, Global};
use std::marker::Model;

/// What fronts have done and is not told yet, in the order in which it was collected. One that is off takes nothing.
#[derive(Drop)]
pub struct BookEvents {
    events: Vec<Event>,
    is_on: bool,
    /// Memory was missing for an event.
    has_failed: bool,
}

impl Model for BookEvents {
    ghost use Rattle.pool_node.specs.Events.{EventsState};

    ghost Value = { EventsState };

    ghost view = { λ e. record { events = e.events.items; is_on = e.is_on; has_failed = e.has_failed } };
}

/// A copy of an answer, if there is one.
fn copy_of(answer: &Option<Message>) -> Result<Option<Message>, AllocError>
    ensures { IfOk result (λ copy. copy ≡ answer.now) }
{
    match answer {
        Some(answer) => Ok(Some(answer.clone()?)),
        None => Ok(None),
    }
}

/// A job that a worker has finished: it was charged, or answered without the book. Jobs of a front are numbered from 1, in
/// the order in which they were handed over.
fn event_of(finished: &Finished) -> Result<Event, AllocError>
    ensures { IfOk result (λ event. event ≡ event_of finished.now) }
{
    let (front, job) = (finished.front, finished.job);
    let answer = copy_of(&finished.answer)?;
    match (&finished.receipt, finished.moment) {
        (Some(receipt), Some(moment)) => Ok(Event::Charge {
            front,
            job,
            moment,
            place: receipt.place,
            age: if receipt.fresh { Age::New } else { Age::Kept },
            answer,
        }),
        (None, _) | (Some(_), None) => Ok(Event::Refuse { front, job, answer }),
    }
}

impl BookEvents {
    /// One that takes nothing.
    pub fn off(alloc: Global) -> Self
        ensures { result ≡ no_events }
    {
        BookEvents {
            events: Vec::new(alloc),
            is_on: false,
            has_failed: false,
        }
    }

    /// From now on it takes what is done.
    pub fn begin(&mut self)
        ensures { self.new ≡ with_events_on self.old }
    {
        self.is_on = true;
    }

    /// A job was collected.
    pub fn collected(&mut self, finished: &Finished)
        ensures { Tells (event_of finished.now) self.old self.new }
    {
        if self.is_on {
            match event_of(finished) {
                Ok(event) => self.keep(event),
                Err(AllocError) => self.has_failed = true,
            }
        }
    }

    /// A sweep came to this. One that ends no session is not told.
    pub fn swept(&mut self, moment: Moment, swept: &Result<u64, BookRefusal>)
        ensures { TellsSweep moment swept.now self.old self.new }
    {
        if let Ok(sessions) = swept {
            let sessions = *sessions;
            if sessions != 0 && self.is_on {
                self.keep(Event::Sweep { moment, sessions });
            }
        }
    }

    /// Keeps an event. Nothing is kept behind one that there was no memory for: a record ends there.
    fn keep(&mut self, event: Event)
        ensures { Keeps event self.old self.new }
    {
        if self.has_failed {
            return;
        }
        if self.events.push(event).is_err() {
            self.has_failed = true;
        }
    }

    /// Tells all that was done since it told last.
    pub fn tell(&mut self, alloc: Global, recorder: &mut Recorder)
        ensures { self.new ≡ record self.old { events = [] } }
    {
        for event in &self.events {
            recorder.tell(alloc, event);
        }
        self.events.clear();
        if self.has_failed {
            recorder.fail();
        }
    }
}
