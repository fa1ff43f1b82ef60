//! What happened at each step of a run.

ghost use Rattle.farm_base.specs.CheckedSite.{IsChecked};

use crate::accounts::{Accounts, Charge, accounts_of, charge_between};
use crate::flights::{Ended, Flight, FlightEnd, Flights};
use crate::labels::MessageKind;
use crate::part::Part;
use cc_book::Account;
use dia_avp::Wire;
use dia_base::NodeNo;
use farm_world::{Site, Step, World};
use std::alloc::{AllocError, Global};

/// What happened at a step, beside messages that were put in flight, arrived or were lost, and connections
/// that ended.
#[derive(Clone, Copy)]
pub enum Event {
    /// It did not apply.
    Skipped,
    /// Nothing else.
    Plain,
    Connected { a: NodeNo, b: NodeNo },
    /// A node learned of its connection with another one.
    Learned { node: NodeNo, peer: NodeNo },
    /// A node did something by itself.
    At { node: NodeNo, deed: Deed },
}

/// What a node did by itself.
#[derive(Clone, Copy)]
pub enum Deed {
    Restarted,
    Crashed,
    /// A worker took a request.
    Picked,
    Charged { worker: u64, charge: Charge },
    /// A worker refused its request by order.
    Refused { worker: u64 },
    /// A worker had an answer for a connection that has ended.
    Dropped,
    /// A client sent on a connection that the other node has dropped.
    SentToNobody,
}

/// A step, or all those before the steps that are drawn.
#[derive(Drop)]
pub struct Row {
    /// Which step of the run it is, counted from 1. None for those before.
    pub number: Option<usize>,
    /// The word of its line in the schedule.
    pub word: &'static str,
    pub event: Event,
    /// What ended with connections.
    pub ended: Ended,
}

/// Steps that have no rows.
#[derive(Clone, Copy)]
pub struct LeftOut {
    /// How many came before those of the rows.
    pub before: usize,
    /// How many came after them, and the number of the first.
    pub behind: usize,
    pub next: usize,
}

/// A run: some of its steps one by one, and what it came to.
#[derive(Drop)]
pub struct Timeline {
    pub rows: Vec<Row>,
    flights: Flights,
    pub left_out: LeftOut,
    /// The accounts at the end of the run, in their order: those of the site, and behind them those that have joined.
    pub accounts: Vec<Account>,
    /// The book at the end of the run.
    pub end: Accounts,
    pub open_sessions: u64,
}

impl Timeline {
    /// The messages that were on their way, in the order in which they were put in flight.
    pub fn flights(&self) -> &[Flight] {
        self.flights.all()
    }
}

/// Runs the steps over the site, from an empty history.
pub fn timeline_of<W: Wire>(
    alloc: Global,
    site: &Site,
    steps: &[Step],
    part: Part,
) -> Result<Timeline, AllocError>
    requires { IsChecked site.now }
{
    let mut world = World::open(alloc, site)?;
    let (before, drawn, behind) = part.split(steps);
    run_on::<W>(alloc, site, &mut world, before)?;
    let mut flights = Flights::new(alloc);
    let mut rows = rows_before(alloc, &mut flights, before.len(), &world)?;
    let first = before.len().saturating_add(1);
    for (place, step) in drawn.iter().enumerate() {
        let accounts = accounts_of(alloc, world.book())?;
        let applied = world.step::<W>(alloc, site, step)?;
        record(
            alloc,
            &mut rows,
            &mut flights,
            first.saturating_add(place),
            step,
            applied,
            &accounts,
            &world,
        )?;
    }
    run_on::<W>(alloc, site, &mut world, behind)?;
    Ok(Timeline {
        rows,
        flights,
        left_out: LeftOut {
            before: before.len(),
            behind: behind.len(),
            next: first.saturating_add(drawn.len()),
        },
        accounts: world.book().accounts().to_vec(alloc)?,
        end: accounts_of(alloc, world.book())?,
        open_sessions: world.book().open_sessions(),
    })
}

/// Takes further steps.
fn run_on<W: Wire>(
    alloc: Global,
    site: &Site,
    world: &mut World,
    steps: &[Step],
) -> Result<(), AllocError> {
    for step in steps {
        world.step::<W>(alloc, site, step)?;
    }
    Ok(())
}

/// A row for so many steps before those that are drawn, at which all begins that is on its way then; no row for no steps.
fn rows_before(
    alloc: Global,
    flights: &mut Flights,
    steps: usize,
    world: &World,
) -> Result<Vec<Row>, AllocError> {
    let mut rows = Vec::new(alloc);
    if steps > 0 {
        let ended = flights.end_with_connections(alloc, world.directions(), 0)?;
        flights.begin(alloc, world.directions(), 0)?;
        rows.push(Row {
            number: None,
            word: "before",
            event: Event::Plain,
            ended,
        })?;
    }
    Ok(rows)
}

/// Adds a row for the step of this number, which led to this world.
fn record(
    alloc: Global,
    rows: &mut Vec<Row>,
    flights: &mut Flights,
    number: usize,
    step: &Step,
    applied: bool,
    before: &Accounts,
    world: &World,
) -> Result<(), AllocError> {
    let row = rows.len();
    if applied {
        end_flight(flights, step, row);
    }
    let directions = world.directions();
    let ended = flights.end_with_connections(alloc, directions, row)?;
    flights.begin(alloc, directions, row)?;
    let answer = flights.last_sent(row);
    let after = accounts_of(alloc, world.book())?;
    let event = if applied {
        event_of(step, before, &after, answer)
    } else {
        Event::Skipped
    };
    if let (true, Step::Emit { front, worker }) = (applied, step) {
        explain_charge(rows, *front, *worker, answer);
    }
    rows.push(Row {
        number: Some(number),
        word: word_of(step),
        event,
        ended,
    })?;
    Ok(())
}

/// The message that a step delivers or loses ends its way.
fn end_flight(flights: &mut Flights, step: &Step, row: usize) {
    match step {
        Step::Deliver { from, to, place } => {
            flights.end_one(*from, *to, *place, FlightEnd::Arrived { row });
        }
        Step::Lose { from, to, place } => {
            flights.end_one(*from, *to, *place, FlightEnd::Lost { row, line: 0 });
        }
        _ => {}
    }
}

/// What happened at a step that applied, and put this message in flight last.
fn event_of(step: &Step, before: &Accounts, after: &Accounts, sent: Option<MessageKind>) -> Event {
    let (node, deed) = match step {
        Step::Up { a, b } => return Event::Connected { a: *a, b: *b },
        Step::Accept { at, from } => return learned(*at, *from),
        Step::Opened { a, b } => return learned(*a, *b),
        Step::Restart { node } => (*node, Deed::Restarted),
        Step::Crash { node } => (*node, Deed::Crashed),
        Step::Pick { front, .. } => (*front, Deed::Picked),
        Step::Charge { front, worker, .. } => {
            let worker = *worker;
            let charge = charge_between(before, after);
            (*front, Deed::Charged { worker, charge })
        }
        Step::Refuse { front, worker } => (*front, Deed::Refused { worker: *worker }),
        Step::Emit { front, .. } if sent.is_none() => (*front, Deed::Dropped),
        Step::Send { client, .. } if sent.is_none() => (*client, Deed::SentToNobody),
        _ => return Event::Plain,
    };
    Event::At { node, deed }
}

fn learned(node: NodeNo, peer: NodeNo) -> Event {
    Event::Learned { node, peer }
}

/// What a worker answers tells why its charge left the book as it was.
fn explain_charge(rows: &mut [Row], front: NodeNo, worker: u64, answer: Option<MessageKind>) {
    let told = match answer {
        Some(MessageKind::Answer) => Charge::Repeated,
        Some(MessageKind::Refusal) => Charge::Refused,
        Some(MessageKind::Request) | None => return,
    };
    let Some(place) = rows
        .iter()
        .rposition(|row| is_work_of(&row.event, front, worker))
    else {
        return;
    };
    if let Some(row) = rows.get_mut(place) {
        explain(&mut row.event, told);
    }
}

/// Whether a worker of the front did it, and holds an answer then.
fn is_work_of(event: &Event, front: NodeNo, worker: u64) -> bool {
    match event {
        Event::At { node, deed } => match deed {
            Deed::Charged { worker: by, .. } | Deed::Refused { worker: by } => {
                *node == front && *by == worker
            }
            _ => false,
        },
        _ => false,
    }
}

fn explain(event: &mut Event, told: Charge) {
    if let Event::At { deed, .. } = event {
        if let Deed::Charged { charge, .. } = deed {
            if matches!(charge, Charge::Unchanged) {
                *charge = told;
            }
        }
    }
}

/// The word of a step's line.
fn word_of(step: &Step) -> &'static str {
    match step {
        Step::Up { .. } => "up",
        Step::Accept { .. } => "accept",
        Step::Opened { .. } => "opened",
        Step::Send { .. } => "send",
        Step::Deliver { .. } => "deliver",
        Step::Lose { .. } => "lose",
        Step::Cut { .. } => "cut",
        Step::Drop { .. } => "drop",
        Step::Restart { .. } => "restart",
        Step::Crash { .. } => "crash",
        Step::Pick { .. } => "pick",
        Step::Charge { .. } => "charge",
        Step::Refuse { .. } => "refuse",
        Step::Emit { .. } => "emit",
        Step::Sweep { .. } => "sweep",
        Step::ChangeTerms { .. } => "terms",
    }
}
