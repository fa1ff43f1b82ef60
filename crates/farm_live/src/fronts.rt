//! A process that serves as all fronts of the site.

ghost use Rattle.std.specs.Prelude.{◌≡◌, ◌<◌, ◌≤◌, ◌*◌, false, is_some, length, IfOk, true};
ghost use Rattle.dia_base.specs.declared.number.NodeNo.{NodeNo};
ghost use Rattle.farm_base.specs.CheckedSite.{IsChecked};
ghost use Rattle.book_journal.specs.Kept.{IsKeptBy, IsSettled};
ghost use Rattle.book_opening.specs.Opened.{HoldsWhereLed, now_in};
ghost use Rattle.farm_live.specs.Serving.{IsServed};
ghost use Rattle.farm_endpoints.specs.Endpoints.{fronts_from};
ghost use Rattle.farm_terms.specs.SiteAccounts.{AreTermsOf};
ghost use Rattle.farm_terms.specs.SiteChange.{LeadsToSite};
ghost use Rattle.pool_node.specs.Fronts.{site_of};

use crate::boxed::{Boxed, behind_pointer};
use crate::fault::Fault;
use crate::jobs::BookJobs;
use crate::serving::serve_over;
use crate::setting::Setting;
use crate::waker::LoopWaker;
use book_clock::check_clock;
use book_file::FileBook;
use book_journal::Journal;
use book_opening::{change_for, identity_at, open_book, renewed_by, serving_book, state_id_of};
use book_store::RowStore;
use cc_book::{Book, Terms, TermsChange};
use cc_shared::{BlankHistory, SharedBook};
use dia_avp::ViewWire;
use dia_base::NodeNo;
use farm_base::Site;
use farm_clock::Timer;
use farm_command::Process;
use farm_endpoints::{Endpoint, endpoint_of, fronts_of};
use farm_event_loop::Sockets;
use farm_terms::{site_change, site_terms};
use front_pool::Pooling;
use log::{LevelFilter, warn};
use pool_node::{PoolFronts, Timing, seats_for, start_fronts};
use std::alloc::Global;
use std::marker::Brand;
use std::net::Net;
use std::random::RandomSource;
use std::rt::Clock;
use std::sync::Wait;
use std::sync::ledger::Blank;
use std::thread::Threads;

/// Where fronts listen, and the sockets of their process, of which their workers have the waker.
#[derive(Drop)]
struct FrontSockets {
    endpoints: Vec<Endpoint>,
    sockets: Sockets,
    waker: LoopWaker,
}

/// Serves as all fronts of the site, each with as many workers as the site says, until so many answers were sent, 0 for
/// ever, or until it is asked to end. Its book is opened before anything is connected or listens.
#[tactic(auto, using(crate::proofs::Served::led_terms_hold))]
pub fn serve_fronts<O>(setting: &Setting<'_, O>, answers: u64) -> Result<(), Fault>
where
    O: Threads + Wait + Net + Clock + RandomSource + Copy + Send + 'static,
    requires { IsChecked setting.now.site.now }
{
    let (alloc, site) = (setting.rt.alloc(), setting.site);
    let nodes = fronts_of(alloc, site)?;
    let timer = Timer::start(setting.os)?;
    let state = state_of(setting, timer)?;
    let listening = sockets_of(setting, &nodes, state)?;
    let Some(workers) = seats_for(nodes.len(), site.workers) else {
        return Err(Fault::OutOfMemory);
    };
    let workers = workers.max(1);
    let (opened, change) = book_of(setting)?;
    let (journal, book, timing) = allowed_to_serve(alloc, opened, change, timer, setting.command)?;
    let journal = behind_pointer(alloc, journal)?;
    serve_on::<Brand, Boxed<FileBook>, O>(
        setting,
        nodes,
        listening,
        Blank::new(workers),
        BlankHistory::new(),
        book,
        journal,
        timing,
        workers,
        answers,
    )
}

/// The book that serves, with the change that leads from its terms to those of the site: that of the file, or where none is named an empty
/// one.
fn book_of<O>(setting: &Setting<'_, O>) -> Result<((Journal<FileBook>, Book), TermsChange), Fault>
    requires { IsChecked setting.now.site.now }
    ensures kept { IfOk result (λ opened. IsKeptBy ⟦<FileBook as RowStore>⟧.is_clean ⟦<FileBook as RowStore>⟧.is_ready ⟦<FileBook as RowStore>⟧.rows ⟦<FileBook as RowStore>⟧.beside opened.0.0 opened.0.1) }
    ensures settled { IfOk result (λ opened. IsSettled opened.0.0) }
    ensures limit { IfOk result (λ opened. opened.0.1.limit ≡ setting.now.site.now.limit) }
    ensures stored { IfOk result (λ opened. is_some opened.0.0.store ≡ is_some setting.now.book) }
    ensures leads { IfOk result (λ opened. LeadsToSite setting.now.site.now (is_some setting.now.accounts) (now_in opened.0.1) opened.1) }
{
    match setting.book {
        Some(path) => stored_book(setting, path),
        None => book_in_memory(setting),
    }
}

/// The same of the book in a file. The accounts of a file beside the site's are read behind it, and no list of them is made: so they do not
/// stand in memory beside those of the book.
fn stored_book<O>(
    setting: &Setting<'_, O>,
    path: &str,
) -> Result<((Journal<FileBook>, Book), TermsChange), Fault>
    requires { IsChecked setting.now.site.now }
    ensures kept { IfOk result (λ opened. IsKeptBy ⟦<FileBook as RowStore>⟧.is_clean ⟦<FileBook as RowStore>⟧.is_ready ⟦<FileBook as RowStore>⟧.rows ⟦<FileBook as RowStore>⟧.beside opened.0.0 opened.0.1) }
    ensures settled { IfOk result (λ opened. IsSettled opened.0.0) }
    ensures limit { IfOk result (λ opened. opened.0.1.limit ≡ setting.now.site.now.limit) }
    ensures stored { IfOk result (λ opened. is_some opened.0.0.store ≡ true) }
    ensures leads { IfOk result (λ opened. LeadsToSite setting.now.site.now (is_some setting.now.accounts) (now_in opened.0.1) opened.1) }
{
    let (rt, site) = (setting.rt, setting.site);
    let (journal, book) = open_book(rt, path, site.limit)?;
    let change = site_change(rt, site, setting.accounts, book.terms_now())?;
    Ok(((journal, book), change))
}

/// The same of an empty book in memory, which is under the terms of the site.
#[tactic(auto, using(crate::proofs::Served::needed_change_leads))]
fn book_in_memory<O>(
    setting: &Setting<'_, O>,
) -> Result<((Journal<FileBook>, Book), TermsChange), Fault>
    requires { IsChecked setting.now.site.now }
    ensures kept { IfOk result (λ opened. IsKeptBy ⟦<FileBook as RowStore>⟧.is_clean ⟦<FileBook as RowStore>⟧.is_ready ⟦<FileBook as RowStore>⟧.rows ⟦<FileBook as RowStore>⟧.beside opened.0.0 opened.0.1) }
    ensures settled { IfOk result (λ opened. IsSettled opened.0.0) }
    ensures limit { IfOk result (λ opened. opened.0.1.limit ≡ setting.now.site.now.limit) }
    ensures stored { IfOk result (λ opened. is_some opened.0.0.store ≡ false) }
    ensures leads { IfOk result (λ opened. LeadsToSite setting.now.site.now (is_some setting.now.accounts) (now_in opened.0.1) opened.1) }
{
    let (rt, site, log) = (setting.rt, setting.site, setting.log);
    warn!(log; target: "farm", event = "book_in_memory"; "the book is in memory, and ends with this process: --book is not given, and the site names none");
    let wanted = site_terms(rt, site, setting.accounts)?;
    let (journal, book) = serving_book(rt, None, site.limit, &wanted)?;
    let change = change_for(rt.alloc(), &book, &wanted)?;
    Ok(((journal, book), change))
}

/// A book that was opened, under the terms to which a change leads, and the timing of who serves on it. It is let go of as it was if the
/// clock stands far behind it, or if the change says something and the book may not change its terms.
fn allowed_to_serve<S: RowStore + Drop>(
    alloc: Global,
    opened: (Journal<S>, Book),
    change: TermsChange,
    timer: Timer,
    command: &Process<'_>,
) -> Result<(Journal<S>, Book, Timing), Fault>
    requires kept { IsKeptBy S.is_clean S.is_ready S.rows S.beside opened.0 opened.1 }
    requires settled { IsSettled opened.0 }
    ensures hold { IfOk result (λ served. HoldsWhereLed change opened.1 served.1) }
    ensures limit { IfOk result (λ served. served.1.limit ≡ opened.1.limit) }
    ensures kept { IfOk result (λ served. IsKeptBy S.is_clean S.is_ready S.rows S.beside served.0 served.1) }
    ensures settled { IfOk result (λ served. IsSettled served.0) }
    ensures store { IfOk result (λ served. is_some served.0.store ≡ is_some opened.0.store) }
{
    let timing = Timing::on(timer, &opened.1);
    check_timing(timer, timing, command.clock_behind)?;
    let moment = timing.timer.first();
    match renewed_by(alloc, opened, change, moment, command.change_terms) {
        Ok((journal, book)) => {
            let timing = Timing::on(timing.timer, &book);
            Ok((journal, book, timing))
        }
        Err(fault) => Err(Fault::Book(fault)),
    }
}

/// Refuses a system's clock, by which a timer was started, that stands far behind the book that moments go on behind, unless the
/// operator gives leave.
fn check_timing(timer: Timer, timing: Timing, has_leave: bool) -> Result<(), Fault> {
    let (shown, begun) = (timer.first(), timing.timer.first());
    check_clock(begun, shown, has_leave).map_err(Fault::Clock)
}

/// The Origin-State-Id of the fronts of a process that begins then, if its site asks for one: that of the book in a file, and else the
/// second, since 1970 (RFC 6733, section 8.16).
fn state_of<O>(setting: &Setting<'_, O>, timer: Timer) -> Result<Option<u32>, Fault> {
    if !setting.access.strictness().origin_state {
        return Ok(None);
    }
    match setting.book {
        Some(path) => match identity_at(setting.rt, path) {
            Ok(identity) => Ok(Some(state_id_of(identity))),
            Err(fault) => Err(Fault::Book(fault)),
        },
        None => Ok(Some((timer.first().0 / 1_000 % 4_294_967_296) as u32)),
    }
}

/// The sockets of these fronts, which tell this Origin-State-Id, if one.
fn sockets_of<O: Net>(
    setting: &Setting<'_, O>,
    nodes: &[NodeNo],
    state: Option<u32>,
) -> Result<FrontSockets, Fault>
    requires { IsChecked setting.now.site.now }
{
    let endpoints = endpoints_of(setting, nodes, state)?;
    let mut sockets = Sockets::new(setting.os, setting.rt.alloc())?;
    let waker = LoopWaker(sockets.waker()?);
    Ok(FrontSockets {
        endpoints,
        sockets,
        waker,
    })
}

/// The endpoints of these fronts.
fn endpoints_of<O>(
    setting: &Setting<'_, O>,
    nodes: &[NodeNo],
    state: Option<u32>,
) -> Result<Vec<Endpoint>, Fault>
    requires { IsChecked setting.now.site.now }
{
    let mut endpoints = Vec::with_capacity(setting.rt.alloc(), nodes.len())?;
    for node in nodes {
        endpoints.push(endpoint_at(setting, *node)?.of_state(state))?;
    }
    Ok(endpoints)
}

/// The endpoint of a front.
fn endpoint_at<O>(setting: &Setting<'_, O>, node: NodeNo) -> Result<Endpoint, Fault>
    requires { IsChecked setting.now.site.now }
{
    endpoint_of(setting.rt.alloc(), setting.site, node).map_err(Fault::Endpoint)
}

/// Serves as these fronts, on this book, which the journal keeps, with so many workers.
fn serve_on<L, S, O>(
    setting: &Setting<'_, O>,
    nodes: Vec<NodeNo>,
    listening: FrontSockets,
    blank: Blank,
    history: BlankHistory,
    book: Book,
    journal: Journal<S>,
    timing: Timing,
    workers: u64,
    answers: u64,
) -> Result<(), Fault>
where
    L: Pooling + Send + Sync + 'static,
    S: RowStore + Drop + Send + 'static,
    O: Threads + Wait + Net + Clock + RandomSource + Copy + Send + 'static,
    requires checked { IsChecked setting.now.site.now }
    requires nodes { nodes.items ≡ fronts_from 0 setting.now.site.now.nodes }
    requires serves { IsServed setting.now.site.now (is_some setting.now.accounts) book }
    requires stored { is_some journal.store ≡ is_some setting.now.book }
    requires name { blank.name ≡ L.name }
    requires parts { (blank.parts ≡ L.parts) × (blank.parts ≡ workers) }
    requires book { book ≡ L.shared.opened }
    requires history { history ≡ L.shared.log }
    requires disk { is_some journal.store ≡ L.shared.stored }
    requires kept { IsKeptBy S.is_clean S.is_ready S.rows S.beside journal book }
    requires settled { IsSettled journal }
    requires some { 0 < workers }
    requires enough { length nodes.items * setting.now.site.now.workers ≤ workers }
    requires site { (front : NodeNo) → L.site front ≡ site_of setting.now.site.now front }
{
    let FrontSockets {
        endpoints,
        sockets,
        waker,
    } = listening;
    let (mut fronts, jobs) = start_on::<L, S, O>(
        setting, &nodes, waker, blank, history, book, journal, timing, workers,
    )?;
    if has_details(setting.command.level) {
        fronts.log_credit();
    }
    serve_over(
        setting,
        &nodes,
        fronts,
        Some(jobs),
        endpoints,
        sockets,
        timing.timer,
        answers,
    )
}

/// Whether a log up to this level has refusals for credit, which are its details.
fn has_details(level: LevelFilter) -> bool {
    match level {
        LevelFilter::Debug | LevelFilter::Trace => true,
        LevelFilter::Off | LevelFilter::Error | LevelFilter::Warn | LevelFilter::Info => false,
    }
}

/// Starts these fronts on this book, and who does jobs on it. Their workers wake the loop of the process.
fn start_on<L, S, O>(
    setting: &Setting<'_, O>,
    nodes: &[NodeNo],
    waker: LoopWaker,
    blank: Blank,
    history: BlankHistory,
    book: Book,
    journal: Journal<S>,
    timing: Timing,
    workers: u64,
) -> Result<(PoolFronts<L, S, O>, BookJobs<L, S>), Fault>
where
    L: Pooling + Send + Sync + 'static,
    S: RowStore + Drop + Send + 'static,
    O: Threads + Wait + Clock + Copy + Send + 'static,
    requires checked { IsChecked setting.now.site.now }
    requires nodes { nodes.now ≡ fronts_from 0 setting.now.site.now.nodes }
    requires serves { IsServed setting.now.site.now (is_some setting.now.accounts) book }
    requires stored { is_some journal.store ≡ is_some setting.now.book }
    requires name { blank.name ≡ L.name }
    requires parts { (blank.parts ≡ L.parts) × (blank.parts ≡ workers) }
    requires book { book ≡ L.shared.opened }
    requires history { history ≡ L.shared.log }
    requires disk { is_some journal.store ≡ L.shared.stored }
    requires kept { IsKeptBy S.is_clean S.is_ready S.rows S.beside journal book }
    requires settled { IsSettled journal }
    requires some { 0 < workers }
    requires enough { length nodes.now * setting.now.site.now.workers ≤ workers }
    requires site { (front : NodeNo) → L.site front ≡ site_of setting.now.site.now front }
{
    let (alloc, site) = (setting.rt.alloc(), setting.site);
    let shared = SharedBook::<L, S>::share_kept(alloc, blank, history, book, journal, workers);
    let Ok((shared, seats)) = shared else {
        return Err(Fault::OutOfMemory);
    };
    let jobs = BookJobs::on(&shared, timing.timer)?;
    let fronts = start_fronts::<ViewWire, L, S, O, LoopWaker>(
        *setting.os,
        alloc,
        shared,
        seats,
        site,
        nodes,
        timing,
        waker,
    );
    let mut fronts = fronts?;
    if setting.command.record_path.is_some() {
        fronts.begin_record();
    }
    Ok((fronts, jobs))
}
