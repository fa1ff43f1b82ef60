//! A process from its first turn to its end, whatever its nodes are.

ghost use Rattle.std.specs.Prelude.{◌≡◌, true, false};

use crate::fault::Fault;
use crate::jobs::BookJobs;
use crate::recording::Record;
use crate::setting::Setting;
use crate::turns::serve;
use crate::view::Booked;
use crate::watching::Watching;
use book_file::FileBook;
use book_store::RowStore;
use cc_shared::Sharing;
use dia_base::NodeNo;
use farm_access::Strictness;
use farm_clock::Timer;
use farm_endpoints::Endpoint;
use farm_event_loop::{Live, Sockets};
use farm_watch::{Goodbyes, Numbering};
use std::alloc::Global;
use std::marker::Brand;
use std::net::Net;
use std::random::RandomSource;
use std::rt::Clock;
use std::sync::Wait;
use std::thread::Threads;

/// A list of this alone.
pub fn alone<T: Drop>(alloc: Global, item: T) -> Result<Vec<T>, Fault> {
    let mut items = Vec::with_capacity(alloc, 1)?;
    items.push(item)?;
    Ok(items)
}

/// How a process numbers its own requests from end to end, by what its site asks for. A count begins here.
fn numbering_for(strictness: Strictness, start: u32) -> Numbering
    ensures clock { strictness.end_to_end ≡ true → result ≡ Numbering.ByClock start }
    ensures hops { strictness.end_to_end ≡ false → result ≡ Numbering.HopByHop }
{
    if strictness.end_to_end {
        Numbering::ByClock { count: start }
    } else {
        Numbering::HopByHop
    }
}

/// How this process does. Its count begins by chance, so that one that is started again in the same second has another one
/// (RFC 6733, section 3).
pub fn numbering_of<O>(setting: &Setting<'_, O>) -> Numbering {
    numbering_for(setting.access.strictness(), start_by_chance(setting.rt))
}

/// Any number, from the system's source of random octets; 0 where it gives none.
pub fn start_by_chance(rt: &impl RandomSource) -> u32 {
    let mut octets = [0u8; 4];
    if rt.fill_bytes(&mut octets).is_err() {
        return 0;
    }
    u32::from_le_bytes(octets)
}

/// What the nodes of a process do with goodbyes, by what its site asks for.
fn goodbyes_for(strictness: Strictness) -> Goodbyes
    ensures leaves { strictness.goodbyes ≡ true → result ≡ Goodbyes.LeaveClosing }
    ensures ends { strictness.goodbyes ≡ false → result ≡ Goodbyes.EndAtOnce }
{
    if strictness.goodbyes {
        Goodbyes::LeaveClosing
    } else {
        Goodbyes::EndAtOnce
    }
}

/// The same endpoints, where the nodes do with goodbyes what the site asks for.
pub fn parting_endpoints<O>(
    setting: &Setting<'_, O>,
    endpoints: Vec<Endpoint>,
) -> Result<Vec<Endpoint>, Fault> {
    let goodbyes = goodbyes_for(setting.access.strictness());
    let mut parting = Vec::with_capacity(setting.rt.alloc(), endpoints.len())?;
    for endpoint in endpoints {
        parting.push(endpoint.parting(goodbyes))?;
    }
    Ok(parting)
}

/// Serves as one node, which stands at this endpoint, over sockets of its own.
pub fn serve_alone<N, O>(
    setting: &Setting<'_, O>,
    number: NodeNo,
    node: N,
    endpoints: Vec<Endpoint>,
    answers: u64,
) -> Result<(), Fault>
where
    N: Booked,
    O: Threads + Wait + Net + Clock + RandomSource + Copy + Send + 'static,
{
    let sockets = Sockets::new(setting.os, setting.rt.alloc())?;
    let timer = Timer::start(setting.os)?;
    serve_over::<N, Brand, FileBook, O>(
        setting,
        &[number],
        node,
        None,
        endpoints,
        sockets,
        timer,
        answers,
    )
}

/// Serves as these nodes, which stand at these endpoints, over these sockets and by this timer. `jobs` are done on their book, if they have one.
pub fn serve_over<N, L, S, O>(
    setting: &Setting<'_, O>,
    numbers: &[NodeNo],
    node: N,
    jobs: Option<BookJobs<L, S>>,
    endpoints: Vec<Endpoint>,
    sockets: Sockets,
    timer: Timer,
    answers: u64,
) -> Result<(), Fault>
where
    N: Booked,
    L: Sharing + Send + Sync + 'static,
    S: RowStore + Drop + Send + 'static,
    O: Threads + Wait + Net + Clock + RandomSource + Copy + Send + 'static,
{
    let (alloc, site) = (setting.rt.alloc(), setting.site);
    let endpoints = parting_endpoints(setting, endpoints)?;
    let mut live = Live::over(setting.os, alloc, site, sockets, node, endpoints, timer)?;
    live.try_addresses(setting.os, site)?;
    live.serving.number(numbering_of(setting));
    live.share_room(site, setting.access.strictness())?;
    serve_recorded(setting, numbers, live, jobs, answers)
}

/// Serves as nodes that nobody is connected with yet.
fn serve_recorded<N, L, S, O>(
    setting: &Setting<'_, O>,
    numbers: &[NodeNo],
    live: Live<N>,
    jobs: Option<BookJobs<L, S>>,
    answers: u64,
) -> Result<(), Fault>
where
    N: Booked,
    L: Sharing + Send + Sync + 'static,
    S: RowStore + Drop + Send + 'static,
    O: Threads + Wait + Net + Clock + RandomSource + Copy + Send + 'static,
{
    let mut live = live;
    let recording = Record::begin(setting, numbers, false, &mut live)?;
    let watching = Watching::begin(setting, numbers)?;
    serve_to_end(setting, live, recording, watching, jobs, answers)
}

/// Serves until so many answers were sent, 0 for ever, or until it is asked to end. Then it ends in good order.
fn serve_to_end<N, L, S, O>(
    setting: &Setting<'_, O>,
    live: Live<N>,
    recording: Record,
    watching: Watching,
    jobs: Option<BookJobs<L, S>>,
    answers: u64,
) -> Result<(), Fault>
where
    N: Booked,
    L: Sharing + Send + Sync + 'static,
    S: RowStore + Drop + Send + 'static,
    O: Threads + Wait + Net + Clock + Copy + Send + 'static,
{
    let (mut live, mut recording) = (live, recording);
    serve(setting, watching, jobs, &mut recording, &mut live, answers)?;
    end(setting, recording, live);
    Ok(())
}

/// The process has ended in good order. Where that is recorded its node ends too, so that its book tells what it has come to.
pub fn end<N: Booked, O: Threads + Wait + Clock>(
    setting: &Setting<'_, O>,
    recording: Record,
    live: Live<N>,
) {
    let mut recording = recording;
    if recording.is_on() {
        let (node, recorder) = live.into_parts();
        let mut recorder = recorder;
        let book = node.end(setting.os, setting.rt.alloc(), &mut recorder);
        recording.end(setting.rt, setting.log, &book, recorder);
    }
}
