//! The turns of a process, until it has ended in good order.

use crate::fault::Fault;
use crate::jobs::BookJobs;
use crate::recording::Record;
use crate::setting::Setting;
use crate::view::Booked;
use crate::watching::{Course, Watching};
use book_store::RowStore;
use cc_shared::Sharing;
use farm_event_loop::Live;
use std::net::Net;
use std::rt::Clock;
use std::sync::Wait;
use std::thread::Threads;

/// One turn. What happened is written to the record before anything goes to the sockets. The process ends where its book is not
/// stored: what was answered before that is.
pub fn turn<O: Net + Clock, N: Booked>(
    setting: &Setting<'_, O>,
    recording: &mut Record,
    live: &mut Live<N>,
) -> Result<(), Fault> {
    let moment = live.hear(setting.os, setting.log, setting.site, setting.access)?;
    N::tell(live);
    if recording.is_on() {
        recording.follow(setting, moment);
        recording.write(setting.log, live);
    }
    live.answer(
        setting.os,
        setting.log,
        setting.site,
        setting.access,
        moment,
    )?;
    if live.serving.node().has_failed() {
        return Err(Fault::BookNotStored);
    }
    Ok(())
}

/// Turns until so many answers were sent, 0 for ever, or until it is asked to end. The status port is closed then.
pub fn serve<N, L, S, O>(
    setting: &Setting<'_, O>,
    watching: Watching,
    jobs: Option<BookJobs<L, S>>,
    recording: &mut Record,
    live: &mut Live<N>,
    answers: u64,
) -> Result<(), Fault>
where
    N: Booked,
    L: Sharing + Send + Sync + 'static,
    S: RowStore + Drop + Send + 'static,
    O: Threads + Wait + Net + Clock + Copy + Send + 'static,
{
    let (mut watching, mut jobs) = (watching, jobs);
    serve_watched(setting, &mut watching, &mut jobs, recording, live, answers)
}

/// The same, with the status port.
fn serve_watched<N, L, S, O>(
    setting: &Setting<'_, O>,
    watching: &mut Watching,
    jobs: &mut Option<BookJobs<L, S>>,
    recording: &mut Record,
    live: &mut Live<N>,
    answers: u64,
) -> Result<(), Fault>
where
    N: Booked,
    L: Sharing + Send + Sync + 'static,
    S: RowStore + Drop + Send + 'static,
    O: Threads + Wait + Net + Clock + Copy + Send + 'static,
{
    for _ in setting.os.forever() {
        turn(setting, recording, live)?;
        if answers > 0 && live.serving.answers() >= answers {
            return close(setting, recording, live);
        }
        match watching.look(setting, live, jobs)? {
            Course::Serve => {}
            Course::Drain => live.drain(),
            Course::End => return close(setting, recording, live),
        }
    }
    Ok(())
}

/// Ends each connection in good order.
pub fn close<O: Wait + Net + Clock, N: Booked>(
    setting: &Setting<'_, O>,
    recording: &mut Record,
    live: &mut Live<N>,
) -> Result<(), Fault> {
    live.close(setting.os)?;
    for _ in setting.os.forever() {
        if live.serving.count() == 0 {
            return Ok(());
        }
        turn(setting, recording, live)?;
    }
    Ok(())
}
