//! The text format that Prometheus reads (version 0.0.4).

ghost use Rattle.std.specs.Prelude.{◌≡◌, ◌++◌, OnOk, string_bytes};
ghost use Rattle.farm_status.specs.Figures.{sample_text};

use crate::escape::push_label;
use crate::numbers::{Bound, FineSeconds, Seconds};
use crate::peers::push_peers;
use crate::status::{BookFile, BookStatus, FrontStatus, ServedCount, Status, Work};
use farm_metrics::{Answers, Times};
use std::alloc::AllocError;

/// What kind of number a metric is.
#[derive(Clone, Copy)]
pub(crate) enum Kind {
    Counter,
    Gauge,
    Histogram,
    Summary,
}

impl Kind {
    fn word(self) -> &'static str {
        match self {
            Kind::Counter => "counter",
            Kind::Gauge => "gauge",
            Kind::Histogram => "histogram",
            Kind::Summary => "summary",
        }
    }
}

/// The two lines above the samples of a metric.
pub(crate) fn head(out: &mut String, name: &str, kind: Kind, help: &str) -> Result<(), AllocError> {
    let kind = kind.word();
    write!(out, "# HELP {name} {help}\n# TYPE {name} {kind}\n")
}

/// A metric with one sample.
fn single(
    out: &mut String,
    name: &str,
    kind: Kind,
    help: &str,
    value: u64,
) -> Result<(), AllocError> {
    head(out, name, kind, help)?;
    write!(out, "{name} {value}\n")
}

/// A sample with one label.
fn labelled(
    out: &mut String,
    name: &str,
    label: &str,
    of: &str,
    value: u64,
) -> Result<(), AllocError>
    ensures { OnOk result (string_bytes out.new ≡ string_bytes out.old ++ sample_text name.now label.now of.now value) }
{
    write!(out, "{name}{{{label}=\"")?;
    push_label(out, of)?;
    write!(out, "\"}} {value}\n")
}

/// Who it is, since when, how much memory it takes, and whether its record is lost.
fn push_process(out: &mut String, status: &Status<'_>) -> Result<(), AllocError> {
    let name = "farm_uptime_seconds";
    head(out, name, Kind::Gauge, "How long the process has served.")?;
    let uptime = Seconds(status.uptime);
    write!(out, "{name} {uptime}\n")?;
    let name = "farm_start_time_seconds";
    let help = "When the process began, in seconds since 1970.";
    head(out, name, Kind::Gauge, help)?;
    let began = Seconds(status.began);
    write!(out, "{name} {began}\n")?;
    if let Some(memory) = status.memory {
        let help = "Octets of the process that are in memory.";
        single(out, "farm_resident_memory_bytes", Kind::Gauge, help, memory)?;
    }
    let name = "farm_build_info";
    head(out, name, Kind::Gauge, "The version of the program.")?;
    labelled(out, name, "version", status.version, 1)?;
    if let Some(is_lost) = status.is_record_lost {
        let help = "Whether what happens is recorded no more, since that could not be written.";
        let lost = u64::from(is_lost);
        single(out, "farm_record_lost", Kind::Gauge, help, lost)?;
    }
    let name = "farm_node_info";
    head(out, name, Kind::Gauge, "A node of the process.")?;
    for node in &status.names {
        labelled(out, name, "node", node, 1)?;
    }
    Ok(())
}

/// The connections by their state, what waits to be written on them, and those on which nobody came up.
fn push_connections(out: &mut String, status: &Status<'_>) -> Result<(), AllocError> {
    let name = "farm_connections";
    head(out, name, Kind::Gauge, "Connections by their state.")?;
    let connections = status.connections;
    labelled(out, name, "state", "up", connections.up)?;
    labelled(out, name, "state", "unknown", connections.unknown)?;
    labelled(out, name, "state", "ending", connections.ending)?;
    let help = "Octets that wait to be written.";
    single(out, "farm_unsent_bytes", Kind::Gauge, help, status.unsent)?;
    let name = "farm_connections_refused_total";
    let help = "Connections that others have made and on which no node came up.";
    single(out, name, Kind::Counter, help, status.tally.refused)?;
    let name = "farm_dial_failures_total";
    let help = "Connections that were to be made and on which no node came up.";
    single(out, name, Kind::Counter, help, status.tally.dial_failures)
}

/// Answers by their Result-Code.
fn push_answers(out: &mut String, answers: &Answers) -> Result<(), AllocError> {
    let name = "farm_answers_total";
    let help = "Answers that were sent, by their Result-Code.";
    head(out, name, Kind::Counter, help)?;
    for at in &answers.codes {
        write!(out, "{name}{{code=\"{}\"}} {}\n", at.code, at.count)?;
    }
    labelled(out, name, "code", "others", answers.others)
}

/// Requests and answers, and what became of requests where connections were lost.
fn push_traffic(out: &mut String, status: &Status<'_>) -> Result<(), AllocError> {
    let tally = status.tally;
    single(
        out,
        "farm_requests_total",
        Kind::Counter,
        "Requests that neighbours have sent.",
        tally.requests,
    )?;
    single(
        out,
        "farm_requests_sent_total",
        Kind::Counter,
        "Requests that were sent, each as often as it was sent.",
        tally.sent,
    )?;
    push_answers(out, &tally.answers)?;
    single(
        out,
        "farm_failovers_total",
        Kind::Counter,
        "Requests that were sent again since a connection was lost.",
        tally.failovers,
    )?;
    single(
        out,
        "farm_given_up_total",
        Kind::Counter,
        "Requests that were answered here since a connection was lost.",
        tally.given_up,
    )
}

/// How long requests took.
fn push_times(out: &mut String, times: &Times) -> Result<(), AllocError> {
    let name = "farm_request_seconds";
    let help = "From when a request came until its answer was sent.";
    head(out, name, Kind::Histogram, help)?;
    for row in times.rows {
        let bound = Bound(row.bound);
        write!(out, "{name}_bucket{{le=\"{bound}\"}} {}\n", row.count)?;
    }
    let (count, sum) = (times.count, FineSeconds(times.sum));
    write!(out, "{name}_bucket{{le=\"+Inf\"}} {count}\n")?;
    write!(out, "{name}_sum {sum}\n{name}_count {count}\n")
}

/// What is under way at fronts.
fn push_fronts(out: &mut String, fronts: &[FrontStatus]) -> Result<(), AllocError> {
    let name = "farm_front_requests";
    let help = "Requests that wait for a worker or are with one.";
    head(out, name, Kind::Gauge, help)?;
    for front in fronts {
        labelled(out, name, "node", &front.name, front.waiting)?;
    }
    let name = "farm_front_queue_limit";
    head(
        out,
        name,
        Kind::Gauge,
        "How many requests may wait for a worker.",
    )?;
    for front in fronts {
        labelled(out, name, "node", &front.name, front.queue)?;
    }
    let name = "farm_front_workers";
    let help = "How many requests are worked on at a time.";
    head(out, name, Kind::Gauge, help)?;
    for front in fronts {
        labelled(out, name, "node", &front.name, front.workers)?;
    }
    Ok(())
}

/// What the book has come to.
fn push_book(out: &mut String, book: &BookStatus) -> Result<(), AllocError> {
    let help = "Entries of the history of the book.";
    single(out, "farm_book_entries", Kind::Gauge, help, book.entries)?;
    let help = "How many entries the book takes.";
    single(out, "farm_book_limit", Kind::Gauge, help, book.limit)?;
    let help = "Sessions that are open.";
    single(out, "farm_sessions_open", Kind::Gauge, help, book.sessions)?;
    let (name, reserved) = ("farm_reserved_minor_units", book.reserved);
    let help = "What open sessions have reserved, in minor units of money.";
    single(out, name, Kind::Gauge, help, reserved)?;
    push_served(out, &book.served)?;
    match book.file {
        Some(file) => push_file(out, file),
        None => Ok(()),
    }
}

/// The file that the book is stored in.
fn push_file(out: &mut String, file: BookFile) -> Result<(), AllocError> {
    if let Some(size) = file.size {
        let help = "Octets of the file of the book, with its log.";
        single(out, "farm_book_file_bytes", Kind::Gauge, help, size)?;
    }
    let name = "farm_book_commit_entries";
    let help = "How many entries were stored with one sync of the disk.";
    head(out, name, Kind::Summary, help)?;
    let (commits, committed) = (file.commits, file.committed);
    write!(out, "{name}_sum {committed}\n{name}_count {commits}\n")?;
    if let Some(moment) = file.last_commit {
        let name = "farm_book_last_commit_timestamp_seconds";
        let help = "When something was stored last, in seconds since 1970.";
        head(out, name, Kind::Gauge, help)?;
        let last = Seconds(moment);
        write!(out, "{name} {last}\n")?;
    }
    Ok(())
}

/// Requests by what they came to.
fn push_served(out: &mut String, served: &ServedCount) -> Result<(), AllocError> {
    let (name, help) = ("farm_charges_total", "Requests that were charged.");
    single(out, name, Kind::Counter, help, served.charges)?;
    let name = "farm_enquiries_total";
    let help = "Requests that asked for a price or a balance, and were told.";
    single(out, name, Kind::Counter, help, served.enquiries)?;
    let name = "farm_credit_refusals_total";
    let help = "Requests that were refused for want of credit.";
    single(out, name, Kind::Counter, help, served.credit_refusals)?;
    let name = "farm_charge_refusals_total";
    let help = "Requests that the book has refused for another reason.";
    single(out, name, Kind::Counter, help, served.refusals)?;
    let name = "farm_repeats_total";
    let help = "Requests that were sent again, and were answered as before.";
    single(out, name, Kind::Counter, help, served.repeats)
}

/// What the process does.
fn push_work(out: &mut String, work: &Work) -> Result<(), AllocError> {
    match work {
        Work::Relay {
            pending,
            limit,
            mismatched,
        } => {
            let help = "Requests that wait for their answer.";
            single(out, "farm_pending_requests", Kind::Gauge, help, *pending)?;
            let help = "How many requests may wait for their answer.";
            single(out, "farm_pending_limit", Kind::Gauge, help, *limit)?;
            let help =
                "Answers that were dropped, since their request has another End-to-End Identifier.";
            single(
                out,
                "farm_answers_mismatched_total",
                Kind::Counter,
                help,
                *mismatched,
            )
        }
        Work::Fronts { fronts, book } => {
            push_fronts(out, fronts)?;
            match book {
                Some(book) => push_book(out, book),
                None => Ok(()),
            }
        }
    }
}

/// Puts what a node says of itself behind a text, as Prometheus reads it.
pub fn push_metrics(out: &mut String, status: &Status<'_>) -> Result<(), AllocError> {
    push_process(out, status)?;
    push_peers(out, &status.peers)?;
    push_connections(out, status)?;
    push_traffic(out, status)?;
    push_times(out, &status.tally.times)?;
    push_work(out, &status.work)
}
