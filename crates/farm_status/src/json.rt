//! What a node says of itself, as JSON (RFC 8259).

ghost use Rattle.std.specs.Prelude.{◌≡◌, ◌++◌, ◌∷◌, [], OnOk, string_bytes};
ghost use Rattle.std.specs.List.{flat_map};
ghost use Rattle.farm_status.specs.Escapes.{label_of};

use crate::escape::push_label;
use crate::health::health_of;
use crate::lately::lately;
use crate::numbers::{FineSeconds, Seconds};
use crate::status::{BookFile, BookStatus, FrontStatus, Peer, PeerPast, PeerState, Status, Work};
use farm_metrics::{Answers, Tally};
use std::alloc::AllocError;

/// A name as a text of JSON: no octet of it ends that text.
fn push_text(out: &mut String, name: &str) -> Result<(), AllocError>
    ensures { OnOk result (string_bytes out.new ≡ string_bytes out.old ++ (34 ∷ []) ++ flat_map label_of name.now ++ (34 ∷ [])) }
{
    out.push_str("\"")?;
    push_label(out, name)?;
    out.push_str("\"")
}

/// What parts one item of a list from the one before.
fn push_comma(out: &mut String, place: usize) -> Result<(), AllocError> {
    if place == 0 {
        return Ok(());
    }
    out.push_str(",")
}

/// A number, or null where there is none.
fn push_optional(out: &mut String, number: Option<u64>) -> Result<(), AllocError> {
    match number {
        Some(number) => write!(out, "{number}"),
        None => out.push_str("null"),
    }
}

/// A text, or null where there is none.
fn push_optional_text(out: &mut String, text: Option<&String>) -> Result<(), AllocError> {
    match text {
        Some(text) => push_text(out, text),
        None => out.push_str("null"),
    }
}

fn push_names(out: &mut String, names: &[String]) -> Result<(), AllocError> {
    out.push_str("\"nodes\":[")?;
    for (place, name) in names.iter().enumerate() {
        push_comma(out, place)?;
        push_text(out, name)?;
    }
    out.push_str("]")
}

fn push_process(out: &mut String, status: &Status<'_>) -> Result<(), AllocError> {
    let (health, uptime) = (
        health_of(&status.peers, &status.work),
        Seconds(status.uptime),
    );
    let began = Seconds(status.began);
    write!(
        out,
        ",\"health\":\"{health}\",\"uptime_seconds\":{uptime},\"start_time_seconds\":{began},\"memory_bytes\":"
    )?;
    push_optional(out, status.memory)?;
    out.push_str(",\"version\":")?;
    push_text(out, status.version)?;
    out.push_str(",\"site_file\":")?;
    push_text(out, status.site.path)?;
    if let Some(age) = status.site.age {
        let age = Seconds(age);
        write!(out, ",\"site_file_age_seconds\":{age}")?;
    }
    match status.is_record_lost {
        Some(is_lost) => write!(out, ",\"record_lost\":{is_lost}"),
        None => Ok(()),
    }
}

fn state_word(state: PeerState) -> &'static str {
    match state {
        PeerState::Up => "up",
        PeerState::Connecting => "connecting",
        PeerState::Down => "down",
    }
}

fn push_peer(out: &mut String, peer: &Peer) -> Result<(), AllocError> {
    out.push_str("{\"node\":")?;
    push_text(out, &peer.local)?;
    out.push_str(",\"peer\":")?;
    push_text(out, &peer.name)?;
    let (state, takes) = (state_word(peer.state), peer.takes_requests);
    write!(
        out,
        ",\"state\":\"{state}\",\"takes_requests\":{takes},\"connection\":"
    )?;
    push_optional(out, peer.conn)?;
    out.push_str(",\"address\":")?;
    push_optional_text(out, peer.address.as_ref())?;
    if let Some(past) = &peer.past {
        push_past(out, past)?;
    }
    out.push_str("}")
}

/// What became of a neighbour.
fn push_past(out: &mut String, past: &PeerPast) -> Result<(), AllocError> {
    let (since, count) = (Seconds(past.since), past.count);
    let (losses, silences) = (count.losses, count.silences);
    write!(
        out,
        ",\"state_seconds\":{since},\"losses\":{losses},\"silences\":{silences}"
    )?;
    let (requests, answers, refusals) = (count.requests, count.answers, count.refusals);
    write!(
        out,
        ",\"requests\":{requests},\"answers\":{answers},\"refusals\":{refusals},\"cause\":"
    )?;
    push_optional_text(out, past.cause.as_ref())
}

fn push_peers(out: &mut String, peers: &[Peer]) -> Result<(), AllocError> {
    out.push_str(",\"peers\":[")?;
    for (place, peer) in peers.iter().enumerate() {
        push_comma(out, place)?;
        push_peer(out, peer)?;
    }
    out.push_str("]")
}

fn push_connections(out: &mut String, status: &Status<'_>) -> Result<(), AllocError> {
    let connections = status.connections;
    let (up, unknown, ending) = (connections.up, connections.unknown, connections.ending);
    let unsent = status.unsent;
    write!(
        out,
        ",\"connections\":{{\"up\":{up},\"unknown\":{unknown},\"ending\":{ending}}},\"unsent_bytes\":{unsent}"
    )?;
    let (refused, failures) = (status.tally.refused, status.tally.dial_failures);
    write!(
        out,
        ",\"connections_refused\":{refused},\"dial_failures\":{failures}"
    )
}

/// Answers by their Result-Code.
fn push_answers(out: &mut String, answers: &Answers) -> Result<(), AllocError> {
    out.push_str(",\"answers\":{")?;
    for at in &answers.codes {
        write!(out, "\"{}\":{},", at.code, at.count)?;
    }
    write!(out, "\"others\":{}}}", answers.others)
}

fn push_traffic(out: &mut String, tally: &Tally) -> Result<(), AllocError> {
    let (requests, sent) = (tally.requests, tally.sent);
    write!(out, ",\"requests\":{requests},\"requests_sent\":{sent}")?;
    let (failovers, given_up) = (tally.failovers, tally.given_up);
    write!(out, ",\"failovers\":{failovers},\"given_up\":{given_up}")?;
    push_answers(out, &tally.answers)?;
    let (count, sum) = (tally.times.count, FineSeconds(tally.times.sum));
    write!(
        out,
        ",\"request_seconds\":{{\"count\":{count},\"sum\":{sum}}}"
    )
}

/// The rates of the last minute, where they are known.
fn push_rates(out: &mut String, status: &Status<'_>) -> Result<(), AllocError> {
    let Some(rates) = lately(status.trend.samples()) else {
        return Ok(());
    };
    let (requests, answers) = (rates.requests, rates.answers);
    write!(
        out,
        ",\"requests_per_second\":{requests},\"answers_per_second\":{answers}"
    )
}

fn push_front(out: &mut String, front: &FrontStatus) -> Result<(), AllocError> {
    out.push_str("{\"node\":")?;
    push_text(out, &front.name)?;
    let (requests, queue, workers) = (front.waiting, front.queue, front.workers);
    write!(
        out,
        ",\"requests\":{requests},\"queue_limit\":{queue},\"workers\":{workers}}}"
    )
}

fn push_fronts(out: &mut String, fronts: &[FrontStatus]) -> Result<(), AllocError> {
    out.push_str(",\"fronts\":[")?;
    for (place, front) in fronts.iter().enumerate() {
        push_comma(out, place)?;
        push_front(out, front)?;
    }
    out.push_str("],\"book\":")
}

fn push_book(out: &mut String, book: BookStatus) -> Result<(), AllocError> {
    let (entries, limit) = (book.entries, book.limit);
    write!(out, "{{\"entries\":{entries},\"limit\":{limit}")?;
    let (sessions, reserved, served) = (book.sessions, book.reserved, book.served);
    write!(
        out,
        ",\"open_sessions\":{sessions},\"reserved_minor_units\":{reserved}"
    )?;
    let (charges, enquiries) = (served.charges, served.enquiries);
    write!(out, ",\"charges\":{charges},\"enquiries\":{enquiries}")?;
    let (credit, refusals, repeats) = (served.credit_refusals, served.refusals, served.repeats);
    write!(
        out,
        ",\"credit_refusals\":{credit},\"refusals\":{refusals},\"repeats\":{repeats}"
    )?;
    push_file(out, book.file)?;
    out.push_str("}")
}

/// The file of the book, or that it is kept in memory alone.
fn push_file(out: &mut String, file: Option<BookFile>) -> Result<(), AllocError> {
    let Some(file) = file else {
        return out.push_str(",\"kept\":\"memory\"");
    };
    out.push_str(",\"kept\":\"file\",\"file_bytes\":")?;
    push_optional(out, file.size)?;
    let (commits, committed) = (file.commits, file.committed);
    write!(
        out,
        ",\"commits\":{commits},\"committed_entries\":{committed},\"last_commit_seconds\":"
    )?;
    match file.last_commit {
        Some(moment) => {
            let last = Seconds(moment);
            write!(out, "{last}")
        }
        None => out.push_str("null"),
    }
}

fn push_work(out: &mut String, work: &Work) -> Result<(), AllocError> {
    match work {
        Work::Relay {
            pending,
            limit,
            mismatched,
        } => {
            write!(out, ",\"pending\":{pending},\"pending_limit\":{limit}")?;
            write!(out, ",\"answers_mismatched\":{mismatched}")
        }
        Work::Fronts { fronts, book } => {
            push_fronts(out, fronts)?;
            match book {
                Some(book) => push_book(out, *book),
                None => out.push_str("null"),
            }
        }
    }
}

/// Puts what a node says of itself behind a text, as one object of JSON on a line.
pub fn push_json(out: &mut String, status: &Status<'_>) -> Result<(), AllocError> {
    out.push_str("{")?;
    push_names(out, &status.names)?;
    push_process(out, status)?;
    push_peers(out, &status.peers)?;
    push_connections(out, status)?;
    push_traffic(out, status.tally)?;
    push_rates(out, status)?;
    push_work(out, &status.work)?;
    out.push_str("}\n")
}
