//! The page for people.

ghost use Rattle.std.specs.Prelude.{◌≡◌, ◌++◌, OnOk, string_bytes};
ghost use Rattle.farm_status.specs.Figures.{names_text, state_class, state_word};
ghost use Rattle.farm_status.specs.Health.{what_cannot_be};

use crate::escape::push_html;
use crate::figures::{peers_up, within};
use crate::health::{Health, health_of};
use crate::lately::push_lately;
use crate::names::code_name;
use crate::numbers::{Grouped, Millis, Size, Span, percent};
use crate::status::{BookFile, BookStatus, FrontStatus, Peer, PeerPast, PeerState, Status, Work};
use crate::tiles::push_tiles;
use farm_metrics::{Answers, Times};
use std::alloc::AllocError;

/// What stands above the names: the page comes anew every five seconds, and loads nothing else.
const HEAD: &str = r#"<!DOCTYPE html>
<html lang="en">
<head>
<meta charset="utf-8">
<meta http-equiv="refresh" content="5">
<meta name="viewport" content="width=device-width, initial-scale=1">
<link rel="icon" href="data:,">
<style>
body{font:16px/1.45 system-ui,"DejaVu Sans",sans-serif;margin:2rem auto;max-width:62rem;padding:0 1rem;color:#1b1f24;background:#f6f7f9}
h1{font-size:1.6rem;margin:0;overflow-wrap:anywhere}
h2{font-size:1.1rem;margin:2rem 0 .5rem}
p{margin:.2rem 0;color:#57606a}
.tiles{display:flex;flex-wrap:wrap;gap:.75rem;margin:1.25rem 0}
.tile{background:#fff;border:1px solid #d8dee4;border-radius:.5rem;padding:.6rem 1rem;min-width:8rem}
.tile b{display:block;font-size:1.5rem}
.tile span{color:#57606a}
.bad{border-color:#cf222e;background:#ffebe9}
table{border-collapse:collapse;width:100%;background:#fff;border:1px solid #d8dee4}
th,td{text-align:left;padding:.3rem .75rem;border-top:1px solid #eaeef2;overflow-wrap:break-word}
th{color:#57606a;font-weight:600}
.n{text-align:right;font-variant-numeric:tabular-nums;white-space:nowrap}
.s{font-weight:600}
.up{color:#1a7f37}
.connecting{color:#9a6700}
.down{color:#cf222e}
.away{color:#57606a}
.banner{padding:.6rem 1rem;border:1px solid #cf222e;border-radius:.5rem;background:#ffebe9;color:#82071e;font-weight:600}
.line{width:100%;height:5rem;background:#fff;border:1px solid #d8dee4}
.line polyline{fill:none;stroke:#0969da;stroke-width:1.5}
.wide{overflow-x:auto}
.wide table{min-width:44rem}
.bar{width:35%}
.bar i{display:block;height:.8rem;min-width:1px;border-radius:.2rem;background:#0969da}
.bar i.full{background:#cf222e}
</style>
"#;

/// What stands below everything.
const FOOT: &str =
    r#"<p>The same for Prometheus: <a href="/metrics">/metrics</a>. The page comes anew every 5 seconds.</p>
</body>
</html>
"#;

/// The names of the nodes of the process, one behind the other.
fn push_names(out: &mut String, names: &[String]) -> Result<(), AllocError>
    ensures { OnOk result (string_bytes out.new ≡ string_bytes out.old ++ names_text names.now) }
{
    let mut is_first = true;
    for name in names {
        if !is_first {
            out.push_str(", ")?;
        }
        is_first = false;
        push_html(out, name)?;
    }
    Ok(())
}

/// What the process is.
fn kind_word(work: &Work) -> &'static str {
    match work {
        Work::Relay { .. } => "relay",
        Work::Fronts { .. } => "fronts, over one book",
    }
}

/// Who it is, what it is, since when, and how much memory it takes.
fn push_head(out: &mut String, status: &Status<'_>) -> Result<(), AllocError> {
    out.push_str(HEAD)?;
    let (up, all) = (peers_up(&status.peers), status.peers.len());
    write!(out, "<title>{up} of {all} up: ")?;
    push_names(out, &status.names)?;
    out.push_str("</title>\n</head>\n<body>\n<h1>")?;
    push_names(out, &status.names)?;
    let (kind, uptime) = (kind_word(&status.work), Span(status.uptime));
    write!(out, "</h1>\n<p>{kind} &middot; up {uptime}")?;
    if let Some(memory) = status.memory {
        let size = Size(memory);
        write!(out, " &middot; {size} in memory")?;
    }
    out.push_str(" &middot; version ")?;
    push_html(out, status.version)?;
    out.push_str("</p>\n")?;
    push_site(out, status)
}

/// The site file, and that it was changed since it was read, if it was.
fn push_site(out: &mut String, status: &Status<'_>) -> Result<(), AllocError> {
    out.push_str("<p>site file ")?;
    push_html(out, status.site.path)?;
    if let Some(age) = status.site.age {
        let span = Span(age);
        write!(out, ", changed {span} ago")?;
        if age < status.uptime {
            out.push_str(
                " <b>and so since this process has read it: what it says now does not hold yet, but for accounts and tariffs that were added or changed by their own commands</b>",
            )?;
        }
    }
    out.push_str("</p>\n")
}

/// What cannot be done with a request where a node cannot do its work.
fn what_cannot_be(work: &Work) -> &'static str
    ensures { result.now ≡ what_cannot_be work.now }
{
    match work {
        Work::Relay { .. } => "forwarded",
        Work::Fronts { .. } => "charged",
    }
}

/// Where the node cannot do its work, that and why stands above all else.
fn push_banner(out: &mut String, status: &Status<'_>) -> Result<(), AllocError> {
    let health = health_of(&status.peers, &status.work);
    if health == Health::Well {
        return Ok(());
    }
    let what = what_cannot_be(&status.work);
    write!(
        out,
        "<p class=\"banner\">No request can be {what}: {health}.</p>\n"
    )
}

/// The neighbours.
fn push_peers(out: &mut String, status: &Status<'_>) -> Result<(), AllocError> {
    out.push_str(
        "<h2>Neighbours</h2>\n<div class=\"wide\"><table>\n<tr><th>Node</th><th>Neighbour</th><th>State</th><th class=\"n\">Requests</th><th class=\"n\">Refused</th><th class=\"n\">Lost</th><th>Lost last by</th></tr>\n",
    )?;
    for peer in &status.peers {
        push_peer(out, peer)?;
    }
    let (unknown, ending) = (status.connections.unknown, status.connections.ending);
    write!(
        out,
        "</table></div>\n<p>Connections of which nobody has said whose they are: {unknown}. Connections that are ending: {ending}.</p>\n"
    )?;
    let (refused, failures) = (
        Grouped(status.tally.refused),
        Grouped(status.tally.dial_failures),
    );
    write!(
        out,
        "<p>Connections on which no node came up: {refused} that others have made, {failures} of this process.</p>\n"
    )
}

/// What a state is called, and how it is shown.
fn state_word(state: PeerState) -> &'static str
    ensures { result.now ≡ state_word state }
{
    match state {
        PeerState::Up => "up",
        PeerState::Connecting => "connecting",
        PeerState::Down => "down",
    }
}

/// How the state of a neighbour is shown: one that is down is a fault where requests are sent there, and else it may just not have
/// come.
fn state_class(peer: &Peer) -> &'static str
    ensures { result.now ≡ state_class peer.now }
{
    match peer.state {
        PeerState::Down if !peer.takes_requests => "away",
        state => state_word(state),
    }
}

fn push_peer(out: &mut String, peer: &Peer) -> Result<(), AllocError> {
    out.push_str("<tr><td>")?;
    push_html(out, &peer.local)?;
    out.push_str("</td><td>")?;
    push_html(out, &peer.name)?;
    let (class, state) = (state_class(peer), state_word(peer.state));
    if let Some(address) = &peer.address {
        out.push_str("<br>")?;
        push_html(out, address)?;
    }
    write!(out, "</td><td class=\"s {class}\">{state}")?;
    match &peer.past {
        Some(past) => push_past(out, past),
        None => out.push_str(
            "</td><td class=\"n\"></td><td class=\"n\"></td><td class=\"n\"></td><td></td></tr>\n",
        ),
    }
}

/// What became of a neighbour, from its state on.
fn push_past(out: &mut String, past: &PeerPast) -> Result<(), AllocError> {
    let since = Span(past.since);
    let (requests, refusals, losses) = (
        Grouped(past.count.requests),
        Grouped(past.count.refusals),
        Grouped(past.count.losses),
    );
    write!(
        out,
        "<br>for {since}</td><td class=\"n\">{requests}</td><td class=\"n\">{refusals}</td><td class=\"n\">{losses}</td><td>"
    )?;
    if let Some(cause) = &past.cause {
        push_html(out, cause)?;
    }
    out.push_str("</td></tr>\n")
}

/// A row of a table of counts, with a bar.
fn push_bar(out: &mut String, count: u64, all: u64) -> Result<(), AllocError> {
    let (count, share) = (Grouped(count), percent(count, all));
    write!(
        out,
        "<td class=\"n\">{count}</td><td class=\"n\">{share} %</td><td class=\"bar\"><i style=\"width:{share}%\"></i></td></tr>\n"
    )
}

/// Answers by their Result-Code.
fn push_answers(out: &mut String, answers: &Answers) -> Result<(), AllocError> {
    out.push_str(
        "<h2>Answers</h2>\n<div class=\"wide\"><table>\n<tr><th>Result-Code</th><th>Name</th><th class=\"n\">Answers</th><th class=\"n\">Share</th><th></th></tr>\n",
    )?;
    let all = answers.total();
    for at in &answers.codes {
        let (code, name) = (at.code, code_name(at.code).unwrap_or(""));
        write!(out, "<tr><td>{code}</td><td>{name}</td>")?;
        push_bar(out, at.count, all)?;
    }
    if answers.others > 0 {
        out.push_str("<tr><td>others</td><td></td>")?;
        push_bar(out, answers.others, all)?;
    }
    out.push_str("</table></div>\n")
}

/// How long so many thousandths of the requests took at most.
fn push_percentile(
    out: &mut String,
    times: &Times,
    name: &str,
    thousandths: u64,
) -> Result<(), AllocError> {
    match within(times, thousandths) {
        Some(bound) => {
            let bound = Millis(bound);
            write!(out, "{name}: at most {bound} ms. ")
        }
        None => {
            let greatest = Millis(times.rows[times.rows.len() - 1].bound);
            write!(out, "{name}: above {greatest} ms. ")
        }
    }
}

/// The median, and how long the slowest took, if there was a request.
fn push_percentiles(out: &mut String, times: &Times) -> Result<(), AllocError> {
    if times.count == 0 {
        return Ok(());
    }
    out.push_str("<p>")?;
    push_percentile(out, times, "p50", 500)?;
    push_percentile(out, times, "p99", 990)?;
    push_percentile(out, times, "p99.9", 999)?;
    out.push_str("</p>\n")
}

/// How long requests took, each row without those before it.
fn push_times(out: &mut String, times: &Times) -> Result<(), AllocError> {
    out.push_str(
        "<h2>Time of a request</h2>\n<table>\n<tr><th>Milliseconds</th><th class=\"n\">Requests</th><th class=\"n\">Share</th><th></th></tr>\n",
    )?;
    let (mut before, mut least) = (0, 0);
    for row in times.rows {
        let (from, to) = (Millis(least), Millis(row.bound));
        write!(out, "<tr><td>{from} to {to}</td>")?;
        push_bar(out, row.count.saturating_sub(before), times.count)?;
        (before, least) = (row.count, row.bound);
    }
    let from = Millis(least);
    write!(out, "<tr><td>more than {from}</td>")?;
    push_bar(out, times.count.saturating_sub(before), times.count)?;
    out.push_str("</table>\n")?;
    push_percentiles(out, times)
}

/// What is under way at fronts.
fn push_fronts(out: &mut String, fronts: &[FrontStatus]) -> Result<(), AllocError> {
    out.push_str(
        "<h2>Fronts</h2>\n<div class=\"wide\"><table>\n<tr><th>Front</th><th class=\"n\">Under way</th><th class=\"n\">May wait</th><th class=\"n\">Workers</th></tr>\n",
    )?;
    for front in fronts {
        out.push_str("<tr><td>")?;
        push_html(out, &front.name)?;
        let (waiting, queue, workers) = (
            Grouped(front.waiting),
            Grouped(front.queue),
            front.workers,
        );
        write!(
            out,
            "</td><td class=\"n\">{waiting}</td><td class=\"n\">{queue}</td><td class=\"n\">{workers}</td></tr>\n"
        )?;
    }
    out.push_str("</table></div>\n")
}

/// What the book has come to, and what is left of it. From 80 hundredths on it is shown as full.
fn push_book(out: &mut String, book: &BookStatus) -> Result<(), AllocError> {
    let share = percent(book.entries, book.limit);
    let class = if share >= 80 { "full" } else { "room" };
    let (entries, limit, left) = (
        Grouped(book.entries),
        Grouped(book.limit),
        Grouped(book.limit.saturating_sub(book.entries)),
    );
    let (sessions, reserved) = (Grouped(book.sessions), Grouped(book.reserved));
    write!(
        out,
        "<h2>Book</h2>\n<div class=\"wide\"><table>\n<tr><th>Entries</th><td class=\"n\">{entries} of {limit}, {left} left</td><td class=\"n\">{share} %</td><td class=\"bar\"><i class=\"{class}\" style=\"width:{share}%\"></i></td></tr>\n"
    )?;
    write!(
        out,
        "<tr><th>Open sessions</th><td class=\"n\">{sessions}</td><td></td><td></td></tr>\n<tr><th>Reserved, in minor units</th><td class=\"n\">{reserved}</td><td></td><td></td></tr>\n"
    )?;
    for (name, count) in [
        ("Charges", book.served.charges),
        ("Enquiries", book.served.enquiries),
        ("Refused for want of credit", book.served.credit_refusals),
        ("Refused otherwise", book.served.refusals),
        ("Repeats", book.served.repeats),
    ] {
        push_row(out, name, count)?;
    }
    out.push_str("</table></div>\n")?;
    push_file(out, book.file)
}

/// The file of the book, or that it is kept in memory alone.
fn push_file(out: &mut String, file: Option<BookFile>) -> Result<(), AllocError> {
    let Some(file) = file else {
        return out.push_str(
            "<p><b>The book is kept in memory</b>: it ends with this process, and the next one begins with the openings.</p>\n",
        );
    };
    out.push_str("<p>The book is kept in a file")?;
    if let Some(size) = file.size {
        let size = Size(size);
        write!(out, " of {size}")?;
    }
    let (commits, committed) = (Grouped(file.commits), Grouped(file.committed));
    write!(
        out,
        ". Entries that were stored since the process began: {committed}, in {commits} commits.</p>\n"
    )
}

/// A row of the book's table.
fn push_row(out: &mut String, name: &str, count: u64) -> Result<(), AllocError> {
    let count = Grouped(count);
    write!(
        out,
        "<tr><th>{name}</th><td class=\"n\">{count}</td><td></td><td></td></tr>\n"
    )
}

fn push_work(out: &mut String, work: &Work) -> Result<(), AllocError> {
    match work {
        Work::Relay { .. } => Ok(()),
        Work::Fronts { fronts, book } => {
            if let Some(book) = book {
                push_book(out, book)?;
            }
            push_fronts(out, fronts)
        }
    }
}

/// What came of connections that were lost.
fn push_losses(out: &mut String, status: &Status<'_>) -> Result<(), AllocError> {
    let (failovers, given_up) = (
        Grouped(status.tally.failovers),
        Grouped(status.tally.given_up),
    );
    write!(
        out,
        "<h2>Lost connections</h2>\n<p>Requests that were sent again: {failovers}. Requests that could not be, and were answered here: {given_up}.</p>\n"
    )
}

/// Puts the page behind a text.
pub fn push_page(out: &mut String, status: &Status<'_>) -> Result<(), AllocError> {
    push_head(out, status)?;
    push_banner(out, status)?;
    push_tiles(out, status)?;
    push_lately(out, status.trend.samples())?;
    push_peers(out, status)?;
    push_work(out, &status.work)?;
    push_answers(out, &status.tally.answers)?;
    push_times(out, &status.tally.times)?;
    push_losses(out, status)?;
    out.push_str(FOOT)
}
