//! The line of an event.

ghost use Rattle.std.specs.Prelude.{◌≡◌, ◌++◌, ◌∷◌, [], OnOk, slice_get};
ghost use Rattle.std.specs.List.{flat_map};
ghost use Rattle.farm_record.specs.Growing.{Grows};
ghost use Rattle.farm_record.specs.Lines.{age_word, answer_word, begin_words, connection_words, job_words, line_of, message_word, message_words, name_in, name_word, number_word, numbered, words_of};

use crate::event::{Age, Event};
use dia_base::{ConnId, Identity, Moment, NodeNo};
use dia_message::{Message, spell_message};
use std::alloc::{AllocError, Global};

/// Puts octets behind others. Without memory nothing is put.
#[tactic(auto, using(crate::proofs::Growing::grows_by, crate::proofs::Growing::grows_same))]
fn put(out: &mut Vec<u8>, octets: &[u8]) -> Result<(), AllocError>
    ensures ok { OnOk result (out.new.items ≡ out.old.items ++ octets.now) }
    ensures grows { Grows out.old.items out.new.items }
{
    out.extend_from_slice(octets)
}

/// A number, behind a space.
#[tactic(auto, using(crate::proofs::Growing::grows_then, crate::proofs::Growing::grows_same))]
fn push_number(alloc: Global, out: &mut Vec<u8>, number: u64) -> Result<(), AllocError>
    ensures ok { OnOk result (out.new.items ≡ out.old.items ++ number_word number) }
    ensures grows { Grows out.old.items out.new.items }
{
    let text = format!(in alloc; "{number}")?;
    put(out, b" ")?;
    put(out, text.as_bytes())
}

fn name_at(names: &[Identity], node: NodeNo) -> &[u8]
    ensures { result.now ≡ name_in (slice_get names.now node.0) }
{
    match names.get(node.0 as usize) {
        Some(name) => name.as_slice(),
        None => &[],
    }
}

/// The name of a node, behind a space.
#[tactic(auto, using(crate::proofs::Growing::grows_then, crate::proofs::Growing::grows_same))]
fn push_name(out: &mut Vec<u8>, names: &[Identity], node: NodeNo) -> Result<(), AllocError>
    ensures ok { OnOk result (out.new.items ≡ out.old.items ++ name_word names.now node) }
    ensures grows { Grows out.old.items out.new.items }
{
    put(out, b" ")?;
    put(out, name_at(names, node))
}

/// The names of these nodes, each behind a space.
#[tactic(auto, using(crate::proofs::Growing::grows_then, crate::proofs::Growing::grows_same))]
fn push_names(out: &mut Vec<u8>, names: &[Identity], nodes: &[NodeNo]) -> Result<(), AllocError>
    ensures ok { OnOk result (out.new.items ≡ out.old.items ++ flat_map (name_word names.now) nodes.now) }
    ensures grows { Grows out.old.items out.new.items }
{
    for node in nodes {
        push_name(out, names, *node)?;
    }
    Ok(())
}

/// A message in hexadecimal, behind a space.
#[tactic(auto, using(crate::proofs::Growing::grows_then, crate::proofs::Growing::grows_same))]
fn push_message(alloc: Global, out: &mut Vec<u8>, message: &Message) -> Result<(), AllocError>
    ensures ok { OnOk result (out.new.items ≡ out.old.items ++ message_word message.now) }
    ensures grows { Grows out.old.items out.new.items }
{
    let octets = spell_message(alloc, message)?;
    let digits = hex::encode(alloc, &octets)?;
    put(out, b" ")?;
    put(out, digits.as_bytes())
}

/// The answer of a job, or `-` for none, behind a space.
#[tactic(auto, using(crate::proofs::Growing::grows_then, crate::proofs::Growing::grows_same))]
fn push_answer(alloc: Global, out: &mut Vec<u8>, answer: &Option<Message>) -> Result<(), AllocError>
    ensures ok { OnOk result (out.new.items ≡ out.old.items ++ answer_word answer.now) }
    ensures grows { Grows out.old.items out.new.items }
{
    match answer {
        Some(message) => push_message(alloc, out, message),
        None => put(out, b" -"),
    }
}

#[tactic(auto, using(crate::proofs::Growing::grows_then, crate::proofs::Growing::grows_same))]
fn push_age(out: &mut Vec<u8>, age: Age) -> Result<(), AllocError>
    ensures ok { OnOk result (out.new.items ≡ out.old.items ++ age_word age) }
    ensures grows { Grows out.old.items out.new.items }
{
    put(
        out,
        match age {
            Age::New => b" new",
            Age::Kept => b" kept",
        },
    )
}

/// A word, and a number.
#[tactic(auto, using(crate::proofs::Growing::grows_then, crate::proofs::Growing::grows_same))]
fn push_numbered(
    alloc: Global,
    out: &mut Vec<u8>,
    word: &str,
    number: u64,
) -> Result<(), AllocError>
    ensures ok { OnOk result (out.new.items ≡ out.old.items ++ numbered word.now number) }
    ensures grows { Grows out.old.items out.new.items }
{
    put(out, word.as_bytes())?;
    push_number(alloc, out, number)
}

/// A word, a connection, the nodes at its ends, and what both call it.
#[tactic(auto, using(crate::proofs::Growing::grows_then, crate::proofs::Growing::grows_same))]
fn push_connection(
    alloc: Global,
    out: &mut Vec<u8>,
    names: &[Identity],
    word: &str,
    conn: ConnId,
    node: NodeNo,
    peer: NodeNo,
    label: u64,
) -> Result<(), AllocError>
    ensures ok { OnOk result (out.new.items ≡ out.old.items ++ connection_words names.now word.now conn node peer label) }
    ensures grows { Grows out.old.items out.new.items }
{
    push_numbered(alloc, out, word, conn.0)?;
    push_name(out, names, node)?;
    push_name(out, names, peer)?;
    push_number(alloc, out, label)
}

/// A word, a connection, and a message on it.
#[tactic(auto, using(crate::proofs::Growing::grows_then, crate::proofs::Growing::grows_same))]
fn push_sent(
    alloc: Global,
    out: &mut Vec<u8>,
    word: &str,
    conn: ConnId,
    message: &Message,
) -> Result<(), AllocError>
    ensures ok { OnOk result (out.new.items ≡ out.old.items ++ message_words word.now conn message.now) }
    ensures grows { Grows out.old.items out.new.items }
{
    push_numbered(alloc, out, word, conn.0)?;
    push_message(alloc, out, message)
}

/// A word, a front, and a job of it.
#[tactic(auto, using(crate::proofs::Growing::grows_then, crate::proofs::Growing::grows_same))]
fn push_job(
    alloc: Global,
    out: &mut Vec<u8>,
    names: &[Identity],
    word: &str,
    front: NodeNo,
    job: u64,
) -> Result<(), AllocError>
    ensures ok { OnOk result (out.new.items ≡ out.old.items ++ job_words names.now word.now front job) }
    ensures grows { Grows out.old.items out.new.items }
{
    put(out, word.as_bytes())?;
    push_name(out, names, front)?;
    push_number(alloc, out, job)
}

/// A beginning, behind a line that no event has.
#[tactic(auto, using(crate::proofs::Growing::grows_then, crate::proofs::Growing::grows_same))]
fn push_begin(
    alloc: Global,
    out: &mut Vec<u8>,
    names: &[Identity],
    nodes: &[NodeNo],
    moment: Moment,
) -> Result<(), AllocError>
    ensures ok { OnOk result (out.new.items ≡ out.old.items ++ begin_words names.now nodes.now moment.0) }
    ensures grows { Grows out.old.items out.new.items }
{
    put(out, b" ~\nbegin")?;
    push_names(out, names, nodes)?;
    put(out, b" at")?;
    push_number(alloc, out, moment.0)
}

/// What is told of a job that was charged.
#[tactic(auto, using(crate::proofs::Growing::grows_then, crate::proofs::Growing::grows_same))]
fn push_charged(
    alloc: Global,
    out: &mut Vec<u8>,
    moment: Moment,
    place: u64,
    age: Age,
    answer: &Option<Message>,
) -> Result<(), AllocError>
    ensures ok { OnOk result (out.new.items ≡ out.old.items ++ number_word moment.0 ++ number_word place ++ age_word age ++ answer_word answer.now) }
    ensures grows { Grows out.old.items out.new.items }
{
    push_number(alloc, out, moment.0)?;
    push_number(alloc, out, place)?;
    push_age(out, age)?;
    push_answer(alloc, out, answer)
}

/// The words of an event.
#[tactic(auto, using(crate::proofs::Growing::grows_then, crate::proofs::Growing::grows_same))]
fn push_words(
    alloc: Global,
    out: &mut Vec<u8>,
    names: &[Identity],
    event: &Event,
) -> Result<(), AllocError>
    ensures ok { OnOk result (out.new.items ≡ out.old.items ++ words_of names.now event.now) }
    ensures grows { Grows out.old.items out.new.items }
{
    match event {
        Event::Begin { nodes, moment } => push_begin(alloc, out, names, nodes, *moment),
        Event::Time { moment } => push_numbered(alloc, out, "time", moment.0),
        Event::Dial {
            conn,
            node,
            peer,
            label,
        } => push_connection(alloc, out, names, "dial", *conn, *node, *peer, *label),
        Event::Accept {
            conn,
            node,
            peer,
            label,
        } => push_connection(alloc, out, names, "accept", *conn, *node, *peer, *label),
        Event::Opened { conn } => push_numbered(alloc, out, "opened", conn.0),
        Event::Deliver { conn, message } => push_sent(alloc, out, "deliver", *conn, message),
        Event::Send { conn, message } => push_sent(alloc, out, "send", *conn, message),
        Event::Out { conn, message } => push_sent(alloc, out, "out", *conn, message),
        Event::Drop { conn } => push_numbered(alloc, out, "drop", conn.0),
        Event::Charge {
            front,
            job,
            moment,
            place,
            age,
            answer,
        } => {
            push_job(alloc, out, names, "charge", *front, *job)?;
            push_charged(alloc, out, *moment, *place, *age, answer)
        }
        Event::Refuse { front, job, answer } => {
            push_job(alloc, out, names, "refuse", *front, *job)?;
            push_answer(alloc, out, answer)
        }
        Event::Sweep { moment, sessions } => {
            push_numbered(alloc, out, "sweep", moment.0)?;
            push_number(alloc, out, *sessions)
        }
        Event::Report { line } => put(out, line),
        Event::End => put(out, b"end"),
        Event::Lost => put(out, b"lost"),
    }
}

/// Puts the line of an event behind others, by the names of the site's nodes. Without memory a beginning of it may stand there.
#[tactic(auto, using(crate::proofs::Growing::grows_then, crate::proofs::Growing::grows_same))]
pub fn push_event(
    alloc: Global,
    out: &mut Vec<u8>,
    names: &[Identity],
    event: &Event,
) -> Result<(), AllocError>
    ensures ok { OnOk result (out.new.items ≡ out.old.items ++ line_of names.now event.now) }
    ensures grows { Grows out.old.items out.new.items }
{
    push_words(alloc, out, names, event)?;
    put(out, b"\n")
}

/// Puts the line of a message on a connection behind others, without an event that owns it.
#[tactic(auto, using(crate::proofs::Growing::grows_then, crate::proofs::Growing::grows_same))]
pub(crate) fn push_passed(
    alloc: Global,
    out: &mut Vec<u8>,
    word: &str,
    conn: ConnId,
    message: &Message,
) -> Result<(), AllocError>
    ensures ok { OnOk result (out.new.items ≡ out.old.items ++ message_words word.now conn message.now ++ 10 ∷ []) }
    ensures grows { Grows out.old.items out.new.items }
{
    push_sent(alloc, out, word, conn, message)?;
    put(out, b"\n")
}
