//! The lines of steps.

ghost use Rattle.std.specs.Prelude.{◌≡◌, ◌++◌, OnOk};
ghost use Rattle.farm_player.specs.ChangeWords.{change_words, number_word};
ghost use Rattle.farm_player.specs.StepLines.{name_at, word_of_name, about_one, about_two, message_word, words_of_step, step_line};

use crate::change::{push_change, push_number};
use cc_book::TermsChange;
use dia_base::{Moment, NodeNo};
use dia_message::{Message, spell_message};
use farm_base::{Site, Step};
use std::alloc::{AllocError, Global};

fn name_at(site: &Site, node: NodeNo) -> &[u8]
    ensures { result.now ≡ name_at site.now node }
{
    match site.nodes.as_slice().get(node.0 as usize) {
        Some(node) => node.name.as_slice(),
        None => &[],
    }
}

/// The name of a node, behind a space.
fn push_name(out: &mut Vec<u8>, site: &Site, node: NodeNo) -> Result<(), AllocError>
    ensures { OnOk result (out.new.items ≡ out.old.items ++ word_of_name site.now node) }
{
    out.push(b' ')?;
    out.extend_from_slice(name_at(site, node))
}

/// A message in hexadecimal, behind a space.
fn push_message(alloc: Global, out: &mut Vec<u8>, message: &Message) -> Result<(), AllocError>
    ensures { OnOk result (out.new.items ≡ out.old.items ++ message_word message.now) }
{
    let octets = spell_message(alloc, message)?;
    let digits = hex::encode(alloc, octets)?;
    out.push(b' ')?;
    out.extend_from_slice(digits.as_bytes())
}

/// A word, and the node that it is about.
fn push_one(out: &mut Vec<u8>, site: &Site, word: &str, node: NodeNo) -> Result<(), AllocError>
    ensures { OnOk result (out.new.items ≡ out.old.items ++ about_one site.now word.now node) }
{
    out.extend_from_slice(word.as_bytes())?;
    push_name(out, site, node)
}

/// A word, and the two nodes that it is about.
fn push_two(
    out: &mut Vec<u8>,
    site: &Site,
    word: &str,
    a: NodeNo,
    b: NodeNo,
) -> Result<(), AllocError>
    ensures { OnOk result (out.new.items ≡ out.old.items ++ about_two site.now word.now a b) }
{
    push_one(out, site, word, a)?;
    push_name(out, site, b)
}

/// A word, the front that it is about, and one of its workers.
fn push_worker(
    alloc: Global,
    out: &mut Vec<u8>,
    site: &Site,
    word: &str,
    front: NodeNo,
    worker: u64,
) -> Result<(), AllocError>
    ensures { OnOk result (out.new.items ≡ out.old.items ++ about_one site.now word.now front ++ number_word worker) }
{
    push_one(out, site, word, front)?;
    push_number(alloc, out, worker)
}

/// A word, two nodes, and the place of a message that is in flight from the first to the second.
fn push_flight(
    alloc: Global,
    out: &mut Vec<u8>,
    site: &Site,
    word: &str,
    from: NodeNo,
    to: NodeNo,
    place: u64,
) -> Result<(), AllocError>
    ensures { OnOk result (out.new.items ≡ out.old.items ++ about_two site.now word.now from to ++ number_word place) }
{
    push_two(out, site, word, from, to)?;
    push_number(alloc, out, place)
}

/// A word, two nodes, and the message that the first one sends to the second.
fn push_sent(
    alloc: Global,
    out: &mut Vec<u8>,
    site: &Site,
    word: &str,
    from: NodeNo,
    to: NodeNo,
    message: &Message,
) -> Result<(), AllocError>
    ensures { OnOk result (out.new.items ≡ out.old.items ++ about_two site.now word.now from to ++ message_word message.now) }
{
    push_two(out, site, word, from, to)?;
    push_message(alloc, out, message)
}

/// A word, a front, one of its workers, and the moment of what it does.
fn push_charge(
    alloc: Global,
    out: &mut Vec<u8>,
    site: &Site,
    word: &str,
    front: NodeNo,
    worker: u64,
    moment: Moment,
) -> Result<(), AllocError>
    ensures { OnOk result (out.new.items ≡ out.old.items ++ about_one site.now word.now front ++ number_word worker ++ number_word moment.0) }
{
    push_worker(alloc, out, site, word, front, worker)?;
    push_number(alloc, out, moment.0)
}

/// A word, and a moment.
fn push_moment(
    alloc: Global,
    out: &mut Vec<u8>,
    word: &str,
    moment: Moment,
) -> Result<(), AllocError>
    ensures { OnOk result (out.new.items ≡ out.old.items ++ word.now ++ number_word moment.0) }
{
    out.extend_from_slice(word.as_bytes())?;
    push_number(alloc, out, moment.0)
}

/// A word, a moment, and how the terms change then.
fn push_terms(
    alloc: Global,
    out: &mut Vec<u8>,
    word: &str,
    moment: Moment,
    change: &TermsChange,
) -> Result<(), AllocError>
    ensures { OnOk result (out.new.items ≡ out.old.items ++ word.now ++ number_word moment.0 ++ change_words change.now) }
{
    push_moment(alloc, out, word, moment)?;
    push_change(alloc, out, change)
}

/// The words of a step.
fn push_words(alloc: Global, out: &mut Vec<u8>, site: &Site, step: &Step) -> Result<(), AllocError>
    ensures { OnOk result (out.new.items ≡ out.old.items ++ words_of_step site.now step.now) }
{
    match step {
        Step::Up { a, b } => push_two(out, site, "up", *a, *b),
        Step::Accept { at, from } => push_two(out, site, "accept", *at, *from),
        Step::Opened { a, b } => push_two(out, site, "opened", *a, *b),
        Step::Send {
            client,
            to,
            message,
        } => push_sent(alloc, out, site, "send", *client, *to, message),
        Step::Deliver { from, to, place } => {
            push_flight(alloc, out, site, "deliver", *from, *to, *place)
        }
        Step::Lose { from, to, place } => {
            push_flight(alloc, out, site, "lose", *from, *to, *place)
        }
        Step::Cut { a, b } => push_two(out, site, "cut", *a, *b),
        Step::Drop { a, b } => push_two(out, site, "drop", *a, *b),
        Step::Restart { node } => push_one(out, site, "restart", *node),
        Step::Crash { node } => push_one(out, site, "crash", *node),
        Step::Pick { front, worker } => push_worker(alloc, out, site, "pick", *front, *worker),
        Step::Charge {
            front,
            worker,
            moment,
        } => push_charge(alloc, out, site, "charge", *front, *worker, *moment),
        Step::Refuse { front, worker } => {
            push_worker(alloc, out, site, "refuse", *front, *worker)
        }
        Step::Emit { front, worker } => push_worker(alloc, out, site, "emit", *front, *worker),
        Step::Sweep { moment } => push_moment(alloc, out, "sweep", *moment),
        Step::ChangeTerms { moment, change } => push_terms(alloc, out, "terms", *moment, change),
    }
}

/// Puts the line of a step behind others. After an error a beginning of it may stand there.
pub fn push_step(
    alloc: Global,
    out: &mut Vec<u8>,
    site: &Site,
    step: &Step,
) -> Result<(), AllocError>
    ensures { OnOk result (out.new.items ≡ out.old.items ++ step_line site.now step.now) }
{
    push_words(alloc, out, site, step)?;
    out.push(b'\n')?;
    Ok(())
}
