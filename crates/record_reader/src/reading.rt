//! The event that a line tells.

ghost use Rattle.std.specs.Prelude.{◌≡◌, [], ◌∷◌, map};
ghost use Rattle.farm_record.specs.declared.event.Event.TheVariants as Event;
ghost use Rattle.farm_script.specs.Words.{Answers};
ghost use Rattle.record_reader.specs.Reading.{AnswersEvent, AnswersLine, accept_of, age_of, alone, answer_of, begin_of, beginning, charge_of, deliver_of, dial_of, drop_of, is_comment, is_of_report, is_unfinished, nodes_from, number_said, opened_of, out_of, refuse_of, said_by, said_in, send_of, sweep_of, time_of, told_of};

use dia_base::{ConnId, Listing, Moment, NodeNo};
use dia_message::Message;
use farm_base::Site;
use farm_record::{Age, Event};
use farm_script::{LineFault, message_of, node_of, number_of, words_of};
use std::alloc::Global;

const BEGIN: &[u8] = b"begin";

const AT: &[u8] = b"at";

const TIME: &[u8] = b"time";

const DIAL: &[u8] = b"dial";

const ACCEPT: &[u8] = b"accept";

const OPENED: &[u8] = b"opened";

const DELIVER: &[u8] = b"deliver";

const SEND: &[u8] = b"send";

const OUT: &[u8] = b"out";

const DROP: &[u8] = b"drop";

const CHARGE: &[u8] = b"charge";

const NEW: &[u8] = b"new";

const KEPT: &[u8] = b"kept";

const REFUSE: &[u8] = b"refuse";

const NO_ANSWER: &[u8] = b"-";

const SWEEP: &[u8] = b"sweep";

const ENTRIES: &[u8] = b"entries";

const ACCOUNT: &[u8] = b"account";

const END: &[u8] = b"end";

const LOST: &[u8] = b"lost";

/// The last word of a line that was not finished.
const UNFINISHED: &[u8] = b"~";

/// The event of a line; none of one that is empty, a comment, or was not finished.
///
/// Faults are told in this order: the first word, the count of words, names, numbers, messages.
pub fn event_of(alloc: Global, line: &[u8], site: &Site) -> Result<Option<Event>, LineFault>
    ensures { AnswersLine (said_by site.now line.now) result }
{
    let words = words_of(alloc, line)?;
    said_in(alloc, line, &words, site)
}

/// The event of a line of these words.
fn said_in(
    alloc: Global,
    line: &[u8],
    words: &[&[u8]],
    site: &Site,
) -> Result<Option<Event>, LineFault>
    ensures { AnswersLine (said_in site.now line.now (map (λ word. word.now) words.now)) result }
{
    let Some((first, rest)) = words.split_first() else {
        return Ok(None);
    };
    let verb = *first;
    if is_unfinished(words) || is_comment(line) {
        Ok(None)
    } else if verb == BEGIN {
        Ok(Some(begin_of(alloc, rest, site)?))
    } else if is_of_report(verb) {
        let line = Vec::from_slice(alloc, line)?;
        Ok(Some(Event::Report { line }))
    } else {
        Ok(Some(told_of(alloc, verb, rest, site)?))
    }
}

/// Whether the last word says that the line was not finished.
fn is_unfinished(words: &[&[u8]]) -> bool
    ensures { result ≡ is_unfinished (map (λ word. word.now) words.now) }
{
    match words {
        [.., last] => *last == UNFINISHED,
        [] => false,
    }
}

fn is_comment(line: &[u8]) -> bool
    ensures { result ≡ is_comment line.now }
{
    matches!(line, [b'#', ..])
}

/// Whether a line with this first word is one of the book's report.
fn is_of_report(verb: &[u8]) -> bool
    ensures { result ≡ is_of_report verb.now }
{
    verb == ENTRIES || verb == ACCOUNT
}

/// What a line with this first word tells.
fn told_of(alloc: Global, verb: &[u8], words: &[&[u8]], site: &Site) -> Result<Event, LineFault>
    ensures { Answers (told_of site.now verb.now (map (λ word. word.now) words.now)) result }
{
    if verb == TIME {
        time_of(words)
    } else if verb == DIAL {
        dial_of(words, site)
    } else if verb == ACCEPT {
        accept_of(words, site)
    } else if verb == OPENED {
        opened_of(words)
    } else if verb == DELIVER {
        deliver_of(alloc, words)
    } else if verb == SEND {
        send_of(alloc, words)
    } else if verb == OUT {
        out_of(alloc, words)
    } else if verb == DROP {
        drop_of(words)
    } else if verb == CHARGE {
        charge_of(alloc, words, site)
    } else if verb == REFUSE {
        refuse_of(alloc, words, site)
    } else if verb == SWEEP {
        sweep_of(words)
    } else if verb == END {
        alone(Event::End, words)
    } else if verb == LOST {
        alone(Event::Lost, words)
    } else {
        Err(LineFault::UnknownWord)
    }
}

/// An event whose line has no other word.
fn alone(event: Event, words: &[&[u8]]) -> Result<Event, LineFault>
    ensures { result ≡ alone event (map (λ word. word.now) words.now) }
{
    match words {
        [] => Ok(event),
        _ => Err(LineFault::WrongCount),
    }
}

/// The one number of a line.
#[tactic(auto, using(crate::proofs::WordLists::one_word))]
fn number_said(words: &[&[u8]]) -> Result<u64, LineFault>
    ensures { result ≡ number_said (map (λ word. word.now) words.now) }
{
    match words {
        [number] => number_of(number),
        _ => Err(LineFault::WrongCount),
    }
}

fn time_of(words: &[&[u8]]) -> Result<Event, LineFault>
    ensures { result ≡ time_of (map (λ word. word.now) words.now) }
{
    let moment = Moment(number_said(words)?);
    Ok(Event::Time { moment })
}

fn opened_of(words: &[&[u8]]) -> Result<Event, LineFault>
    ensures { result ≡ opened_of (map (λ word. word.now) words.now) }
{
    let conn = ConnId(number_said(words)?);
    Ok(Event::Opened { conn })
}

fn drop_of(words: &[&[u8]]) -> Result<Event, LineFault>
    ensures { result ≡ drop_of (map (λ word. word.now) words.now) }
{
    let conn = ConnId(number_said(words)?);
    Ok(Event::Drop { conn })
}

#[tactic(auto, using(crate::proofs::WordLists::two_words))]
fn deliver_of(alloc: Global, words: &[&[u8]]) -> Result<Event, LineFault>
    ensures { Answers (deliver_of (map (λ word. word.now) words.now)) result }
{
    let [conn, message] = words else {
        return Err(LineFault::WrongCount);
    };
    Ok(Event::Deliver {
        conn: ConnId(number_of(conn)?),
        message: message_of(alloc, message)?,
    })
}

#[tactic(auto, using(crate::proofs::WordLists::two_words))]
fn send_of(alloc: Global, words: &[&[u8]]) -> Result<Event, LineFault>
    ensures { Answers (send_of (map (λ word. word.now) words.now)) result }
{
    let [conn, message] = words else {
        return Err(LineFault::WrongCount);
    };
    Ok(Event::Send {
        conn: ConnId(number_of(conn)?),
        message: message_of(alloc, message)?,
    })
}

#[tactic(auto, using(crate::proofs::WordLists::two_words))]
fn out_of(alloc: Global, words: &[&[u8]]) -> Result<Event, LineFault>
    ensures { Answers (out_of (map (λ word. word.now) words.now)) result }
{
    let [conn, message] = words else {
        return Err(LineFault::WrongCount);
    };
    Ok(Event::Out {
        conn: ConnId(number_of(conn)?),
        message: message_of(alloc, message)?,
    })
}

#[tactic(auto, using(crate::proofs::WordLists::four_words))]
fn dial_of(words: &[&[u8]], site: &Site) -> Result<Event, LineFault>
    ensures { result ≡ dial_of site.now (map (λ word. word.now) words.now) }
{
    let [conn, node, peer, label] = words else {
        return Err(LineFault::WrongCount);
    };
    Ok(Event::Dial {
        node: node_of(site, node)?,
        peer: node_of(site, peer)?,
        conn: ConnId(number_of(conn)?),
        label: number_of(label)?,
    })
}

#[tactic(auto, using(crate::proofs::WordLists::four_words))]
fn accept_of(words: &[&[u8]], site: &Site) -> Result<Event, LineFault>
    ensures { result ≡ accept_of site.now (map (λ word. word.now) words.now) }
{
    let [conn, node, peer, label] = words else {
        return Err(LineFault::WrongCount);
    };
    Ok(Event::Accept {
        node: node_of(site, node)?,
        peer: node_of(site, peer)?,
        conn: ConnId(number_of(conn)?),
        label: number_of(label)?,
    })
}

/// An answer, or none for `-`.
fn answer_of(alloc: Global, word: &[u8]) -> Result<Option<Message>, LineFault>
    ensures { Answers (answer_of word.now) result }
{
    if word == NO_ANSWER {
        Ok(None)
    } else {
        Ok(Some(message_of(alloc, word)?))
    }
}

fn age_of(word: &[u8]) -> Result<Age, LineFault>
    ensures { result ≡ age_of word.now }
{
    if word == NEW {
        Ok(Age::New)
    } else if word == KEPT {
        Ok(Age::Kept)
    } else {
        Err(LineFault::UnknownWord)
    }
}

#[tactic(auto, using(crate::proofs::WordLists::six_words))]
fn charge_of(alloc: Global, words: &[&[u8]], site: &Site) -> Result<Event, LineFault>
    ensures { Answers (charge_of site.now (map (λ word. word.now) words.now)) result }
{
    let [front, job, moment, place, age, answer] = words else {
        return Err(LineFault::WrongCount);
    };
    Ok(Event::Charge {
        front: node_of(site, front)?,
        job: number_of(job)?,
        moment: Moment(number_of(moment)?),
        place: number_of(place)?,
        age: age_of(age)?,
        answer: answer_of(alloc, answer)?,
    })
}

#[tactic(auto, using(crate::proofs::WordLists::three_words))]
fn refuse_of(alloc: Global, words: &[&[u8]], site: &Site) -> Result<Event, LineFault>
    ensures { Answers (refuse_of site.now (map (λ word. word.now) words.now)) result }
{
    let [front, job, answer] = words else {
        return Err(LineFault::WrongCount);
    };
    Ok(Event::Refuse {
        front: node_of(site, front)?,
        job: number_of(job)?,
        answer: answer_of(alloc, answer)?,
    })
}

#[tactic(auto, using(crate::proofs::WordLists::two_words))]
fn sweep_of(words: &[&[u8]]) -> Result<Event, LineFault>
    ensures { result ≡ sweep_of (map (λ word. word.now) words.now) }
{
    let [moment, sessions] = words else {
        return Err(LineFault::WrongCount);
    };
    Ok(Event::Sweep {
        moment: Moment(number_of(moment)?),
        sessions: number_of(sessions)?,
    })
}

/// `NAME.. at MOMENT`, behind `begin`.
#[tactic(auto, using(crate::proofs::NodeLists::begin_words))]
fn begin_of(alloc: Global, words: &[&[u8]], site: &Site) -> Result<Event, LineFault>
    ensures { AnswersEvent (begin_of site.now (map (λ word. word.now) words.now)) result }
{
    let [names @ .., at, moment] = words else {
        return Err(LineFault::WrongCount);
    };
    if names.is_empty() || *at != AT {
        return Err(LineFault::WrongCount);
    }
    beginning(alloc, names, moment, site)
}

/// A process of the nodes with these names begins.
fn beginning(alloc: Global, names: &[&[u8]], moment: &[u8], site: &Site) -> Result<Event, LineFault>
    ensures { AnswersEvent (beginning site.now (map (λ word. word.now) names.now) moment.now) result }
{
    let nodes = nodes_of(alloc, names, site)?;
    let moment = Moment(number_of(moment)?);
    Ok(Event::Begin {
        nodes: nodes.into_vec(),
        moment,
    })
}

/// The nodes with these names.
#[tactic(auto, using(crate::proofs::NodeLists::node_next))]
fn nodes_of(alloc: Global, names: &[&[u8]], site: &Site) -> Result<Listing<NodeNo>, LineFault>
    ensures { Answers (nodes_from [] site.now (map (λ word. word.now) names.now)) result }
{
    let mut nodes = Vec::new(alloc);
    for name in names {
        nodes.push(node_of(site, name)?)?;
    }
    Ok(Listing::from_vec(nodes))
}
