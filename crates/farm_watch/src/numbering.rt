//! The End-to-End Identifiers of the requests that a process writes itself (RFC 6733, section 3).

ghost use Rattle.std.specs.Prelude.{◌≡◌, option_to_list};
ghost use Rattle.farm_watch.specs.Numbering.{count_after, count_after_acts, identifier_at, numbered, numbered_by_clock, numbering_after, with_end};

use crate::acts::{Act, Acts};
use dia_base::Moment;
use dia_message::{Header, Message};

/// How many counts there are: they have 20 bits.
const COUNTS: u32 = 1_048_576;

/// How many seconds are told apart: by their low 12 bits.
const SECONDS: u64 = 4_096;

/// How the requests of the lives of a process's connections are numbered from end to end: capabilities, watchdogs and
/// goodbyes. It is one for the process, so that no two of its connections give one identifier.
#[derive(Clone, Copy)]
pub enum Numbering {
    /// Each has its Hop-by-Hop Identifier, which counts from 1 on each connection.
    HopByHop,
    /// The high 12 bits are the low ones of the clock's seconds, the low 20 bits those of this count, which the next
    /// request takes. A process that begins may begin with any.
    ByClock { count: u32 },
}

impl Numbering {
    /// The same acts, as they are done at this moment, in milliseconds since 1970: each request that they send has its
    /// End-to-End Identifier. Answers, and what the node is passed, are as they were.
    #[tactic(auto, using(crate::proofs::Numbered::nothing_numbered, crate::proofs::Numbered::nothing_counted))]
    pub fn number(&mut self, acts: Acts, moment: Moment) -> Acts
        ensures acts { result ≡ numbered self.old moment acts }
        ensures next { self.new ≡ numbering_after self.old acts }
    {
        match *self {
            Numbering::HopByHop => acts,
            Numbering::ByClock { .. } if !acts.send_a_request() => acts,
            Numbering::ByClock { count } => {
                let (acts, count) = numbered_by_clock(acts, moment, count);
                *self = Numbering::ByClock { count };
                acts
            }
        }
    }
}

/// The acts with their identifiers from this count on, and the count that is next.
#[tactic(auto, using(crate::proofs::Numbered::numbered_append, crate::proofs::Numbered::counted_append))]
fn numbered_by_clock(acts: Acts, moment: Moment, count: u32) -> (Acts, u32)
    ensures acts { result.0 ≡ numbered_by_clock moment count acts }
    ensures next { result.1 ≡ count_after_acts count acts }
{
    let (first, second) = acts.into_parts();
    let (first, next) = numbered_option(first, moment, count);
    let (second, last) = numbered_option(second, moment, next);
    (Acts::of_parts(first, second), last)
}

/// The same of one act, if there is one.
fn numbered_option(act: Option<Act>, moment: Moment, count: u32) -> (Option<Act>, u32)
    ensures acts { option_to_list result.0 ≡ numbered_by_clock moment count (option_to_list act) }
    ensures next { result.1 ≡ count_after_acts count (option_to_list act) }
{
    match act {
        Some(Act::Send(message)) if message.header.request => {
            let numbered = with_end(message, identifier_at(moment, count));
            (Some(Act::Send(numbered)), count_after(count))
        }
        other => (other, count),
    }
}

/// The message with this End-to-End Identifier.
fn with_end(message: Message, end: u32) -> Message
    ensures { result ≡ with_end end message }
{
    Message {
        header: Header {
            end,
            ..message.header
        },
        body: message.body,
    }
}

fn identifier_at(moment: Moment, count: u32) -> u32
    ensures { result ≡ identifier_at moment count }
{
    let seconds = moment.0 / 1_000 % SECONDS;
    seconds as u32 * COUNTS + count % COUNTS
}

fn count_after(count: u32) -> u32
    ensures { result ≡ count_after count }
{
    (count % COUNTS + 1) % COUNTS
}
