//! Answers by their Result-Code.

ghost use Rattle.std.specs.Prelude.{◌≡◌, ◌+◌, ◌<◌, ◌^◌, min, length, IfSome};
ghost use Rattle.farm_metrics.specs.Counting.{IsCounted, HasNoAnswers, most, place_of, total_of};

use std::alloc::Global;

/// The most Result-Codes that are told apart: a node that is relayed for could send answers with any.
pub const CODE_LIMIT: usize = 64;

/// How many answers had a Result-Code.
#[derive(Clone, Copy, PartialEq, Eq)]
pub struct CodeCount {
    pub code: u32,
    pub count: u64,
}

/// Answers by their Result-Code.
#[derive(Drop)]
pub struct Answers {
    /// The codes that were met, in the order in which they were met first, each once.
    pub codes: Vec<CodeCount>,
    /// The answers with codes for which there was no place or no memory.
    pub others: u64,
}

/// The place of a code.
fn place_of(codes: &[CodeCount], code: u32) -> Option<usize>
    ensures { result ≡ place_of code codes.now }
{
    codes.iter().position(|at| at.code == code)
}

/// The sum of two counts, or the greatest number.
fn plus(one: u64, other: u64) -> u64
    ensures { result ≡ min (one + other) most }
{
    one.saturating_add(other)
}

impl Answers {
    /// None yet.
    pub fn none(alloc: Global) -> Self
        ensures { HasNoAnswers result }
    {
        Answers {
            codes: Vec::new(alloc),
            others: 0,
        }
    }

    /// An answer with this Result-Code, 0 where it has none. It counts once: with its code, or among the others.
    pub fn add(&mut self, code: u32)
        ensures { IsCounted code self.old self.new }
    {
        if let Some(place) = place_of(&self.codes, code) {
            let at = &mut self.codes[place];
            at.count = plus(at.count, 1);
            return;
        }
        let fresh = CodeCount { code, count: 1 };
        if self.codes.len() >= CODE_LIMIT || self.codes.push(fresh).is_err() {
            self.others = plus(self.others, 1);
        }
    }

    /// How many there are: the sum of all codes and the others.
    pub fn total(&self) -> u64
        ensures { result ≡ min (total_of self.now) most }
    {
        let mut total = self.others;
        for at in &self.codes {
            total = plus(total, at.count);
        }
        total
    }
}
