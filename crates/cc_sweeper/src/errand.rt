//! What a sweeper and whoever asks it hand each other, and the rule that it is under.

ghost use Rattle.std.specs.Prelude.{◌≡◌};

use atomic_table::Split;
use cc_book::BookRefusal;
use cc_shared::Sharing;
use crossbeam_utils::atomic::seq_cell::{Pass, RuledSeqCell, Words};
use crossbeam_utils::rule::{Outcome, Protocol};
use dia_base::Moment;
use std::marker::PhantomData;

/// What a sweep came to.
#[derive(Clone, Copy)]
pub struct SweepDone {
    /// At which moment the book was swept.
    pub moment: Moment,
    /// How many sessions it has ended, or why the book refused.
    pub swept: Result<u64, BookRefusal>,
}

/// An errand of a sweeper.
#[derive(Clone, Copy)]
pub enum Errand {
    /// Nothing is to be done, or to be collected.
    Nothing,
    /// A sweep at this moment is asked for, and not done.
    Asked { moment: Moment },
    /// It is done, and not collected.
    Done { done: SweepDone },
}

impl Words<3> for Errand {
    ghost use Rattle.cc_sweeper.specs.Errands.{words_of};

    ghost words = { words_of };

    fn to_words(self) -> [u64; 3] {
        match self {
            Errand::Nothing => [0, 0, 0],
            Errand::Asked { moment } => [1, moment.0, 0],
            Errand::Done { done } => match done.swept {
                Ok(ended) => [2, done.moment.0, ended],
                Err(BookRefusal::Full { limit }) => [3, done.moment.0, limit],
                Err(BookRefusal::OutOfMemory) => [4, done.moment.0, 0],
            },
        }
    }

    fn from_words(bits: &[u64; 3]) -> Errand {
        let moment = Moment(bits[1]);
        let number = bits[2];
        let swept = match bits[0] {
            0 => return Errand::Nothing,
            1 => return Errand::Asked { moment },
            2 => Ok(number),
            3 => Err(BookRefusal::Full { limit: number }),
            _ => Err(BookRefusal::OutOfMemory),
        };
        Errand::Done {
            done: SweepDone { moment, swept },
        }
    }
}

/// Who uses an errand, and what it knows of it. No value of it is made.
pub enum User {
    /// Who asks: whether it has a sweeper, at which moment a sweep is under way, and whether it has seen what that came to.
    Asker {
        hired: bool,
        asked: Option<Moment>,
        seen: bool,
    },
    /// The sweeper: at which moment it is to sweep.
    Hand {
        taken: Option<Moment>,
    },
}

/// The rule of an errand: what is asked for stands there until it is done, and what is done until it is collected.
pub struct ErrandRule<L> {
    of: PhantomData<L>,
}

impl<L: Sharing> Protocol<Errand, User> for ErrandRule<L> {
    ghost use Rattle.cc_sweeper.specs.Errands.{Agree, new_asker};

    ghost holds = { Agree L.shared };

    ghost first = { new_asker };
}

/// A sweep is asked for.
pub struct Asks;

impl Outcome<Errand, User> for Asks {
    ghost use Rattle.std.specs.Prelude.{◌≡◌, true, false};
    ghost use Rattle.cc_sweeper.specs.Errands.{taken_in};
    ghost use Rattle.cc_sweeper.specs.declared.errand.User.TheVariants.{Asker};

    ghost then = { λ user before after now. now ≡ Asker true (taken_in after) false };
}

/// Who asks looks.
pub struct Sees<L> {
    of: PhantomData<L>,
}

impl<L: Sharing> Outcome<Errand, User> for Sees<L> {
    ghost use Rattle.cc_sweeper.specs.Errands.{HasSeen};

    ghost then = { λ user before after now. HasSeen L.shared user after now };
}

/// Who asks has seen what a sweep came to, and takes it.
pub struct Collects;

impl Outcome<Errand, User> for Collects {
    ghost use Rattle.std.specs.Prelude.{◌≡◌};
    ghost use Rattle.cc_sweeper.specs.Errands.{idle_asker};

    ghost then = { λ user before after now. now ≡ idle_asker };
}

/// The sweeper looks what it is to do.
pub struct Takes;

impl Outcome<Errand, User> for Takes {
    ghost use Rattle.std.specs.Prelude.{◌≡◌};
    ghost use Rattle.cc_sweeper.specs.Errands.{taken_in};
    ghost use Rattle.cc_sweeper.specs.declared.errand.User.TheVariants.{Hand};

    ghost then = { λ user before after now. now ≡ Hand (taken_in after) };
}

/// The sweeper has done it.
pub struct Answers;

impl Outcome<Errand, User> for Answers {
    ghost use Rattle.std.specs.Prelude.{◌≡◌};
    ghost use Rattle.cc_sweeper.specs.Errands.{idle_hand};

    ghost then = { λ user before after now. now ≡ idle_hand };
}

/// A sweeper for who asks.
pub struct Hires;

impl Split<User> for Hires {
    ghost use Rattle.cc_sweeper.specs.Errands.{idle_asker, idle_hand};

    ghost left = { λ user. idle_asker };

    ghost right = { λ user. idle_hand };
}

pub type ErrandCell<L> = RuledSeqCell<Errand, User, ErrandRule<L>, 3>;

pub type ErrandPass = Pass<Errand, User>;
