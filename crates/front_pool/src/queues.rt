//! The two queues of a pool, and the rules that they are under.

ghost use Rattle.std.specs.Prelude.{◌≡◌, ⊤};

use crate::site::Pooling;
use crate::task::{Done, Task};
use crossbeam_queue::protocol::{Lesson, Outcome, Protocol, Split};
use crossbeam_queue::{Pass, RuledArrayQueue};
use std::collections::LinkedList;
use std::marker::PhantomData;

/// Who uses a queue, a pool or one of its workers, and what it has put into it and taken out. No value of it is made.
pub struct Moves<T> {
    pub by_pool: bool,
    pub put: LinkedList<T>,
    pub taken: LinkedList<T>,
}

/// The rule of the jobs: what was put was taken, or is there still. The pool alone puts, and its workers take.
pub struct JobRule;

impl Protocol<Task, Moves<Task>> for JobRule {
    ghost use Rattle.front_pool.specs.Moving.{Anything, Balanced, GivesJobs, of_pool};

    ghost holds = { Balanced GivesJobs Anything };

    ghost first = { of_pool };
}

/// The rule of the finished jobs: what was put was taken, or is there still, and each is what its job is answered. Workers alone
/// put, and their pool takes.
pub struct FinishedRule<L> {
    pool: PhantomData<L>,
}

impl<L: Pooling> Protocol<Done, Moves<Done>> for FinishedRule<L> {
    ghost use Rattle.front_pool.specs.Answering.{IsAnsweredByOne};
    ghost use Rattle.front_pool.specs.Moving.{Balanced, GivesFinished, of_pool};

    ghost holds = { Balanced GivesFinished (IsAnsweredByOne L.site L.shared) };

    ghost first = { of_pool };
}

/// A worker more, which has not used the queue yet.
pub struct Hires;

impl<T> Split<Moves<T>> for Hires {
    ghost use Rattle.front_pool.specs.Moving.{of_worker};

    ghost left = { λ v. v };

    ghost right = { λ v. of_worker };
}

/// One put.
pub struct Puts;

impl<T> Outcome<T, Moves<T>> for Puts {
    ghost use Rattle.std.specs.Prelude.{◌≡◌};
    ghost use Rattle.front_pool.specs.Moving.{with_put};

    ghost then = { λ v x w. w ≡ with_put v x };
}

/// The queue holds no more than the pool has put.
impl Lesson<Task, Moves<Task>> for Puts {
    ghost use Rattle.std.specs.Prelude.{◌≤◌, length};

    ghost fact = { λ v items. length items ≤ length v.put };
}

impl Lesson<Done, Moves<Done>> for Puts {
    ghost use Rattle.std.specs.Prelude.{⊤};

    ghost fact = { λ v items. ⊤ };
}

/// One taken.
pub struct Takes;

impl Outcome<Task, Moves<Task>> for Takes {
    ghost use Rattle.std.specs.Prelude.{◌≡◌};
    ghost use Rattle.front_pool.specs.Moving.{with_taken};

    ghost then = { λ v x w. w ≡ with_taken v x };
}

impl<T> Lesson<T, Moves<T>> for Takes {
    ghost use Rattle.std.specs.Prelude.{⊤};

    ghost fact = { λ v items. ⊤ };
}

/// One taken, which is what its job is answered.
pub struct TakesAnswered<L> {
    pool: PhantomData<L>,
}

impl<L: Pooling> Outcome<Done, Moves<Done>> for TakesAnswered<L> {
    ghost use Rattle.std.specs.Prelude.{◌≡◌};
    ghost use Rattle.front_pool.specs.Answering.{IsAnsweredByOne};
    ghost use Rattle.front_pool.specs.Moving.{with_taken};

    ghost then = { λ v x w. IsAnsweredByOne L.site L.shared x × (w ≡ with_taken v x) };
}

impl<L: Pooling> Lesson<Done, Moves<Done>> for TakesAnswered<L> {
    ghost use Rattle.std.specs.Prelude.{⊤};

    ghost fact = { λ v items. ⊤ };
}

pub type JobQueue = RuledArrayQueue<Task, Moves<Task>, JobRule>;

pub type JobPass = Pass<Task, Moves<Task>>;

pub type FinishedQueue<L> = RuledArrayQueue<Done, Moves<Done>, FinishedRule<L>>;

pub type FinishedPass = Pass<Done, Moves<Done>>;
