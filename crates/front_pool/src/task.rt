//! Jobs on their way through a pool, each in memory of its own.

ghost use Rattle.std.specs.Prelude.{◌≡◌, IfOk};
ghost use Rattle.front_pool.specs.Answering.{answered};

use crate::job::{Finished, Job};
use cc_shared::Receipt;
use dia_base::{ConnId, Moment, NodeNo};
use dia_message::Message;
use std::alloc::{AllocError, Global};
use std::marker::Model;

/// A job in the hands of the workers. It has the memory for what it is once it is finished, so that none is wanted for that, and who hands
/// it on moves a pointer. Contracts see the job.
#[derive(Drop)]
pub struct Task {
    /// The job, not answered yet.
    finished: Box<Finished>,
}

impl Model for Task {
    ghost use Rattle.front_pool.specs.declared.job.Job.{Job as JobValue};
    ghost use Rattle.front_pool.specs.Jobs.{job_of};

    ghost Value = { JobValue };

    ghost view = { λ t. job_of t.finished.value };
}

/// A finished job, in the memory that its task had. Contracts see it.
#[derive(Drop)]
pub struct Done {
    finished: Box<Finished>,
}

impl Model for Done {
    ghost use Rattle.front_pool.specs.declared.job.Finished.{Finished as FinishedValue};

    ghost Value = { FinishedValue };

    ghost view = { λ d. d.finished.value };
}

impl Task {
    /// The job, handed over at this front.
    pub fn new(alloc: Global, front: NodeNo, job: Job) -> Result<Self, AllocError>
        ensures { IfOk result (λ task. task ≡ job) }
    {
        let Job {
            number,
            conn,
            request,
        } = job;
        let unanswered = Finished {
            job: number,
            front,
            conn,
            request,
            answer: None,
            receipt: None,
            moment: None,
        };
        Ok(Task {
            finished: Box::new(alloc, unanswered)?,
        })
    }

    /// Its number.
    pub fn number(&self) -> u64
        ensures { result ≡ self.now.number }
    {
        self.finished.job
    }

    /// The request that was handed over.
    pub fn request(&self) -> &Message
        ensures { result.now ≡ self.now.request }
    {
        &self.finished.request
    }

    /// The job, answered so in the name of this front. It takes no memory.
    pub fn finish(
        self,
        front: NodeNo,
        answer: Option<Message>,
        receipt: Option<Receipt>,
        moment: Option<Moment>,
    ) -> Done
        ensures { result ≡ answered front self answer receipt moment }
    {
        let Task { mut finished } = self;
        finished.front = front;
        finished.answer = answer;
        finished.receipt = receipt;
        finished.moment = moment;
        Done { finished }
    }
}

impl Done {
    /// The finished job, where it is.
    pub fn as_finished(&self) -> &Finished
        ensures { result.now ≡ self.now }
    {
        &self.finished
    }

    /// The finished job, out of its memory.
    pub fn into_finished(self) -> Finished
        ensures { result ≡ self }
    {
        Box::into_inner(self.finished)
    }

    /// Its connection and its answer alone.
    pub fn into_answer(self) -> (ConnId, Option<Message>)
        ensures { result ≡ (self.conn, self.answer) }
    {
        let Done { mut finished } = self;
        (finished.conn, finished.answer.take())
    }
}
