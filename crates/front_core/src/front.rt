//! A front, its connections, and what comes on them.

ghost use Rattle.std.specs.Prelude.{◌≡◌, length, IfOk, OnOk, OnErr, IsOk, IsOkUnless, MatchBool, replicate, true, false};
ghost use Rattle.dia_grammar.specs.Profile.{strict};
ghost use Rattle.front_core.specs.declared.worker.Worker.TheVariants.{Idle};
ghost use Rattle.front_core.specs.FrontState.{new_front, is_among};
ghost use Rattle.front_core.specs.FrontStep.{with_connection, without_connection, after_restart, after_arrival, sent_at_arrival};

mod work;

use crate::charging::too_busy;
use crate::error::FrontError;
use crate::site::FrontSite;
use crate::worker::{Job, Worker};
use dia_avp::Wire;
use dia_base::{ConnId, Identity, Listing};
use dia_grammar::SiteProfile;
use dia_message::{Message, Out};
use std::alloc::{AllocError, Global};
use std::collections::VecDeque;
use std::marker::Model;

/// A front node.
pub struct Front {
    site: FrontSite,
    connections: Vec<ConnId>,
    queue: VecDeque<Job>,
    workers: Vec<Worker>,
}

// By hand, so that each exit of an owner is proved with one call.
impl Drop for Front {
    fn drop(self) {
        let Front {
            site: _,
            connections: _,
            queue: _,
            workers: _,
        } = self;
    }
}

impl Model for Front {
    ghost use Rattle.front_core.specs.FrontState.{FrontState};

    ghost Value = { FrontState };

    ghost view = { λ f. record {
      site = f.site;
      connections = f.connections.items;
      queue = f.queue.items;
      workers = f.workers.items;
    } };
}

fn idle_workers(alloc: Global, count: u32) -> Result<Vec<Worker>, AllocError>
    ensures { IfOk result (λ workers. workers.items ≡ replicate count Idle) }
{
    let mut workers = Vec::with_capacity(alloc, count as usize)?;
    for made in 0..count {
        workers.push(Worker::Idle)?;
    }
    Ok(workers)
}

/// Takes from every worker what it holds.
fn free(workers: &mut [Worker])
    ensures { workers.new ≡ replicate (length workers.old) Idle }
{
    for worker in workers.iter_mut() {
        *worker = Worker::Idle;
    }
}

impl Front {
    /// A front with this many workers, all idle, and this many places in its queue. `vendors` are those
    /// whose AVPs are known and opaque; it knows nothing more, and tolerates nothing.
    pub fn new(
        alloc: Global,
        name: Identity,
        realm: Identity,
        vendors: Listing<u32>,
        workers: u32,
        queue: u32,
    ) -> Result<Self, AllocError>
        ensures { IfOk result (λ front. front ≡ new_front (record { name = name; realm = realm; profile = strict vendors; workers = workers; queue = queue })) }
    {
        let site = FrontSite {
            name,
            realm,
            profile: SiteProfile::strict(alloc, vendors),
            workers,
            queue,
        };
        Front::of_site(alloc, site)
    }

    /// A front of this site, with all workers idle and nothing in its queue.
    pub fn of_site(alloc: Global, site: FrontSite) -> Result<Self, AllocError>
        ensures { IfOk result (λ front. front ≡ new_front site) }
    {
        let workers = idle_workers(alloc, site.workers)?;
        Ok(Front {
            site,
            connections: Vec::new(alloc),
            queue: VecDeque::new(alloc),
            workers,
        })
    }

    /// A connection comes up. One that is up already changes nothing.
    pub fn conn_up(&mut self, conn: ConnId) -> Result<(), FrontError>
        ensures ok { OnOk result (self.new ≡ with_connection self.old conn) }
        ensures known { is_among self.old.connections conn ≡ true → IsOk result }
        ensures err { OnErr result (self.new ≡ self.old) }
        ensures memory { IsOkUnless result FrontError.OutOfMemory }
    {
        if !self.connections.contains(&conn) {
            self.connections.push(conn)?;
        }
        Ok(())
    }

    /// Whether a connection is up.
    pub fn is_up(&self, conn: ConnId) -> bool
        ensures { result ≡ is_among self.now.connections conn }
    {
        self.connections.contains(&conn)
    }

    /// A connection is lost. Requests that came on it stay where they are: they may still be charged,
    /// and their answers go nowhere. One that is not up changes nothing. It takes no memory.
    pub fn conn_lost(&mut self, conn: ConnId)
        ensures { self.new ≡ without_connection self.old conn }
    {
        self.connections.retain(|up| up.0 != conn.0);
    }

    /// The front restarts: no connection is up, no request waits, and all workers are idle. It takes no
    /// memory.
    pub fn restart(&mut self)
        ensures { self.new ≡ after_restart self.old }
    {
        self.connections.clear();
        self.queue.clear();
        free(&mut self.workers);
    }

    /// A message came on the connection. A request joins the queue, or is answered 3004 at once where
    /// the queue is full; a message that is no request is ignored.
    pub fn on_message<W: Wire>(
        &mut self,
        alloc: Global,
        conn: ConnId,
        message: Message,
    ) -> Result<Out, FrontError>
        ensures known { MatchBool (is_among self.old.connections conn) (IsOkUnless result FrontError.OutOfMemory) (result ≡ Err (FrontError.UnknownConn conn)) }
        ensures sent { IfOk result (λ out. out.items ≡ sent_at_arrival self.old conn message) }
        ensures ok { OnOk result (self.new ≡ after_arrival self.old conn message) }
        ensures ignored { is_among self.old.connections conn ≡ true → message.header.request ≡ false → IsOk result }
        ensures err { OnErr result (self.new ≡ self.old) }
    {
        if !self.connections.contains(&conn) {
            return Err(FrontError::UnknownConn { conn });
        }
        if !message.header.request {
            return Ok(Out::nothing(alloc));
        }
        if self.queue.len() < self.site.queue as usize {
            self.queue.push_back(Job {
                conn,
                request: message,
            })?;
            return Ok(Out::nothing(alloc));
        }
        let refusal = too_busy::<W>(alloc, &self.site, &message)?;
        Ok(Out::of_one(alloc, conn, refusal)?)
    }
}
