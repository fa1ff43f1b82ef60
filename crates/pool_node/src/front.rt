//! One front: its connections, and its workers.

ghost use Rattle.std.specs.Prelude.{◌≡◌, [], ◌∷◌, ◌++◌, ◌<◌, length, All, IfOk, IfSome, IfNone, OnOk, OnErr, vec_len, vec_capacity};
ghost use Rattle.front_pool.specs.Answering.{IsAnsweredBy, too_busy};
ghost use Rattle.front_pool.specs.Keeping.{Balances};
ghost use Rattle.pool_node.specs.Fronts.{CollectsOne, FindsNone, OnMessage, is_node, is_up, outcome_for, sent_for, told_of_one, with_connection, without_connection};
ghost use Rattle.pool_node.specs.Measure.{message_length, octets_in};

use cc_view::{Refusal, ResultCode, refusal_bytes};
use dia_avp::Wire;
use dia_base::{ConnId, NodeNo};
use dia_message::{HEADER_LEN, Message, Out};
use farm_node::NodeError;
use front_pool::{Done, Pool, PoolSite, Pooling, Stopped, SubmitError};
use std::alloc::{AllocError, Global};
use std::marker::Model;
use std::rt::Clock;
use std::sync::Wait;
use std::thread::Threads;

/// A front with worker threads of its own.
pub struct PoolFront<L: Pooling> {
    node: NodeNo,
    site: PoolSite,
    connections: Vec<ConnId>,
    pool: Pool<L>,
}

// By hand, so that each exit of an owner is proved with one call.
impl<L: Pooling> Drop for PoolFront<L> {
    fn drop(self) {
        let PoolFront {
            node: _,
            site: _,
            connections: _,
            pool: _,
        } = self;
    }
}

impl<L: Pooling> Model for PoolFront<L> {
    ghost use Rattle.std.specs.Prelude.{◌≡◌};
    ghost use Rattle.pool_node.specs.Fronts.{FrontState};

    ghost Value = { FrontState };

    ghost view = { λ f. record { connections = f.connections.items; pool = f.pool } };

    ghost invariant = { λ f. (f.pool.front ≡ f.node) × (f.site ≡ L.site f.node) };
}

/// The octets of a message with its header.
fn octets_of(message: &Message) -> usize
    ensures { result ≡ message_length message.now }
{
    HEADER_LEN + message.body.as_slice().len()
}

/// DIAMETER_TOO_BUSY in the name of a front.
fn busy<W: Wire>(
    alloc: Global,
    site: &PoolSite,
    conn: ConnId,
    message: &Message,
) -> Result<Out, AllocError>
    ensures { IfOk result (λ out. out.items ≡ (conn, too_busy site.now message.now) ∷ []) }
{
    let busy = Refusal {
        code: ResultCode::TooBusy,
        failed: None,
    };
    let answer = refusal_bytes::<W>(alloc, &site.name, &site.realm, message, &busy)?;
    Out::of_one(alloc, conn, answer)
}

impl<L: Pooling> PoolFront<L> {
    /// A front with its workers, and no connection.
    pub fn new(alloc: Global, node: NodeNo, site: PoolSite, pool: Pool<L>) -> Self
        requires node { pool.front ≡ node }
        requires site { site ≡ L.site node }
        ensures { result ≡ record { connections = []; pool = pool } }
    {
        PoolFront {
            node,
            site,
            connections: Vec::new(alloc),
            pool,
        }
    }

    /// Whether it is this node.
    pub fn is_node(&self, node: NodeNo) -> bool
        ensures { result ≡ is_node node self.now }
    {
        self.node.0 == node.0
    }

    /// Whether a connection is up.
    pub fn is_up(&self, conn: ConnId) -> bool
        ensures { result ≡ is_up conn self.now }
    {
        self.connections.contains(&conn)
    }

    /// A connection comes up. One that is up already changes nothing.
    pub fn conn_up(&mut self, conn: ConnId) -> Result<(), AllocError>
        ensures ok { OnOk result (self.new ≡ with_connection self.old conn) }
        ensures err { OnErr result (self.new ≡ self.old) }
    {
        if !self.connections.contains(&conn) {
            self.connections.push(conn)?;
        }
        Ok(())
    }

    /// A connection is lost. Requests that came on it may still be charged, and their answers go nowhere. It takes no
    /// memory.
    pub fn conn_lost(&mut self, conn: ConnId)
        ensures { self.new ≡ without_connection self.old conn }
    {
        self.connections.retain(|up| up.0 != conn.0);
    }

    /// A message came on a connection. A request is handed to the workers; one that they hand back, for want of room or of
    /// memory, is answered 3004 at once. A message that is no request is ignored.
    pub fn on_message<W: Wire, R: Wait>(
        &mut self,
        rt: &R,
        alloc: Global,
        conn: ConnId,
        message: Message,
    ) -> Result<Option<Out>, NodeError>
        ensures { OnMessage L.site self.old conn message result self.new }
    {
        if !message.header.request {
            return Ok(None);
        }
        let request = match self.pool.submit(rt, conn, message) {
            Ok(_number) => return Ok(None),
            Err(SubmitError::PoolFull { request } | SubmitError::OutOfMemory { request }) => {
                request
            }
        };
        match busy::<W>(alloc, &self.site, conn, &request) {
            Ok(out) => Ok(Some(out)),
            Err(_) => Err(NodeError::OutOfMemory),
        }
    }

    /// A finished job. None where none that it waits for is there.
    pub fn collect<R: Wait>(&mut self, rt: &R) -> Option<Done>
        ensures some { IfSome result (λ finished. CollectsOne L.site L.shared finished self.old self.new) }
        ensures none { IfNone result (FindsNone self.old self.new) }
    {
        self.pool.collect(rt)
    }

    /// How many finished jobs it has dropped that it did not wait for.
    pub fn strangers(&self) -> u64
        ensures { result ≡ self.now.pool.strangers }
    {
        self.pool.strangers()
    }

    /// Ends all workers. Each job that was handed over and not collected is there once.
    pub fn stop<R: Threads + Wait + Clock>(self, rt: &R) -> Stopped<L>
        ensures balances { Balances self.pool (length result.seats.items) result.finished.items result.unserved.items }
        ensures answered { All (IsAnsweredBy self.pool.front L.site L.shared) result.finished.items }
    {
        let PoolFront {
            node: _,
            site: _,
            connections: _,
            pool,
        } = self;
        pool.stop(rt)
    }

    /// Puts the answer of a finished job behind what is sent, where its connection is up: how many octets. It is a fault
    /// where it has none, for want of memory.
    pub fn post(
        &self,
        finished: Done,
        sent: &mut Vec<(ConnId, Message)>,
    ) -> Result<usize, NodeError>
        requires { vec_len sent.old < vec_capacity sent.old }
        ensures sent { sent.new.items ≡ sent.old.items ++ sent_for self.now finished }
        ensures outcome { told_of_one result ≡ outcome_for self.now finished }
        ensures octets { IfOk result (λ octets. octets ≡ octets_in (sent_for self.now finished)) }
    {
        let (conn, answer) = finished.into_answer();
        if !self.is_up(conn) {
            return Ok(0);
        }
        match answer {
            Some(answer) => {
                let octets = octets_of(&answer);
                sent.push_reserved((conn, answer));
                Ok(octets)
            }
            None => Err(NodeError::Unanswered { conn }),
        }
    }
}
