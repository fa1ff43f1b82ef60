//! What an operator reads of what happens.

use crate::kind::Kind;
use crate::rejected::Rejected;
use crate::why::{Fault, Why};
use dia_avp::Octets;
use dia_base::{ConnId, Identity, NodeNo};
use farm_base::Site;
use farm_connections::Refusal;
use farm_node::{NodeError, Refused};
use farm_watch::DisconnectCause;
use log::{Level, Log, debug, info, warn};
use std::net::{IpAddr, SocketAddr};
use std::{fmt, io};

/// A node of a site by its name.
#[derive(Clone, Copy)]
pub struct Named<'a> {
    pub site: &'a Site,
    pub node: NodeNo,
}

impl fmt::Display for Named<'_> {
    fn fmt<W: fmt::Write>(&self, f: &mut fmt::Formatter<W>) -> fmt::Result {
        match self.site.nodes.as_slice().get(self.node.0 as usize) {
            Some(node) => write_name(f, &node.name),
            None => write!(f, "node {}", self.node.0),
        }
    }
}

/// The address of a node of a site, which others connect to.
#[derive(Clone, Copy)]
struct AddressOf<'a>(Named<'a>);

impl fmt::Display for AddressOf<'_> {
    fn fmt<W: fmt::Write>(&self, f: &mut fmt::Formatter<W>) -> fmt::Result {
        let Some(node) = self.0.site.nodes.as_slice().get(self.0.node.0 as usize) else {
            return f.write_str("no address");
        };
        let Some(address) = &node.address else {
            return f.write_str("no address");
        };
        for octet in address.as_slice() {
            f.write_char(char::from(*octet))?;
        }
        Ok(())
    }
}

/// A connection of a node of this process: its number, and from where its other end has connected, if it has.
#[derive(Clone, Copy)]
pub struct At<'a> {
    pub local: Named<'a>,
    pub conn: ConnId,
    pub origin: Option<IpAddr>,
}

impl fmt::Display for At<'_> {
    fn fmt<W: fmt::Write>(&self, f: &mut fmt::Formatter<W>) -> fmt::Result {
        write!(f, "{}, connection {}", self.local, self.conn.0)
    }
}

/// The same with the address.
#[derive(Clone, Copy)]
struct WithOrigin<'a>(At<'a>);

impl fmt::Display for WithOrigin<'_> {
    fn fmt<W: fmt::Write>(&self, f: &mut fmt::Formatter<W>) -> fmt::Result {
        match self.0.origin {
            Some(address) => write!(f, "{} from {address}", self.0),
            None => write!(f, "{}", self.0),
        }
    }
}

/// The two nodes of a connection that one of this process makes.
#[derive(Clone, Copy)]
pub struct Pair<'a> {
    pub local: Named<'a>,
    pub peer: Named<'a>,
}

impl fmt::Display for Pair<'_> {
    fn fmt<W: fmt::Write>(&self, f: &mut fmt::Formatter<W>) -> fmt::Result {
        let (local, peer) = (self.local, self.peer);
        let address = AddressOf(peer);
        write!(f, "{local} cannot connect to {peer} at {address}")
    }
}

/// That a node of this name answers, as a message says it.
#[derive(Clone, Copy)]
struct Said<'a>(&'a Identity);

impl fmt::Display for Said<'_> {
    fn fmt<W: fmt::Write>(&self, f: &mut fmt::Formatter<W>) -> fmt::Result {
        write_name(f, self.0)?;
        f.write_str(" answers there")
    }
}

/// A name as a message says it.
#[derive(Clone, Copy)]
struct Called<'a>(&'a Identity);

impl fmt::Display for Called<'_> {
    fn fmt<W: fmt::Write>(&self, f: &mut fmt::Formatter<W>) -> fmt::Result {
        write_name(f, self.0)
    }
}

/// The most octets of a value that are shown.
const VALUE_LIMIT: usize = 128;

/// The value of an AVP as a line shows it: at most [`VALUE_LIMIT`] octets, each that is not visible ASCII as `?`, and `-` where there is
/// none.
#[derive(Clone, Copy)]
struct Value<'a>(&'a Option<Octets>);

impl fmt::Display for Value<'_> {
    fn fmt<W: fmt::Write>(&self, f: &mut fmt::Formatter<W>) -> fmt::Result {
        let Some(octets) = self.0 else {
            return f.write_char('-');
        };
        let octets = octets.as_slice();
        let shown = octets.len().min(VALUE_LIMIT);
        for octet in &octets[..shown] {
            f.write_char(visible(*octet))?;
        }
        Ok(())
    }
}

/// An octet as a line shows it.
fn visible(octet: u8) -> char {
    if 32 < octet && octet < 127 {
        char::from(octet)
    } else {
        '?'
    }
}

/// Writes a name, which is visible ASCII.
fn write_name<W: fmt::Write>(f: &mut fmt::Formatter<W>, name: &Identity) -> fmt::Result {
    for octet in name.as_slice() {
        f.write_char(char::from(*octet))?;
    }
    Ok(())
}

/// A node listens.
pub fn listens<L: Log>(log: &L, node: Named<'_>, address: SocketAddr) {
    info!(log; target: "farm", node:% = node, event = "listens", address:% = address; "{node} listens on {address}");
}

/// A connection that somebody has made is taken.
pub fn taken<L: Log>(log: &L, at: At<'_>) {
    let from = WithOrigin(at);
    debug!(log; target: "farm", node:% = at.local, event = "taken", connection = at.conn.0, from = at.origin; "{from}: it is taken");
}

/// A connection from where no node may come is closed.
pub fn not_admitted<L: Log>(log: &L, node: Named<'_>, address: IpAddr) {
    warn!(log; target: "farm", node:% = node, event = "not_admitted", from = address; "{node} refuses a connection from {address}: no node may come from there");
}

/// A connection that somebody has made from this address is not taken.
pub fn not_taken<L: Log>(log: &L, node: Named<'_>, address: IpAddr, why: Refusal) {
    warn!(log; target: "farm", node:% = node, event = "not_taken", from = address, why:% = why; "{node} refuses a connection from {address}: {why}");
}

/// A socket of a node failed.
pub fn failed<L: Log>(log: &L, node: Named<'_>, what: &str, error: &io::Error) {
    let fault = Fault(error);
    warn!(log; target: "farm", node:% = node, event = "failed", what = what, why:% = fault; "{node}: {what}: {fault}");
}

/// A connection with a node was not made, or has ended before that node was up.
fn not_connected<L: Log, D: fmt::Display + Copy>(log: &L, pair: Pair<'_>, why: D) {
    let (local, peer) = (pair.local, pair.peer);
    let address = AddressOf(peer);
    warn!(log; target: "farm", node:% = local, event = "cannot_connect", peer:% = peer, address:% = address, why:% = why; "{pair}: {why}");
}

/// A connection with a node was not made.
pub fn not_made<L: Log>(log: &L, pair: Pair<'_>, error: &io::Error) {
    not_connected(log, pair, Fault(error));
}

/// A connection with a node was not made, since the process has no room for it.
pub fn not_begun<L: Log>(log: &L, pair: Pair<'_>, why: Refusal) {
    not_connected(log, pair, why);
}

/// A connection with a node has ended before that node was up.
pub fn not_up<L: Log>(log: &L, pair: Pair<'_>, why: Why) {
    not_connected(log, pair, why);
}

/// A node that was connected to does not come up, since its answer says this name, or none.
pub fn misnamed<L: Log>(log: &L, pair: Pair<'_>, name: Option<&Identity>) {
    match name {
        Some(name) => not_connected(log, pair, Said(name)),
        None => not_connected(log, pair, "the answer says no name"),
    }
}

/// The node at the other end of a connection is up.
pub fn up<L: Log>(log: &L, at: At<'_>, peer: Named<'_>) {
    let (local, conn) = (at.local, at.conn.0);
    match at.origin {
        Some(address) => {
            info!(log; target: "farm", node:% = local, event = "up", peer:% = peer, connection = conn, from = address; "{local} and {peer} are up on connection {conn}, from {address}");
        }
        None => {
            info!(log; target: "farm", node:% = local, event = "up", peer:% = peer, connection = conn; "{local} and {peer} are up on connection {conn}");
        }
    }
}

/// Why a node says goodbye, as the standard calls it.
fn cause_word(cause: DisconnectCause) -> &'static str {
    match cause {
        DisconnectCause::Rebooting => "REBOOTING",
        DisconnectCause::Busy => "BUSY",
        DisconnectCause::Unwanted => "DO_NOT_WANT_TO_TALK_TO_YOU",
    }
}

/// The node at the other end of a connection has said goodbye, and gets no new request.
pub fn leaves<L: Log>(log: &L, at: At<'_>, peer: Named<'_>, cause: DisconnectCause) {
    let word = cause_word(cause);
    info!(log; target: "farm", node:% = at.local, event = "goodbye", peer:% = peer, connection = at.conn.0, cause = word; "{at}: {peer} says goodbye: {word}");
}

/// A connection has ended on which a node was up.
pub fn lost<L: Log>(log: &L, at: At<'_>, peer: Named<'_>, why: Why) {
    let level = if why.is_wished() {
        Level::Info
    } else {
        Level::Warn
    };
    log::log!(log; target: "farm", level, node:% = at.local, event = "lost", peer:% = peer, connection = at.conn.0, why:% = why; "{at}: {peer} is lost: {why}");
}

/// A connection that somebody has made has ended with no node up on it.
pub fn refused<L: Log>(log: &L, at: At<'_>, why: Why) {
    let from = WithOrigin(at);
    info!(log; target: "farm", node:% = at.local, event = "refused", connection = at.conn.0, from = at.origin, why:% = why; "{from}: ended with nobody up: {why}");
}

/// A node that has connected is not welcome.
pub fn unwelcome<L: Log>(log: &L, at: At<'_>, rejected: &Rejected) {
    let (from, name, why) = (WithOrigin(at), Called(&rejected.name), rejected.why);
    warn!(log; target: "farm", node:% = at.local, event = "unwelcome", name:% = name, connection = at.conn.0, from = at.origin, why:% = why; "{from}: {name} is not welcome: {why}");
}

/// A request that was not answered on a lost connection was sent again.
pub fn failed_over<L: Log>(log: &L, at: At<'_>, to: ConnId) {
    let to = to.0;
    info!(log; target: "farm", node:% = at.local, event = "failover", connection = at.conn.0, to = to; "{at}: failover: a request is sent again on connection {to}");
}

/// A request that was not answered on a lost connection was answered with this Result-Code.
pub fn given_up<L: Log>(log: &L, at: At<'_>, to: ConnId, code: u32) {
    let to = to.0;
    info!(log; target: "farm", node:% = at.local, event = "given_up", connection = at.conn.0, to = to, code = code; "{at}: a request cannot be sent again: {code} to connection {to}");
}

/// A request was refused.
pub fn refusal<L: Log>(log: &L, at: At<'_>, level: Level, refused: &Refused) {
    let code = refused.code;
    let (session, origin) = (Value(&refused.session), Value(&refused.origin));
    let realm = Value(&refused.realm);
    log::log!(log; target: "farm", level, node:% = at.local, event = "refusal", connection = at.conn.0, code = code, session:% = session, origin:% = origin, realm:% = realm; "{at}: a request is refused: {code}, Session-Id {session}, Origin-Host {origin}, Destination-Realm {realm}");
}

/// A node did not do what it was told, which was of no connection.
pub fn node_failed<L: Log>(log: &L, error: NodeError) {
    warn!(log; target: "farm", event = "failed", why:% = error; "{error}");
}

/// So many lines are missing here: more happened in a turn than the log is told, or memory was missing.
pub fn dropped<L: Log>(log: &L, count: u64) {
    warn!(log; target: "farm", event = "missing", lines = count; "{count} lines are missing here: too much happened at once");
}

/// So many lines like the last one of this kind about a node were held back.
pub fn held<L: Log>(log: &L, kind: Kind, peer: Named<'_>, lines: u64) {
    let event = kind.event();
    log::log!(log; target: "farm", kind.level(), event = "held_back", like = event, peer:% = peer, lines = lines; "and {lines} more like it ({event}) of {peer}");
}

/// The same about those who have not said who they are.
pub fn held_of_strangers<L: Log>(log: &L, kind: Kind, lines: u64) {
    let event = kind.event();
    log::log!(log; target: "farm", kind.level(), event = "held_back", like = event, lines = lines; "and {lines} more like it ({event})");
}
