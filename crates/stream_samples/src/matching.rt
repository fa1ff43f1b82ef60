//! A relay between a client and a server of another make, which answers under identifiers that it chooses: where answers are
//! matched by Hop-by-Hop Identifiers alone, and where End-to-End Identifiers are compared too.

use crate::farm::{BETWEEN, CLIENT, relay};
use crate::sites::RELAY;
use dia_avp::ViewWire;
use dia_base::ConnId;
use dia_message::Message;
use farm_node::{Node, NodeError, Reaction};
use relay_core::{Matching, MatchingRelay};
use samples_given::{DEBIT, message};
use std::alloc::Global;

/// The connection of the client.
const CALLER: ConnId = ConnId(1);

/// The Hop-by-Hop Identifier that the relay gives to the first request.
const FIRST: u32 = 0x8000_0000;

/// The End-to-End Identifier of the client's debit.
const END: u32 = 100;

/// What the server answers, one after another: words for it, the Hop-by-Hop and the End-to-End Identifier.
const ANSWERS: [(&str, u32, u32); 4] = [
    ("an answer with another end", FIRST, END + 1),
    ("an answer under another hop", FIRST + 1, END),
    ("its answer", FIRST, END),
    ("its answer again", FIRST, END),
];

/// Prints what the relay sends: the connection, which is the client's or the server's, and the identifiers.
fn print_sent(rt: &impl Print, out: &[(ConnId, Message)]) -> anyhow::Result<()> {
    for (conn, message) in out {
        let to = if *conn == CALLER { "client" } else { "server" };
        let (hop, end) = (message.header.hop, message.header.end);
        print!(rt; " to the {to} {hop} {end},")?;
    }
    Ok(())
}

/// Prints what a relay does, and what it has come to.
fn print_reaction(
    rt: &impl Print,
    words: &str,
    relay: &MatchingRelay,
    reaction: Reaction,
) -> anyhow::Result<()> {
    reaction.outcome?;
    print!(rt; "{words}:")?;
    print_sent(rt, reaction.out.items.as_slice())?;
    let (pending, dropped) = (relay.relay.pending(), relay.mismatched);
    println!(rt; " pending {pending}, dropped {dropped}")?;
    Ok(())
}

/// An answer without AVPs to a debit.
fn answer(alloc: Global, hop: u32, end: u32) -> anyhow::Result<Message> {
    let mut answer = message(alloc, "0100001440000110000000040000000000000000")?;
    answer.header.hop = hop;
    answer.header.end = end;
    Ok(answer)
}

/// The server's answers come to the relay.
fn print_answers(rt: &impl Print, alloc: Global, relay: &mut MatchingRelay) -> anyhow::Result<()> {
    for (words, hop, end) in ANSWERS {
        let answer = answer(alloc, hop, end)?;
        let reaction = Node::on_message::<ViewWire>(relay, alloc, BETWEEN, answer);
        print_reaction(rt, words, relay, reaction)?;
    }
    Ok(())
}

/// The client is up, and asks.
fn ask(alloc: Global, relay: &mut MatchingRelay, debit: Message) -> Result<Reaction, NodeError> {
    relay.on_up(alloc, RELAY, CLIENT, CALLER).outcome?;
    Ok(Node::on_message::<ViewWire>(relay, alloc, CALLER, debit))
}

/// The client's debit goes to the server, which answers.
fn print_with(rt: &impl Print, alloc: Global, relay: &mut MatchingRelay) -> anyhow::Result<()> {
    let reaction = ask(alloc, relay, message(alloc, DEBIT)?)?;
    print_reaction(rt, "the request", relay, reaction)?;
    print_answers(rt, alloc, relay)
}

/// The same of a relay that matches answers so.
fn print_by(rt: &impl Print, alloc: Global, words: &str, matching: Matching) -> anyhow::Result<()> {
    println!(rt; "{words}")?;
    let mut relay = MatchingRelay::new(relay(alloc)?, matching);
    print_with(rt, alloc, &mut relay)
}

/// What a relay does with answers, and what it counts.
pub fn print_all(rt: &impl Print, alloc: Global) -> anyhow::Result<()> {
    print_by(rt, alloc, "matched by hop", Matching::HopByHop)?;
    print_by(rt, alloc, "matched by hop and end", Matching::EndToEnd)
}
