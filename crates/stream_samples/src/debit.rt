//! The first debit, through all fronts of a site.

use crate::sites::fronts;
use dia_avp::ViewWire;
use dia_base::{ConnId, NodeNo};
use farm_connections::{Refusal, Serving};
use samples_given::{
    CER, DEBIT, Fronts, MOMENT, Served, Ways, accept, fronts_of, octets, read, written,
};
use std::alloc::Global;

/// The fronts f1.example and f2.example.
const FRONTS: [(NodeNo, &str); 2] = [(NodeNo(2), "f1.example"), (NodeNo(3), "f2.example")];

/// A connection of the relay with this front, on which it asks.
fn connect<'a>(
    alloc: Global,
    serving: &mut Served<'a, Fronts>,
    front: NodeNo,
    asked: &'a [u8],
) -> Result<ConnId, Refusal> {
    accept(alloc, serving, front, asked, Ways::sound(), Ways::sound())
}

/// A connection with each of these fronts.
fn connect_all<'a>(
    alloc: Global,
    serving: &mut Served<'a, Fronts>,
    names: &[(NodeNo, &str)],
    asked: &'a [u8],
) -> anyhow::Result<Vec<ConnId>> {
    let mut conns = Vec::new(alloc);
    for (front, _) in names {
        conns.push(connect(alloc, serving, *front, asked)?)?;
    }
    Ok(conns)
}

/// What has come is read, on the last connection first, and the answers are written.
fn hear_all(serving: &mut Served<'_, Fronts>, conns: &[ConnId]) {
    serving.tick::<ViewWire>(MOMENT);
    for conn in conns.iter().rev() {
        read(serving, *conn);
    }
    serving.write_all::<ViewWire>(MOMENT);
}

/// Prints what is written on a connection.
fn print_written(
    rt: &impl Print,
    alloc: Global,
    serving: &Served<'_, Fronts>,
    conn: ConnId,
) -> anyhow::Result<()> {
    println!(rt; "{}", hex::encode(alloc, written(serving, conn))?)?;
    Ok(())
}

/// Prints what is written on each connection, how many answers the fronts have sent, and the balance.
fn print_charged(
    rt: &impl Print,
    alloc: Global,
    serving: &Served<'_, Fronts>,
    conns: &[ConnId],
) -> anyhow::Result<()> {
    for conn in conns {
        print_written(rt, alloc, serving, *conn)?;
    }
    let balance = serving.node().book().balance(0).unwrap_or(0);
    println!(rt; "answers {} balance {balance}", serving.answers())?;
    Ok(())
}

/// Asks each of these fronts.
fn ask<'a>(
    rt: &impl Print,
    alloc: Global,
    serving: &mut Served<'a, Fronts>,
    names: &[(NodeNo, &str)],
    asked: &'a [u8],
) -> anyhow::Result<()> {
    let conns = connect_all(alloc, serving, names, asked)?;
    hear_all(serving, &conns);
    print_charged(rt, alloc, serving, &conns)
}

/// These fronts, without connections.
fn serving<'a>(alloc: Global, names: &[(NodeNo, &str)]) -> anyhow::Result<Served<'a, Fronts>> {
    let locals = fronts(alloc, names)?;
    Ok(Serving::new(alloc, fronts_of(alloc, names)?, locals))
}

/// Asks each of these fronts, which are one process, for the same debit on a connection of its own.
fn print(rt: &impl Print, alloc: Global, names: &[(NodeNo, &str)]) -> anyhow::Result<()> {
    let asked = octets(alloc, &[CER, DEBIT])?;
    let mut serving = serving(alloc, names)?;
    ask(rt, alloc, &mut serving, names, &asked)
}

/// One front, and two in one process.
pub fn print_all(rt: &impl Print, alloc: Global) -> anyhow::Result<()> {
    print(rt, alloc, &FRONTS[..1])?;
    print(rt, alloc, &FRONTS)
}
