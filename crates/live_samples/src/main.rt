//! What a process that serves does, one function for each subject: who may come up, who is read while others wait, a front, a
//! relay and a client over TCP, and what a node says of itself.
//!
//! - `places`: who may come up, by what a site file says.
//! - `site`: a site for processes on this machine.
//! - `burst`: a relay whose client sends 4 MB at once, to a front that takes less.
//! - `live`: a front, a relay and a client in one process, over TCP.
//! - `names`: who comes up over TCP, where a site holds to names and where it does not.
//! - `status`: what two fronts say of themselves after a few requests, and what requests over HTTP are answered.
//! - `lines`: lines of the log in both spellings, and how many of them a limiter lets through.
//!
//! What it must print, `stdout`, was worked out by hand, in this order.
#![tactic(auto)]

mod burst;
mod lines;
mod live;
mod names;
mod places;
mod site;
mod status;

fn main(rt: HostRuntime) -> anyhow::Result<()> {
    places::print_all(&rt, rt.alloc())?;
    burst::print(&rt)?;
    live::print(&rt)?;
    names::print_all(&rt)?;
    status::print_all(&rt, rt.alloc())?;
    lines::print_all(&rt, rt.alloc())
}
