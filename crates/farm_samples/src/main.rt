//! The farm without threads or sockets, one function for each subject: public calls that no schedule reaches, each once with
//! ample memory, texts that cannot be read or written, a run that may be refused memory, and a book beside another book. It
//! prints what they answer.
//!
//! - `front`, `relay`: one node alone over a list of events. `sent`: a line for each message that a node sends.
//! - `texts`: readers and writers that are interrupted, stop or fail.
//! - `replay`: a schedule from standard input over the row site, and a book that takes its requests.
//! - `books`: the book by maps and the book by lists, side by side.
//!
//! With a word behind its name it does only `replay`: `bench/failures.py` runs it so. What it must print without one, `stdout`,
//! was worked out by hand, in this order, but for `books`: of that examples/models/dice.py says it.
#![tactic(auto)]

mod books;
mod front;
mod relay;
mod replay;
mod sent;
mod texts;

use std::env;

fn main(rt: HostRuntime) -> anyhow::Result<()> {
    if env::args(&rt)?.count() > 1 {
        return replay::print_all(&rt);
    }
    front::print_run(&rt, rt.alloc())?;
    relay::print_runs(&rt, rt.alloc())?;
    texts::print_reads(&rt, rt.alloc())?;
    texts::print_writes(&rt, rt.alloc())?;
    replay::print_all(&rt)?;
    books::print_all(&rt, rt.alloc())
}
