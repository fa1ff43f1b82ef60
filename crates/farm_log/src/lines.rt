//! Where the records of a process go.

ghost use Rattle.std.specs.Prelude.{Some, true, []};

use crate::line::{Format, Line};
use log::kv::Source;
use log::span::Spans;
use log::{Log, Metadata, Record};
use std::fmt::Display;
use std::rt::Clock;
use std::time::{SystemTime, UNIX_EPOCH};

/// Writes each record to the standard error of `R`, as a line with the time, the level and the node. A write that fails is dropped.
#[derive(Drop)]
pub struct Lines<R> {
    rt: R,
    format: Format,
    node: String,
}

/// Milliseconds since 1970 by the system's clock; 0 where it cannot be read, or stands before that.
fn millis_now<R: Clock>(rt: &R) -> u64 {
    let Ok(now) = SystemTime::now(rt) else {
        return 0;
    };
    match now.duration_since(UNIX_EPOCH) {
        Ok(since) => u64::try_from(since.as_millis()).unwrap_or(u64::MAX),
        Err(_) => 0,
    }
}

impl<R> Lines<R> {
    /// The lines of a process, spelled so. `node` is the name of its node, or the names of its nodes.
    pub fn new(rt: R, format: Format, node: String) -> Lines<R> {
        Lines { rt, format, node }
    }
}

impl<R: Eprint + Clock> Log for Lines<R> {
    ghost enables = { λ _ _ _. Some true };

    ghost target_of = { λ _. Some [] };

    fn enabled(&self, _metadata: &Metadata<'_>) -> bool {
        true
    }

    fn log<D: Display, K: Source, S: Spans>(&self, record: &Record<'_, D, K, S>) {
        let line = Line {
            format: self.format,
            millis: millis_now(&self.rt),
            node: self.node.as_str(),
            record,
        };
        let _ = self.rt.eprintln(line);
    }

    fn flush(&self) {}

    fn target(&self) -> &str {
        ""
    }
}
