//! A request over HTTP, in memory.

use crate::status::fronts::status_of;
use farm_metrics::{Tally, Trend};
use farm_status::{Answering, Job, Jobs, Source, Status, Token};
use http_server::{Config, Connection};
use std::alloc::{AllocError, Global};
use std::hash::RandomState;
use std::random::RandomSource;

/// The fronts, whose counts stand beside them.
#[derive(Drop)]
struct Fronts<'a> {
    alloc: Global,
    tally: &'a Tally,
    trend: &'a Trend,
}

impl Source for Fronts<'_> {
    fn status(&self) -> Result<Status<'_>, AllocError> {
        status_of(self.alloc, self.tally, self.trend)
    }

    fn terms(&self) -> Result<String, AllocError> {
        String::from_str(self.alloc, "nothing was changed\n")
    }

    fn account(&self) -> Result<String, AllocError> {
        String::from_str(self.alloc, "nobody was looked at\n")
    }
}

/// Prints the first line that a request is answered with, and whether the node is to end then.
fn print<S: Source>(
    rt: &impl Print,
    alloc: Global,
    keys: RandomState,
    source: &S,
    token: &Token,
    jobs: Jobs,
    request: &str,
) -> anyhow::Result<()> {
    let mut answering = Answering {
        alloc,
        source,
        token: Some(token),
        stops: false,
        jobs,
        change: None,
        look: None,
    };
    let mut connection = Connection::new(alloc, keys, Config::default());
    let mut input = request.as_bytes();
    connection.read_from(&mut input)?;
    connection.advance(&mut answering);
    let text = std::str::from_utf8(connection.output())?;
    let (first, _) = text.split_once("\r\n").unwrap_or(("nothing", ""));
    let (asked, _) = request.split_once(" HTTP").unwrap_or(("nothing", ""));
    let (stops, change, look) = (answering.stops, answering.change, answering.look);
    println!(rt; "{asked}: {first}, ends: {stops}")?;
    if let Some(change) = &change {
        let text = std::str::from_utf8(change)?;
        println!(rt; "  changes: {text}")?;
    }
    if let Some(look) = &look {
        let text = std::str::from_utf8(look)?;
        println!(rt; "  looks at: {text}")?;
    }
    Ok(())
}

/// Requests that are answered, and such as are refused.
const REQUESTS: [&str; 14] = [
    "GET / HTTP/1.1\r\nHost: localhost\r\n\r\n",
    "HEAD /metrics HTTP/1.1\r\nHost: localhost\r\n\r\n",
    "GET /metrics?a=b HTTP/1.1\r\nHost: localhost\r\n\r\n",
    "GET /status.json HTTP/1.1\r\nHost: localhost\r\n\r\n",
    "GET /health HTTP/1.1\r\nHost: localhost\r\n\r\n",
    "POST /health HTTP/1.1\r\nHost: localhost\r\nContent-Length: 0\r\n\r\n",
    "GET /metrics/ HTTP/1.1\r\nHost: localhost\r\n\r\n",
    "POST / HTTP/1.1\r\nHost: localhost\r\nContent-Length: 0\r\n\r\n",
    "GET /stop HTTP/1.1\r\nHost: localhost\r\nAuthorization: Bearer 0123456789abcdef\r\n\r\n",
    "POST /stop HTTP/1.1\r\nHost: localhost\r\nContent-Length: 0\r\n\r\n",
    "POST /stop HTTP/1.1\r\nHost: localhost\r\nAuthorization: Bearer 0123456789abcde\r\nContent-Length: 0\r\n\r\n",
    "POST /stop HTTP/1.1\r\nHost: localhost\r\nAuthorization: 0123456789abcdef\r\nContent-Length: 0\r\n\r\n",
    "GET\r\n\r\n",
    "POST /stop HTTP/1.1\r\nHost: localhost\r\nAuthorization: Bearer 0123456789abcdef\r\nContent-Length: 0\r\n\r\n",
];

/// Requests at the path of the terms: read, asked for with and without the token, and by another method.
const TERMS: [&str; 4] = [
    "GET /terms HTTP/1.1\r\nHost: localhost\r\n\r\n",
    "POST /terms HTTP/1.1\r\nHost: localhost\r\nContent-Length: 20\r\n\r\naccount 0 49170 1000",
    "POST /terms HTTP/1.1\r\nHost: localhost\r\nAuthorization: Bearer 0123456789abcdef\r\nContent-Length: 20\r\n\r\naccount 0 49170 1000",
    "DELETE /terms HTTP/1.1\r\nHost: localhost\r\nAuthorization: Bearer 0123456789abcdef\r\n\r\n",
];

/// Requests at the path of accounts: read and asked for, with the token and without, and by another method.
const ACCOUNTS: [&str; 5] = [
    "GET /account HTTP/1.1\r\nHost: localhost\r\n\r\n",
    "GET /account HTTP/1.1\r\nHost: localhost\r\nAuthorization: Bearer 0123456789abcdef\r\n\r\n",
    "POST /account HTTP/1.1\r\nHost: localhost\r\nContent-Length: 7\r\n\r\n0 49170",
    "POST /account HTTP/1.1\r\nHost: localhost\r\nAuthorization: Bearer 0123456789abcdef\r\nContent-Length: 7\r\n\r\n0 49170",
    "PUT /account HTTP/1.1\r\nHost: localhost\r\nAuthorization: Bearer 0123456789abcdef\r\nContent-Length: 7\r\n\r\n0 49170",
];

/// Where a node has no book, where the job that is asked for is under way, and where the other one is.
const UNDER_WAY: [Jobs; 3] = [
    Jobs {
        change: Job::Never,
        look: Job::Never,
    },
    Jobs {
        change: Job::Busy,
        look: Job::Free,
    },
    Jobs {
        change: Job::Free,
        look: Job::Busy,
    },
];

/// Prints what each request is answered, by a node that has a token.
pub fn print_all(rt: &(impl Print + RandomSource), alloc: Global) -> anyhow::Result<()> {
    let (tally, trend) = (Tally::nothing(alloc), Trend::nothing(alloc));
    let source = Fronts {
        alloc,
        tally: &tally,
        trend: &trend,
    };
    let token = Token::read(alloc, b"0123456789abcdef\n")?;
    let keys = RandomState::new(rt)?;
    for request in REQUESTS {
        print(rt, alloc, keys, &source, &token, UNDER_WAY[1], request)?;
    }
    for jobs in UNDER_WAY {
        for request in TERMS {
            print(rt, alloc, keys, &source, &token, jobs, request)?;
        }
        for request in ACCOUNTS {
            print(rt, alloc, keys, &source, &token, jobs, request)?;
        }
    }
    Ok(())
}
