//! Two fronts, one of which has a name that is no word.

use dia_base::{ConnId, NodeNo};
use farm_metrics::{Micros, Sample, Tally, Trend};
use farm_status::{
    BookFile, BookStatus, Connections, FrontStatus, Peer, PeerPast, PeerState, ServedCount,
    SiteFile, Status, Work,
};
use std::alloc::{AllocError, Global};

/// The front with a name that is a word, and its neighbour.
const LOCAL: NodeNo = NodeNo(0);

const PEER: NodeNo = NodeNo(2);

/// Three requests, four answers, a failover and a request that was given up. One answer is to no request. A neighbour comes up, brings
/// two of the requests, is silent, and comes up again.
pub fn tally_of(alloc: Global) -> Tally {
    let mut tally = Tally::nothing(alloc);
    let (one, other) = (ConnId(1), ConnId(2));
    tally.peer_up(one, LOCAL, PEER);
    tally.set_clock(Micros(1_000_000));
    tally.request_came(one, 7);
    tally.request_came(one, 8);
    tally.request_came(other, 7);
    tally.set_clock(Micros(1_000_040));
    tally.answer_sent(one, 7, 2001);
    tally.set_clock(Micros(1_030_000));
    tally.answer_sent(one, 8, 2001);
    tally.set_clock(Micros(8_000_000));
    tally.answer_sent(other, 7, 4012);
    tally.answer_sent(other, 9, 3004);
    tally.peer_lost(one, true);
    tally.peer_up(ConnId(3), LOCAL, PEER);
    tally.request_sent();
    tally.failed_over();
    tally.gave_up();
    tally.conn_refused();
    tally.conn_refused();
    tally.dial_failed();
    tally
}

/// Twenty seconds, in the first half of which a hundred requests came, and three hundred in the second.
pub fn trend_of(alloc: Global) -> Trend {
    let mut trend = Trend::nothing(alloc);
    for (at, requests, answers) in [(0, 0, 0), (10_000_000, 100, 90), (20_000_000, 400, 380)] {
        trend.add(Sample {
            at: Micros(at),
            requests,
            answers,
        });
    }
    trend
}

/// What became of the neighbour that came up again.
fn past(alloc: Global, tally: &Tally) -> Result<Option<PeerPast>, AllocError> {
    let Some(count) = tally.peers.of(LOCAL, PEER) else {
        return Ok(None);
    };
    Ok(Some(PeerPast {
        since: 65_000,
        count,
        cause: Some(String::from_str(alloc, "the other end is silent")?),
    }))
}

/// The file of the book: thirty-one commits.
const FILE: BookFile = BookFile {
    size: Some(402_653_184),
    commits: 31,
    committed: 838_000,
    last_commit: Some(1_795_003_723_000),
};

/// Requests of the book by what they came to.
const SERVED: ServedCount = ServedCount {
    charges: 837_000,
    enquiries: 61,
    credit_refusals: 700,
    refusals: 239,
    repeats: 42,
};

fn peer(
    alloc: Global,
    local: &str,
    name: &str,
    state: PeerState,
    conn: Option<u64>,
) -> Result<Peer, AllocError> {
    Ok(Peer {
        local: String::from_str(alloc, local)?,
        name: String::from_str(alloc, name)?,
        state,
        takes_requests: false,
        conn,
        address: None,
        past: None,
    })
}

fn front(alloc: Global, name: &str, waiting: u64) -> Result<FrontStatus, AllocError> {
    Ok(FrontStatus {
        name: String::from_str(alloc, name)?,
        waiting,
        queue: 1_000,
        workers: 4,
    })
}

/// What the two fronts say of themselves.
pub fn status_of<'a>(
    alloc: Global,
    tally: &'a Tally,
    trend: &'a Trend,
) -> Result<Status<'a>, AllocError> {
    let (plain, odd) = ("f1.example", "f2<\"&\\'>");
    let mut names = Vec::new(alloc);
    names.push(String::from_str(alloc, plain)?)?;
    names.push(String::from_str(alloc, odd)?)?;
    let mut peers = Vec::new(alloc);
    let mut first = peer(alloc, plain, "r1.example", PeerState::Up, Some(3))?;
    first.address = Some(String::from_str(alloc, "127.0.0.1:3868")?);
    first.past = past(alloc, tally)?;
    peers.push(first)?;
    peers.push(peer(alloc, odd, "r1.example", PeerState::Connecting, None)?)?;
    let mut fronts = Vec::new(alloc);
    fronts.push(front(alloc, plain, 2)?)?;
    fronts.push(front(alloc, odd, 0)?)?;
    Ok(Status {
        version: "0.1.0",
        site: SiteFile {
            path: "two-fronts.toml",
            age: Some(7_200_000),
        },
        names,
        uptime: 3_723_004,
        began: 1_795_000_000_250,
        memory: Some(12_345_678),
        peers,
        connections: Connections {
            up: 1,
            unknown: 2,
            ending: 0,
        },
        unsent: 4_096,
        is_record_lost: Some(false),
        work: Work::Fronts {
            fronts,
            book: Some(BookStatus {
                entries: 838_861,
                limit: 1_048_576,
                sessions: 12,
                reserved: 34_500,
                served: SERVED,
                file: Some(FILE),
            }),
        },
        tally,
        trend,
    })
}
