//! What the page says in a number.

ghost use Rattle.std.specs.Prelude.{◌≡◌};
ghost use Rattle.farm_status.specs.Figures.{has_at_least, is_refusal_of, mean, peers_up, refusals, within};

use crate::status::{Peer, PeerState};
use farm_metrics::{Answers, TimeRow, Times};

/// How many neighbours are up.
pub(crate) fn peers_up(peers: &[Peer]) -> u64
    ensures { result ≡ peers_up peers.now }
{
    peers
        .iter()
        .filter(|peer| peer.state == PeerState::Up)
        .count() as u64
}

/// Answers that were no success.
#[derive(Clone, Copy)]
pub(crate) enum Refusal {
    /// Credit control itself refused the service: 4010 to 4012 (RFC 8506, section 9.1).
    Credit,
    /// All others: a Result-Code of 3000 and above (RFC 6733, section 7.1), or none.
    Other,
}

impl Refusal {
    /// Whether an answer with this Result-Code, 0 where it has none, is such a refusal.
    fn has(self, code: u32) -> bool
        ensures { result ≡ is_refusal_of self code }
    {
        let is_of_credit = 4_010 <= code && code <= 4_012;
        match self {
            Refusal::Credit => is_of_credit,
            Refusal::Other => !is_of_credit && (code >= 3_000 || code == 0),
        }
    }
}

/// How many answers were such refusals.
pub(crate) fn refusals(answers: &Answers, kind: Refusal) -> u64
    ensures { result ≡ refusals kind answers.now }
{
    let mut sum: u64 = 0;
    for at in &answers.codes {
        if kind.has(at.code) {
            sum = sum.saturating_add(at.count);
        }
    }
    sum
}

/// The mean of all times, in microseconds.
pub(crate) fn mean(times: &Times) -> u64
    ensures { result ≡ mean times.now }
{
    match times.sum.checked_div(times.count) {
        Some(mean) => mean,
        None => 0,
    }
}

/// Whether a row has so many times.
fn has_at_least(row: &TimeRow, thousandths: u64, count: u64) -> bool
    ensures { result ≡ has_at_least thousandths count row.now }
{
    u128::from(row.count) * 1_000 >= u128::from(count) * u128::from(thousandths)
}

/// The least bound, in microseconds, that so many thousandths of the times are within; none where they are not within any.
pub(crate) fn within(times: &Times, thousandths: u64) -> Option<u64>
    ensures { result ≡ within thousandths times.now }
{
    let row = times
        .rows
        .iter()
        .find(|row| has_at_least(row, thousandths, times.count))?;
    Some(row.bound)
}
