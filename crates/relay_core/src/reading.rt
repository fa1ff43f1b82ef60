//! What a relay reads in a request: a few things, in one walk over its body, which takes no memory.

ghost use Rattle.std.specs.Prelude.{◌≡◌, Ok, Err, None, MatchResult};
ghost use Rattle.std.specs.Option.{option_copied};
ghost use Rattle.dia_avp.specs.AvpReading.{split_of};
ghost use Rattle.dia_avp.specs.LentAvp.{avp_of};
ghost use Rattle.dia_base.specs.Codes.{destination_host, destination_realm, route_record};
ghost use Rattle.dia_grammar.specs.Grammar.{is_of as is_of_code};
ghost use Rattle.relay_core.specs.Reading.{IsReadingOf, avps_in_octets, first_or};

use dia_avp::{AvpFault, LentAvp, front_of};
use dia_base::codes::{DESTINATION_HOST, DESTINATION_REALM, ROUTE_RECORD};

/// What was read in the body of a request, which lends it.
#[derive(Clone, Copy)]
pub struct Reading<'a> {
    /// The value of the first Destination-Host.
    pub host: Option<&'a [u8]>,
    /// The value of the first Destination-Realm.
    pub realm: Option<&'a [u8]>,
    /// The body from its first Route-Record on: no Route-Record stands before.
    pub records: Option<&'a [u8]>,
}

impl<'a> Reading<'a> {
    /// Of a body without AVPs.
    fn nothing() -> Self
        ensures host { option_copied result.host ≡ None }
        ensures realm { option_copied result.realm ≡ None }
        ensures records { option_copied result.records ≡ None }
    {
        Reading {
            host: None,
            realm: None,
            records: None,
        }
    }

    /// The same with an AVP more. `from` is the body from that one on.
    fn with(self, avp: LentAvp<'a>, from: &'a [u8]) -> Self
        ensures host { option_copied result.host ≡ first_or (option_copied self.entry.host) (is_of_code destination_host (avp_of avp.entry)) avp.entry.value.now }
        ensures realm { option_copied result.realm ≡ first_or (option_copied self.entry.realm) (is_of_code destination_realm (avp_of avp.entry)) avp.entry.value.now }
        ensures records { option_copied result.records ≡ first_or (option_copied self.entry.records) (is_of_code route_record (avp_of avp.entry)) from.now }
    {
        Reading {
            host: first_or(self.host, is_of(avp, DESTINATION_HOST), avp.value),
            realm: first_or(self.realm, is_of(avp, DESTINATION_REALM), avp.value),
            records: first_or(self.records, is_of(avp, ROUTE_RECORD), from),
        }
    }
}

/// Whether the AVP has this code and vendor 0.
fn is_of(avp: LentAvp, code: u32) -> bool
    ensures { result ≡ is_of_code code (avp_of avp.entry) }
{
    avp.vendor == 0 && avp.code == code
}

/// What was found before, or else what comes next, if it is of the kind.
fn first_or<'a>(found: Option<&'a [u8]>, is_next: bool, next: &'a [u8]) -> Option<&'a [u8]>
    ensures { option_copied result ≡ first_or (option_copied found.entry) is_next next.now }
{
    match found {
        Some(found) => Some(found),
        None if is_next => Some(next),
        None => None,
    }
}

/// The reading of a body, or its first fault where it is no list of AVPs. It takes no memory.
pub(crate) fn read_body(body: &[u8]) -> Result<Reading<'_>, AvpFault>
    ensures { MatchResult result (λ reading. (split_of body.now ≡ Ok (avps_in_octets body.now)) × IsReadingOf body.now reading) (λ fault. split_of body.now ≡ Err fault) }
{
    let mut reading = Reading::nothing();
    let mut rest = body;
    while !rest.is_empty() {
        let (avp, behind) = front_of(body.len() - rest.len(), rest)?;
        reading = reading.with(avp, rest);
        rest = behind;
    }
    Ok(reading)
}

/// The reading of a body that was read before: nothing of one that is no list of AVPs. It takes no memory.
pub(crate) fn read_again(body: &[u8]) -> Reading<'_>
    ensures { IsReadingOf body.now result }
{
    match read_body(body) {
        Ok(reading) => reading,
        Err(_) => Reading::nothing(),
    }
}
