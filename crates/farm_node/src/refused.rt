//! What a log says of a request that was refused.

ghost use Rattle.std.specs.Prelude.{◌≡◌, IfOk};

use dia_avp::{Octets, RawAvp, Wire, u32_of};
use dia_base::ConnId;
use dia_base::codes::{DESTINATION_REALM, ORIGIN_HOST, RESULT_CODE, SESSION_ID};
use dia_message::Message;
use std::alloc::{AllocError, Global};

/// A request that was refused, as a log names it. Each of the three values is none where the request lacks it or is no list of
/// AVPs. What a value spells was not checked.
pub struct Refused {
    /// The connection that it came on.
    pub conn: ConnId,
    /// The Result-Code of its answer, 0 where that cannot be read.
    pub code: u32,
    /// Its Session-Id (RFC 6733, section 8.8).
    pub session: Option<Octets>,
    /// Its Origin-Host (RFC 6733, section 6.3).
    pub origin: Option<Octets>,
    /// Its Destination-Realm (RFC 6733, section 6.6).
    pub realm: Option<Octets>,
}

// By hand, so that each exit of an owner is proved with one call.
impl Drop for Refused {
    fn drop(self) {
        let Refused {
            conn: _,
            code: _,
            session: _,
            origin: _,
            realm: _,
        } = self;
    }
}

impl Refused {
    /// The request with this body, which came on a connection and is answered with this Result-Code.
    pub fn of<W: Wire>(
        alloc: Global,
        conn: ConnId,
        body: &Octets,
        code: u32,
    ) -> Result<Refused, AllocError>
        ensures { IfOk result (λ refused. (refused.conn ≡ conn) × (refused.code ≡ code)) }
    {
        let avps = match W::split(alloc, body) {
            Ok(avps) => avps,
            Err(_) => Vec::new(alloc),
        };
        Ok(Refused {
            conn,
            code,
            session: value_of(&avps, SESSION_ID)?,
            origin: value_of(&avps, ORIGIN_HOST)?,
            realm: value_of(&avps, DESTINATION_REALM)?,
        })
    }
}

/// Whether credit control itself refuses the service with this Result-Code: 4010 to 4012 (RFC 8506, section 9.1).
pub fn is_of_credit(code: u32) -> bool {
    4_010 <= code && code <= 4_012
}

/// A node that refuses requests elsewhere than where it is told of them, as fronts do whose workers answer.
pub trait Refuses {
    /// Takes what is to be logged of the oldest refusal that was not taken yet. What contracts see of the node stays.
    fn take_refused(&mut self) -> Option<Refused>
        ensures { self.new ≡ self.old };
}

/// The value of the first AVP with a code and no vendor.
fn value_of(avps: &[RawAvp], code: u32) -> Result<Option<Octets>, AllocError> {
    match first_of(avps, code) {
        Some(avp) => Ok(Some(avp.value.clone()?)),
        None => Ok(None),
    }
}

/// The first AVP with a code and no vendor.
fn first_of(avps: &[RawAvp], code: u32) -> Option<&RawAvp> {
    avps.iter().find(|avp| avp.code == code && avp.vendor == 0)
}

/// The first Result-Code of an answer, 0 where it cannot be read.
pub fn result_code<W: Wire>(alloc: Global, answer: &Message) -> u32 {
    let Ok(avps) = W::split(alloc, &answer.body) else {
        return 0;
    };
    match first_of(&avps, RESULT_CODE) {
        Some(avp) => u32_of(avp).unwrap_or(0),
        None => 0,
    }
}
