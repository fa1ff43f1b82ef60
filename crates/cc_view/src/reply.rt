//! What the account machine replies to a request, before it is written as an answer.

use crate::code::ResultCode;
use crate::request::ServiceName;
use dia_base::{Code, Listing};

/// A price (RFC 8506, section 8.7): digits times ten to the exponent, in a currency (ISO 4217).
#[derive(Clone, Copy, Debug, PartialEq, Eq)]
pub struct Cost {
    pub digits: i64,
    pub exponent: i32,
    pub currency: u32,
}

/// The reply for one service.
#[derive(Clone, Copy, Debug, PartialEq, Eq)]
pub struct ServiceReply {
    pub name: ServiceName,
    /// Whether it stands for the units of the command itself.
    pub bare: bool,
    pub code: ResultCode,
    /// The AVP code of the tariff's unit, none without a tariff.
    pub kind: Option<Code>,
    /// The units granted.
    pub granted: Option<u64>,
    /// Validity-Time in seconds.
    pub validity: Option<u32>,
    /// Whether the grant is the last one.
    pub last: bool,
}

/// The reply to a request.
#[derive(Debug, Drop)]
pub struct CcReply {
    pub code: ResultCode,
    pub services: Listing<ServiceReply>,
    pub cost: Option<Cost>,
    /// Check-Balance-Result.
    pub check: Option<u32>,
}
