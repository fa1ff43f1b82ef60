//! Result codes (RFC 6733, section 7.1; RFC 8506, section 9).

ghost use Rattle.std.specs.Prelude.{◌≡◌};
ghost use Rattle.cc_view.specs.ResultNumber.{number_of};

/// A value of Result-Code, with its number.
#[derive(Clone, Copy, Debug, PartialEq, Eq)]
pub enum ResultCode {
    Success = 2001,
    CommandUnsupported = 3001,
    UnableToDeliver = 3002,
    RealmNotServed = 3003,
    TooBusy = 3004,
    LoopDetected = 3005,
    ApplicationUnsupported = 3007,
    CreditLimitReached = 4012,
    AvpUnsupported = 5001,
    UnknownSessionId = 5002,
    InvalidAvpValue = 5004,
    MissingAvp = 5005,
    AvpOccursTooManyTimes = 5009,
    NoCommonApplication = 5010,
    UnableToComply = 5012,
    InvalidAvpLength = 5014,
    UserUnknown = 5030,
    RatingFailed = 5031,
}

impl ResultCode {
    /// The number that stands in a Result-Code AVP.
    pub fn number(self) -> u32
        ensures { result ≡ number_of self }
    {
        self as u32
    }
}
