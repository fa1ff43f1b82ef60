//! What rows are made of: a request of each kind with its reply and debit, a sweep, and a change of the terms. Numbers are at
//! their limits here and there.

ghost use Rattle.std.specs.Prelude.{◌≡◌, ◌≢◌, None};
ghost use Rattle.cc_view.specs.Request.ServiceLimits.{HasSmallSums};

use book_rows::{Row, Step, Sum, Taken, chained_row, spell_row};
use book_store::FIRST_SUM;
use cc_book::{Account, Accounts, TermsChange};
use cc_rating::{Tariff, Tariffs, UNITS_LIMIT, UnitKind};
use cc_view::{
    CcReply, CcRequest, Cost, RequestKind, RequestedAction, ResultCode, Service, ServiceName,
    ServiceReply, Services, Subscription,
};
use dia_avp::Octets;
use dia_base::{Code, Listing, Moment};
use std::alloc::Global;

/// How many rows there are.
pub const ROWS: u64 = 10;

/// What each of them is.
pub const NAMES: [&str; 10] = [
    "INITIAL",
    "UPDATE",
    "TERMINATION",
    "DIRECT_DEBITING",
    "REFUND_ACCOUNT",
    "CHECK_BALANCE",
    "PRICE_ENQUIRY",
    "EVENT without an action",
    "sweep",
    "change of terms",
];

/// CC-Time (RFC 8506, section 8.21).
const CC_TIME: Code = Code(420);

/// CC-Total-Octets (RFC 8506, section 8.23).
const CC_TOTAL_OCTETS: Code = Code(421);

fn no_services(alloc: Global) -> Services {
    Services::from_vec(Vec::new(alloc))
}

fn one(alloc: Global, service: Service) -> anyhow::Result<Services>
    requires { HasSmallSums service }
{
    Ok(Services::from_vec(vec![in alloc; service]?))
}

fn two(alloc: Global, service: Service, other: Service) -> anyhow::Result<Services>
    requires small { HasSmallSums service }
    requires other { HasSmallSums other }
    requires apart { service.group ≢ other.group }
{
    Ok(Services::from_vec(vec![in alloc; service, other]?))
}

fn subscription(alloc: Global, kind: u32, text: &[u8]) -> anyhow::Result<Subscription> {
    let text = Octets::copy_of(alloc, text)?;
    Ok(Subscription { kind, text })
}

fn event(
    alloc: Global,
    number: u32,
    action: Option<RequestedAction>,
    services: Services,
) -> anyhow::Result<CcRequest> {
    let session = Octets::copy_of(alloc, b"smsc;1;1")?;
    let owner = subscription(alloc, 0, b"491700000001")?;
    Ok(CcRequest {
        session,
        number,
        kind: RequestKind::Event,
        action,
        subscriptions: Listing::from_vec(vec![in alloc; owner]?),
        services,
    })
}

fn code_alone(alloc: Global, code: ResultCode) -> CcReply {
    CcReply {
        code,
        services: Listing::from_vec(Vec::new(alloc)),
        cost: None,
        check: None,
    }
}

/// What asks for 3200 octets, of no group.
fn asking_octets() -> Service
    ensures small { HasSmallSums result }
    ensures group { result.group ≡ None }
{
    Service {
        group: None,
        ident: Some(21),
        bare: true,
        asked: Some([None, Some(3_200), None]),
        used: [0, 0, 0],
    }
}

/// What is granted 3200 octets of it.
fn granted_octets() -> ServiceReply {
    ServiceReply {
        name: ServiceName {
            group: None,
            ident: Some(21),
        },
        bare: true,
        code: ResultCode::Success,
        kind: Some(CC_TOTAL_OCTETS),
        granted: Some(3_200),
        validity: Some(600),
        last: false,
    }
}

/// A session opens with two services, of which one is granted nothing.
fn initial(alloc: Global) -> anyhow::Result<Taken> {
    let timed = Service {
        group: Some(10),
        ident: None,
        bare: false,
        asked: Some([Some(60), None, Some(0)]),
        used: [0, 0, 0],
    };
    let services = two(alloc, asking_octets(), timed)?;
    let refused = ServiceReply {
        name: ServiceName {
            group: Some(10),
            ident: None,
        },
        bare: false,
        code: ResultCode::CreditLimitReached,
        kind: Some(CC_TIME),
        granted: None,
        validity: None,
        last: false,
    };
    let replies = vec![in alloc; granted_octets(), refused]?;
    let session = Octets::copy_of(alloc, b"g1;1;1")?;
    let number = subscription(alloc, 0, b"491700000001")?;
    let identity = subscription(alloc, 1, b"262011234567890")?;
    let subscriptions = vec![in alloc; number, identity]?;
    Ok(Taken {
        request: CcRequest {
            session,
            number: 0,
            kind: RequestKind::Initial,
            action: None,
            subscriptions: Listing::from_vec(subscriptions),
            services,
        },
        reply: CcReply {
            code: ResultCode::Success,
            services: Listing::from_vec(replies),
            cost: None,
            check: None,
        },
        debit: 0,
    })
}

/// A session goes on: it has used as much as a request can say, and gets its last units.
fn update(alloc: Global) -> anyhow::Result<Taken> {
    let used = Service {
        group: Some(10),
        ident: Some(7),
        bare: false,
        asked: None,
        used: [0, 5, (1 << 78) - 1],
    };
    let services = one(alloc, used)?;
    let last = ServiceReply {
        name: ServiceName {
            group: Some(10),
            ident: Some(7),
        },
        bare: false,
        code: ResultCode::Success,
        kind: Some(CC_TOTAL_OCTETS),
        granted: Some(u64::MAX),
        validity: Some(u32::MAX),
        last: true,
    };
    let replies = vec![in alloc; last]?;
    let session = Octets::copy_of(alloc, b"g1;1;1")?;
    Ok(Taken {
        request: CcRequest {
            session,
            number: 1,
            kind: RequestKind::Update,
            action: None,
            subscriptions: Listing::from_vec(Vec::new(alloc)),
            services,
        },
        reply: CcReply {
            code: ResultCode::Success,
            services: Listing::from_vec(replies),
            cost: None,
            check: None,
        },
        debit: i128::MAX,
    })
}

/// A session that is not known, with no Session-Id and the last number.
fn termination(alloc: Global) -> anyhow::Result<Taken> {
    let session = Octets::copy_of(alloc, b"")?;
    Ok(Taken {
        request: CcRequest {
            session,
            number: u32::MAX,
            kind: RequestKind::Termination,
            action: None,
            subscriptions: Listing::from_vec(Vec::new(alloc)),
            services: no_services(alloc),
        },
        reply: code_alone(alloc, ResultCode::UnknownSessionId),
        debit: 0,
    })
}

fn debiting(alloc: Global) -> anyhow::Result<Taken> {
    let services = one(alloc, asking_octets())?;
    let replies = vec![in alloc; granted_octets()]?;
    let request = event(alloc, 7, Some(RequestedAction::DirectDebiting), services)?;
    Ok(Taken {
        request,
        reply: CcReply {
            code: ResultCode::Success,
            services: Listing::from_vec(replies),
            cost: None,
            check: None,
        },
        debit: 20,
    })
}

fn refund(alloc: Global) -> anyhow::Result<Taken> {
    let services = one(alloc, asking_octets())?;
    let request = event(alloc, 8, Some(RequestedAction::RefundAccount), services)?;
    Ok(Taken {
        request,
        reply: code_alone(alloc, ResultCode::Success),
        debit: -20,
    })
}

fn balance_check(alloc: Global) -> anyhow::Result<Taken> {
    let services = one(alloc, asking_octets())?;
    let request = event(alloc, 9, Some(RequestedAction::CheckBalance), services)?;
    Ok(Taken {
        request,
        reply: CcReply {
            code: ResultCode::Success,
            services: Listing::from_vec(Vec::new(alloc)),
            cost: None,
            check: Some(1),
        },
        debit: 0,
    })
}

fn price_enquiry(alloc: Global) -> anyhow::Result<Taken> {
    let services = one(alloc, asking_octets())?;
    let request = event(alloc, 10, Some(RequestedAction::PriceEnquiry), services)?;
    let cost = Cost {
        digits: i64::MIN,
        exponent: -2,
        currency: 978,
    };
    Ok(Taken {
        request,
        reply: CcReply {
            code: ResultCode::Success,
            services: Listing::from_vec(Vec::new(alloc)),
            cost: Some(cost),
            check: None,
        },
        debit: 0,
    })
}

fn without_action(alloc: Global) -> anyhow::Result<Taken> {
    let request = event(alloc, 11, None, no_services(alloc))?;
    Ok(Taken {
        request,
        reply: code_alone(alloc, ResultCode::UnableToComply),
        debit: i128::MIN,
    })
}

/// An account joins, as far below 0 as one can be, another closes, a third opens again, and a tariff holds.
fn change(alloc: Global) -> anyhow::Result<TermsChange> {
    let account = Account {
        id_kind: 0,
        id: Octets::copy_of(alloc, b"491700000001")?,
        opening: i64::MIN,
    };
    let tariff = Tariff {
        group: Some(10),
        ident: None,
        kind: UnitKind::Octets,
        block: 1_000,
        price: 7,
        quantum: 5_000,
        greatest: UNITS_LIMIT,
    };
    let tariffs = vec![in alloc; tariff]?;
    let closing = subscription(alloc, 0, b"491700000002")?;
    let reopening = subscription(alloc, 0, b"491700000003")?;
    Ok(TermsChange {
        joining: Accounts::from_vec(alloc, vec![in alloc; account]?)?,
        closing: Listing::from_vec(vec![in alloc; closing]?),
        reopening: Listing::from_vec(vec![in alloc; reopening]?),
        tariffs: Some(Tariffs::new(alloc, tariffs)?),
    })
}

fn step(alloc: Global, place: u64) -> anyhow::Result<Step> {
    let taken = match place {
        0 => initial(alloc)?,
        1 => update(alloc)?,
        2 => termination(alloc)?,
        3 => debiting(alloc)?,
        4 => refund(alloc)?,
        5 => balance_check(alloc)?,
        6 => price_enquiry(alloc)?,
        7 => without_action(alloc)?,
        8 => return Ok(Step::Sweep),
        _ => return Ok(Step::ChangeTerms(change(alloc)?)),
    };
    Ok(Step::Take(taken))
}

/// The row of a place, a second behind the one before.
fn row(alloc: Global, before: Sum, place: u64) -> anyhow::Result<Row> {
    let moment = Moment(place.wrapping_mul(1_000));
    let step = step(alloc, place)?;
    Ok(chained_row(alloc, before, place, moment, step)?)
}

/// The octets of a row of each kind, chained.
pub fn rows(alloc: Global) -> anyhow::Result<Vec<Vec<u8>>> {
    let mut rows = Vec::new(alloc);
    let mut sum = FIRST_SUM;
    for place in 0..ROWS {
        let row = row(alloc, sum, place)?;
        sum = row.sum;
        rows.push(spell_row(alloc, &row)?)?;
    }
    Ok(rows)
}
