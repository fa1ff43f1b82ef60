//! The accounts and the tariffs of the books.

use cc_rating::{Tariff, Tariffs, UnitKind};
use std::alloc::Global;

/// The Validity-Time of grants in seconds: a session ends two minutes after its last request.
pub const VALIDITY: u32 = 60;

/// The accounts: one has ample money, two have little, one has next to nothing and one is in debt.
pub const OPENINGS: [(&str, i64); 5] = [
    ("491700000000", 1_000_000),
    ("491700000001", 2_000),
    ("491700000002", 300),
    ("491700000003", 4),
    ("491700000004", -50),
];

/// Rating-Group 10 by octets, 11 by time, and Service-Identifier 7 by units. Group 12 has no tariff.
pub fn tariffs(alloc: Global) -> anyhow::Result<Tariffs> {
    let octets = Tariff {
        group: Some(10),
        ident: None,
        kind: UnitKind::Octets,
        block: 1_000,
        price: 5,
        quantum: 5_000,
        greatest: 10_000,
    };
    let time = Tariff {
        group: Some(11),
        ident: None,
        kind: UnitKind::Time,
        block: 60,
        price: 3,
        quantum: 600,
        greatest: 1_200,
    };
    let units = Tariff {
        group: None,
        ident: Some(7),
        kind: UnitKind::Units,
        block: 1,
        price: 2,
        quantum: 1,
        greatest: 4,
    };
    let tariffs = vec![in alloc; octets, time, units]?;
    Ok(Tariffs::new(alloc, tariffs)?)
}
