//! Rating: what units cost, and how many of them an amount of money pays for (RFC 8506, section 5.2).
//!
//! - [`Tariff`]: what units of one kind cost. It rates the services of a Rating-Group or of a
//!   Service-Identifier. [`Tariff::cost`] is the price of units, [`Tariff::grant`] the units that may be
//!   granted where so much money is free.
//! - [`Tariffs`]: the tariffs of a site, each in its ranges, no two for the same services.
//!
//! What units cost and what is granted stands in `specs/Rating`, which tariffs have a fault in
//! `specs/Tariffs`, and what the laws speak of in `specs/Laws`. Amounts are whole minor units of money. Worked examples
//! are laws too: [`begun_blocks_are_paid`], [`grants_hold_their_cost`], [`tariffs_are_refused_out_of_range_or_twice`] and
//! [`rating_groups_come_before_identifiers`].
//!
//! ```text
//! let tariff = Tariff {
//!     group: Some(10), ident: None, kind: UnitKind::Octets,
//!     block: 1000, price: 5, quantum: 5000, greatest: 10_000,
//! };
//! let tariffs = Tariffs::new(alloc, vec![in alloc; tariff]?)?;
//! if let Some(tariff) = tariffs.find(Some(10), None) {
//!     let cost = tariff.cost(3200);               // 20: four blocks
//!     let grant = tariff.grant(12, 5000);         // 2000 units, 10 held, the last grant
//! }
//! ```
#![tactic(auto)]

mod laws;
mod tariff;
mod tariffs;

pub use laws::{
    begun_blocks_are_paid, cost_is_of_fewest_blocks, grants_are_free,
    grants_are_the_most_that_is_free, grants_hold_their_cost, last_grants_are_cut_down,
    rating_groups_come_before_identifiers, sound_tariffs_have_no_fault,
    tariffs_are_refused_out_of_range_or_twice,
};
pub use tariff::{BLOCK_LIMIT, Grant, PRICE_LIMIT, SECONDS_LIMIT, Tariff, UNITS_LIMIT, UnitKind};
pub use tariffs::{TariffFault, Tariffs};
