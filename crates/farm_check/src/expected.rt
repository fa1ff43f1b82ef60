//! What is expected of the value at a key.

use farm_site::{Key, SiteFault};

/// The key of a fault, where it has one.
pub fn key_of(fault: SiteFault) -> Option<Key> {
    match fault {
        SiteFault::Missing { key }
        | SiteFault::WrongType { key }
        | SiteFault::OutOfRange { key }
        | SiteFault::Twice { key }
        | SiteFault::UnknownName { key }
        | SiteFault::BadIdentity { key }
        | SiteFault::TooMany { key } => Some(key),
        SiteFault::NotToml | SiteFault::BadLink | SiteFault::OutOfMemory => None,
    }
}

/// What was expected where the fault is.
pub fn expected_at(fault: SiteFault) -> &'static str {
    match fault {
        SiteFault::NotToml => "TOML in UTF-8, of at most 16777216 octets",
        SiteFault::BadLink =>
            "two nodes that are not linked yet, and not two clients or two fronts",
        SiteFault::OutOfMemory => "memory",
        SiteFault::Missing { key: Key::Group } => "group or ident, an integer, 0 to 4294967295",
        SiteFault::Twice { key } => expected_once(key),
        SiteFault::TooMany { key } => most_of(key),
        SiteFault::Missing { key }
        | SiteFault::WrongType { key }
        | SiteFault::OutOfRange { key }
        | SiteFault::UnknownName { key }
        | SiteFault::BadIdentity { key } => value_of(key),
    }
}

/// What of an entry is to be another one in each.
fn expected_once(key: Key) -> &'static str {
    match key {
        Key::Name => "another name in each node, without case",
        Key::Known => "each code once",
        Key::Tolerate => "each name once",
        Key::Advertise => "each vendor once",
        Key::Route => "another relay, realm or application in each route",
        Key::Group => "another group in each tariff",
        Key::Ident => "another ident in each tariff, and no group beside it",
        Key::Id => "another type or id in each account",
        Key::Realm
        | Key::Validity
        | Key::Limit
        | Key::Workers
        | Key::Queue
        | Key::Vendors
        | Key::Currency
        | Key::Exponent => "it once",
        Key::Watchdog
        | Key::Node
        | Key::Link
        | Key::Tariff
        | Key::Account
        | Key::Kind
        | Key::Address
        | Key::From => "it once",
        Key::To
        | Key::At
        | Key::App
        | Key::Peers
        | Key::Block
        | Key::Price
        | Key::Quantum
        | Key::Greatest => "it once",
        Key::IdKind | Key::Opening => "it once",
    }
}

/// How many there may be.
fn most_of(key: Key) -> &'static str {
    match key {
        Key::Node => "at most 64 nodes",
        Key::Link => "at most 256 links",
        Key::Route => "at most 256 routes",
        Key::Tariff => "at most 1024 tariffs",
        Key::Account => "at most 65536 accounts",
        Key::Peers => "at most 16 peers",
        Key::Known => "at most 256 codes",
        Key::Advertise => "at most 16 vendors",
        Key::Realm
        | Key::Validity
        | Key::Limit
        | Key::Workers
        | Key::Queue
        | Key::Vendors
        | Key::Tolerate
        | Key::Currency
        | Key::Exponent => "fewer",
        Key::Watchdog
        | Key::Name
        | Key::Kind
        | Key::Address
        | Key::From
        | Key::To
        | Key::At
        | Key::App
        | Key::Group => "fewer",
        Key::Ident
        | Key::Block
        | Key::Price
        | Key::Quantum
        | Key::Greatest
        | Key::IdKind
        | Key::Id
        | Key::Opening => "fewer",
    }
}

/// The values that a key may have.
fn value_of(key: Key) -> &'static str {
    match key {
        Key::Realm | Key::Name => "an identity, a text of 1 to 255 visible ASCII characters",
        Key::Validity => "an integer, 1 to 86400 (seconds)",
        Key::Limit => "an integer, 1 to 1048576",
        Key::Workers => "an integer, 1 to 16",
        Key::Queue => "an integer, 1 to 1024",
        Key::Vendors => "a list of integers, 0 to 4294967295",
        Key::Known =>
            "a list of integers, 462 to 4294967295 (codes that the dictionary does not have)",
        Key::Tolerate => "a list of texts, each origin-twice or application-in-group",
        Key::Advertise => "a list of integers, 0 to 4294967295 (vendors)",
        Key::Currency => "an integer, 0 to 999 (ISO 4217; 978 is the euro)",
        Key::Exponent => "an integer, -9 to 9 (-2 for cents)",
        Key::Watchdog => "an integer, 100 to 600000 (milliseconds)",
        Key::Node | Key::Link | Key::Route | Key::Tariff | Key::Account =>
            "a list of tables, with a header in two brackets for each entry",
        Key::Kind =>
            "relay, front or client for a node; time, octets or units for a tariff; a text",
        Key::Address => "a text with an IP address and a port, as 127.0.0.1:3868 or [::1]:3868",
        Key::From | Key::To => "the name of a node",
        Key::At => "the name of a relay",
        Key::App | Key::Group | Key::Ident => "an integer, 0 to 4294967295",
        Key::Peers => "a list of names of relays and fronts that are linked with the relay",
        Key::Block => "an integer, 1 to 4294967296",
        Key::Price => "an integer, 0 to 1048576",
        Key::Quantum | Key::Greatest =>
            "an integer, 1 to 9223372036854775807, for time to 4294967295",
        Key::IdKind => "an integer, 0 to 4",
        Key::Id => "a text of 1 to 64 visible ASCII characters",
        Key::Opening => "an integer, -4611686018427387904 to 4611686018427387904",
    }
}
