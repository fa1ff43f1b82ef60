//! The keys of a site file.

ghost use Rattle.std.specs.Prelude.{◌≡◌};
ghost use Rattle.farm_site.specs.Keys.{spelled};

use std::fmt;

/// A key of a site file, or a table of it. It is printed as the file spells it.
#[derive(Clone, Copy, Debug, PartialEq, Eq)]
pub enum Key {
    Realm,
    Validity,
    Limit,
    Workers,
    Queue,
    Vendors,
    Known,
    Tolerate,
    Advertise,
    Currency,
    Exponent,
    Watchdog,
    Node,
    Link,
    Route,
    Tariff,
    Account,
    Name,
    Kind,
    Address,
    From,
    To,
    At,
    App,
    Peers,
    Group,
    Ident,
    Block,
    Price,
    Quantum,
    Greatest,
    /// The key `type` of an account.
    IdKind,
    Id,
    Opening,
}

impl Key {
    /// The key as the file spells it.
    pub fn as_str(self) -> &'static str
        ensures { result.now ≡ spelled self }
    {
        match self {
            Key::Realm => "realm",
            Key::Validity => "validity",
            Key::Limit => "limit",
            Key::Workers => "workers",
            Key::Queue => "queue",
            Key::Vendors => "vendors",
            Key::Known => "known",
            Key::Tolerate => "tolerate",
            Key::Advertise => "advertise",
            Key::Currency => "currency",
            Key::Exponent => "exponent",
            Key::Watchdog => "watchdog",
            Key::Node => "node",
            Key::Link => "link",
            Key::Route => "route",
            Key::Tariff => "tariff",
            Key::Account => "account",
            Key::Name => "name",
            Key::Kind => "kind",
            Key::Address => "address",
            Key::From => "from",
            Key::To => "to",
            Key::At => "at",
            Key::App => "app",
            Key::Peers => "peers",
            Key::Group => "group",
            Key::Ident => "ident",
            Key::Block => "block",
            Key::Price => "price",
            Key::Quantum => "quantum",
            Key::Greatest => "greatest",
            Key::IdKind => "type",
            Key::Id => "id",
            Key::Opening => "opening",
        }
    }
}

impl fmt::Display for Key {
    fn fmt<W: fmt::Write>(&self, f: &mut fmt::Formatter<W>) -> fmt::Result {
        let spelled = self.as_str();
        write!(f, "{spelled}")
    }
}
