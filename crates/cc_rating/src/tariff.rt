//! A tariff: what units of one kind cost.

ghost use Rattle.std.specs.Prelude.{◌≡◌, ◌<◌, ◌≤◌, ◌*◌, ◌^◌, IsTrue, min, pos, ◌<ℤ◌};
ghost use Rattle.cc_rating.specs.Rating.{available, cost_of, grant_of, units_free};
ghost use Rattle.cc_rating.specs.Tariffs.{in_range, rates, units_limit};

/// The most units of a block.
pub const BLOCK_LIMIT: u64 = 4_294_967_296;

/// The highest price of a block.
pub const PRICE_LIMIT: u64 = 1_048_576;

/// The most units of a quantum and of a grant.
pub const UNITS_LIMIT: u64 = 9_223_372_036_854_775_807;

/// The most seconds of a quantum and of a grant, since CC-Time has 32 bits.
pub const SECONDS_LIMIT: u64 = 4_294_967_295;

/// What the units of a tariff are.
#[derive(Clone, Copy, Debug, PartialEq, Eq)]
pub enum UnitKind {
    /// Seconds, as in CC-Time (RFC 8506, section 8.21).
    Time,
    /// Octets in both directions, as in CC-Total-Octets (RFC 8506, section 8.23).
    Octets,
    /// Units of the service, as in CC-Service-Specific-Units (RFC 8506, section 8.26).
    Units,
}

/// What the units of a service cost: each block that is begun costs the price.
#[derive(Clone, Copy, Debug, PartialEq, Eq)]
pub struct Tariff {
    /// The Rating-Group of the services that it rates, or none.
    pub group: Option<u32>,
    /// The Service-Identifier of the services that it rates, or none.
    pub ident: Option<u32>,
    pub kind: UnitKind,
    /// The units of a block, from 1 to [`BLOCK_LIMIT`].
    pub block: u64,
    /// The price of a block in minor units of money, up to [`PRICE_LIMIT`].
    pub price: u64,
    /// The units that are asked where a request names no number of them.
    pub quantum: u64,
    /// The most units of a grant.
    pub greatest: u64,
}

/// The units that are granted.
#[derive(Clone, Copy, PartialEq, Eq)]
pub struct Grant {
    pub units: u64,
    /// Their cost in minor units of money.
    pub held: u128,
    /// Whether what was asked, up to the tariff's greatest grant, costs more than is free, so that no more than
    /// these can be granted (RFC 8506, section 8.34).
    pub last: bool,
}

impl Tariff {
    /// What the units cost, in minor units of money: the price for each block that is begun.
    pub fn cost(&self, units: u128) -> u128
        requires in_range { IsTrue (in_range self.now) }
        requires units_kept { units < 2 ^ 100 }
        ensures value { result ≡ cost_of self.now units }
        ensures most { result ≤ units * 2 ^ 20 }
    {
        units.div_ceil(self.block as u128) * self.price as u128
    }

    /// The units that may be granted where so much money is free and `asked` units are asked (RFC 8506,
    /// section 5.2): what is asked, up to the tariff's greatest grant, where all of it is free or a block costs
    /// nothing; else the whole blocks that are free, as the last grant. A last grant of no units grants nothing.
    pub fn grant(&self, free: i128, asked: u64) -> Grant
        requires { IsTrue (in_range self.now) }
        ensures value { result ≡ grant_of self.now free asked }
        ensures most { result.held < 2 ^ 84 }
    {
        let units = asked.min(self.greatest);
        let held = self.cost(units as u128);
        if self.price == 0 || held as i128 <= free {
            return Grant {
                units,
                held,
                last: false,
            };
        }
        let units = self.units_within(free, held, units);
        Grant {
            units,
            held: self.cost(units as u128),
            last: true,
        }
    }

    /// The units of the whole blocks that are free, up to these units, which cost more than is free.
    fn units_within(&self, free: i128, cost: u128, units: u64) -> u64
        requires in_range { IsTrue (in_range self.now) }
        requires priced { 0 < self.now.price }
        requires cost_kept { cost < 2 ^ 84 }
        requires above { free <ℤ pos cost }
        ensures value { result ≡ min units (units_free self.now free) }
    {
        let blocks = available(free) / self.price as u128;
        let most = blocks * self.block as u128;
        most.min(units as u128) as u64
    }

    /// Whether its numbers are in their ranges, and it has a group or an identifier.
    pub(crate) fn is_in_range(&self) -> bool
        ensures { result ≡ in_range self.now }
    {
        let most = self.units_limit();
        (self.group.is_some() || self.ident.is_some())
            && 1 <= self.block
            && self.block <= BLOCK_LIMIT
            && self.price <= PRICE_LIMIT
            && 1 <= self.quantum
            && self.quantum <= most
            && 1 <= self.greatest
            && self.greatest <= most
    }

    fn units_limit(&self) -> u64
        ensures { result ≡ units_limit self.now.kind }
    {
        match self.kind {
            UnitKind::Time => SECONDS_LIMIT,
            UnitKind::Octets | UnitKind::Units => UNITS_LIMIT,
        }
    }

    /// Whether it rates a service: by its Rating-Group where it has one, else by its Service-Identifier.
    pub fn rates(&self, group: Option<u32>, ident: Option<u32>) -> bool
        ensures { result ≡ rates group ident self.now }
    {
        match (group, ident) {
            (Some(_), _) => self.group == group,
            (None, Some(_)) => self.ident == ident,
            (None, None) => false,
        }
    }
}

/// An amount, where it is not below 0.
fn available(amount: i128) -> u128
    ensures { result ≡ available amount }
{
    if amount < 0 { 0 } else { amount as u128 }
}
