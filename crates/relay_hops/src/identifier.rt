//! The identifiers that a relay gives.

ghost use Rattle.std.specs.Prelude.{◌≡◌, ◌+◌, ◌%◌, ◌^◌};
ghost use Rattle.relay_hops.specs.Identifiers.{identifier_of};

use crate::row::Hop;

/// How many identifiers there are: those with the highest bit. The others are of the connection itself, whose
/// watchdog counts from 1.
pub(crate) const IDENTIFIERS: u32 = 1 << 31;

/// The identifier of a number.
pub(crate) fn identifier_of(number: u32) -> Hop
    ensures { result ≡ identifier_of number }
{
    IDENTIFIERS + number % IDENTIFIERS
}
