//! Laws. Each is the contract of a function without a body.

ghost use Rattle.std.specs.Prelude.{◌≡◌, ◌≤◌, ◌+◌, ◌⊎◌, ℕ, Result, Some, Err, true};
ghost use Rattle.dia_base.specs.declared.number.Moment.{Moment};
ghost use Rattle.cc_book.specs.declared.book.BookRefusal.{BookRefusal};
ghost use Rattle.cc_book.specs.declared.book.BookRefusal.TheVariants.{Full};
ghost use Rattle.pool_node.specs.Sweeping.{asked_at, is_due, next_sweep};
ghost use Rattle.pool_node.specs.declared.sweeping.NextSweep.{NextSweep};

/// Behind a sweep another one is due a second later, unless the book is full, and none is due before.
pub fn sweeps_go_on()
    ensures due { (moment : Moment) (swept : Result ℕ BookRefusal) → ((limit : ℕ) → swept ≡ Err (Full limit) → ⊥) → is_due (next_sweep moment swept) (record { 0 = moment.0 + 1000 }) ≡ true }
    ensures early { (moment : Moment) (now : Moment) (swept : Result ℕ BookRefusal) → is_due (next_sweep moment swept) now ≡ true → (moment.0 + 1000 ≤ now.0) ⊎ (18446744073709551615 ≤ now.0) }
{}

/// While a sweep is under way, no tick asks for another one.
pub fn sweeps_are_one_at_a_time()
    ensures { (next : NextSweep) (now : Moment) (asked : Moment) → asked_at next now (Some asked) ≡ Some asked }
{}
