//! Laws. Each is the contract of a function without a body.

ghost use Rattle.std.specs.Prelude.{◌≡◌, ◌+◌, ◌<◌, ◌≤◌, ℕ};
ghost use Rattle.farm_log.specs.declared.count.Count.{Count};
ghost use Rattle.farm_log.specs.Limits.{Runs, Told, lines_in};

/// Of one kind from one peer at most ten lines are written in a second, those among them that tell how many were held back.
pub fn few_lines_are_written()
    ensures { (count : Count) (told : Told) (second : ℕ) → Runs count told → lines_in second told.seconds ≤ 10 }
{}

/// Each line that came was written, was told as one of those held back, or is held back still and counted: so the next line of its
/// kind, which tells how many are held back, tells all of them. Fewer than 2^64 lines came.
pub fn lines_are_written_or_counted()
    ensures { (count : Count) (told : Told) → Runs count told → told.came < 18446744073709551616
        → told.came ≡ told.written + told.counted + count.held }
{}
