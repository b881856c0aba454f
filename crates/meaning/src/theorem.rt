// What the serial meaning comes to.
ghost use Rattle.std.specs.Prelude.{ℕ};
ghost use Rattle.meaning.specs.Structure.{Structured};

// Under every arithmetic, of each if exactly the part runs that its condition chose at the if.
pub fn branches_run_as_written()
    ensures { (plus minus : ℕ → ℕ → ℕ) → Structured plus minus }
{}
