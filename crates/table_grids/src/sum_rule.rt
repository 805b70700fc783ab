ghost use Rattle.std.specs.Prelude.{◌≡◌, ℕ, Bool};
ghost use Rattle.table_grids.specs.Causes.{Reaches};

// How the sum of a span's edges must stand to the size of its axis.
pub trait SumRule {
    ghost keeps: { ℕ → ℕ → Bool };

    ghost reaches: { Reaches keeps };

    // Whether a sum keeps the rule.
    fn keeps_rule(size: u64, sum: u128) -> bool
        ensures { result ≡ keeps size sum };
}
