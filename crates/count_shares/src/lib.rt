// The share of combinations as a double, exactly.
#![tactic(auto)]

ghost use Rattle.std.specs.Prelude.{◌≡◌};
ghost use Rattle.std.specs.Float.{binary64};
ghost use Rattle.std.specs.Float.Ieee.{add, div};
ghost use Rattle.count_shares.specs.Share.{two};

// The most inputs whose combinations are counted: up to here no share is rounded.
pub const MOST_COUNTED: usize = 52;

// The share of a record, from its low and its high reference's.
pub fn mean(low: f64, high: f64) -> f64
    ensures { result ≡ div binary64 (add binary64 low high) two }
{
    (low + high) / 2.0
}
