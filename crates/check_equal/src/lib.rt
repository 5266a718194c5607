// Check 6: the first record whose low equals its high.
#![tactic(auto)]

ghost use Rattle.std.specs.Prelude.{◌≡◌};
ghost use Rattle.lists.specs.Found.{found};
ghost use Rattle.diagrams.specs.Layout.{records, InTable};
ghost use Rattle.check_equal.specs.Equal.{low_is_high};

use diagrams::RecordNumber;

#[tactic(auto, unfolding(crate::specs::Equal::low_is_high))]
fn is_low_high(table: &[u8], i: RecordNumber) -> bool
    requires { InTable table.now i.0 }
    ensures { result ≡ low_is_high table.now i.0 }
{
    i.is_used(table) && i.low(table) == i.high(table)
}

pub fn first_low_is_high(table: &[u8]) -> Option<usize>
    ensures { result ≡ found (low_is_high table.now) (records table.now) }
{
    (0..diagrams::count_records(table)).find(|&i| is_low_high(table, RecordNumber(i)))
}
