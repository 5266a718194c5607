// Each record is compared with all earlier ones.
ghost use Rattle.std.specs.Prelude.{◌≡◌};
ghost use Rattle.lists.specs.Found.{found};
ghost use Rattle.diagrams.specs.Layout.{records, InTable};
ghost use Rattle.check_repeats.specs.Repeats.{same_record, repeats};

use super::is_same;
use diagrams::RecordNumber;

// The first record before i that is the same.
fn first_same(table: &[u8], i: RecordNumber) -> Option<usize>
    requires { InTable table.now i.0 }
    ensures { result ≡ found (same_record table.now i.0) i.0 }
{
    (0..i.0).find(|&j| is_same(table, i, RecordNumber(j)))
}

#[tactic(auto, unfolding(crate::specs::Repeats::repeats), using(crate::specs::Searching::found_some))]
fn is_repeat(table: &[u8], i: RecordNumber) -> bool
    requires { InTable table.now i.0 }
    ensures { result ≡ repeats table.now i.0 }
{
    i.is_used(table) && first_same(table, i).is_some()
}

pub fn search(table: &[u8]) -> Option<usize>
    ensures { result ≡ found (repeats table.now) (records table.now) }
{
    (0..diagrams::count_records(table)).find(|&i| is_repeat(table, RecordNumber(i)))
}
