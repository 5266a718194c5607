// Each used record looks at its class, the first record with its variable, low and high.
ghost use Rattle.std.specs.Prelude.{◌≡◌, ◌<◌, ◌≤◌, length};
ghost use Rattle.lists.specs.Found.{found};
ghost use Rattle.diagrams.specs.Layout.{most_records, records, InTable};
ghost use Rattle.check_repeats.specs.Repeats.{repeats};
ghost use Rattle.check_repeats.specs.Late.{late};

use diagrams::{MOST_RECORDS, RecordNumber};

// Is it a used record whose class came before it?
#[tactic(auto, unfolding(crate::specs::Late::late))]
fn is_late(table: &[u8], class: &[u16], i: RecordNumber) -> bool
    requires { InTable table.now i.0 × (i.0 < length class.now) }
    ensures { result ≡ late table.now class.now i.0 }
{
    let at = i.0;
    i.is_used(table) & (usize::from(class[at]) < at)
}

fn first_late(table: &[u8], class: &[u16]) -> Option<usize>
    requires { records table.now ≤ length class.now }
    ensures { result ≡ found (late table.now class.now) (records table.now) }
{
    (0..diagrams::count_records(table)).find(|&i| is_late(table, class, RecordNumber(i)))
}

pub fn search(table: &[u8]) -> Option<usize>
    requires { records table.now ≤ most_records }
    ensures { result ≡ found (repeats table.now) (records table.now) }
{
    let mut class = [0u16; MOST_RECORDS];
    classes::classes(table, &mut class);
    first_late(table, &class)
}
