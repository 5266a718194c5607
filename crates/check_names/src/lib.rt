// Check 9: the first used record that nobody names. Each reference that a root or a used record names is marked in one pass;
// then each used record looks at its mark.
#![tactic(auto)]

ghost use Rattle.std.specs.Prelude.{◌≡◌, ◌+◌, ◌<◌, ◌≤◌, length, set};
ghost use Rattle.lists.specs.Found.{found};
ghost use Rattle.lists.specs.Fold.{fold};
ghost use Rattle.diagrams.specs.Layout.{most_records, records, root_count, InTable};
ghost use Rattle.check_names.specs.Names.{idle};
ghost use Rattle.check_names.specs.Marks.{marked_root, marked_record, unmarked};

use diagrams::{MOST_RECORDS, RecordNumber, Reference};

fn mark(marks: &mut [u8], x: Reference)
    ensures { marks.new ≡ set marks.old x.0 1 }
{
    // Not through get_mut, which promises nothing of the slice that it leaves.
    if x.0 < marks.len() {
        marks[x.0] = 1;
    }
}

#[tactic(auto, unfolding(crate::specs::Marks::marked_record))]
fn mark_record(marks: &mut [u8], table: &[u8], i: RecordNumber)
    requires { InTable table.now i.0 }
    ensures { marks.new ≡ marked_record table.now marks.old i.0 }
{
    if i.is_used(table) {
        mark(marks, i.low(table));
        mark(marks, i.high(table));
    }
}

#[tactic(auto, using(lists::specs::Fold::folds))]
fn mark_records(marks: &mut [u8], table: &[u8])
    ensures { marks.new ≡ fold (marked_record table.now) marks.old (records table.now) }
{
    for i in 0..diagrams::count_records(table) {
        mark_record(marks, table, RecordNumber(i));
    }
}

#[tactic(auto, unfolding(crate::specs::Marks::marked_root), using(lists::specs::Fold::folds))]
fn mark_roots(marks: &mut [u8], roots: &[u8])
    ensures { marks.new ≡ fold (marked_root roots.now) marks.old (root_count roots.now) }
{
    for k in 0..diagrams::count_roots(roots) {
        mark(marks, diagrams::root(roots, k));
    }
}

#[tactic(auto, unfolding(crate::specs::Marks::unmarked))]
fn is_unmarked(table: &[u8], marks: &[u8], i: RecordNumber) -> bool
    requires { InTable table.now i.0 × ((i.0 + 2 < length marks.now) × (i.0 < 65536)) }
    ensures { result ≡ unmarked table.now marks.now i.0 }
{
    i.is_used(table) && marks[i.reference().0] != 1
}

fn first_unmarked(table: &[u8], marks: &[u8]) -> Option<usize>
    requires { (records table.now + 2 ≤ length marks.now) × (records table.now ≤ most_records) }
    ensures { result ≡ found (unmarked table.now marks.now) (records table.now) }
{
    (0..diagrams::count_records(table)).find(|&i| is_unmarked(table, marks, RecordNumber(i)))
}

#[tactic(auto, using(crate::proofs::Laws::mark_scan))]
pub fn first_idle(table: &[u8], roots: &[u8]) -> Option<usize>
    requires { records table.now ≤ most_records }
    ensures { result ≡ found (idle table.now roots.now) (records table.now) }
{
    let mut marks = [0u8; MOST_RECORDS + 2];
    mark_roots(&mut marks, roots);
    mark_records(&mut marks, table);
    first_unmarked(table, &marks)
}
