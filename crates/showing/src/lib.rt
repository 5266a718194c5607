// Show: a root's record, as a part of the caller's table.
#![tactic(auto)]

ghost use Rattle.std.specs.Prelude.{◌≡◌};
ghost use Rattle.showing.specs.Show.{part_of, ShowOutcome};

use diagrams::RECORD_SIZE;
use parts::Part;

// Where the record of a root lies in the table; 0 to 0 where there is nothing to show.
pub fn shown_part(table: &[u8], roots: &[u8], order: &[u8], position: usize) -> Part
    ensures { result ≡ part_of table.now roots.now order.now position }
{
    if checks::verdict_of_all(table, roots, order).is_err() {
        return Part(0, 0);
    }
    if diagrams::count_roots(roots) <= position {
        return Part(0, 0);
    }
    let root = diagrams::root(roots, position);
    if root.is_constant() {
        return Part(0, 0);
    }
    let at = root.record().offset(table);
    Part(at, at + RECORD_SIZE)
}

pub fn show<'a>(table: &'a [u8], roots: &[u8], order: &[u8], position: usize) -> &'a [u8]
    ensures { ShowOutcome table.now roots.now order.now position table.entry.ref_ptr result.ref_ptr result.now }
{
    parts::part_of(table, shown_part(table, roots, order, position))
}
