// How often the roots and the records of other variables than x name each reference, by which it is told what dies.
#![tactic(auto)]

ghost use Rattle.std.specs.Prelude.{◌≡◌, ◌+◌, ◌*◌, ◌<◌, length};
ghost use Rattle.lists.specs.Fold.{fold};
ghost use Rattle.diagrams.specs.Layout.{records, root_count, InTable};
ghost use Rattle.diagrams.specs.Noting.{no_notes};
ghost use Rattle.check_sizes.specs.Sizes.{TableSizes};
ghost use Rattle.swap_names.specs.Naming.{named, named_root, named_by, named_other, unnamed, CountRoom};
ghost use Rattle.swap_names.specs.Dying.{Counted};

use diagrams::{MOST_RECORDS, RecordNumber, Reference, Variable};
use swap_records::Pair;

pub mod dying;

fn no_names() -> [u16; MOST_RECORDS + 2]
    ensures { result ≡ no_notes }
{
    [0u16; MOST_RECORDS + 2]
}

fn count_name(names: &mut [u16], x: Reference)
    requires { CountRoom names.old 1 }
    ensures { names.new ≡ named names.old x.0 }
{
    let at = x.0;
    if at < names.len() {
        names[at] += 1;
    }
}

// The two names of a record.
fn count_both(names: &mut [u16], table: &[u8], i: RecordNumber)
    requires { InTable table.now i.0 × CountRoom names.old 2 }
    ensures { names.new ≡ named_by table.now names.old i.0 }
{
    count_name(names, i.low(table));
    count_name(names, i.high(table));
}

fn count_roots(names: &mut [u16], roots: &[u8])
    requires { CountRoom names.old (2 * root_count roots.now) }
    ensures { names.new ≡ fold (named_root roots.now) names.old (root_count roots.now) }
{
    for k in 0..diagrams::count_roots(roots) {
        count_name(names, diagrams::root(roots, k));
    }
}

// By a record of another variable than x.
fn count_other(names: &mut [u16], table: &[u8], x: Variable, i: RecordNumber)
    requires { InTable table.now i.0 × CountRoom names.old 2 }
    ensures { names.new ≡ named_other table.now x.0 names.old i.0 }
{
    if i.is_used(table) & !swap_records::is_record_of(table, x, i) {
        count_both(names, table, i);
    }
}

fn count_others(names: &mut [u16], table: &[u8], x: Variable)
    requires { CountRoom names.old (2 * records table.now) }
    ensures { names.new ≡ fold (named_other table.now x.0) names.old (records table.now) }
{
    for i in 0..diagrams::count_records(table) {
        count_other(names, table, x, RecordNumber(i));
    }
}

// By all that keeps its references and may name a y record: an x record with a y record as a child crosses.
fn count_names(names: &mut [u16], table: &[u8], roots: &[u8], pair: Pair)
    requires { (names.old ≡ no_notes) × TableSizes table.now roots.now }
    ensures { Counted table.now roots.now pair names.new }
{
    count_roots(names, roots);
    count_others(names, table, pair.x);
}

fn is_unnamed(names: &[u16], i: RecordNumber) -> bool
    requires { (i.0 + 2 < length names.now) × (i.0 < 65536) }
    ensures { result ≡ unnamed names.now i.0 }
{
    names[i.reference().0] == 0
}
