// The slots for new records: after the free records of a list, those that die in this swap are put.
ghost use Rattle.std.specs.Prelude.{◌≡◌, ◌+◌, ◌<◌};
ghost use Rattle.diagrams.specs.Layout.{records, InTable};
ghost use Rattle.check_sizes.specs.Sizes.{TableSizes};
ghost use Rattle.swap_records.specs.Listed.{FreeListed};
ghost use Rattle.swap_names.specs.Slots.{dying_by, NamesFor, Adding, SlotsListed};

use diagrams::{RecordNumber, Variable};
use swap_records::Pair;
use swap_records::collect::Numbers;

// Does record i die: is it a y record without a name?
fn is_dying(table: &[u8], y: Variable, names: &[u16], i: RecordNumber) -> bool
    requires { InTable table.now i.0 × NamesFor table.now names.now }
    ensures { result ≡ dying_by table.now y.0 names.now i.0 }
{
    swap_records::is_record_of(table, y, i) & super::is_unnamed(names, i)
}

// Record i is put after the slots so far, if it dies. It is asked first: where nothing more dies, the list may be full.
fn add_if_dying(table: &[u8], y: Variable, names: &[u16], slots: &mut Numbers, i: RecordNumber)
    requires { Adding table.now y.0 names.now i.0 slots.old × (i.0 < records table.now) }
    ensures { Adding table.now y.0 names.now (i.0 + 1) slots.new }
{
    if is_dying(table, y, names, i) {
        slots.push(i.0 as u16);
    }
}

fn add_all(table: &[u8], y: Variable, names: &[u16], slots: &mut Numbers)
    requires { NamesFor table.now names.now × FreeListed table.now slots.old }
    ensures { Adding table.now y.0 names.now (records table.now) slots.new }
{
    for i in 0..diagrams::count_records(table) {
        add_if_dying(table, y, names, slots, RecordNumber(i));
    }
}

// After the free records of the list go those that die: y records that neither a root nor a record that keeps its references names.
pub fn add_dying(table: &[u8], roots: &[u8], pair: Pair, slots: &mut Numbers)
    requires { TableSizes table.now roots.now × FreeListed table.now slots.old }
    ensures { SlotsListed table.now roots.now pair slots.new }
{
    let mut names = super::no_names();
    super::count_names(&mut names, table, roots, pair);
    add_all(table, pair.y, &names, slots);
}
