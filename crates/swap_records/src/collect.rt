// The records of this swap, collected once: those of x, split into crossing and standing ones, and the free ones.
ghost use Rattle.std.specs.Prelude.{◌≡◌, ◌+◌, ◌≤◌, ◌<◌, [], length, get_or};
ghost use Rattle.diagrams.specs.Layout.{most_records, records};
ghost use Rattle.swap_records.specs.Listed.{FreeListed, Splits};

use super::Pair;
use super::fixed_list::FixedList;
use diagrams::{MOST_RECORDS, RecordNumber};

// Numbers of records, with room for all that there can be.
pub type Numbers = FixedList<u16, MOST_RECORDS>;

// Entry k of a list of record numbers.
pub fn entry(list: &[u16], k: usize) -> RecordNumber
    requires { k < length list.now }
    ensures { (result.0 ≡ get_or list.now k 0) × (result.0 < 65536) }
{
    RecordNumber(usize::from(list[k]))
}

pub fn collect_free(table: &[u8], list: &mut Numbers)
    requires { records table.now ≤ most_records }
    ensures { FreeListed table.now list.new }
{
    list.clear();
    for i in 0..diagrams::count_records(table) {
        list.push_if(RecordNumber(i).is_free(table), i as u16);
    }
}

// Record i goes to the list that it belongs to, if it is a record of x.
fn split_record(
    table: &[u8],
    pair: Pair,
    i: RecordNumber,
    crossing: &mut Numbers,
    standing: &mut Numbers,
)
    requires { Splits table.now pair i.0 crossing.old standing.old × (i.0 < records table.now) }
    ensures { Splits table.now pair (i.0 + 1) crossing.new standing.new }
{
    if super::is_record_of(table, pair.x, i) {
        let crosses = super::is_crossing(table, pair, i);
        crossing.push_if(crosses, i.0 as u16);
        standing.push_if(!crosses, i.0 as u16);
    }
}

pub fn collect_x(table: &[u8], pair: Pair, crossing: &mut Numbers, standing: &mut Numbers)
    requires { records table.now ≤ most_records }
    ensures { Splits table.now pair (records table.now) crossing.new standing.new }
{
    crossing.clear();
    standing.clear();
    for i in 0..diagrams::count_records(table) {
        split_record(table, pair, RecordNumber(i), crossing, standing);
    }
}
