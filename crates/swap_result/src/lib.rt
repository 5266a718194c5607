// The table after a swap, in an image: the records as they were, and over them what dies, the new ones and the crossed ones.
#![tactic(auto)]

ghost use Rattle.std.specs.Prelude.{◌≡◌, ◌<◌, ◌≤◌, length};
ghost use Rattle.lists.specs.Fold.{fold};
ghost use Rattle.diagrams.specs.Layout.{records};
ghost use Rattle.diagrams.specs.Store.{meant, Fit};
ghost use Rattle.swap_records.specs.Children.{with_variable};
ghost use Rattle.swap_records.specs.Listed.{Inside};
ghost use Rattle.swap_result.specs.Image.{stayed, freed, placed, living, Copyable, Fillable, Filled};

use diagrams::{Record, RecordNumber, Variable};
use swap_reckoning::Work;
use swap_records::children::Children;
use swap_records::{Pair, collect};

// ---- the records that stay, and those that die

fn copy_records(table: &[u8], image: &mut [u8])
    requires { length table.now ≤ length image.old }
    ensures { image.new ≡ fold (stayed table.now) image.old (records table.now) }
{
    for i in 0..diagrams::count_records(table) {
        let number = RecordNumber(i);
        Record::of(table, number).store(image, number);
    }
}

// Each record becomes free whose number stands in the list.
fn free_records(numbers: &[u16], image: &mut [u8])
    requires { Inside image.old numbers.now }
    ensures { image.new ≡ fold (freed numbers.now) image.old (length numbers.now) }
{
    for k in 0..numbers.len() {
        Record::Free.store(image, collect::entry(numbers, k));
    }
}

// The records as they were, but free where they die.
fn copy_living(table: &[u8], dying: &[u16], image: &mut [u8])
    requires { Copyable table.now dying.now image.old }
    ensures { image.new ≡ living table.now dying.now image.old }
{
    copy_records(table, image);
    free_records(dying, image);
}

// ---- the records that are written over them

fn record(v: Variable, children: Children) -> Record
    requires { v.0 < 256 }
    ensures { (meant result ≡ with_variable v.0 children) × Fit result }
{
    Record::Used {
        variable: v,
        low: children.low(),
        high: children.high(),
    }
}

// Each goes, with the variable v, to the record whose number stands at its place in the list.
fn place_records(v: Variable, children: &[Children], numbers: &[u16], image: &mut [u8])
    requires { (Inside image.old numbers.now × (length children.now ≤ length numbers.now)) × (v.0 < 256) }
    ensures { image.new ≡ fold (placed v.0 children.now numbers.now) image.old (length children.now) }
{
    for k in 0..children.len() {
        record(v, children[k]).store(image, collect::entry(numbers, k));
    }
}

// ---- the whole image

// After the reckoning of a swap that has room: what dies becomes free, new x records go to the first slots, which may be some of what died,
// and crossing records become y records. The first slots, so many of them, were free before.
pub fn fill(table: &[u8], pair: Pair, work: &Work, free: usize, image: &mut [u8])
    requires { Fillable table.now pair work.now free image.old }
    ensures { Filled table.now pair work.now.slots free image.new }
{
    let slots = work.slots.as_slice();
    copy_living(table, &slots[free..], image);
    place_records(pair.x, work.news.as_slice(), slots, image);
    place_records(
        pair.y,
        work.kept.as_slice(),
        work.crossing.as_slice(),
        image,
    );
}
