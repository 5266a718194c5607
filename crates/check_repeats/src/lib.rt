// Check 7: the first record that is the same as an earlier one. Three ways look for it: by chains, which are given up where they are too long; without a
// hash, in their place; and by a plain search, in a table of few records or of more than the others have room for.
#![tactic(auto)]

ghost use Rattle.std.specs.Prelude.{◌≡◌};
ghost use Rattle.lists.specs.Found.{found};
ghost use Rattle.diagrams.specs.Layout.{records, InTable};
ghost use Rattle.check_repeats.specs.Repeats.{same_record, repeats};

use chained::Crowded;
use diagrams::{MOST_RECORDS, RecordNumber};

mod chained;
mod classed;
mod plain;

// Below about so many records clearing the heads of the chains takes longer than the plain search.
const FEW: usize = 24;

#[tactic(auto, unfolding(crate::specs::Repeats::same_record))]
fn is_same(table: &[u8], i: RecordNumber, j: RecordNumber) -> bool
    requires { InTable table.now i.0 × InTable table.now j.0 }
    ensures { result ≡ same_record table.now i.0 j.0 }
{
    (j.variable(table), j.low(table), j.high(table))
        == (i.variable(table), i.low(table), i.high(table))
}

// In a frame of its own: the stack of these lists is free again when check 9 marks what is named.
#[inline(never)]
pub fn first_repeat(table: &[u8]) -> Option<usize>
    ensures { result ≡ found (repeats table.now) (records table.now) }
{
    let m = diagrams::count_records(table);
    if !(FEW..=MOST_RECORDS).contains(&m) {
        return plain::search(table);
    }
    match chained::search(table) {
        Ok(place) => place,
        Err(Crowded) => classed::search(table),
    }
}
