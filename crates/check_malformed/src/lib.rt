// Check 4: the first record that is malformed.
#![tactic(auto)]

ghost use Rattle.std.specs.Prelude.{◌≡◌};
ghost use Rattle.lists.specs.Found.{found};
ghost use Rattle.diagrams.specs.Layout.{records, InTable};
ghost use Rattle.check_malformed.specs.Malformed.{malformed};

use diagrams::{RecordNumber, Reference};

#[tactic(auto, unfolding(crate::specs::Malformed::malformed))]
fn is_malformed(table: &[u8], n: usize, i: RecordNumber) -> bool
    requires { InTable table.now i.0 }
    ensures { result ≡ malformed table.now n i.0 }
{
    let low = i.low(table);
    let high = i.high(table);
    let bad_fields = if i.is_free(table) {
        low != Reference(0) || high != Reference(0)
    } else {
        n <= i.variable(table).0 || low.is_dead(table) || high.is_dead(table)
    };
    bad_fields || !i.zero_bytes(table)
}

pub fn first_malformed(table: &[u8], n: usize) -> Option<usize>
    ensures { result ≡ found (malformed table.now n) (records table.now) }
{
    (0..diagrams::count_records(table)).find(|&i| is_malformed(table, n, RecordNumber(i)))
}
