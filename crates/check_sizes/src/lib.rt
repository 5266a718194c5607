// Check 1: are the buffers as long as a relay's can be?
#![tactic(auto)]

ghost use Rattle.std.specs.Prelude.{◌≡◌};
ghost use Rattle.check_sizes.specs.Sizes.{bad_sizes};

use diagrams::{MOST_RECORDS, MOST_ROOTS, RECORD_SIZE, ROOT_SIZE};
use orders::Order;

#[tactic(auto, unfolding(crate::specs::Sizes::bad_sizes))]
pub fn bad_sizes(table: &[u8], roots: &[u8], order: &[u8]) -> bool
    ensures { result ≡ bad_sizes table.now roots.now order.now }
{
    let bad_order = order.is_empty() || Order::CEILING < order.len();
    let bad_table = table.len() % RECORD_SIZE != 0 || RECORD_SIZE * MOST_RECORDS < table.len();
    let bad_roots = roots.len() % ROOT_SIZE != 0 || MOST_ROOTS < diagrams::count_roots(roots);
    bad_order || bad_table || bad_roots
}
