// Count: under how many combinations of inputs a root is 1, and their share.
#![tactic(auto)]

ghost use Rattle.counting.specs.Count.{CountOutcome};

use checks::{Fault, Refusal};
use count_levels::Trips;
use count_shares::MOST_COUNTED;

// How many combinations and their share of all, or a refusal.
pub fn count(table: &[u8], roots: &[u8], order: &[u8], position: usize) -> Result<Trips, Refusal>
    ensures { CountOutcome table.now roots.now order.now position result }
{
    checks::verdict_of_all(table, roots, order)?;
    let n = order.len();
    Fault::TooManyInputs.refuse_if(MOST_COUNTED < n, n)?;
    Fault::NoRoot.refuse_if(diagrams::count_roots(roots) <= position, position)?;
    let root = diagrams::root(roots, position);
    Ok(count_levels::trips_of(table, order, root))
}
