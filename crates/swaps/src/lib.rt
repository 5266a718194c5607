// Swap two neighbouring levels of a stored diagram. The table afterwards is put into an image first; the lent buffers are written only when everything is
// known, by `commits`, one byte after the other.
#![tactic(auto)]

ghost use Rattle.std.specs.Prelude.{◌≡◌};
ghost use Rattle.checks.specs.Stages.{verdict_of};
ghost use Rattle.undo.specs.Stores.{state};
ghost use Rattle.swaps.specs.Outcome.{store_stages, swap_stages, SwapOutcome, SwapStopped};
ghost use Rattle.swaps.specs.Work.{Storable, Swapped};

use checks::{Fault, Refusal};
use pen::{ENOUGH, Pen};
use swap_ways::Way;

// ---- the swap of the three buffers

// The swap of levels level and level + 1 where nothing stands in its way, as far as the fuel lasts: table, order and log.
pub fn swap_buffers(
    table: &mut [u8],
    roots: &[u8],
    order: &mut [u8],
    log: &mut [u8],
    level: usize,
    pen: &mut Pen,
) -> Way
    requires { Storable table.old roots.now order.old log.old level }
    ensures { Swapped pen.old.fuel (state table.old order.old log.old) roots.now level result
        (state table.new order.new log.new) pen.new.fuel }
{
    let mut area = swap_ways::no_image();
    let image = &mut area[..table.len()];
    let held = swap_ways::entries_held(log);
    let way = swap_ways::reckon(table, roots, order, level, held, image);
    if let Way::Clear = way {
        commits::commit(table, image, order, level, log, pen);
    }
    way
}

// ---- the entry

// Checks 1, 14, 15, 2 and 4 to 9.
fn verdict_of_store(table: &[u8], roots: &[u8], order: &[u8], log: &[u8]) -> Result<(), Refusal>
    ensures { result ≡ verdict_of (store_stages table.now roots.now order.now log.now) }
{
    Fault::BadSizes.refuse_if(check_sizes::bad_sizes(table, roots, order), 0)?;
    check_log::verdict_of_open_log(log, diagrams::count_records(table), order.len())?;
    Fault::BadOrder.refuse_at(check_permutation::first_bad_place(order))?;
    checks::verdict_of_table(table, roots, order)
}

// The same, and then 12.
fn verdict_of_swap(
    table: &[u8],
    roots: &[u8],
    order: &[u8],
    log: &[u8],
    level: usize,
) -> Result<(), Refusal>
    ensures { result ≡ verdict_of (swap_stages table.now roots.now order.now log.now level) }
{
    verdict_of_store(table, roots, order, log)?;
    Fault::NoLevel.refuse_if(order.len() - 1 <= level, level)
}

// Swap, cut after `fuel` stores. Where the way is clear, it is made.
pub fn swap_cut(
    table: &mut [u8],
    roots: &[u8],
    order: &mut [u8],
    log: &mut [u8],
    level: usize,
    fuel: usize,
) -> Result<Way, Refusal>
    ensures { SwapStopped fuel (state table.old order.old log.old) roots.now level result
        (state table.new order.new log.new) }
{
    verdict_of_swap(table, roots, order, log, level)?;
    let mut pen = Pen { fuel };
    Ok(swap_buffers(table, roots, order, log, level, &mut pen))
}

pub fn swap(
    table: &mut [u8],
    roots: &[u8],
    order: &mut [u8],
    log: &mut [u8],
    level: usize,
) -> Result<Way, Refusal>
    ensures { SwapOutcome (state table.old order.old log.old) roots.now level result
        (state table.new order.new log.new) }
{
    swap_cut(table, roots, order, log, level, ENOUGH)
}
