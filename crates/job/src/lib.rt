// The program's one run, from the bytes of its files.
#![tactic(auto)]

ghost use Rattle.std.specs.Prelude.{◌≡◌, ◌<◌, get_or};
ghost use Rattle.job.specs.Job.{JobOutcome};

use checks::{Fault, Refusal};
use pen::{ENTRY_SIZE, MOST_LOG_RECORDS};
use runs::Slice;

// The first byte of trip.pln; 0 where it is empty.
pub fn number_in(plan: &[u8]) -> usize
    ensures { (result ≡ get_or plan.now 0 0) × (result < 256) }
{
    plan.first().map_or(0, |&number| usize::from(number))
}

// By the plan whose number is the one byte of trip.pln. Where that is not one byte, no plan is told: the first of checks 1 to 9 that fails, or else 13.
pub fn run(
    table: &mut [u8],
    roots: &[u8],
    order: &mut [u8],
    target: &[u8],
    plan: &[u8],
) -> Result<Slice, Refusal>
    ensures { JobOutcome table.old roots.now order.old target.now plan.now result
        table.new order.new }
{
    // The longest log, empty.
    let mut log = [0u8; ENTRY_SIZE * MOST_LOG_RECORDS];
    if plan.len() != 1 {
        runs::verdict_of_store(table, roots, order, target, &log)?;
        return Err(Refusal {
            fault: Fault::NoPlan,
            place: 0,
        });
    }
    slices::run(
        table,
        roots,
        order,
        target,
        &mut log,
        number_in(plan) as u32,
        u32::MAX,
    )
}
