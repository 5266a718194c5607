// Run: its answer, and its checks. What it answers and leaves is in the definitions beside it; the slice itself is in `slices`.
#![tactic(auto)]

ghost use Rattle.std.specs.Prelude.{◌≡◌, false, [], ◌∷◌};
ghost use Rattle.plans.specs.Numbered.{no_plan};
ghost use Rattle.check_sizes.specs.Sizes.{bad_sizes};
ghost use Rattle.checks.specs.Stages.{stage_at, verdict_of};
ghost use Rattle.checks.specs.declared.Fault.TheVariants as fault;
ghost use Rattle.runs.specs.OneSwap.{plain_swap};
ghost use Rattle.runs.specs.Run.{bad_run_sizes, order_stages, store_stages, run_stages, Planned};

use checks::{Fault, Refusal};
use plans::{NoPlan, Plan};
use swap_ways::{Lack, Short};

// What a slice came to: the swaps that it made, the inversions left, and why it ended.
#[derive(Clone, Copy, PartialEq, Eq)]
pub enum Slice {
    Done {
        swaps: usize,
        left: usize,
    },
    NoRoom {
        swaps: usize,
        left: usize,
        lack: Lack,
    },
    LogShort {
        swaps: usize,
        left: usize,
        short: Short,
    },
    Paused {
        swaps: usize,
        left: usize,
    },
}

// ---- 1, 14, 15, 2 to 9, and 13

#[tactic(auto, unfolding(crate::specs::Run::bad_run_sizes))]
fn bad_run_sizes(table: &[u8], roots: &[u8], order: &[u8], target: &[u8]) -> bool
    ensures { result ≡ bad_run_sizes table.now roots.now order.now target.now }
{
    check_sizes::bad_sizes(table, roots, order) || target.len() != order.len()
}

// Checks 2 and 3, and then 4 to 9, once the sizes are known to be right.
fn verdict_of_orders(table: &[u8], roots: &[u8], order: &[u8], target: &[u8]) -> Result<(), Refusal>
    requires { bad_sizes table.now roots.now order.now ≡ false }
    ensures { result ≡ verdict_of (order_stages plain_swap table.now roots.now order.now target.now) }
{
    Fault::BadOrder.refuse_at(check_permutation::first_bad_place(order))?;
    Fault::BadTarget.refuse_at(check_permutation::first_bad_place(target))?;
    checks::verdict_of_table(table, roots, order)
}

// All but 13.
pub fn verdict_of_store(
    table: &[u8],
    roots: &[u8],
    order: &[u8],
    target: &[u8],
    log: &[u8],
) -> Result<(), Refusal>
    ensures { result ≡ verdict_of (store_stages plain_swap table.now roots.now order.now target.now log.now) }
{
    Fault::BadSizes.refuse_if(bad_run_sizes(table, roots, order, target), 0)?;
    check_log::verdict_of_open_log(log, diagrams::count_records(table), order.len())?;
    verdict_of_orders(table, roots, order, target)
}

// 13: the plan with this number, if there is one.
fn plan_numbered(number: usize) -> Result<Plan, Refusal>
    ensures { Planned number (stage_at fault.NoPlan number (no_plan number) ∷ []) result }
{
    Plan::try_from(number).map_err(|NoPlan(place)| Refusal {
        fault: Fault::NoPlan,
        place,
    })
}

// All checks; the plan, where they pass.
pub fn verdict_of_run(
    table: &[u8],
    roots: &[u8],
    order: &[u8],
    target: &[u8],
    log: &[u8],
    number: usize,
) -> Result<Plan, Refusal>
    ensures { Planned number (run_stages plain_swap number table.now roots.now order.now target.now log.now) result }
{
    verdict_of_store(table, roots, order, target, log)?;
    plan_numbered(number)
}
