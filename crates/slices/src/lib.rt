// Run one slice of planned swaps towards a target order.
#![tactic(auto)]

ghost use Rattle.std.specs.Prelude.{◌≡◌, ◌+◌, ◌<◌, Ok};
ghost use Rattle.plans.specs.Numbered.{meant};
ghost use Rattle.plans.specs.Course.{to};
ghost use Rattle.undo.specs.Stores.{state};
ghost use Rattle.runs.specs.OneSwap.{plain_swap};
ghost use Rattle.runs.specs.Run.{slice_call, run_call, RunOutcome};
ghost use Rattle.runs.specs.Theorems.{Runnable};
ghost use Rattle.slice_judging.specs.Drivable.{Drivable};
ghost use Rattle.slices.specs.Work.{Stepped, Driven, Stopped};

use checks::Refusal;
use orders::Order;
use pen::{ENOUGH, Pen};
use plans::{Course, Plan};
use runs::Slice;
use slice_judging::Reached;
use swap_ways::Way;

// One planned swap: the order after it, where it is made. `course` has the order of the lent bytes.
// Not the course after it: that is so long that copying it would call memcpy.
fn step(
    table: &mut [u8],
    roots: &[u8],
    order: &mut [u8],
    log: &mut [u8],
    course: &Course,
    plan: Plan,
    pen: &mut Pen,
) -> Option<Order>
    requires { Drivable table.old roots.now order.old log.old course.now }
    ensures { Stepped plain_swap (meant plan) roots.now course.now (state table.old order.old log.old) pen.old.fuel result
        (state table.new order.new log.new) pen.new.fuel }
{
    let level = course.next_level(plan)?;
    match swaps::swap_buffers(table, roots, order, log, level, pen) {
        Way::Clear => Some(course.order.exchanged(level)),
        Way::NoRoom(_) => None,
        Way::LogShort(_) => None,
    }
}

// Planned swaps until none is to be made, the budget is spent, or supply is lost: then the table may be torn, and isn't read again.
fn drive(
    table: &mut [u8],
    roots: &[u8],
    order: &mut [u8],
    log: &mut [u8],
    course: &mut Course,
    plan: Plan,
    budget: usize,
    pen: &mut Pen,
) -> Reached
    requires { Drivable table.old roots.now order.old log.old course.old }
    ensures { Driven plain_swap (meant plan) roots.now (to course.old) (state table.old order.old log.old) budget pen.old.fuel result course.new
        (state table.new order.new log.new) }
{
    for swaps in 0..budget {
        let Some(next) = step(table, roots, order, log, course, plan, pen) else {
            return Reached {
                order: course.order,
                swaps,
                fuel: pen.fuel,
            };
        };
        course.order = next;
        if pen.fuel == 0 {
            return Reached {
                order: course.order,
                swaps: swaps + 1,
                fuel: 0,
            };
        }
    }
    Reached {
        order: course.order,
        swaps: budget,
        fuel: pen.fuel,
    }
}

// One slice of a table that is accepted, towards a permutation of its variables, with an empty log.
fn run_slice(
    table: &mut [u8],
    roots: &[u8],
    order: &mut [u8],
    target: &[u8],
    log: &mut [u8],
    plan: Plan,
    budget: usize,
    fuel: usize,
) -> Slice
    requires { Runnable plain_swap (state table.old order.old log.old) roots.now target.now }
    ensures { Stopped fuel (slice_call plain_swap (meant plan) (state table.old order.old log.old) roots.now
        target.now budget) (state table.old order.old log.old) (Ok result)
        (state table.new order.new log.new) }
{
    let mut course = Course {
        order: Order::load(order),
        target: Order::load(target),
        n: order.len(),
    };
    let pen = &mut Pen { fuel };
    let reached = drive(table, roots, order, log, &mut course, plan, budget, pen);
    let (goal, n) = (&course.target, course.n);
    slice_judging::answer_of(table, roots, order, log, &reached, goal, n, plan)
}

// ---- the entry

// Run, cut after `fuel` stores.
pub fn run_cut(
    table: &mut [u8],
    roots: &[u8],
    order: &mut [u8],
    target: &[u8],
    log: &mut [u8],
    plan: u32,
    budget: u32,
    fuel: usize,
) -> Result<Slice, Refusal>
    ensures { Stopped fuel (run_call plain_swap plan (state table.old order.old log.old) roots.now
        target.now budget) (state table.old order.old log.old) result
        (state table.new order.new log.new) }
{
    let plan = runs::verdict_of_run(table, roots, order, target, log, plan as usize)?;
    Ok(run_slice(
        table,
        roots,
        order,
        target,
        log,
        plan,
        budget as usize,
        fuel,
    ))
}

pub fn run(
    table: &mut [u8],
    roots: &[u8],
    order: &mut [u8],
    target: &[u8],
    log: &mut [u8],
    plan: u32,
    budget: u32,
) -> Result<Slice, Refusal>
    ensures { RunOutcome plain_swap plan (state table.old order.old log.old) roots.now target.now budget result
        (state table.new order.new log.new) }
{
    let fuel = (budget as usize + 1) * ENOUGH;
    run_cut(table, roots, order, target, log, plan, budget, fuel)
}
