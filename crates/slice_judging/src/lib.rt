// The answer of a slice, judged on the state that it left.
#![tactic(auto)]

ghost use Rattle.std.specs.Prelude.{◌≡◌, ◌<◌};
ghost use Rattle.orders.specs.Arranged.{bytes_of};
ghost use Rattle.plans.specs.Numbered.{meant};
ghost use Rattle.plans.specs.Course.{to};
ghost use Rattle.undo.specs.Stores.{state};
ghost use Rattle.runs.specs.OneSwap.{plain_swap};
ghost use Rattle.slice_judging.specs.Drivable.{Drivable};
ghost use Rattle.slice_judging.specs.Judged.{Judgeable, judged_on};

use orders::Order;
use plans::{Course, Plan};
use runs::Slice;
use swap_ways::Way;

// What a slice reaches: the order, the swaps made of its budget, and the fuel left.
#[derive(Clone, Copy)]
pub struct Reached {
    pub order: Order,
    pub swaps: usize,
    pub fuel: usize,
}

// Done where the order is the target; else by what the next planned swap meets.
fn judge(
    table: &[u8],
    roots: &[u8],
    order: &[u8],
    log: &[u8],
    course: &Course,
    plan: Plan,
    swaps: usize,
) -> Slice
    requires { Drivable table.now roots.now order.now log.now course.now }
    ensures { result ≡ judged_on plain_swap (meant plan) (state table.now order.now log.now) roots.now (to course.now) swaps }
{
    let left = course.left();
    let Some(level) = course.next_level(plan) else {
        return Slice::Done { swaps, left };
    };
    match swap_ways::ask(table, roots, order, level, swap_ways::entries_held(log)) {
        Way::NoRoom(lack) => Slice::NoRoom { swaps, left, lack },
        Way::LogShort(short) => Slice::LogShort { swaps, left, short },
        Way::Clear => Slice::Paused { swaps, left },
    }
}

// Where supply is lost nobody hears the answer, and the table isn't read.
pub fn answer_of(
    table: &[u8],
    roots: &[u8],
    order: &[u8],
    log: &[u8],
    reached: &Reached,
    target: &Order,
    n: usize,
    plan: Plan,
) -> Slice
    requires { Judgeable table.now roots.now order.now log.now reached.now target.now n }
    ensures { 0 < reached.now.fuel → result ≡ judged_on plain_swap (meant plan) (state table.now order.now log.now)
        roots.now (bytes_of target.now n) reached.now.swaps }
{
    if reached.fuel == 0 {
        return Slice::Paused {
            swaps: reached.swaps,
            left: 0,
        };
    }
    let course = Course {
        order: reached.order,
        target: *target,
        n,
    };
    judge(table, roots, order, log, &course, plan, reached.swaps)
}
