// The store in the files of the working folder: read, brought to its target, and printed. No file is written.
#![tactic(auto)]

ghost use Rattle.std.specs.Prelude.{◌≡◌};
ghost use Rattle.program.specs.Program.{Held};
ghost use Rattle.files.specs.File.{Within};
ghost use Rattle.folder.specs.Buffers.{Buffers, plan_buffer, LabelBuffer, AllWithin};

use diagrams::{MOST_RECORDS, MOST_ROOTS, RECORD_SIZE, ROOT_SIZE};
use files::Unreadable;
use labels::{LABEL_SIZE, MOST_LABELS};
use orders::Order;
use std::rt;

// How many bytes each file of the store and its target has.
#[derive(Clone, Copy)]
struct Sizes {
    table: usize,
    roots: usize,
    order: usize,
    target: usize,
}

// The store and its target. A missing file counts as empty.
fn load_all<R: rt::Files + Eprint>(
    rt: &R,
    table: &mut [u8],
    roots: &mut [u8],
    order: &mut [u8],
    target: &mut [u8],
) -> Result<Sizes, Unreadable>
    requires { Buffers table.old roots.old order.old target.old }
    ensures { AllWithin result table.new roots.new order.new target.new }
{
    Ok(Sizes {
        table: files::load(rt, "trip.nod", table, 0)?,
        roots: files::load(rt, "trip.rts", roots, 0)?,
        order: files::load(rt, "trip.ord", order, 0)?,
        target: files::load(rt, "trip.tgt", target, 0)?,
    })
}

// A missing trip.pln counts as one byte: 0, for Bring Up.
fn load_plan<R: rt::Files + Eprint>(rt: &R, plan: &mut [u8]) -> Result<usize, Unreadable>
    requires { plan.old ≡ plan_buffer }
    ensures { Within result plan.new }
{
    files::load(rt, "trip.pln", plan, 1)
}

// A missing file of labels counts as an empty list.
fn load_labels<R: rt::Files + Eprint>(
    rt: &R,
    path: &str,
    list: &mut [u8],
) -> Result<usize, Unreadable>
    requires { LabelBuffer list.old }
    ensures { Within result list.new }
{
    files::load(rt, path, list, 0)
}

// Writes the whole text at once.
fn write<R: Print + Eprint>(rt: &R, text: &[u8]) {
    if let Err(error) = rt.write_all(text) {
        let _ = eprintln!(rt; "standard output: {error}");
    }
}

// Prints the text of the program, with these labels. In a frame of its own: the text isn't laid out before the labels are read.
#[inline(never)]
fn print<R: Print + Eprint>(
    rt: &R,
    table: &mut [u8],
    roots: &[u8],
    order: &mut [u8],
    target: &[u8],
    plan: &[u8],
    site: &[u8],
    factory: &[u8],
)
    requires { Held table.old roots.now order.old }
{
    let mut text = [0u8; program::MOST_TEXT];
    let n = program::text(table, roots, order, target, plan, site, factory, &mut text);
    write(rt, &text[..n]);
}

// Prints with the labels of the site and of the factory.
fn print_labelled<R: rt::Files + Print + Eprint>(
    rt: &R,
    table: &mut [u8],
    roots: &[u8],
    order: &mut [u8],
    target: &[u8],
    plan: &[u8],
) -> Result<(), Unreadable>
    requires { Held table.old roots.now order.old }
{
    let mut site = [0u8; LABEL_SIZE * MOST_LABELS + 1];
    let s = load_labels(rt, "trip.lbs", &mut site)?;
    let mut factory = [0u8; LABEL_SIZE * MOST_LABELS + 1];
    let f = load_labels(rt, "trip.lbf", &mut factory)?;
    print(
        rt,
        table,
        roots,
        order,
        target,
        plan,
        &site[..s],
        &factory[..f],
    );
    Ok(())
}

// Each buffer has one byte more than its file may have, so that a file over its limit is known by its length.
fn load_and_print<R: rt::Files + Print + Eprint>(rt: &R) -> Result<(), Unreadable> {
    let mut table = [0u8; RECORD_SIZE * MOST_RECORDS + 1];
    let mut roots = [0u8; ROOT_SIZE * MOST_ROOTS + 1];
    let mut order = [0u8; Order::CEILING + 1];
    let mut target = [0u8; Order::CEILING + 1];
    let sizes = load_all(rt, &mut table, &mut roots, &mut order, &mut target)?;
    let mut plan = [0u8; 2];
    let p = load_plan(rt, &mut plan)?;
    print_labelled(
        rt,
        &mut table[..sizes.table],
        &roots[..sizes.roots],
        &mut order[..sizes.order],
        &target[..sizes.target],
        &plan[..p],
    )
}

// All of the program. Where a file can't be read, standard error was told why, and nothing is printed.
pub fn bring_to_target<R: rt::Files + Print + Eprint>(rt: &R) {
    let _ = load_and_print(rt);
}
