// The static library for C and Rust: each entry, with its answer as a list of numbers. include/relay.h declares it.
#![tactic(auto)]

ghost use Rattle.undo.specs.Stores.{state};
ghost use Rattle.relay_numbers.specs.Written.{wrote};
ghost use Rattle.relay.specs.Told.{CheckTold, ReadTold, ShowTold, CountTold, LabelTold, SwapTold, RunTold, RecoverTold};

use diagrams::Variable;

#[tactic(auto, using(crate::proofs::Laws::check_fits))]
#[unsafe(no_mangle)]
pub extern "C" fn relay_check(table: &[u8], roots: &[u8], order: &[u8], answer: &mut [u32]) -> usize
    ensures { CheckTold table.now roots.now order.now answer.old (wrote result answer.new) }
{
    relay_numbers::tell_number(answer, checks::check(table, roots, order))
}

#[tactic(auto, using(crate::proofs::Laws::read_place_fits))]
#[unsafe(no_mangle)]
pub extern "C" fn relay_read(
    table: &[u8],
    roots: &[u8],
    order: &[u8],
    position: u32,
    inputs: &[u8],
    answer: &mut [u32],
) -> usize
    ensures { ReadTold table.now roots.now order.now position inputs.now
        answer.old (wrote result answer.new) }
{
    match reading::read(table, roots, order, position as usize, inputs) {
        Ok(value) => relay_numbers::write(answer, &[0, u32::from(value)]),
        Err(refusal) => relay_numbers::tell_refusal(answer, refusal),
    }
}

// Where the part that `showing::show` hands back begins, and its length.
#[tactic(auto, using(crate::proofs::Laws::part_fits))]
#[unsafe(no_mangle)]
pub extern "C" fn relay_show(
    table: &[u8],
    roots: &[u8],
    order: &[u8],
    position: u32,
    answer: &mut [u32],
) -> usize
    ensures { ShowTold table.now roots.now order.now position
        answer.old (wrote result answer.new) }
{
    let part = showing::shown_part(table, roots, order, position as usize);
    relay_parts::tell_part(answer, part)
}

// Which list `labels::label` hands back a part of, where that part begins, and its length.
#[tactic(auto, using(crate::proofs::Laws::place_fits))]
#[unsafe(no_mangle)]
pub extern "C" fn relay_label(
    site: &[u8],
    factory: &[u8],
    variable: u32,
    answer: &mut [u32],
) -> usize
    ensures { LabelTold site.now factory.now variable answer.old (wrote result answer.new) }
{
    let place = labels::label_place(site, factory, Variable(variable as usize));
    relay_parts::tell_place(answer, place)
}

// The count and its share each in a place of its own.
#[tactic(auto, using(crate::proofs::Laws::count_tells))]
#[unsafe(no_mangle)]
pub extern "C" fn relay_count(
    table: &[u8],
    roots: &[u8],
    order: &[u8],
    position: u32,
    counts: &mut [u64],
    shares: &mut [f64],
    answer: &mut [u32],
) -> usize
    ensures { CountTold table.now roots.now order.now position counts.old shares.old
        answer.old (wrote result answer.new) counts.new shares.new }
{
    if answer.len() < 2 || counts.is_empty() || shares.is_empty() {
        return 0;
    }
    match counting::count(table, roots, order, position as usize) {
        Ok(trips) => {
            counts[0] = trips.count;
            shares[0] = trips.share;
            relay_numbers::write(answer, &[0])
        }
        Err(refusal) => relay_numbers::tell_refusal(answer, refusal),
    }
}

#[tactic(auto, using(crate::proofs::Laws::swap_nothing))]
#[unsafe(no_mangle)]
pub extern "C" fn relay_swap(
    table: &mut [u8],
    roots: &[u8],
    order: &mut [u8],
    log: &mut [u8],
    level: u32,
    answer: &mut [u32],
) -> usize
    ensures { SwapTold (state table.old order.old log.old) roots.now level
        answer.old (wrote result answer.new) (state table.new order.new log.new) }
{
    if answer.len() < 4 {
        return 0;
    }
    let a = swaps::swap(table, roots, order, log, level as usize);
    relay_numbers::tell_swap(answer, a)
}

#[tactic(auto, using(crate::proofs::Laws::run_nothing))]
#[unsafe(no_mangle)]
pub extern "C" fn relay_run(
    table: &mut [u8],
    roots: &[u8],
    order: &mut [u8],
    target: &[u8],
    log: &mut [u8],
    plan: u32,
    budget: u32,
    answer: &mut [u32],
) -> usize
    ensures { RunTold (state table.old order.old log.old) roots.now target.now plan budget
        answer.old (wrote result answer.new) (state table.new order.new log.new) }
{
    if answer.len() < 6 {
        return 0;
    }
    let a = slices::run(table, roots, order, target, log, plan, budget);
    relay_numbers::tell_run(answer, a)
}

#[tactic(auto, using(crate::proofs::Laws::recover_nothing))]
#[unsafe(no_mangle)]
pub extern "C" fn relay_recover(
    table: &mut [u8],
    order: &mut [u8],
    log: &mut [u8],
    answer: &mut [u32],
) -> usize
    ensures { RecoverTold (state table.old order.old log.old)
        answer.old (wrote result answer.new) (state table.new order.new log.new) }
{
    if answer.len() < 2 {
        return 0;
    }
    let a = recovery::recover(table, order, log);
    relay_numbers::tell_number(answer, a)
}
