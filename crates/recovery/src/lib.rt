// Recover: where supply was lost in a swap, the old bytes of the log are put back, first entry first, and the seal is cleared.
#![tactic(auto)]

ghost use Rattle.std.specs.Prelude.{◌≡◌, ◌+◌, ◌*◌, ◌≤◌, length};
ghost use Rattle.checks.specs.Stages.{verdict_of};
ghost use Rattle.undo.specs.Stores.{state};
ghost use Rattle.undo.specs.Wrote.{Spent};
ghost use Rattle.undo.specs.Log.{entry_size, entry_at, entry_stores};
ghost use Rattle.recovery.specs.Fits.{EntryFits, EntriesFit, LogFits, Restored, entries_put};
ghost use Rattle.recovery.specs.Recover.{recover_stages, RecoverStopped, RecoverOutcome};

use checks::{Fault, Refusal};
use diagrams::RECORD_SIZE;
use pen::{ENOUGH, ENTRY_SIZE, Kind, Pen};

// ---- the entries

// Entry k, to its place in the table or the order.
fn put_back(table: &mut [u8], order: &mut [u8], log: &[u8], k: usize, pen: &mut Pen)
    requires { (entry_size * k + entry_size ≤ length log.now) × EntryFits table.old order.old (entry_at log.now k) }
    ensures { Spent pen.old.fuel (entry_stores (entry_at log.now k)) (state table.old order.old log.now)
        (state table.new order.new log.now) pen.new.fuel }
{
    let at = ENTRY_SIZE * k;
    let number = diagrams::pair(log, at + 2);
    let old = pen::eight(log, at + 4);
    if log[at + 1] == Kind::Record as u8 {
        pen.write(table, RECORD_SIZE * number, &old);
    } else {
        pen.write(order, number, &old[..2]);
    }
}

// The first n of them.
fn put_all(table: &mut [u8], order: &mut [u8], log: &[u8], n: usize, pen: &mut Pen)
    requires { EntriesFit table.old order.old log.now n }
    ensures { Spent pen.old.fuel (entries_put log.now n) (state table.old order.old log.now)
        (state table.new order.new log.now) pen.new.fuel }
{
    for k in 0..n {
        put_back(table, order, log, k, pen);
    }
}

// All that a sealed log counts, and the seal cleared last. How many entries there were to put back.
fn put_logged(table: &mut [u8], order: &mut [u8], log: &mut [u8], pen: &mut Pen) -> usize
    requires { LogFits table.old order.old log.old }
    ensures { Restored pen.old.fuel (state table.old order.old log.old) result
        (state table.new order.new log.new) }
{
    let entries = check_log::count_entries(log);
    if check_log::is_sealed(log) {
        put_all(table, order, log, entries, pen);
        commits::clear_seal(log, pen);
    }
    entries
}

// ---- the entry of the library

fn verdict_of_recover(table: &[u8], order: &[u8], log: &[u8]) -> Result<(), Refusal>
    ensures { result ≡ verdict_of (recover_stages table.now order.now log.now) }
{
    Fault::BadSizes.refuse_if(check_sizes::bad_sizes(table, &[], order), 0)?;
    check_log::verdict_of_log(log, diagrams::count_records(table), order.len())
}

// Recover, cut after `fuel` stores: how many entries it puts back, or a refusal.
pub fn recover_cut(
    table: &mut [u8],
    order: &mut [u8],
    log: &mut [u8],
    fuel: usize,
) -> Result<usize, Refusal>
    ensures { RecoverStopped fuel (state table.old order.old log.old) result
        (state table.new order.new log.new) }
{
    verdict_of_recover(table, order, log)?;
    let mut pen = Pen { fuel };
    Ok(put_logged(table, order, log, &mut pen))
}

pub fn recover(table: &mut [u8], order: &mut [u8], log: &mut [u8]) -> Result<usize, Refusal>
    ensures { RecoverOutcome (state table.old order.old log.old) result
        (state table.new order.new log.new) }
{
    recover_cut(table, order, log, ENOUGH)
}
