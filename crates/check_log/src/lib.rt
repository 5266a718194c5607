// Checks 14 and 15: is a lent undo log one that a swap or a cut leaves, and is it sealed?
#![tactic(auto)]

ghost use Rattle.std.specs.Prelude.{◌≡◌, ◌+◌, ◌*◌, ◌≤◌, length};
ghost use Rattle.lists.specs.Found.{found};
ghost use Rattle.checks.specs.Stages.{verdict_of};
ghost use Rattle.undo.specs.Log.{entry_size, is_sealed, counted};
ghost use Rattle.check_log.specs.BadLog.{bad_log_size, some_byte, bad_seal, malformed, past, bad_entry, log_stages, open_stages};
ghost use Rattle.check_log.specs.Slots.{misplaced, slot_at, Sized, Placeable};

use checks::{Fault, Refusal};
use diagrams::MOST_RECORDS;
use orders::Order;
use pen::{ENTRY_SIZE, Kind, MOST_LOG_RECORDS, SEAL_MARK};

// A slot for each record that an entry may be of, and one for each pair.
const SLOTS: usize = MOST_RECORDS + Order::CEILING;

// ---- the length and the seal

#[tactic(auto, unfolding(crate::specs::BadLog::bad_log_size))]
fn bad_size(log: &[u8]) -> bool
    ensures { result ≡ bad_log_size log.now }
{
    log.len() % ENTRY_SIZE != 0
        || log.len() < ENTRY_SIZE
        || ENTRY_SIZE * MOST_LOG_RECORDS < log.len()
}

pub fn is_sealed(log: &[u8]) -> bool
    requires { entry_size ≤ length log.now }
    ensures { result ≡ is_sealed log.now }
{
    log[log.len() - ENTRY_SIZE] == SEAL_MARK
}

// Is one of the n bytes from `at` on another than zero?
fn some_byte(log: &[u8], at: usize, n: usize) -> bool
    requires { at + n ≤ length log.now }
    ensures { result ≡ some_byte log.now at n }
{
    log[at..at + n].iter().any(|&byte| byte != 0)
}

#[tactic(auto, unfolding(crate::specs::BadLog::bad_seal))]
fn bad_seal(log: &[u8]) -> bool
    requires { entry_size ≤ length log.now }
    ensures { result ≡ bad_seal log.now }
{
    let at = log.len() - ENTRY_SIZE;
    if is_sealed(log) {
        let held = log.len() / ENTRY_SIZE - 1;
        log[at + 1] != 0 || some_byte(log, at + 4, 12) || held < diagrams::pair(log, at + 2)
    } else {
        log[at] != 0
    }
}

// ---- the entries

#[tactic(auto, unfolding(crate::specs::BadLog::malformed))]
fn is_malformed(log: &[u8], k: usize) -> bool
    requires { entry_size * k + entry_size ≤ length log.now }
    ensures { result ≡ malformed log.now k }
{
    let at = ENTRY_SIZE * k;
    log[at] != 0
        || (Kind::Pair as u8) < log[at + 1]
        || some_byte(log, at + 12, 4)
        || log[at + 1] == Kind::Pair as u8 && some_byte(log, at + 6, 6)
}

#[tactic(auto, unfolding(crate::specs::BadLog::past))]
fn is_past(log: &[u8], records: usize, levels: usize, k: usize) -> bool
    requires { (entry_size * k + entry_size ≤ length log.now) × (1 ≤ levels) }
    ensures { result ≡ past log.now records levels k }
{
    let at = ENTRY_SIZE * k;
    let number = diagrams::pair(log, at + 2);
    if log[at + 1] == Kind::Record as u8 {
        records <= number
    } else {
        levels - 1 <= number
    }
}

#[tactic(auto, unfolding(crate::specs::Slots::misplaced))]
fn is_misplaced(log: &[u8], records: usize, levels: usize, k: usize) -> bool
    requires { (entry_size * k + entry_size ≤ length log.now) × (1 ≤ levels) }
    ensures { result ≡ misplaced log.now records levels k }
{
    is_malformed(log, k) || is_past(log, records, levels, k)
}

// What an entry is of: a record's slot is its number, a pair's its level behind the records.
#[tactic(auto, unfolding(crate::specs::Slots::slot_at))]
fn slot(log: &[u8], records: usize, k: usize) -> usize
    requires { (entry_size * k + entry_size ≤ length log.now) × (records ≤ 65536) }
    ensures { result ≡ slot_at log.now records k }
{
    let at = ENTRY_SIZE * k;
    let number = diagrams::pair(log, at + 2);
    if log[at + 1] == Kind::Record as u8 {
        number
    } else {
        records + number
    }
}

// How many entries a recovery would put back.
pub fn count_entries(log: &[u8]) -> usize
    requires { entry_size ≤ length log.now }
    ensures { result ≡ counted log.now }
{
    if is_sealed(log) {
        diagrams::pair(log, log.len() - ENTRY_SIZE + 2)
    } else {
        0
    }
}

// Each entry marks its slot, so that no entry is compared with all before it.
fn first_bad_entry(log: &[u8], records: usize, levels: usize) -> Option<usize>
    requires { Sized log.now × Placeable records levels }
    ensures { result ≡ found (bad_entry log.now records levels) (counted log.now) }
{
    let mut marked = [false; SLOTS];
    for k in 0..count_entries(log) {
        if is_misplaced(log, records, levels, k) {
            return Some(k);
        }
        let at = slot(log, records, k);
        if marked[at] {
            return Some(k);
        }
        marked[at] = true;
    }
    None
}

// ---- 14 and 15

// 14, for a table of so many records and an order of so many levels.
pub fn verdict_of_log(log: &[u8], records: usize, levels: usize) -> Result<(), Refusal>
    requires { Placeable records levels }
    ensures { result ≡ verdict_of (log_stages log.now records levels) }
{
    Fault::BadLog.refuse_if(bad_size(log), 0)?;
    Fault::BadLog.refuse_if(bad_seal(log), log.len() / ENTRY_SIZE - 1)?;
    Fault::BadLog.refuse_at(first_bad_entry(log, records, levels))
}

// 14, and then 15.
pub fn verdict_of_open_log(log: &[u8], records: usize, levels: usize) -> Result<(), Refusal>
    requires { Placeable records levels }
    ensures { result ≡ verdict_of (open_stages log.now records levels) }
{
    verdict_of_log(log, records, levels)?;
    Fault::SealedLog.refuse_if(is_sealed(log), 0)
}
