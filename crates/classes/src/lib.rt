// The class of each record: the first record with its variable, low and high. No hash is asked, so that every table of as many records takes the same time: the
// records are told apart by the leading bits of their keys in one pass, and by one bit more in each of the next.
#![tactic(auto)]

ghost use Rattle.std.specs.Prelude.{ℕ, ◌≡◌, ◌+◌, ◌*◌, ◌/◌, ◌^◌, ◌<◌, ◌≤◌, length, get_or};
ghost use Rattle.diagrams.specs.Layout.{most_records, records, InTable};
ghost use Rattle.classes.specs.Classes.{Classes};
ghost use Rattle.classes.specs.Pass.{slots, come, Entered};
ghost use Rattle.classes.specs.Keys.{rest, key_at, part, bit_at};

use diagrams::{MOST_RECORDS, RecordNumber};

// Two slots for each record. With a class for each record they take 49,152 bytes.
const SLOTS: usize = 2 * MOST_RECORDS;

// A key has 40 bits: the first pass goes by the 13 that lead, for which there are slots, each of the others by one of these.
const REST: usize = 27;

// Bit k of the key of record i: one field is read, and no more.
fn bit(table: &[u8], i: RecordNumber, k: usize) -> usize
    requires { InTable table.now i.0 × (k < rest) }
    ensures { (result ≡ bit_at table.now k i.0) × (result < 2) }
{
    if k < 8 {
        return (i.variable(table).0 >> k) % 2;
    }
    if k < 24 {
        return (i.low(table).0 >> (k - 8)) % 2;
    }
    (i.high(table).0 >> (k - 24)) % 2
}

// What stands in a slot once record i has come to it: what stood there, or i plus 1 where nothing did.
fn first_come(s: u16, i: usize) -> u16
    requires { i < 65535 }
    ensures { (result ≡ come s i) × (1 ≤ result) }
{
    if s == 0 { (i + 1) as u16 } else { s }
}

// Record i goes to slot x: its class is the record that came there first.
fn enter(class: &mut [u16], slot: &mut [u16], i: usize, x: usize)
    requires { ((i < length class.old) × (i < 65535)) × (x < length slot.old) }
    ensures { Entered class.old slot.old i x class.new slot.new }
{
    let first = first_come(slot[x], i);
    slot[x] = first;
    class[i] = first - 1;
}

// Each record goes to the slot that `place` tells of it and of its class so far.
fn pass<F: Fn(usize, usize) -> usize>(class: &mut [u16], place: F)
    requires few { length class.old ≤ most_records }
    requires may { (i : ℕ) → i < length class.old → F.pre place i (get_or class.old i 0) }
    requires within { (i x : ℕ) → i < length class.old → F.post place i (get_or class.old i 0) x → x < slots }
    ensures { (at : ℕ → ℕ) → ((i x : ℕ) → i < length class.old → F.post place i (get_or class.old i 0) x → x ≡ at i)
        → Classes at (length class.old) class.new }
{
    let mut slot = [0u16; SLOTS];
    for i in 0..class.len() {
        let x = place(i, usize::from(class[i]));
        enter(class, &mut slot, i, x);
    }
}

// The slot of record i by its leading bits.
#[tactic(auto, unfolding(crate::specs::Keys::part))]
fn lead(table: &[u8], i: usize) -> usize
    requires { InTable table.now i }
    ensures { (result ≡ part table.now rest i) × (result < slots) }
{
    let i = RecordNumber(i);
    (i.variable(table).0 + 256 * (i.low(table).0 + 65536 * i.high(table).0)) >> REST
}

// The slot of record i by its class so far and its bit k.
fn split(table: &[u8], i: usize, so_far: usize, k: usize) -> usize
    requires { (InTable table.now i × (so_far < most_records)) × (k < rest) }
    ensures { (result ≡ 2 * so_far + bit_at table.now k i) × (result < slots) }
{
    2 * so_far + bit(table, RecordNumber(i), k)
}

// The classes where there is a place for each record and no more.
fn tell_apart(table: &[u8], class: &mut [u16])
    requires { (records table.now ≤ most_records) × (length class.old ≡ records table.now) }
    ensures { Classes (key_at table.now) (records table.now) class.new }
{
    pass(class, |i, _| lead(table, i));
    for k in (0..REST).rev() {
        pass(class, |i, so_far| split(table, i, so_far, k));
    }
}

// The classes of all records, in the first places of as many as there may be.
pub fn classes(table: &[u8], class: &mut [u16])
    requires { (records table.now ≤ most_records) × (records table.now ≤ length class.old) }
    ensures { Classes (key_at table.now) (records table.now) class.new }
{
    tell_apart(table, &mut class[..diagrams::count_records(table)]);
}
