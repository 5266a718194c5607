// The writing part of a swap: it knows nothing of diagrams. It makes a lent table an image, exchanges two order bytes, and keeps the undo log.
#![tactic(auto)]

ghost use Rattle.std.specs.Prelude.{◌≡◌, [], ◌∷◌, ◌+◌, ◌≤◌, ◌<◌, length, get_or};
ghost use Rattle.lists.specs.Each.{each};
ghost use Rattle.diagrams.specs.Layout.{InTable};
ghost use Rattle.undo.specs.Stores.{poke, run};
ghost use Rattle.undo.specs.Wrote.{Wrote};
ghost use Rattle.undo.specs.Log.{entry_size, seal_at, packed, record_entry, pair_entry, seal_bytes, changed, changes, entries_needed};
ghost use Rattle.undo.specs.Sealed.{seal_pokes};
ghost use Rattle.commits.specs.Steps.{entry, AllLogged, log_pokes, record_pokes, Loggable, Writable, Committed};

use diagrams::RECORD_SIZE;
use pen::{ENTRY_SIZE, Kind, Pen, SEAL_MARK};

// ---- the bytes of the log

// The sixteen bytes of an entry.
fn pack(kind: Kind, number: usize, bytes: [u8; 8]) -> [u8; ENTRY_SIZE]
    requires { number < 65536 }
    ensures { result ≡ packed (entry kind number bytes) }
{
    let mut entry = [0; ENTRY_SIZE];
    entry[1] = kind as u8;
    entry[2..4].copy_from_slice(&diagrams::two_bytes(number));
    entry[4..12].copy_from_slice(&bytes);
    entry
}

fn record_entry(table: &[u8], i: usize) -> [u8; ENTRY_SIZE]
    requires { InTable table.now i × (i < 65536) }
    ensures { result ≡ packed (record_entry table.now i) }
{
    pack(Kind::Record, i, pen::eight(table, RECORD_SIZE * i))
}

fn pair_entry(order: &[u8], level: usize) -> [u8; ENTRY_SIZE]
    requires { (level + 1 < length order.now) × (level < 65536) }
    ensures { result ≡ packed (pair_entry order.now level) }
{
    pack(
        Kind::Pair,
        level,
        [order[level], order[level + 1], 0, 0, 0, 0, 0, 0],
    )
}

// All of the seal but its byte 0.
fn seal_bytes(entries: usize) -> [u8; ENTRY_SIZE - 1]
    requires { entries < 65536 }
    ensures { result ≡ seal_bytes entries }
{
    let mut bytes = [0; ENTRY_SIZE - 1];
    bytes[1..3].copy_from_slice(&diagrams::two_bytes(entries));
    bytes
}

// ---- what changes

// Has record i another byte in the image?
fn is_changed(table: &[u8], image: &[u8], i: usize) -> bool
    requires { InTable table.now i × InTable image.now i }
    ensures { result ≡ changed table.now image.now i }
{
    let at = RECORD_SIZE * i;
    pen::eight(table, at) != pen::eight(image, at)
}

// How many entries a swap needs that makes the table this image.
pub fn entries_needed(table: &[u8], image: &[u8]) -> usize
    requires { length table.now ≤ length image.now }
    ensures { result ≡ entries_needed table.now image.now }
{
    let mut entries = 0;
    for i in 0..diagrams::count_records(table) {
        // Adds without a branch, unlike filter and count: swap_ways asks this of every swap.
        entries += usize::from(is_changed(table, image, i));
    }
    entries + 1
}

// ---- the log

// The entries of all records that change; how many.
fn log_records(table: &[u8], image: &[u8], log: &mut [u8], pen: &mut Pen) -> usize
    requires { Loggable table.now image.now log.old }
    ensures { AllLogged table.now image.now pen.old.fuel log.old log.new result pen.new.fuel }
{
    let mut entries = 0;
    for i in 0..diagrams::count_records(table) {
        if is_changed(table, image, i) {
            pen.write(log, ENTRY_SIZE * entries, &record_entry(table, i));
            entries += 1;
        }
    }
    entries
}

// Its other bytes first, then byte 0.
fn seal(log: &mut [u8], entries: usize, pen: &mut Pen)
    requires { (entry_size ≤ length log.old) × (entries < 65536) }
    ensures { Wrote pen.old.fuel (seal_pokes log.old entries) log.old log.new pen.new.fuel }
{
    let at = log.len() - ENTRY_SIZE;
    pen.write(log, at + 1, &seal_bytes(entries));
    pen.store(log, at, SEAL_MARK);
}

pub fn clear_seal(log: &mut [u8], pen: &mut Pen)
    requires { entry_size ≤ length log.old }
    ensures { Wrote pen.old.fuel (poke (seal_at log.old) 0 ∷ []) log.old log.new pen.new.fuel }
{
    let at = log.len() - ENTRY_SIZE;
    pen.store(log, at, 0);
}

// The whole log of a swap, and its seal.
fn log_all(table: &[u8], image: &[u8], order: &[u8], level: usize, log: &mut [u8], pen: &mut Pen)
    requires { Writable table.now image.now order.now log.old level }
    ensures { Wrote pen.old.fuel (log_pokes table.now image.now order.now log.old level)
        log.old log.new pen.new.fuel }
{
    let entries = log_records(table, image, log, pen);
    pen.write(log, ENTRY_SIZE * entries, &pair_entry(order, level));
    seal(log, entries + 1, pen);
}

// ---- the table and the order

fn put_records(table: &mut [u8], image: &[u8], pen: &mut Pen)
    requires { length table.old ≤ length image.now }
    ensures { Wrote pen.old.fuel (each (record_pokes image.now) (changes table.old image.now))
        table.old table.new pen.new.fuel }
{
    for i in 0..diagrams::count_records(table) {
        if is_changed(table, image, i) {
            let at = RECORD_SIZE * i;
            pen.write(table, at, &pen::eight(image, at));
        }
    }
}

fn put_pair(order: &mut [u8], level: usize, pen: &mut Pen)
    requires { level + 1 < length order.old }
    ensures { Wrote pen.old.fuel (run level (get_or order.old (level + 1) 0 ∷ get_or order.old level 0 ∷ []))
        order.old order.new pen.new.fuel }
{
    let exchanged = [order[level + 1], order[level]];
    pen.write(order, level, &exchanged);
}

// ---- a swap

// The log, the table, the order, and the seal cleared: as many of these stores, in this order, as the pen has fuel for.
pub fn commit(
    table: &mut [u8],
    image: &[u8],
    order: &mut [u8],
    level: usize,
    log: &mut [u8],
    pen: &mut Pen,
)
    requires { Writable table.old image.now order.old log.old level }
    ensures { Committed table.old order.old log.old image.now level pen.old.fuel
        table.new order.new log.new pen.new.fuel }
{
    log_all(table, image, order, level, log, pen);
    put_records(table, image, pen);
    put_pair(order, level, pen);
    clear_seal(log, pen);
}
