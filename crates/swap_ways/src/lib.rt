// What stands in the way of a swap of two neighbouring levels, and the table after it in an image.
#![tactic(auto)]

ghost use Rattle.std.specs.Prelude.{◌≡◌, ◌+◌, ◌*◌, ◌<◌, length};
ghost use Rattle.diagrams.specs.Layout.{most_records, record_size, records};
ghost use Rattle.check_sizes.specs.Sizes.{TableSizes};
ghost use Rattle.undo.specs.Log.{entries_held};
ghost use Rattle.check_log.specs.BadLog.{LogSizes};
ghost use Rattle.swap_ways.specs.Ways.{log_way, way_of};
ghost use Rattle.swap_ways.specs.Reckoning.{PairAt, way_by, Reckoned};

use diagrams::{MOST_RECORDS, RECORD_SIZE, Variable};
use pen::ENTRY_SIZE;
use swap_reckoning::Counts;
use swap_records::Pair;

// What a swap without room tells: its upper level, the new records that it needs, and the free ones that there are.
#[derive(Clone, Copy, PartialEq, Eq)]
pub struct Lack {
    pub level: usize,
    pub needed: usize,
    pub free: usize,
}

// What a swap tells whose log is short: its upper level, the entries that it needs, and those that the log holds.
#[derive(Clone, Copy, PartialEq, Eq)]
pub struct Short {
    pub level: usize,
    pub needed: usize,
    pub held: usize,
}

// What stands in the way of a swap.
#[derive(Clone, Copy, PartialEq, Eq)]
pub enum Way {
    Clear,
    NoRoom(Lack),
    LogShort(Short),
}

// The variables of levels level and level + 1.
fn pair_at(order: &[u8], level: usize) -> Pair
    requires { level + 1 < length order.now }
    ensures { PairAt order.now level result }
{
    Pair {
        x: Variable(usize::from(order[level])),
        y: Variable(usize::from(order[level + 1])),
    }
}

// First room; where there is room, what is found of the log.
#[tactic(auto, unfolding(crate::specs::Reckoning::way_by))]
fn way_by(level: usize, counts: Counts, log: Way) -> Way
    ensures { result ≡ way_by level counts log }
{
    if counts.slots < counts.needed {
        Way::NoRoom(Lack {
            level,
            needed: counts.needed,
            free: counts.free,
        })
    } else {
        log
    }
}

// Does a log that holds so many entries hold those of a swap that has room?
fn log_by(level: usize, needed: usize, held: usize) -> Way
    ensures { result ≡ log_way level needed held }
{
    if held < needed {
        Way::LogShort(Short {
            level,
            needed,
            held,
        })
    } else {
        Way::Clear
    }
}

// How many entries a log holds besides its seal.
pub fn entries_held(log: &[u8]) -> usize
    requires { LogSizes log.now }
    ensures { result ≡ entries_held log.now }
{
    log.len() / ENTRY_SIZE - 1
}

// Room for the image of a table.
pub fn no_image() -> [u8; RECORD_SIZE * MOST_RECORDS]
    ensures { length result ≡ record_size * most_records }
{
    [0; RECORD_SIZE * MOST_RECORDS]
}

// What stands in the way of the swap, and the table after it in an image as long as the table.
pub fn reckon(
    table: &[u8],
    roots: &[u8],
    order: &[u8],
    level: usize,
    held: usize,
    image: &mut [u8],
) -> Way
    requires { (TableSizes table.now roots.now × (level + 1 < length order.now)) × (length image.old ≡ length table.now) }
    ensures { Reckoned table.now roots.now order.now held level result image.new }
{
    let pair = pair_at(order, level);
    let counts = swap_preparing::prepare(table, roots, pair, image);
    let log = log_by(level, commits::entries_needed(table, image), held);
    way_by(level, counts, log)
}

// The same of a log that holds an entry for every record: only room is asked for, and no image is filled.
fn ask_room(table: &[u8], roots: &[u8], order: &[u8], level: usize, held: usize) -> Way
    requires { (TableSizes table.now roots.now × (level + 1 < length order.now)) × (records table.now < held) }
    ensures { result ≡ way_of table.now roots.now order.now held level }
{
    let pair = pair_at(order, level);
    let counts = swap_preparing::prepare(table, roots, pair, &mut []);
    way_by(level, counts, Way::Clear)
}

// What stands in the way of the swap of levels level and level + 1, with a log that holds so many entries?
pub fn ask(table: &[u8], roots: &[u8], order: &[u8], level: usize, held: usize) -> Way
    requires { TableSizes table.now roots.now × (level + 1 < length order.now) }
    ensures { result ≡ way_of table.now roots.now order.now held level }
{
    let m = table.len();
    if m / RECORD_SIZE < held {
        return ask_room(table, roots, order, level, held);
    }
    let mut area = no_image();
    reckon(table, roots, order, level, held, &mut area[..m])
}
