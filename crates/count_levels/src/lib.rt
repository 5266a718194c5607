// How many combinations of inputs make a reference 1, and their share: of every record, from the lowest level up.
#![tactic(auto)]

ghost use Rattle.std.specs.Prelude.{◌≡◌, ◌+◌, ◌/◌, ◌<◌, ◌≤◌, ◌^◌, length};
ghost use Rattle.std.specs.Float.{binary64};
ghost use Rattle.std.specs.Float.Ieee.{add, div};
ghost use Rattle.diagrams.specs.Layout.{most_records, records, low_at, high_at};
ghost use Rattle.diagrams.specs.Bryant.{Vertex};
ghost use Rattle.diagrams.specs.Lookup.{lookup};
ghost use Rattle.diagrams.specs.Node.{Constant};
ghost use Rattle.count_shares.specs.Share.{most_counted, share, two};
ghost use Rattle.count_levels.specs.Mean.{trips_by, Countable};
ghost use Rattle.count_levels.specs.Held.{no_trips, all_trips, held, Right, RightFrom, Settled};
ghost use Rattle.count_levels.specs.Held.{CountableRecord, CountableVariable};

use diagrams::{MOST_RECORDS, RecordNumber, Reference, Variable};

// How many combinations, and their share of all.
#[derive(Clone, Copy)]
pub struct Trips {
    pub count: u64,
    pub share: f64,
}

impl Trips {
    const NONE: Trips = Trips {
        count: 0,
        share: 0.0,
    };

    // All combinations of n inputs.
    fn all(n: usize) -> Trips
        requires { n ≤ most_counted }
        ensures { result ≡ all_trips n }
    {
        Trips {
            count: 1 << n,
            share: 1.0,
        }
    }

    // Counts and shares added and halved.
    fn mean(low: Trips, high: Trips) -> Trips
        requires { low.count + high.count < 2 ^ 64 }
        ensures count { result.count ≡ (low.count + high.count) / 2 }
        ensures share { result.share ≡ div binary64 (add binary64 low.share high.share) two }
    {
        Trips {
            count: (low.count + high.count) / 2,
            share: count_shares::mean(low.share, high.share),
        }
    }
}

// ---- the work area: a count and a share for each record

#[tactic(auto, unfolding(crate::specs::Held::held))]
fn held(trips: &[Trips; MOST_RECORDS], n: usize, x: Reference) -> Trips
    requires { (x.0 < most_records + 2) × (n ≤ most_counted) }
    ensures { result ≡ held n trips.now x.0 }
{
    match x.0 {
        0 => Trips::NONE,
        1 => Trips::all(n),
        at => trips[at - 2],
    }
}

// Those of record i: those of its low and its high reference added and halved.
fn mean_of(table: &[u8], order: &[u8], i: RecordNumber, trips: &[Trips; MOST_RECORDS]) -> Trips
    requires record { CountableRecord table.now order.now i.0 }
    requires low { Right table.now (length order.now) trips.now (low_at table.now i.0) }
    requires high { Right table.now (length order.now) trips.now (high_at table.now i.0) }
    ensures count { result.count ≡ trips_by table.now (length order.now) (i.0 + 2) }
    ensures share { result.share ≡ share (trips_by table.now (length order.now) (i.0 + 2)) (length order.now) }
{
    let n = order.len();
    let low = held(trips, n, i.low(table));
    let high = held(trips, n, i.high(table));
    Trips::mean(low, high)
}

// Record i, if its variable is v.
fn settle(
    table: &[u8],
    order: &[u8],
    v: Variable,
    i: RecordNumber,
    trips: &mut [Trips; MOST_RECORDS],
)
    requires variable { CountableVariable table.now order.now v.0 }
    requires settled { (i.0 < records table.now) × Settled table.now order.now v.0 i.0 trips.old }
    ensures { Settled table.now order.now v.0 (i.0 + 1) trips.new }
{
    let at = i.0;
    if i.variable(table) == v {
        trips[at] = mean_of(table, order, i, trips);
    }
}

// Every record at a level, where those below are right.
fn settle_level(table: &[u8], order: &[u8], level: usize, trips: &mut [Trips; MOST_RECORDS])
    requires level { Countable table.now order.now × (level < length order.now) }
    requires below { RightFrom table.now order.now (level + 1) trips.old }
    ensures { RightFrom table.now order.now level trips.new }
{
    let v = Variable(usize::from(order[level]));
    for i in 0..diagrams::count_records(table) {
        settle(table, order, v, RecordNumber(i), trips);
    }
}

// Every record, from the lowest level up.
fn settle_all(table: &[u8], order: &[u8], trips: &mut [Trips; MOST_RECORDS])
    requires { Countable table.now order.now }
    ensures { RightFrom table.now order.now 0 trips.new }
{
    for level in (0..order.len()).rev() {
        settle_level(table, order, level, trips);
    }
}

// ---- one reference

#[tactic(auto, using(crate::proofs::Laws::telling))]
pub fn trips_of(table: &[u8], order: &[u8], x: Reference) -> Trips
    requires { Countable table.now order.now × Vertex Constant (lookup table.now) x.0 }
    ensures count { result.count ≡ trips_by table.now (length order.now) x.0 }
    ensures share { result.share ≡ share (trips_by table.now (length order.now) x.0) (length order.now) }
{
    let mut trips = [Trips::NONE; MOST_RECORDS];
    settle_all(table, order, &mut trips);
    held(&trips, order.len(), x)
}
