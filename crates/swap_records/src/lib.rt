// What a record is to this swap of the levels of x and y.
#![tactic(auto)]

ghost use Rattle.std.specs.Prelude.{◌≡◌, false, ◌<◌};
ghost use Rattle.diagrams.specs.Layout.{is_free, InTable};
ghost use Rattle.diagrams.specs.Node.{ref};
ghost use Rattle.diagrams.specs.Lookup.{lookup};
ghost use Rattle.swap_rules.specs.Record.{is_of};
ghost use Rattle.swap_rules.specs.Swap.{grandchild, crosses};
ghost use Rattle.swap_records.specs.Kinds.{child_at};
ghost use Rattle.swap_records.specs.Sides.{is_high};
ghost use Rattle.swap_records.specs.Grands.{Grands};

use diagrams::{RecordNumber, Reference, Variable};

pub mod children;
pub mod collect;
pub mod fixed_list;

// The variables of the two levels that change places: x is the upper one, y the lower.
#[derive(Clone, Copy)]
pub struct Pair {
    pub x: Variable,
    pub y: Variable,
}

// Is record i a used record of v?
pub fn is_record_of(table: &[u8], v: Variable, i: RecordNumber) -> bool
    requires { InTable table.now i.0 }
    ensures { result ≡ is_of v.0 (lookup table.now (ref i.0)) }
{
    i.is_used(table) & (i.variable(table) == v)
}

// Does x name a used record of v?
fn names_record_of(table: &[u8], v: Variable, x: Reference) -> bool
    ensures { result ≡ is_of v.0 (lookup table.now x.0) }
{
    x.names_record(table) && is_record_of(table, v, x.record())
}

fn is_crossing(table: &[u8], pair: Pair, i: RecordNumber) -> bool
    requires { InTable table.now i.0 }
    ensures { result ≡ crosses (lookup table.now) pair.x.0 pair.y.0 (ref i.0) }
{
    let y = pair.y;
    let low = i.low(table);
    let high = i.high(table);
    is_record_of(table, pair.x, i)
        & (names_record_of(table, y, low) | names_record_of(table, y, high))
}

// Which of a record's two children.
#[derive(Clone, Copy)]
enum Side {
    Low,
    High,
}

// The child of record i on a side.
fn child(table: &[u8], i: RecordNumber, side: Side) -> Reference
    requires { InTable table.now i.0 }
    ensures { (result.0 ≡ child_at table.now i.0 (is_high side)) × (result.0 < 65536) }
{
    match side {
        Side::Low => i.low(table),
        Side::High => i.high(table),
    }
}

// The grandchild through the child c, likewise.
fn grandchild(table: &[u8], y: Variable, side: Side, c: Reference) -> Reference
    requires { c.0 < 65536 }
    ensures { (result.0 ≡ grandchild (lookup table.now) y.0 (is_high side) c.0) × (result.0 < 65536) }
{
    if names_record_of(table, y, c) {
        return child(table, c.record(), side);
    }
    c
}

// The four grandchildren of a crossing record, first digit by x, second by y.
#[derive(Clone, Copy)]
pub struct Grandchildren {
    pub f00: Reference,
    pub f01: Reference,
    pub f10: Reference,
    pub f11: Reference,
}

pub fn four(table: &[u8], y: Variable, i: RecordNumber) -> Grandchildren
    requires { InTable table.now i.0 × (is_free table.now i.0 ≡ false) }
    ensures { Grands table.now y.0 i.0 result }
{
    let low = i.low(table);
    let high = i.high(table);
    Grandchildren {
        f00: grandchild(table, y, Side::Low, low),
        f01: grandchild(table, y, Side::High, low),
        f10: grandchild(table, y, Side::Low, high),
        f11: grandchild(table, y, Side::High, high),
    }
}
