// Check 5: the first record with a child that is not strictly below it in the order.
#![tactic(auto)]

ghost use Rattle.std.specs.Prelude.{◌≡◌, ◌≤◌, length};
ghost use Rattle.lists.specs.Found.{found};
ghost use Rattle.diagrams.specs.Layout.{records, InTable};
ghost use Rattle.orders.specs.Permutation.{ceiling, Permutation, level_of};
ghost use Rattle.orders.specs.Order.{level_in};
ghost use Rattle.check_levels.specs.Levels.{not_under, not_below};

use diagrams::{RecordNumber, Reference, Variable};
use orders::{Order, level_in};

// The level of each of the n variables of an order. It is lent: by value it would be copied at each call.
#[derive(Drop)]
struct Levels {
    levels: [u8; Order::CEILING],
    n: usize,
    ghost few: { n ≤ ceiling },
}

impl Levels {
    // Of an order as it is stored.
    fn load(order: &[u8]) -> Levels
        requires { (length order.now ≤ ceiling) × Permutation order.now }
        ensures { level_in result.levels result.n ≡ level_of order.now }
    {
        let levels = Order::load(order).levels;
        Levels {
            levels,
            n: order.len(),
        }
    }

    // n where v is none of the variables.
    fn level_of(&self, v: Variable) -> usize
        ensures { result ≡ level_in self.now.levels self.now.n v.0 }
    {
        level_in(&self.levels, self.n, v)
    }

    // Does x name a record that is not below `level`?
    #[tactic(auto, unfolding(crate::specs::Levels::not_under), using(diagrams::specs::References::naming))]
    fn is_not_under(&self, table: &[u8], level: usize, x: Reference) -> bool
        ensures { result ≡ not_under table.now (level_in self.now.levels self.now.n) level x.0 }
    {
        x.names_record(table) && self.level_of(x.record().variable(table)) <= level
    }

    #[tactic(auto, unfolding(crate::specs::Levels::not_below))]
    fn is_not_below(&self, table: &[u8], i: RecordNumber) -> bool
        requires { InTable table.now i.0 }
        ensures { result ≡ not_below table.now (level_in self.now.levels self.now.n) i.0 }
    {
        let level = self.level_of(i.variable(table));
        i.is_used(table)
            && (self.is_not_under(table, level, i.low(table))
                || self.is_not_under(table, level, i.high(table)))
    }
}

pub fn first_not_below(table: &[u8], order: &[u8]) -> Option<usize>
    requires { (length order.now ≤ ceiling) × Permutation order.now }
    ensures { result ≡ found (not_below table.now (level_of order.now)) (records table.now) }
{
    let levels = Levels::load(order);
    (0..diagrams::count_records(table)).find(|&i| levels.is_not_below(table, RecordNumber(i)))
}
