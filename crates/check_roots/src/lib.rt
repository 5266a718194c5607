// Check 8: the first root that is past the table or to a free record.
#![tactic(auto)]

ghost use Rattle.std.specs.Prelude.{◌≡◌};
ghost use Rattle.lists.specs.Found.{found};
ghost use Rattle.diagrams.specs.Layout.{root_count};
ghost use Rattle.check_roots.specs.Roots.{dead_root};

pub fn first_dead_root(table: &[u8], roots: &[u8]) -> Option<usize>
    ensures { result ≡ found (dead_root table.now roots.now) (root_count roots.now) }
{
    (0..diagrams::count_roots(roots)).find(|&k| diagrams::root(roots, k).is_dead(table))
}
