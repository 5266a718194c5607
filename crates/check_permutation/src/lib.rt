// Checks 2 and 3: is an order, or a target, a permutation of its variables?
#![tactic(auto)]

ghost use Rattle.std.specs.Prelude.{◌≡◌, ◌<◌, length};
ghost use Rattle.lists.specs.Found.{found};
ghost use Rattle.check_permutation.specs.BadPlace.{bad_place};

// Is position k out of range, or does it repeat an earlier one?
#[tactic(auto, unfolding(crate::specs::BadPlace::bad_place), using(crate::proofs::Laws::repeats))]
fn bad_place(order: &[u8], k: usize) -> bool
    requires { k < length order.now }
    ensures { result ≡ bad_place order.now k }
{
    let v = order[k];
    order.len() <= usize::from(v) || order[..k].contains(&v)
}

// The first position out of range or repeating an earlier one.
pub fn first_bad_place(order: &[u8]) -> Option<usize>
    ensures { result ≡ found (bad_place order.now) (length order.now) }
{
    (0..order.len()).find(|&k| bad_place(order, k))
}
