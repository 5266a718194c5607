// Orders on their way to a target: where the two differ, how many inversions are left, and which levels a plan swaps next.
#![tactic(auto)]

ghost use Rattle.std.specs.Prelude.{◌≡◌, ◌+◌, ◌*◌, ◌<◌, ◌≤◌, get_or};
ghost use Rattle.lists.specs.Found.{found};
ghost use Rattle.lists.specs.Count.{count};
ghost use Rattle.orders.specs.Permutation.{ceiling, level_of};
ghost use Rattle.orders.specs.Arranged.{bytes_of, Arranged};
ghost use Rattle.plans.specs.FoundLast.{found_last};
ghost use Rattle.plans.specs.Course.{from, to};
ghost use Rattle.plans.specs.Inversions.{above, inverted, left};
ghost use Rattle.plans.specs.Plans.{differs_at, same?, next_level};
ghost use Rattle.plans.specs.BringUp.{bring_up};
ghost use Rattle.plans.specs.SinkDown.{sink_down};
ghost use Rattle.plans.specs.Nearest.{inverted_at, lowest_inversion, highest_inversion};
ghost use Rattle.plans.specs.Numbered.{plan_of, meant, Numbers};

mod course;

pub use course::Course;
use diagrams::Variable;
use orders::Order;

// ---- the plans, by number

#[derive(Clone, Copy, PartialEq, Eq)]
pub enum Plan {
    BringUp,
    SinkDown,
    LowestInversion,
    HighestInversion,
}

// A number that no plan has.
#[derive(Clone, Copy, PartialEq, Eq)]
pub struct NoPlan(pub usize);

impl TryFrom<usize> for Plan {
    type Error = NoPlan;

    ghost try_from_gives = { Numbers };

    #[tactic(auto, unfolding(crate::specs::Numbered::meant, crate::specs::Numbered::no_plan))]
    fn try_from(number: usize) -> Result<Plan, NoPlan> {
        match number {
            0 => Ok(Plan::BringUp),
            1 => Ok(Plan::SinkDown),
            2 => Ok(Plan::LowestInversion),
            3 => Ok(Plan::HighestInversion),
            _ => Err(NoPlan(number)),
        }
    }
}

// The plan with this number; past the last one any, since such a run is refused.
#[tactic(auto, using(crate::proofs::NumberedLaws::plan_past), unfolding(crate::specs::Numbered::meant))]
pub fn numbered(number: usize) -> Plan
    ensures { meant result ≡ plan_of number }
{
    match Plan::try_from(number) {
        Ok(plan) => plan,
        Err(_) => Plan::HighestInversion,
    }
}

// ---- order and target

// Does order equal target, both of n variables?
#[tactic(auto, using(crate::proofs::Laws::same_returns))]
pub fn same(order: Order, target: Order, n: usize) -> bool
    requires { n ≤ ceiling }
    ensures { result ≡ same? (bytes_of order n) (bytes_of target n) }
{
    order.variables[..n] == target.variables[..n]
}

// Does u stand above v?
#[tactic(auto, using(crate::proofs::Laws::above_returns))]
fn above(order: &Order, n: usize, u: Variable, v: Variable) -> bool
    requires { Arranged order.now n }
    ensures { result ≡ above (bytes_of order.now n) u.0 v.0 }
{
    order.level_of(n, u) < order.level_of(n, v)
}

impl Course {
    // ---- the plans: the upper one of the two levels to swap next; none where order equals target

    // By any plan.
    #[tactic(auto, using(crate::proofs::Laws::next_returns), unfolding(crate::specs::Numbered::meant, crate::specs::Numbered::plan_of))]
    pub fn next_level(&self, plan: Plan) -> Option<usize>
        ensures { result ≡ next_level (meant plan) (from self.now) (to self.now) }
    {
        match plan {
            Plan::BringUp => self.bring_up(),
            Plan::SinkDown => self.sink_down(),
            Plan::LowestInversion => self.lowest_inversion(),
            Plan::HighestInversion => self.highest_inversion(),
        }
    }

    // Bring Up: the target's variable of the first level that differs goes up one level.
    #[tactic(auto, using(crate::proofs::Laws::bringing))]
    fn bring_up(&self) -> Option<usize>
        ensures { result ≡ next_level bring_up (from self.now) (to self.now) }
    {
        let level = self.first_difference()?;
        Some(self.level_of_target(level) - 1)
    }

    // Sink Down: the target's variable of the last level that differs goes down one level.
    #[tactic(auto, using(crate::proofs::Laws::sinking))]
    fn sink_down(&self) -> Option<usize>
        ensures { result ≡ next_level sink_down (from self.now) (to self.now) }
    {
        let level = self.last_difference()?;
        Some(self.level_of_target(level))
    }

    // Lowest Inversion: the adjacent inverted pair nearest the bottom.
    fn lowest_inversion(&self) -> Option<usize>
        ensures { result ≡ next_level lowest_inversion (from self.now) (to self.now) }
    {
        let pairs = self.n.saturating_sub(1);
        (0..pairs).rev().find(|&level| self.inverted_at(level))
    }

    // Highest Inversion: the adjacent inverted pair nearest the top.
    fn highest_inversion(&self) -> Option<usize>
        ensures { result ≡ next_level highest_inversion (from self.now) (to self.now) }
    {
        let pairs = self.n.saturating_sub(1);
        (0..pairs).find(|&level| self.inverted_at(level))
    }

    // ---- where the two differ

    #[tactic(auto, using(crate::proofs::Laws::differs_returns))]
    fn differs_at(&self, level: usize) -> bool
        requires { level < self.now.n }
        ensures { result ≡ differs_at (from self.now) (to self.now) level }
    {
        self.order.variables[level] != self.target.variables[level]
    }

    // The first level, from the top, where order and target differ.
    fn first_difference(&self) -> Option<usize>
        ensures { result ≡ found (differs_at (from self.now) (to self.now)) self.now.n }
    {
        (0..self.n).find(|&level| self.differs_at(level))
    }

    // The last level, nearest the bottom, where order and target differ.
    fn last_difference(&self) -> Option<usize>
        ensures { result ≡ found_last (differs_at (from self.now) (to self.now)) self.now.n }
    {
        (0..self.n).rev().find(|&level| self.differs_at(level))
    }

    // Where the order has the target's variable of this level.
    #[tactic(auto, using(crate::proofs::Laws::level_returns))]
    fn level_of_target(&self, level: usize) -> usize
        requires { level < self.now.n }
        ensures { result ≡ level_of (from self.now) (get_or (to self.now) level 0) }
    {
        self.order.level_of(self.n, self.target.variable_at(level))
    }

    // ---- the inversions left

    // Does the relative order of u and v differ between order and target?
    #[tactic(auto, unfolding(crate::specs::Inversions::inverted))]
    fn inverted(&self, u: Variable, v: Variable) -> bool
        ensures { result ≡ inverted (from self.now) (to self.now) u.0 v.0 }
    {
        let (order, target, n) = (&self.order, &self.target, self.n);
        (above(order, n, u, v) & above(target, n, v, u))
            | (above(order, n, v, u) & above(target, n, u, v))
    }

    // With how many of the variables before it v is inverted.
    fn inverted_before(&self, v: Variable) -> usize
        ensures { (result ≡ count (λ u. inverted (from self.now) (to self.now) u v.0) v.0) × (result ≤ v.0) }
    {
        (0..v.0).filter(|&u| self.inverted(Variable(u), v)).count()
    }

    // How many inversions there are, each pair counted once.
    #[tactic(auto, using(crate::proofs::Laws::left_returns), unfolding(lists::specs::Total::total))]
    pub fn left(&self) -> usize
        ensures { (result ≡ left (from self.now) (to self.now)) × (result ≤ ceiling * ceiling) }
    {
        let mut sum = 0;
        for v in 0..self.n {
            sum += self.inverted_before(Variable(v));
        }
        sum
    }

    // Do this level and the one below it hold an inverted pair?
    #[tactic(auto, using(crate::proofs::Laws::inverted_at_returns))]
    fn inverted_at(&self, level: usize) -> bool
        requires { level + 1 < self.now.n }
        ensures { result ≡ inverted_at (from self.now) (to self.now) level }
    {
        let upper = self.order.variable_at(level);
        let lower = self.order.variable_at(level + 1);
        self.inverted(upper, lower)
    }
}
