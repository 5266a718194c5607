// The reckoning of one swap: what its crossing records ask for, and where each asked for is found.
#![tactic(auto)]

ghost use Rattle.std.specs.Prelude.{◌≡◌, ◌≤◌, length};
ghost use Rattle.diagrams.specs.Layout.{most_records, records};
ghost use Rattle.check_sizes.specs.Sizes.{TableSizes};
ghost use Rattle.swap_records.specs.Listed.{FreeListed};
ghost use Rattle.swap_reckoning.specs.Work.{no_work, with_turns, AllSlots};
ghost use Rattle.swap_reckoning.specs.Reckoned.{Ready, Sorted, Reckoned};

use news::{Kept, News, Sources};
use swap_names::dying;
use swap_records::children::Children;
use swap_records::collect::Numbers;
use swap_records::{Pair, collect};

pub mod news;

// How many records a swap makes, how many are free before it, and how many slots are listed for new ones.
#[derive(Clone, Copy)]
pub struct Counts {
    pub needed: usize,
    pub free: usize,
    pub slots: usize,
}

// The lists of one swap.
#[derive(Drop)]
pub struct Work {
    // The x records, those that cross and those that stand.
    pub crossing: Numbers,
    pub standing: Numbers,
    // Where new records go.
    pub slots: Numbers,
    // The new records, and what each crossing record becomes.
    pub news: News,
    pub kept: Kept,
}

impl Work {
    pub fn new() -> Work
        ensures { result ≡ no_work }
    {
        let none = Children { low: 0, high: 0 };
        Work {
            crossing: Numbers::new(0),
            standing: Numbers::new(0),
            slots: Numbers::new(0),
            news: News::new(none),
            kept: Kept::new(none),
        }
    }

    // The records of each kind. The free ones are the first slots.
    pub fn sort_records(&mut self, table: &[u8], pair: Pair)
        requires { records table.now ≤ most_records }
        ensures { Sorted table.now pair self.new × FreeListed table.now self.new.slots }
    {
        collect::collect_x(table, pair, &mut self.crossing, &mut self.standing);
        collect::collect_free(table, &mut self.slots);
        self.news.clear();
        self.kept.clear();
    }

    // What dies goes after the free records: all the slots there are.
    pub fn add_dying(&mut self, table: &[u8], roots: &[u8], pair: Pair)
        requires { TableSizes table.now roots.now × FreeListed table.now self.old.slots }
        ensures { AllSlots table.now roots.now pair self.old self.new }
    {
        dying::add_dying(table, roots, pair, &mut self.slots);
    }

    // Fills the lists of new records, and of what each crossing record becomes.
    pub fn reckon(&mut self, table: &[u8], pair: Pair)
        requires { Ready table.now pair self.old.crossing self.old.standing self.old.slots }
        ensures { Reckoned table.now pair self.new × (self.new ≡ with_turns self.old self.new.news self.new.kept) }
    {
        let sources = Sources {
            table,
            pair,
            standing: self.standing.as_slice(),
            slots: self.slots.as_slice(),
        };
        sources.take_turns(self.crossing.as_slice(), &mut self.news, &mut self.kept);
    }

    // After the reckoning, where so many records are free.
    pub fn counts(&self, free: usize) -> Counts
        ensures { (result.needed ≡ length self.now.news) × (result.free ≡ free) × (result.slots ≡ length self.now.slots) }
    {
        Counts {
            needed: self.news.len(),
            free,
            slots: self.slots.len(),
        }
    }
}
