// The new x records: which are asked for, in the order of first need, and the reference X(a, b) that each request settles on.
ghost use Rattle.std.specs.Prelude.{◌≡◌, ◌+◌, ◌<◌, [], length, get_or};
ghost use Rattle.lists.specs.Found.{found};
ghost use Rattle.diagrams.specs.Layout.{InTable};
ghost use Rattle.swap_records.specs.Listed.{CrossingListed, Inside};
ghost use Rattle.swap_reckoning.specs.Searching.{matches_at, new_at, slot_at, Searchable, Noted};
ghost use Rattle.swap_reckoning.specs.Reckoned.{Asks, Answered, Ready, Turn, Turns};

use diagrams::{MOST_RECORDS, RecordNumber, Reference};
use swap_records::children::Children;
use swap_records::fixed_list::FixedList;
use swap_records::{Pair, collect};

// Each crossing record asks for at most two new ones.
pub const MOST_NEWS: usize = 2 * MOST_RECORDS;

pub type News = FixedList<Children, MOST_NEWS>;

// What each crossing record becomes.
pub type Kept = FixedList<Children, MOST_RECORDS>;

// Which of the new records is the wanted one?
fn find_new(news: &[Children], wanted: Children) -> Option<usize>
    ensures { result ≡ found (new_at news.now wanted) (length news.now) }
{
    // The hottest loop of a swap: a `for` compiles to fewer steps here than `find`.
    for k in 0..news.len() {
        if wanted == news[k] {
            return Some(k);
        }
    }
    None
}

// What a swap reads while it is reckoned: the table, the records that stand, and the slots for new ones.
#[derive(Clone, Copy)]
pub struct Sources<'a> {
    pub table: &'a [u8],
    pub pair: Pair,
    pub standing: &'a [u16],
    pub slots: &'a [u16],
}

impl Sources<'_> {
    // Is entry k of the standing records the one with low a and high b?
    fn matches(self, k: usize, a: Reference, b: Reference) -> bool
        requires { (k < length self.standing.now) × InTable self.table.now (get_or self.standing.now k 0) }
        ensures { result ≡ matches_at self.entry.table.now self.entry.standing.now a.0 b.0 k }
    {
        let i = collect::entry(self.standing, k);
        (a == i.low(self.table)) & (b == i.high(self.table))
    }

    // Which of the standing records has low a and high b?
    fn find_standing(self, a: Reference, b: Reference) -> Option<usize>
        requires { Inside self.table.now self.standing.now }
        ensures { let s = self.entry in
            result ≡ found (matches_at s.table.now s.standing.now a.0 b.0) (length s.standing.now) }
    {
        (0..self.standing.len()).find(|&k| self.matches(k, a, b))
    }

    // The reference of the slot that new record j goes into. Past the last one there is no room, and nobody uses the number.
    fn slot(self, j: usize) -> Reference
        ensures { result.0 ≡ slot_at self.entry.slots.now j }
    {
        if j < self.slots.len() {
            return collect::entry(self.slots, j).reference();
        }
        RecordNumber(0).reference()
    }

    // X(a, b) is asked for: a itself, a standing record, one that is new already, or one more new one.
    fn note(self, news: &mut News, a: Reference, b: Reference) -> Reference
        requires { Searchable self.table.now self.standing.now self.slots.now news.old × ((a.0 < 65536) × (b.0 < 65536)) }
        ensures { let s = self.entry in
            Noted s.table.now s.standing.now s.slots.now news.old a.0 b.0 news.new result.0 }
    {
        if a == b {
            return a;
        }
        if let Some(k) = self.find_standing(a, b) {
            return collect::entry(self.standing, k).reference();
        }
        let wanted = Children::new(a, b);
        if let Some(j) = find_new(news.as_slice(), wanted) {
            return self.slot(j);
        }
        let end = news.len();
        news.push(wanted);
        self.slot(end)
    }

    // What the crossing record i becomes: it asks for low X(f00, f10), then for high X(f01, f11).
    fn note_both(self, news: &mut News, i: RecordNumber) -> Children
        requires { Asks self.table.now self.pair self.standing.now self.slots.now news.old i.0 }
        ensures { let s = self.entry in
            Answered s.table.now s.pair s.slots.now i.0 news.old news.new result }
    {
        let g = swap_records::four(self.table, self.pair.y, i);
        let low = self.note(news, g.f00, g.f10);
        let high = self.note(news, g.f01, g.f11);
        Children::new(low, high)
    }

    // It is the turn of crossing record k; what it becomes is kept.
    fn take_turn(self, crossing: &[u16], k: usize, news: &mut News, kept: &mut Kept)
        requires { Turn self.table.now self.pair crossing.now self.standing.now self.slots.now news.old kept.old k }
        ensures { let s = self.entry in
            Turns s.table.now s.pair s.slots.now crossing.now news.new kept.new (k + 1) }
    {
        kept.push(self.note_both(news, collect::entry(crossing, k)));
    }

    // All crossing records, in rising number.
    pub fn take_turns(self, crossing: &[u16], news: &mut News, kept: &mut Kept)
        requires { Ready self.table.now self.pair crossing.now self.standing.now self.slots.now }
        ensures { let s = self.entry in
            Turns s.table.now s.pair s.slots.now crossing.now news.new kept.new (length crossing.now) }
    {
        news.clear();
        kept.clear();
        for k in 0..crossing.len() {
            self.take_turn(crossing, k, news, kept);
        }
    }
}
