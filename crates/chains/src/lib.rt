// A look-up by hash, in two lists: the newest entry of each bucket, and the one before each entry in its bucket. Entries are 0, 1, 2 and so on, as they are
// added; an entry stands in the lists as its number plus 1, so that 0 is none. Keys are not copied: who looks up walks a chain and compares entry by entry.
#![tactic(auto)]

ghost use Rattle.std.specs.Prelude.{◌≡◌, ◌+◌, ◌<◌, length, replicate, get_or};
ghost use Rattle.chains.specs.Chains.{Added, entry_in};
ghost use Rattle.chains.specs.Mixed.{buckets, mixed};

use diagrams::MOST_RECORDS;

// Two for each record, so that a chain has half an entry on average in a full table. Heads and links of all records take 49,154 bytes.
pub const BUCKETS: usize = 2 * MOST_RECORDS;

// No entry in any bucket.
pub fn no_heads() -> [u16; BUCKETS + 1]
    ensures { result ≡ replicate (buckets + 1) 0 }
{
    [0u16; BUCKETS + 1]
}

// The bucket of three numbers; of two, with 0 for the first.
#[tactic(auto, unfolding(crate::specs::Mixed::mixed))]
pub fn mix(v: usize, a: usize, b: usize) -> usize
    requires { ((v < 65536) × (a < 65536)) × (b < 65536) }
    ensures { (result ≡ mixed v a b) × (result < buckets) }
{
    (v * 2246822519 + a * 2654435761 + b * 3266489917) / 262144 % BUCKETS
}

// The two lists, lent: for as many entries as `link` has places. The last bucket, which `mix` never gives, is for entries that nobody looks up.
#[derive(Drop)]
pub struct Chains<'a> {
    pub head: &'a mut [u16],
    pub link: &'a mut [u16],
}

impl<'a> Chains<'a> {
    // The newest entry of bucket b.
    pub fn newest(&self, b: usize) -> Option<usize>
        requires { b < length self.now.head.now }
        ensures { result ≡ entry_in (get_or self.now.head.now b 0) }
    {
        usize::from(self.head[b]).checked_sub(1)
    }

    // The one before entry e in its bucket.
    pub fn before(&self, e: usize) -> Option<usize>
        requires { e < length self.now.link.now }
        ensures { result ≡ entry_in (get_or self.now.link.now e 0) }
    {
        usize::from(self.link[e]).checked_sub(1)
    }

    // Entry e to the front of bucket b.
    pub fn add(&mut self, b: usize, e: usize)
        requires { ((b < length self.old.head.now) × (e < length self.old.link.now)) × (e < 65535) }
        ensures memory { (self.new.head.ghost_name ≡ self.old.head.ghost_name) × (self.new.link.ghost_name ≡ self.old.link.ghost_name) }
        ensures added { Added self.old.head.now self.old.link.now b e self.new.head.now self.new.link.now }
    {
        self.link[e] = self.head[b];
        self.head[b] = (e + 1) as u16;
    }
}
