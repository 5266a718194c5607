// Each used record looks along the chain of its bucket for an earlier one that is the same. Free records have a bucket of their own, in which none looks.
ghost use Rattle.std.specs.Prelude.{◌≡◌, ◌+◌, ◌<◌, ◌≤◌, IfOk};
ghost use Rattle.lists.specs.Found.{found};
ghost use Rattle.diagrams.specs.Layout.{most_records, records, InTable};
ghost use Rattle.chains.specs.Mixed.{buckets};
ghost use Rattle.check_repeats.specs.Buckets.{bucket_at};
ghost use Rattle.check_repeats.specs.Repeats.{repeats};
ghost use Rattle.check_repeats.specs.Searching.{Next, Walks, Looks, Enters};

use super::is_same;
use chains::Chains;
use diagrams::{MOST_RECORDS, RecordNumber};

// The search was given up: too many steps along crowded chains.
#[derive(Clone, Copy)]
pub struct Crowded;

// What a walk along a chain found, and how many entries it met.
#[derive(Clone, Copy)]
struct Walked {
    found: Option<usize>,
    met: usize,
}

// Two for each record of a full table. An even mixture takes a quarter for each.
const MOST_STEPS: usize = 2 * MOST_RECORDS;

#[tactic(auto, unfolding(crate::specs::Buckets::bucket_of))]
fn bucket(table: &[u8], i: RecordNumber) -> usize
    requires { InTable table.now i.0 }
    ensures { (result ≡ bucket_at table.now i.0) × (result < buckets + 1) }
{
    if i.is_free(table) {
        return chains::BUCKETS;
    }
    chains::mix(i.variable(table).0, i.low(table).0, i.high(table).0)
}

// The first record before i that is the same. b is its bucket.
fn first_same(table: &[u8], chains: &Chains, b: usize, i: RecordNumber) -> Walked
    requires { Next table.now i.0 chains.now.head.now chains.now.link.now × ((b ≡ bucket_at table.now i.0) × (b < buckets + 1)) }
    ensures { Walks table.now i.0 result }
{
    // Along the links, which lead down: no index is counted.
    let mut found = None;
    let mut met = 0;
    let mut entry = chains.newest(b);
    while let Some(j) = entry {
        let same = is_same(table, i, RecordNumber(j));
        if same {
            found = Some(j);
        }
        entry = chains.before(j);
        met += 1;
    }
    Walked { found, met }
}

// The same for a used record. A free one repeats none.
#[tactic(auto, unfolding(crate::specs::Repeats::repeats), using(crate::specs::Searching::found_some))]
fn look(table: &[u8], chains: &Chains, b: usize, i: RecordNumber) -> Walked
    requires { Next table.now i.0 chains.now.head.now chains.now.link.now × ((b ≡ bucket_at table.now i.0) × (b < buckets + 1)) }
    ensures { Looks table.now i.0 result }
{
    if i.is_used(table) {
        return first_same(table, chains, b, i);
    }
    Walked {
        found: None,
        met: 0,
    }
}

// Record i looks, and goes to the front of its bucket.
fn enter(table: &[u8], chains: &mut Chains, i: RecordNumber) -> Walked
    requires { Next table.now i.0 chains.old.head.now chains.old.link.now }
    ensures { Enters table.now i.0 result chains.new.head.now chains.new.link.now }
{
    let b = bucket(table, i);
    let walked = look(table, chains, b, i);
    chains.add(b, i.0);
    walked
}

// The first repeat, unless the chains are crowded.
pub fn search(table: &[u8]) -> Result<Option<usize>, Crowded>
    requires { records table.now ≤ most_records }
    ensures { IfOk result (λ place. place ≡ found (repeats table.now) (records table.now)) }
{
    // Two lists on the stack, not one struct: in their places lie the two of the passes, once the chains are left.
    let mut head = chains::no_heads();
    let mut link = [0u16; MOST_RECORDS];
    let mut chains = Chains {
        head: &mut head,
        link: &mut link,
    };
    let mut steps = 0;
    for i in 0..diagrams::count_records(table) {
        let walked = enter(table, &mut chains, RecordNumber(i));
        if walked.found.is_some() {
            return Ok(Some(i));
        }
        steps += walked.met;
        if MOST_STEPS < steps {
            return Err(Crowded);
        }
    }
    Ok(None)
}
