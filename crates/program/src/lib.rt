// What the program prints: from the bytes of its seven files to the text, in one function. The other functions put their part of the text
// on a page.
#![tactic(auto)]

ghost use Rattle.std.specs.Prelude.{◌≡◌, ◌≤◌, length};
ghost use Rattle.labels.specs.Lists.{texts};
ghost use Rattle.texts.specs.Put.{Put, Space};
ghost use Rattle.program.specs.Text.{swaps_text, lack_text, short_text, slice_text, refusal_text, answer_text, answer_line};
ghost use Rattle.program.specs.Text.{plan_line, plan_text, store_text, printed};
ghost use Rattle.program.specs.Program.{Prints, most_text, Held};
ghost use Rattle.runs.specs.declared.Slice.TheVariants.{NoRoom, LogShort};

use checks::Refusal;
use diagrams::{MOST_RECORDS, MOST_ROOTS};
use labels::{Lists, TEXT_SIZE};
use listing::Store;
use orders::Order;
use runs::Slice;
use swap_ways::{Lack, Short};
use texts::Page;

// The most bytes that are printed of a full store, with one variable more than an order may have: 21 a record and a whole text with the end of its
// line, 6 a root, 4 a variable, and 188 for the first two lines and the words.
pub const MOST_TEXT: usize = (21 + (TEXT_SIZE + 1)) * MOST_RECORDS
    + 6 * MOST_ROOTS
    + 4 * (Order::CEILING + 1)
    + 188;

// ---- the line of the answer

#[tactic(auto, using(texts::specs::Put::putting), unfolding(crate::specs::Text::swaps_text))]
fn put_swaps(page: &mut Page, word: &[u8], swaps: usize, left: usize)
    requires { Space page.old (swaps_text word.now swaps left) }
    ensures { Put page.old (swaps_text word.now swaps left) page.new }
{
    page.put_numbered(word, swaps);
    page.put_numbered(b" left ", left);
}

// Why the next swap doesn't fit.
#[tactic(auto, using(texts::specs::Put::putting), unfolding(crate::specs::Text::lack_text))]
fn put_lack(page: &mut Page, lack: Lack)
    requires { Space page.old (lack_text lack) }
    ensures { Put page.old (lack_text lack) page.new }
{
    page.put_numbered(b" level ", lack.level);
    page.put_numbered(b" needed ", lack.needed);
    page.put_numbered(b" free ", lack.free);
}

#[tactic(auto, using(texts::specs::Put::putting), unfolding(crate::specs::Text::slice_text))]
fn put_no_room(page: &mut Page, swaps: usize, left: usize, lack: Lack)
    requires { Space page.old (slice_text (NoRoom swaps left lack)) }
    ensures { Put page.old (slice_text (NoRoom swaps left lack)) page.new }
{
    put_swaps(page, b"no room swaps ", swaps, left);
    put_lack(page, lack);
}

// Why the log doesn't hold its entries.
#[tactic(auto, using(texts::specs::Put::putting), unfolding(crate::specs::Text::short_text))]
fn put_short(page: &mut Page, short: Short)
    requires { Space page.old (short_text short) }
    ensures { Put page.old (short_text short) page.new }
{
    page.put_numbered(b" level ", short.level);
    page.put_numbered(b" needed ", short.needed);
    page.put_numbered(b" held ", short.held);
}

#[tactic(auto, using(texts::specs::Put::putting), unfolding(crate::specs::Text::slice_text))]
fn put_log_short(page: &mut Page, swaps: usize, left: usize, short: Short)
    requires { Space page.old (slice_text (LogShort swaps left short)) }
    ensures { Put page.old (slice_text (LogShort swaps left short)) page.new }
{
    put_swaps(page, b"log short swaps ", swaps, left);
    put_short(page, short);
}

#[tactic(auto, using(crate::proofs::Laws::slicing), unfolding(crate::specs::Text::slice_text))]
fn put_slice(page: &mut Page, slice: Slice)
    requires { Space page.old (slice_text slice) }
    ensures { Put page.old (slice_text slice) page.new }
{
    match slice {
        Slice::Done { swaps, left } => put_swaps(page, b"done swaps ", swaps, left),
        Slice::NoRoom { swaps, left, lack } => put_no_room(page, swaps, left, lack),
        Slice::LogShort { swaps, left, short } => put_log_short(page, swaps, left, short),
        Slice::Paused { swaps, left } => put_swaps(page, b"paused swaps ", swaps, left),
    }
}

#[tactic(auto, using(texts::specs::Put::putting), unfolding(crate::specs::Text::refusal_text))]
fn put_refusal(page: &mut Page, refusal: Refusal)
    requires { Space page.old (refusal_text refusal) }
    ensures { Put page.old (refusal_text refusal) page.new }
{
    page.put_numbered(b"refused ", usize::from(u8::from(refusal.fault)));
    page.put_numbered(b" place ", refusal.place);
}

#[tactic(auto, using(crate::proofs::Laws::answering), unfolding(crate::specs::Text::answer_text))]
fn put_answer(page: &mut Page, answer: Result<Slice, Refusal>)
    requires { Space page.old (answer_text answer) }
    ensures { Put page.old (answer_text answer) page.new }
{
    match answer {
        Ok(slice) => put_slice(page, slice),
        Err(refusal) => put_refusal(page, refusal),
    }
}

#[tactic(auto, using(texts::specs::Put::putting), unfolding(crate::specs::Text::answer_line))]
fn put_answer_line(page: &mut Page, answer: Result<Slice, Refusal>)
    requires { Space page.old (answer_line answer) }
    ensures { Put page.old (answer_line answer) page.new }
{
    put_answer(page, answer);
    page.put(b"\n");
}

// ---- the whole text

#[tactic(auto, using(texts::specs::Put::putting), unfolding(crate::specs::Text::plan_line))]
fn put_plan_line(page: &mut Page, plan: usize)
    requires { Space page.old (plan_line plan) }
    ensures { Put page.old (plan_line plan) page.new }
{
    page.put_numbered(b"plan ", plan);
    page.put(b"\n");
}

// The plan's line, unless the run was refused.
#[tactic(auto, using(crate::proofs::Laws::planning))]
fn put_plan(page: &mut Page, answer: Result<Slice, Refusal>, plan: usize)
    requires { Space page.old (plan_text answer plan) }
    ensures { Put page.old (plan_text answer plan) page.new }
{
    if answer.is_ok() {
        put_plan_line(page, plan);
    }
}

// The listing, unless the run was refused.
#[tactic(auto, using(crate::proofs::Laws::storing))]
fn put_store(page: &mut Page, answer: Result<Slice, Refusal>, store: &Store, labels: &Lists)
    requires { Space page.old (store_text answer (texts labels.now) store.now.table.now store.now.roots.now store.now.order.now) }
    ensures { Put page.old
        (store_text answer (texts labels.now) store.now.table.now store.now.roots.now store.now.order.now)
        page.new }
{
    if answer.is_err() {
        return;
    }
    listing::put_listing(page, store, labels);
}

#[tactic(auto, using(texts::specs::Put::putting), unfolding(crate::specs::Text::printed))]
fn put_run(
    page: &mut Page,
    plan: usize,
    answer: Result<Slice, Refusal>,
    store: &Store,
    labels: &Lists,
)
    requires { Space page.old (printed plan answer (texts labels.now) store.now.table.now store.now.roots.now store.now.order.now) }
    ensures { Put page.old
        (printed plan answer (texts labels.now) store.now.table.now store.now.roots.now store.now.order.now)
        page.new }
{
    put_plan(page, answer, plan);
    put_answer_line(page, answer);
    put_store(page, answer, store, labels);
}

// All that the program prints for the bytes of its files, from the first byte of `out` on; how many bytes that is. Brings the table and
// the order as far towards the target as they go.
#[tactic(auto, using(crate::proofs::Laws::printing))]
pub fn text<'a>(
    table: &mut [u8],
    roots: &[u8],
    order: &mut [u8],
    target: &[u8],
    plan: &[u8],
    site: &'a [u8],
    factory: &'a [u8],
    out: &mut [u8],
) -> usize
    requires { Held table.old roots.now order.old × (most_text ≤ length out.old) }
    ensures { Prints table.old roots.now order.old target.now plan.now
        site.now factory.now out.old out.new result }
{
    let answer = job::run(table, roots, order, target, plan);
    let store = Store {
        table,
        roots,
        order,
    };
    let labels = Lists { site, factory };
    let mut page = Page::new(out);
    put_run(&mut page, job::number_in(plan), answer, &store, &labels);
    page.len()
}
