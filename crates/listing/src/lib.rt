// The listing of a store, put on a page: its order, its records with the labels of their variables, and its roots.
#![tactic(auto)]

ghost use Rattle.labels.specs.Lists.{texts};
ghost use Rattle.texts.specs.Put.{Put, Space};
ghost use Rattle.listing.specs.Text.{variables_text, order_line, records_text, references_text, roots_line, listing};

use diagrams::RecordNumber;
use labels::Lists;
use record_lines::put_labelled;
use texts::Page;

// ---- the order

#[tactic(auto, using(texts::specs::Put::turns), unfolding(crate::specs::Text::variable_text))]
fn put_variables(page: &mut Page, order: &[u8])
    requires { Space page.old (variables_text order.now) }
    ensures { Put page.old (variables_text order.now) page.new }
{
    for variable in order {
        page.put_numbered(b" ", usize::from(*variable));
    }
}

#[tactic(auto, using(texts::specs::Put::putting), unfolding(crate::specs::Text::order_line))]
fn put_order(page: &mut Page, order: &[u8])
    requires { Space page.old (order_line order.now) }
    ensures { Put page.old (order_line order.now) page.new }
{
    page.put(b"order");
    put_variables(page, order);
    page.put(b"\n");
}

// ---- the records

#[tactic(auto, using(texts::specs::Put::turns))]
fn put_records(page: &mut Page, table: &[u8], labels: &Lists)
    requires { Space page.old (records_text (texts labels.now) table.now) }
    ensures { Put page.old (records_text (texts labels.now) table.now) page.new }
{
    for i in 0..diagrams::count_records(table) {
        put_labelled(page, table, RecordNumber(i), labels);
    }
}

// ---- the roots

#[tactic(auto, using(texts::specs::Put::turns), unfolding(crate::specs::Text::root_text))]
fn put_references(page: &mut Page, roots: &[u8])
    requires { Space page.old (references_text roots.now) }
    ensures { Put page.old (references_text roots.now) page.new }
{
    for k in 0..diagrams::count_roots(roots) {
        page.put_numbered(b" ", diagrams::root(roots, k).0);
    }
}

#[tactic(auto, using(texts::specs::Put::putting), unfolding(crate::specs::Text::roots_line))]
fn put_roots(page: &mut Page, roots: &[u8])
    requires { Space page.old (roots_line roots.now) }
    ensures { Put page.old (roots_line roots.now) page.new }
{
    page.put(b"roots");
    put_references(page, roots);
    page.put(b"\n");
}

// ---- all of it

#[derive(Clone, Copy)]
pub struct Store<'a> {
    pub table: &'a [u8],
    pub roots: &'a [u8],
    pub order: &'a [u8],
}

#[tactic(auto, using(texts::specs::Put::putting), unfolding(crate::specs::Text::listing))]
pub fn put_listing(page: &mut Page, store: &Store, labels: &Lists)
    requires { Space page.old (listing (texts labels.now) store.now.table.now store.now.roots.now store.now.order.now) }
    ensures { Put page.old (listing (texts labels.now) store.now.table.now store.now.roots.now store.now.order.now) page.new }
{
    put_order(page, store.order);
    put_records(page, store.table, labels);
    put_roots(page, store.roots);
}
