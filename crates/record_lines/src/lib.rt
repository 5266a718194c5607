// The lines of a record, put on a page: what it holds, and after a used one the label of its variable.
#![tactic(auto)]

ghost use Rattle.diagrams.specs.Layout.{InTable};
ghost use Rattle.diagrams.specs.Store.{meant};
ghost use Rattle.labels.specs.Lists.{texts};
ghost use Rattle.texts.specs.Put.{Put, Space};
ghost use Rattle.record_lines.specs.Text.{content_text, record_line, label_line, label_text, record_text};

use diagrams::{Record, RecordNumber};
use labels::Lists;
use texts::Page;

// ---- the record

// What it holds, or that it is free.
#[tactic(auto, using(texts::specs::Put::putting), unfolding(crate::specs::Text::content_text))]
fn put_content(page: &mut Page, content: Record)
    requires { Space page.old (content_text (meant content)) }
    ensures { Put page.old (content_text (meant content)) page.new }
{
    match content {
        Record::Free => page.put(b" free"),
        Record::Used {
            variable,
            low,
            high,
        } => {
            page.put_numbered(b" ", variable.0);
            page.put_numbered(b" ", low.0);
            page.put_numbered(b" ", high.0);
        }
    }
}

#[tactic(auto, using(texts::specs::Put::putting), unfolding(crate::specs::Text::record_line))]
fn put_record(page: &mut Page, i: RecordNumber, content: Record)
    requires { Space page.old (record_line i.0 (meant content)) }
    ensures { Put page.old (record_line i.0 (meant content)) page.new }
{
    page.put_decimal(i.0);
    put_content(page, content);
    page.put(b"\n");
}

// ---- the label of its variable

#[tactic(auto, using(texts::specs::Put::putting), unfolding(crate::specs::Text::label_line))]
fn put_label_line(page: &mut Page, text: &[u8])
    requires { Space page.old (label_line text.now) }
    ensures { Put page.old (label_line text.now) page.new }
{
    page.put_before_zero(text);
    page.put(b"\n");
}

// After a used record, the line of its variable's label, where it has one.
#[tactic(auto, using(crate::proofs::Laws::labelling))]
fn put_label(page: &mut Page, content: Record, labels: &Lists)
    requires { Space page.old (label_text (texts labels.now) (meant content)) }
    ensures { Put page.old (label_text (texts labels.now) (meant content)) page.new }
{
    if let Record::Used { variable, .. } = content {
        let text = labels.text(variable);
        if !text.is_empty() {
            put_label_line(page, text);
        }
    }
}

// The line of a record, and that of its label.
#[tactic(auto, using(texts::specs::Put::putting), unfolding(crate::specs::Text::record_text))]
pub fn put_labelled(page: &mut Page, table: &[u8], i: RecordNumber, labels: &Lists)
    requires { InTable table.now i.0 × Space page.old (record_text (texts labels.now) table.now i.0) }
    ensures { Put page.old (record_text (texts labels.now) table.now i.0) page.new }
{
    let content = Record::of(table, i);
    put_record(page, i, content);
    put_label(page, content, labels);
}
