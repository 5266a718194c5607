// The label of an input: the text that the site's own list has for it, or else the factory's.
#![tactic(auto)]

ghost use Rattle.std.specs.Prelude.{◌≡◌};
ghost use Rattle.labels.specs.Label.{bad_length, label_count, InLabels, names, first_for, first_text, label_of, LabelOutcome};
ghost use Rattle.labels.specs.Lists.{texts};

use diagrams::Variable;
use parts::Part;

// Bytes in a label record, and in its text: all but the first, which is the variable.
pub const LABEL_SIZE: usize = 16;

pub const TEXT_SIZE: usize = 15;

// The most records in a list.
pub const MOST_LABELS: usize = 64;

// Which list has the label, and where in it the text stands.
#[derive(Clone, Copy)]
pub enum Place {
    Nowhere,
    Site(Part),
    Factory(Part),
}

#[tactic(auto, unfolding(crate::specs::Label::bad_length))]
fn bad_length(list: &[u8]) -> bool
    ensures { result ≡ bad_length list.now }
{
    list.len() % LABEL_SIZE != 0 || LABEL_SIZE * MOST_LABELS < list.len()
}

fn count_labels(list: &[u8]) -> usize
    ensures { result ≡ label_count list.now }
{
    list.len() / LABEL_SIZE
}

#[tactic(auto, unfolding(crate::specs::Label::names))]
fn names_variable(list: &[u8], variable: Variable, i: usize) -> bool
    requires { InLabels list.now i }
    ensures { result ≡ names list.now variable.0 i }
{
    Variable(usize::from(list[LABEL_SIZE * i])) == variable
}

// The first record for the variable.
fn first_record(list: &[u8], variable: Variable) -> Option<usize>
    ensures { result ≡ first_for list.now variable.0 }
{
    (0..count_labels(list)).find(|&i| names_variable(list, variable, i))
}

// Where the text of that record stands.
#[tactic(auto, using(crate::proofs::Labelled::found_inside))]
fn first_text(list: &[u8], variable: Variable) -> Option<Part>
    ensures { result ≡ first_text list.now variable.0 }
{
    let i = first_record(list, variable)?;
    let from = LABEL_SIZE * i + 1;
    Some(Part(from, from + TEXT_SIZE))
}

#[tactic(auto, unfolding(crate::specs::Label::label_of))]
pub fn label_place(site: &[u8], factory: &[u8], variable: Variable) -> Place
    ensures { result ≡ label_of site.now factory.now variable.0 }
{
    if bad_length(site) || bad_length(factory) {
        Place::Nowhere
    } else if let Some(part) = first_text(site, variable) {
        Place::Site(part)
    } else if let Some(part) = first_text(factory, variable) {
        Place::Factory(part)
    } else {
        Place::Nowhere
    }
}

// The text of the label, as a part of the list that has it; an empty part of the site's list where none has.
#[tactic(auto, using(crate::proofs::Laws::handing))]
pub fn label<'a>(site: &'a [u8], factory: &'a [u8], variable: Variable) -> &'a [u8]
    ensures { LabelOutcome site.now factory.now variable.0 site.entry.ref_ptr factory.entry.ref_ptr result.ref_ptr result.now }
{
    match label_place(site, factory, variable) {
        Place::Nowhere => parts::part_of(site, Part(0, 0)),
        Place::Site(part) => parts::part_of(site, part),
        Place::Factory(part) => parts::part_of(factory, part),
    }
}

// The two lists.
#[derive(Clone, Copy)]
pub struct Lists<'a> {
    pub site: &'a [u8],
    pub factory: &'a [u8],
}

impl<'a> Lists<'a> {
    // The text of the label, which is empty where there is none.
    #[tactic(auto, unfolding(crate::specs::Label::text_of))]
    pub fn text(&self, variable: Variable) -> &'a [u8]
        ensures { result.now ≡ texts self.now variable.0 }
    {
        label(self.site, self.factory, variable)
    }
}
