// A part of a lent list told as numbers: where it begins, and its length; for a label, before them, which list it is a part of.
#![tactic(auto)]

ghost use Rattle.std.specs.Prelude.{◌∷◌, ◌≡◌};
ghost use Rattle.labels.specs.Label as label;
ghost use Rattle.labels.specs.Label.{part_in};
ghost use Rattle.parts.specs.Part as part;
ghost use Rattle.relay_numbers.specs.Written.{wrote, written};
ghost use Rattle.relay_parts.specs.Small.{Small};

use labels::Place;
use parts::Part;

// The first number for a label, as C reads it: which list has it. include/relay.h declares them.
const NEITHER: u32 = 0;

const SITE: u32 = 1;

const FACTORY: u32 = 2;

// Where a part begins, and its length.
fn span(p: Part) -> [u32; 2]
    requires { Small p }
    ensures { result ≡ part.numbers p }
{
    let from = p.0 as u32;
    let length = (p.1 - p.0) as u32;
    [from, length]
}

pub fn tell_part(answer: &mut [u32], p: Part) -> usize
    requires { Small p }
    ensures { wrote result answer.new ≡ written answer.old (part.numbers p) }
{
    relay_numbers::write(answer, &span(p))
}

fn tell_part_of(answer: &mut [u32], list: u32, p: Part) -> usize
    requires { Small p }
    ensures { wrote result answer.new ≡ written answer.old (list ∷ part.numbers p) }
{
    let [from, length] = span(p);
    relay_numbers::write(answer, &[list, from, length])
}

pub fn tell_place(answer: &mut [u32], place: Place) -> usize
    requires { Small (part_in place) }
    ensures { wrote result answer.new ≡ written answer.old (label.numbers place) }
{
    match place {
        Place::Nowhere => tell_part_of(answer, NEITHER, Part(0, 0)),
        Place::Site(p) => tell_part_of(answer, SITE, p),
        Place::Factory(p) => tell_part_of(answer, FACTORY, p),
    }
}
