// A part of a list that is lent: where it begins and ends, and the part itself, which is the caller's own memory.
#![tactic(auto)]

ghost use Rattle.parts.specs.Part.{Inside, Handed};

// Where a part begins and ends.
#[derive(Clone, Copy)]
pub struct Part(pub usize, pub usize);

// The part of the list, handed back where it stands.
pub fn part_of<'a>(list: &'a [u8], part: Part) -> &'a [u8]
    requires { Inside part list.now }
    ensures { Handed part list.now list.entry.ref_ptr result.ref_ptr result.now }
{
    &list[part.0..part.1]
}
