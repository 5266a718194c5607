// Low and high of a record that a swap makes or changes, in 16 bits each.
ghost use Rattle.std.specs.Prelude.{◌≡◌, ◌<◌};
ghost use Rattle.swap_records.specs.Children.{children};

use diagrams::Reference;

#[derive(Clone, Copy, PartialEq, Eq)]
pub struct Children {
    pub low: u16,
    pub high: u16,
}

impl Children {
    pub fn new(low: Reference, high: Reference) -> Children
        requires { (low.0 < 65536) × (high.0 < 65536) }
        ensures { result ≡ children low.0 high.0 }
    {
        Children {
            low: low.0 as u16,
            high: high.0 as u16,
        }
    }

    pub fn low(self) -> Reference
        ensures { (result.0 ≡ self.low) × (result.0 < 65536) }
    {
        Reference(usize::from(self.low))
    }

    pub fn high(self) -> Reference
        ensures { (result.0 ≡ self.high) × (result.0 < 65536) }
    {
        Reference(usize::from(self.high))
    }
}
