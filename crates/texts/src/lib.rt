// Words and numbers put on a page.
#![tactic(auto)]

ghost use Rattle.std.specs.Prelude.{◌≡◌, ◌==◌, position};
ghost use Rattle.texts.specs.Text.{decimal, numbered, before_zero};
ghost use Rattle.texts.specs.Put.{Put, Space};

// A lent list of bytes that is written from its start on, and how many of them are written.
#[derive(Drop)]
pub struct Page<'a> {
    bytes: &'a mut [u8],
    len: usize,
}

impl<'a> Page<'a> {
    // Nothing is written yet.
    pub fn new(bytes: &'a mut [u8]) -> Page<'a>
        ensures memory { result.bytes.ghost_name ≡ bytes.entry.ghost_name }
        ensures empty { (result.bytes.now ≡ bytes.old) × (result.len ≡ 0) }
    {
        Page { bytes, len: 0 }
    }

    // How many bytes are written.
    pub fn len(&self) -> usize
        ensures { result ≡ self.now.len }
    {
        self.len
    }

    #[tactic(auto, using(crate::proofs::Laws::word_put))]
    pub fn put(&mut self, word: &[u8])
        requires { Space self.old word.now }
        ensures { Put self.old word.now self.new }
    {
        let end = self.len + word.len();
        self.bytes[self.len..end].copy_from_slice(word);
        self.len = end;
    }

    #[tactic(auto, using(crate::proofs::Laws::spelling))]
    pub fn put_decimal(&mut self, number: usize)
        requires { Space self.old (decimal number) }
        ensures { Put self.old (decimal number) self.new }
    {
        let mut digits = [0u8; 20];
        let n = io::decimal(number as u64, &mut digits);
        self.put(&digits[..n]);
    }

    // A word, and the number that follows it.
    #[tactic(auto, using(crate::specs::Put::putting), unfolding(crate::specs::Text::numbered))]
    pub fn put_numbered(&mut self, word: &[u8], number: usize)
        requires { Space self.old (numbered word.now number) }
        ensures { Put self.old (numbered word.now number) self.new }
    {
        self.put(word);
        self.put_decimal(number);
    }

    // The bytes of a text before its first zero, or all of them.
    #[tactic(auto, using(crate::proofs::Laws::cutting))]
    pub fn put_before_zero(&mut self, text: &[u8])
        requires { Space self.old (before_zero text.now) }
        ensures { Put self.old (before_zero text.now) self.new }
    {
        let end = first_zero(text).unwrap_or(text.len());
        self.put(&text[..end]);
    }
}

// Where the first zero stands.
fn first_zero(text: &[u8]) -> Option<usize>
    ensures { result ≡ position (λ b. b == 0) text.now }
{
    text.iter().position(|b| *b == 0)
}
