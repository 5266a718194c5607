// The one writer of the lent buffers: single-byte stores, as many as its fuel lasts for. "Cut after f stores" is the same code with fuel f.
#![tactic(auto)]

ghost use Rattle.std.specs.Prelude.{◌≡◌, [], ◌∷◌, ◌+◌, ◌≤◌, ◌<◌, length};
ghost use Rattle.undo.specs.Stores.{poke, run};
ghost use Rattle.undo.specs.Wrote.{Wrote};
ghost use Rattle.undo.specs.Log as log;

// Bytes in a record of the log, and the most records; byte 0 of its seal while a swap is being made.
pub const ENTRY_SIZE: usize = 16;

pub const MOST_LOG_RECORDS: usize = 4096;

pub const SEAL_MARK: u8 = 165;

// Fuel for more stores than a swap or a recovery makes.
pub const ENOUGH: usize = 24 * MOST_LOG_RECORDS;

// What an entry of the log is of; as a number, its byte 1.
#[derive(Clone, Copy, PartialEq, Eq)]
pub enum Kind {
    Record,
    Pair,
}

// Its fuel is the number of stores that it may still make.
#[derive(Drop)]
pub struct Pen {
    pub fuel: usize,
}

impl Pen {
    // One store, if there is fuel for it.
    pub fn store(&mut self, buffer: &mut [u8], i: usize, byte: u8)
        requires { i < length buffer.old }
        ensures { Wrote self.old.fuel (poke i byte ∷ []) buffer.old buffer.new self.new.fuel }
    {
        if self.fuel > 0 {
            buffer[i] = byte;
            self.fuel -= 1;
        }
    }

    // These bytes, one after the other.
    pub fn write(&mut self, buffer: &mut [u8], at: usize, bytes: &[u8])
        requires { at + length bytes.now ≤ length buffer.old }
        ensures { Wrote self.old.fuel (run at bytes.now) buffer.old buffer.new self.new.fuel }
    {
        for (j, &byte) in bytes.iter().enumerate() {
            self.store(buffer, at + j, byte);
        }
    }
}

// The eight bytes at an index.
pub fn eight(bytes: &[u8], at: usize) -> [u8; 8]
    requires { at + 8 ≤ length bytes.now }
    ensures { result ≡ log.eight bytes.now at }
{
    std::array::from_fn(|j| bytes[at + j])
}
