// Text as bytes in an array of fixed size: digits, and numbers after spaces.
#![tactic(auto)]

ghost use Rattle.std.specs.Prelude.{◌≡◌, List, ℕ, [], ◌∷◌, ◌++◌, ◌+◌, ◌<◌, ◌≤◌, length, take};
ghost use Rattle.spec_definitions.specs.Text.{decimal};
ghost use Rattle.out_text.specs.declared.TheConstants.{ROOM};

use std::marker::Model;

// The most bytes of a text: 8,192 words of a listing at most ten bytes each, and more than a first line.
pub const ROOM: usize = 98304;

// The bytes written so far.
#[derive(Drop)]
pub struct Text {
    bytes: [u8; ROOM],
    len: usize,
}

impl Model for Text {
    ghost Value = { List ℕ };

    ghost view = { λ t. take t.len t.bytes };

    ghost invariant = { λ t. t.len ≤ ROOM };
}

impl Text {
    pub fn new() -> Self
        ensures { result ≡ [] }
    {
        Text {
            bytes: [0; ROOM],
            len: 0,
        }
    }

    pub fn as_bytes(&self) -> &[u8]
        ensures bytes { result.now ≡ self.now }
        ensures room { length result.now ≤ ROOM }
    {
        &self.bytes[..self.len]
    }

    pub fn clear(&mut self)
        ensures { self.new ≡ [] }
    {
        self.len = 0;
    }

    fn push(&mut self, byte: u8)
        requires { length self.old < ROOM }
        ensures { self.new ≡ self.old ++ byte ∷ [] }
    {
        self.bytes[self.len] = byte;
        self.len += 1;
    }

    pub fn push_bytes(&mut self, bytes: &[u8])
        requires { length self.old + length bytes.now ≤ ROOM }
        ensures { self.new ≡ self.old ++ bytes.now }
    {
        let start = self.len;
        self.len += bytes.len();
        self.bytes[start..self.len].copy_from_slice(bytes);
    }

    // The digits of x: those of its tenth part, and then the last one.
    pub fn push_decimal(&mut self, x: u64)
        requires { length self.old + length (decimal x) ≤ ROOM }
        ensures { self.new ≡ self.old ++ decimal x }
    {
        if x >= 10 {
            self.push_decimal(x / 10);
        }
        self.push(b'0' + (x % 10) as u8);
    }

    // A space and the digits of x.
    pub fn push_number(&mut self, x: u64)
        requires { length self.old + length (decimal x) < ROOM }
        ensures { self.new ≡ self.old ++ 32 ∷ decimal x }
    {
        self.push(b' ');
        self.push_decimal(x);
    }

    pub fn end_line(&mut self)
        requires { length self.old < ROOM }
        ensures { self.new ≡ self.old ++ 10 ∷ [] }
    {
        self.push(b'\n');
    }
}
