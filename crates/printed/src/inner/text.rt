// A line as it grows, text after text.
ghost use Rattle.std.specs.Prelude.{◌≡◌, ℕ, List, [], ◌∷◌, ◌++◌, ◌+◌, ◌≤◌, length, take};
ghost use Rattle.printed.specs.Text.{decimal, spaced};

use std::marker::Model;

// A line of at most 128 bytes, in an array with its length, since nothing here is on a heap. Clauses see its bytes alone.
#[derive(Drop)]
pub struct Line {
    bytes: [u8; 128],
    length: usize,
}

impl Model for Line {
    ghost Value = { List ℕ };

    ghost view = { λ line. take line.length line.bytes };

    ghost invariant = { λ line. line.length ≤ 128 };
}

impl Line {
    pub fn new() -> Self
        ensures { result ≡ [] }
    {
        Line {
            bytes: [0; 128],
            length: 0,
        }
    }

    // All of it.
    pub fn text(&self) -> &[u8]
        ensures { (result.now ≡ self.now) × (length self.now ≤ 128) }
    {
        &self.bytes[..self.length]
    }

    // A text as it stands.
    pub fn put_text(&mut self, text: &[u8])
        requires { length self.old + length text.now ≤ 128 }
        ensures { self.new ≡ self.old ++ text.now }
    {
        let end = self.length + text.len();
        self.bytes[self.length..end].copy_from_slice(text);
        self.length = end;
    }

    // A number in decimal.
    pub fn put_decimal(&mut self, n: u64)
        requires { length self.old + 20 ≤ 128 }
        ensures { (self.new ≡ self.old ++ decimal n) × (length (decimal n) ≤ 20) }
    {
        let mut digits = [0u8; 20];
        let count = io::decimal(n, &mut digits);
        self.put_text(&digits[..count]);
    }

    // A number after a space.
    #[tactic(auto, unfolding(crate::specs::Text::spaced))]
    pub fn put_spaced(&mut self, n: u64)
        requires { length self.old + 21 ≤ 128 }
        ensures { (self.new ≡ self.old ++ spaced n) × (length (spaced n) ≤ 21) }
    {
        self.put_text(b" ");
        self.put_decimal(n);
    }
}
