// One line of a sheet, and how it is made: its word and one field after the other.
ghost use Rattle.std.specs.Prelude.{◌≡◌, ◌+◌, ◌≤◌, [], ◌∷◌, ◌++◌, length};
ghost use Rattle.sheet.specs.Bound.{max_text};

use std::marker::Model;

// Room for a line of a sheet. The longest that there is has fewer bytes. `specs/Bound` says the number again, so that another
// one here is refused.
pub(crate) const MAX_TEXT: usize = 64;

// An array with its length beside it: a `String` would allocate, and no call of the libraries does.
#[derive(Drop)]
pub struct Text {
    bytes: [u8; MAX_TEXT],
    len: usize,
}

impl Model for Text {
    ghost use Rattle.std.specs.Prelude.{ℕ, ◌≡◌, ◌≤◌, List, length, take};
    ghost use Rattle.sheet.specs.Bound.{max_text};

    ghost Value = { List ℕ };

    ghost view = { λ t. take t.len t.bytes };

    ghost invariant = { λ t. (t.len ≤ max_text) × (length t.bytes ≡ max_text) };
}

impl Text {
    // A line that begins with this word.
    pub(crate) fn begin(word: &str) -> Text
        requires { length word.now ≤ max_text }
        ensures { result ≡ word.now }
    {
        let none = Text {
            bytes: [0; MAX_TEXT],
            len: 0,
        };
        none.and(word.as_bytes())
    }

    // The same with these bytes behind.
    pub(crate) fn and(mut self, bytes: &[u8]) -> Text
        requires { length self + length bytes.now ≤ max_text }
        ensures { result ≡ self ++ bytes.now }
    {
        let start = self.len;
        let end = start + bytes.len();
        self.bytes[start..end].copy_from_slice(bytes);
        self.len = end;
        self
    }

    // The same with a word as one field more.
    pub(crate) fn word(self, word: &str) -> Text
        requires { length self + length word.now + 1 ≤ max_text }
        ensures holds { result ≡ self ++ (9 ∷ word.now) }
        ensures used { length result ≡ length self + length word.now + 1 }
    {
        self.and(b"\t").and(word.as_bytes())
    }

    // The same with its line feed.
    pub(crate) fn end(self) -> Text
        requires { length self + 1 ≤ max_text }
        ensures { result ≡ self ++ (10 ∷ []) }
    {
        self.and(b"\n")
    }

    // Its bytes, at most as many as there is room for.
    pub fn as_bytes(&self) -> &[u8]
        ensures bytes { result.now ≡ self.now }
        ensures room { length self.now ≤ max_text }
    {
        &self.bytes[..self.len]
    }
}
