// The characters of a text, one at a time.
ghost use Rattle.std.specs.Prelude.{◌≡◌, ℕ, true, List, length};
ghost use Rattle.std.specs.Iterator.{at_most, Drains};
ghost use Rattle.escape.specs.declared.reader.State.TheVariants.{Ground};
ghost use Rattle.text.specs.Characters.{gives, left, readable};
ghost use Rattle.text.specs.Texts.{admissible, characters};

use escape::reader::{EscapeReader, Verdict};
use utf8::decode;

#[derive(Drop)]
pub struct Characters<'a> {
    rest: &'a [u8],
    reader: EscapeReader,
}

impl<'a> Characters<'a> {
    pub fn new(text: &'a [u8]) -> Characters<'a>
        ensures rest { result.rest ≡ text.entry }
        ensures reader { result.reader ≡ Ground }
        ensures readable { readable result.reader result.rest.now ≡ admissible text.now }
        ensures left { left result.reader result.rest.now ≡ characters text.now }
        ensures items { admissible text.now ≡ true → (xs : List ℕ) → Drains gives result xs → xs ≡ characters text.now }
    {
        Characters {
            rest: text,
            reader: EscapeReader::new(),
        }
    }
}

// The next character outside colour sequences, or None at the end. A text that is not admissible ends where it goes wrong.
impl<'a> Iterator for Characters<'a> {
    type Item = u32;

    ghost next_gives = { gives };

    ghost remaining = { λ s. at_most (length s.rest.now) };

    fn next(&mut self) -> Option<u32> {
        while let Some((c, tail)) = decode(self.rest) {
            self.rest = tail;
            match self.reader.read(c)? {
                Verdict::Plain => return Some(c),
                Verdict::Colour => {}
            }
        }
        None
    }
}
