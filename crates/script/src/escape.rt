// The escapes of TEXT.
ghost use Rattle.std.specs.Prelude.{◌≡◌, ◌<◌, ◌∷◌, Decides, MatchOption};
ghost use Rattle.std.specs.Option.{SomeIff};
ghost use Rattle.std.specs.Char.{digit_value};
ghost use Rattle.std.specs.Iterator.{item_count};
ghost use Rattle.script.specs.Escapes.{Byte, NoByte, WellFormed, Unescaped};

use std::alloc::AllocError;
use std::marker::Model;

fn hex(digit: u8) -> Option<u8>
    ensures { SomeIff result (digit_value digit < 16) (digit_value digit) }
{
    char::from(digit).to_digit(16).map(|value| value as u8)
}

// What a backslash with `text` behind it spells.
fn escape(text: &[u8]) -> Option<(u8, &[u8])>
    ensures { MatchOption result (NoByte (92 ∷ text.now)) (λ p. Byte (92 ∷ text.now) p.0 p.1.now) }
{
    match text {
        [b'\\', rest @ ..] => Some((b'\\', rest)),
        [b'n', rest @ ..] => Some((b'\n', rest)),
        [b'x', high, low, rest @ ..] => Some((hex(*high)? * 16 + hex(*low)?, rest)),
        _ => None,
    }
}

// The first byte that a text spells, and the rest of the text.
pub fn next_byte(text: &[u8]) -> Option<(u8, &[u8])>
    ensures { MatchOption result (NoByte text.now) (λ p. Byte text.now p.0 p.1.now) }
{
    match text {
        [] => None,
        [b'\\', rest @ ..] => escape(rest),
        [b, rest @ ..] => Some((*b, rest)),
    }
}

// The bytes that a text spells, up to its end or to the first backslash that begins no escape.
#[derive(Debug, Drop)]
pub struct SpelledBytes<'a> {
    rest: &'a [u8],
}

impl<'a> Model for SpelledBytes<'a> {
    ghost use Rattle.std.specs.Prelude.{ℕ, List};

    ghost Value = { List ℕ };

    ghost view = { λ s. s.rest.now };
}

impl<'a> SpelledBytes<'a> {
    pub fn new(text: &'a [u8]) -> Self
        ensures { result ≡ text.now }
    {
        SpelledBytes { rest: text }
    }
}

impl<'a> Iterator for SpelledBytes<'a> {
    type Item = u8;

    ghost next_gives = { λ s r t. MatchOption r (NoByte s × (t ≡ s)) (λ b. Byte s b t) };

    ghost remaining = { item_count (λ s. s) };

    fn next(&mut self) -> Option<u8> {
        let (b, rest) = next_byte(self.rest)?;
        self.rest = rest;
        Some(b)
    }
}

// Whether every backslash of a text is part of an escape.
pub fn is_well_formed(text: &[u8]) -> bool
    ensures { Decides result (WellFormed text.now) }
{
    let mut bytes = SpelledBytes::new(text);
    while bytes.next().is_some() {}
    bytes.rest.is_empty()
}

// Appends the bytes that a text means; without memory, the first of them.
pub fn unescape(text: &[u8], out: &mut Vec<u8>) -> Result<(), AllocError>
    ensures { Unescaped text.now out.old.items result out.new.items }
{
    for b in SpelledBytes::new(text) {
        out.push(b)?;
    }
    Ok(())
}
