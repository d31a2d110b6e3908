// Width rules: how many cells each code point takes.
ghost use Rattle.std.specs.Prelude.{◌≡◌, ℕ};
ghost use Rattle.text.specs.Width.{Rule, plain, house, plain_rule, house_rule};

pub trait WidthRule {
    ghost cells: { Self → ℕ → ℕ };

    // Whatever the rule, a code point takes at most two cells, and a space takes one.
    ghost lawful: { (rule : Self) → Rule (cells rule) };

    fn width(&self, c: u32) -> usize
        ensures { result ≡ cells self.now c };
}

// Every code point takes one cell.
#[derive(Clone, Copy, Debug)]
pub struct Plain;

impl WidthRule for Plain {
    ghost cells = { λ _. plain };

    ghost lawful = { λ _. plain_rule };

    fn width(&self, _c: u32) -> usize {
        1
    }
}

// Combining marks take no cell, and some scripts two.
#[derive(Clone, Copy, Debug)]
pub struct House;

impl WidthRule for House {
    ghost cells = { λ _. house };

    ghost lawful = { λ _. house_rule };

    fn width(&self, c: u32) -> usize {
        match c {
            0x0300..=0x036F => 0,
            0x1100..=0x115F | 0x4E00..=0x9FFF | 0xAC00..=0xD7A3 | 0xFF01..=0xFF60 => 2,
            _ => 1,
        }
    }
}
