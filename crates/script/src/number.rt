// Numbers of a script.
ghost use Rattle.std.specs.Option.{MatchOption};
ghost use Rattle.script.specs.Numbers.{Number, NoNumber};

// The number that a word writes.
pub fn read_number(word: &[u8]) -> Option<u64>
    ensures { MatchOption result (NoNumber word.now) (λ n. Number word.now n) }
{
    let digits = std::str::from_utf8(word).ok()?;
    if digits.starts_with('+') {
        return None;
    }
    digits.parse().ok()
}
