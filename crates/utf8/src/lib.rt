// UTF-8 by RFC 3629, one character at a time.
#![tactic(auto)]

ghost use Rattle.std.specs.Prelude.{◌≡◌, ℕ, ◌+◌, ◌-◌, ◌<◌, ◌≤◌, ◌&&◌, ◌||◌, T, List, [], ◌∷◌, length, IfSome, MatchOption, nat_le, nat_lt};
ghost use Rattle.std.specs.Option.{SomeIff};
ghost use Rattle.utf8.specs.Rfc.{Char, NoChar, Tail, AsStd, octets};

// The character at the head of `s` with what follows it, or None where none stands there.
#[tactic(auto, using(crate::proofs::Standard::as_std))]
pub fn decode(s: &[u8]) -> Option<(u32, &[u8])>
    ensures read { MatchOption result (NoChar s.now) (λ p. Char s.now p.0 p.1.now) }
    ensures all { (c : ℕ) (rest : List ℕ) → Char s.now c rest → MatchOption result ⊥ (λ p. (p.0 ≡ c) × (p.1.now ≡ rest)) }
    ensures place { IfSome result (λ p. (p.1.ref_ptr.0 ≡ s.entry.ref_ptr.0) × (p.1.ref_ptr.1 ≡ s.entry.ref_ptr.1 + length (octets p.0))) }
    ensures standard { (c : ℕ) → AsStd c }
{
    match s {
        [a, rest @ ..] if *a < 0x80 => Some((u32::from(*a), rest)),
        [a, b, rest @ ..] if *a < 0xE0 => Some((two(*a, *b)?, rest)),
        [a, b, c, rest @ ..] if *a < 0xF0 => Some((three(*a, *b, *c)?, rest)),
        [a, b, c, d, rest @ ..] => Some((four(*a, *b, *c, *d)?, rest)),
        _ => None,
    }
}

// The last six bits of an octet that follows a lead octet.
fn tail(b: u8) -> Option<u32>
    ensures { SomeIff result (Tail b) (b - 0x80) }
{
    match b {
        0x80..=0xBF => Some(u32::from(b - 0x80)),
        _ => None,
    }
}

// Whether two octets are the shortest form of code.
fn takes_two(code: u32) -> bool
    ensures { result ≡ nat_le 0x80 code }
{
    0x80 <= code
}

// Whether three octets are the shortest form of code, which is no surrogate.
fn takes_three(code: u32) -> bool
    ensures { result ≡ nat_le 0x800 code && (nat_lt code 0xD800 || nat_lt 0xDFFF code) }
{
    0x800 <= code && !(0xD800..=0xDFFF).contains(&code)
}

// Whether four octets are the shortest form of code, which is a code point.
fn takes_four(code: u32) -> bool
    ensures { result ≡ nat_le 0x10000 code && nat_le code 0x10FFFF }
{
    (0x10000..=0x10FFFF).contains(&code)
}

fn two(a: u8, b: u8) -> Option<u32>
    requires { (128 ≤ a) × (a < 224) }
    ensures { MatchOption result (NoChar (a ∷ b ∷ [])) (λ c. Char (a ∷ b ∷ []) c []) }
{
    let high = u32::from(a.checked_sub(0xC0)?);
    let code = high * 64 + tail(b)?;
    takes_two(code).then_some(code)
}

fn three(a: u8, b: u8, c: u8) -> Option<u32>
    requires { (224 ≤ a) × (a < 240) }
    ensures { MatchOption result (NoChar (a ∷ b ∷ c ∷ [])) (λ x. Char (a ∷ b ∷ c ∷ []) x []) }
{
    let code = u32::from(a - 0xE0) * 4096 + tail(b)? * 64 + tail(c)?;
    takes_three(code).then_some(code)
}

fn four(a: u8, b: u8, c: u8, d: u8) -> Option<u32>
    requires { 240 ≤ a }
    ensures { MatchOption result (NoChar (a ∷ b ∷ c ∷ d ∷ [])) (λ x. Char (a ∷ b ∷ c ∷ d ∷ []) x []) }
{
    let code = u32::from(a - 0xF0) * 262144 + tail(b)? * 4096 + tail(c)? * 64 + tail(d)?;
    takes_four(code).then_some(code)
}
