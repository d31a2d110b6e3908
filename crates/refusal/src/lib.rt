// Why a call was declined: one enum for the whole product.
#![tactic(auto)]

ghost use Rattle.std.specs.Prelude.{◌≡◌};
ghost use Rattle.refusal.specs.Numbers.{number, place};

#[derive(Clone, Copy, Debug, PartialEq, Eq)]
pub enum Refusal {
    Size,
    Cells,
    Rate,
    SlotsTaken,
    NotHeld,
    NotAdmissible(usize),
    TooLong(usize),
    TooMany,
    Credit(u64),
}

impl Refusal {
    // The number by which docs/refusals.md lists the cause.
    pub fn number(self) -> u8
        ensures { result ≡ number self }
    {
        match self {
            Refusal::Size => 1,
            Refusal::Cells => 2,
            Refusal::Rate => 3,
            Refusal::SlotsTaken => 4,
            Refusal::NotHeld => 5,
            Refusal::NotAdmissible(_) => 6,
            Refusal::TooLong(_) => 7,
            Refusal::TooMany => 8,
            Refusal::Credit(_) => 9,
        }
    }

    // What is returned beside the number: the index of the line, or the ordinal of the operation.
    pub fn place(self) -> Option<u64>
        ensures { result ≡ place self }
    {
        match self {
            Refusal::NotAdmissible(line) | Refusal::TooLong(line) => Some(line as u64),
            Refusal::Credit(ordinal) => Some(ordinal),
            _ => None,
        }
    }
}
