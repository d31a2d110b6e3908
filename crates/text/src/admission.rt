// Which text may be written.
ghost use Rattle.std.specs.Prelude.{◌≡◌};
ghost use Rattle.text.specs.Texts.{admissible, Decided};
ghost use Rattle.text.specs.Outcomes.{Admitted};

use crate::measure::LEAST_WIDTH;
use crate::scan::scan;
use crate::width::Plain;
use refusal::Refusal;

#[tactic(auto, using(crate::proofs::Deciding::decided))]
fn is_admissible(text: &[u8]) -> bool
    ensures value { result ≡ admissible text.now }
    ensures meant { Decided text.now }
{
    scan(LEAST_WIDTH, &Plain, text).is_some()
}

// Valid UTF-8 without control characters, colour sequences apart.
pub fn admit(text: &[u8]) -> Result<(), Refusal>
    ensures { Admitted text.now result }
{
    if is_admissible(text) {
        Ok(())
    } else {
        Err(Refusal::NotAdmissible(0))
    }
}
