// The worked examples of the documentation, held against the definitions that the contracts cite.
#![tactic(auto)]

ghost use Rattle.figures.specs.Figures.{Figures};

// All of them together, by computation.
#[tactic(auto, using(crate::proofs::Holding::figures))]
pub fn figures_hold()
    ensures { Figures }
{}
