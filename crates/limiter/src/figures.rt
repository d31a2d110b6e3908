// The worked examples of docs/limiters.md, by computation over the definitions.
ghost use Rattle.limiter.specs.Figures.{Figures};

#[tactic(auto, using(crate::proofs::Examples::figures))]
pub fn figures_hold()
    ensures { Figures }
{}
