// The calls that a refusal may decline.
ghost use Rattle.std.specs.Prelude.{◌≡◌, OnErr, IfOk, IfErr, Some, None};
ghost use Rattle.std.specs.Option.{option_map};
ghost use Rattle.std.specs.Result.{result_err};
ghost use Rattle.refusal.specs.Numbers.{number as numbered};
ghost use Rattle.trace.specs.declared.answer.Answer.TheVariants as answers;
ghost use Rattle.text.specs.Outcomes.{admission_refusal, measure_refusal, measured, Measured};
ghost use Rattle.limiter.specs.Ration.{fresh};
ghost use Rattle.runner.specs.Answers.{cells, outcome, metrics_answer, limiter_refusal};

use limiter::RateLimiter;
use refusal::Refusal;
use replay::command::Rule;
use text::admission::admit;
use text::measure::measure;
use text::metrics::Metrics;
use text::width::{House, Plain};
use trace::answer::Answer;

// How these calls tell of a refusal: with one line at most, its index is left out.
pub(crate) fn told(outcome: Result<Answer, Refusal>) -> Answer
    ensures done { IfOk outcome (λ a. result ≡ a) }
    ensures declined { IfErr outcome (λ e. result ≡ answers.Refused (numbered e) None) }
{
    outcome.unwrap_or_else(|refusal| Answer::Refused {
        number: refusal.number(),
        place: None,
    })
}

fn measure_by(width: usize, rule: Rule, text: &[u8]) -> Result<Metrics, Refusal>
    ensures { Measured width (cells rule) text.now result }
{
    match rule {
        Rule::Plain => measure(width, &Plain, text),
        Rule::House => measure(width, &House, text),
    }
}

pub(crate) fn measured(width: u64, rule: Rule, text: &[u8]) -> Result<Answer, Refusal>
    ensures refused { result_err result ≡ measure_refusal width text.now }
    ensures answer { IfOk result (λ a. a ≡ metrics_answer (measured width (cells rule) text.now)) }
{
    let metrics = measure_by(width as usize, rule, text)?;
    Ok(Answer::Metrics {
        rows: metrics.height.as_usize() as u64,
        column: metrics.last_line_width as u64,
    })
}

pub(crate) fn admitted(text: &[u8]) -> Result<Answer, Refusal>
    ensures refused { result_err result ≡ admission_refusal text.now }
    ensures answer { IfOk result (λ a. a ≡ answers.Ok) }
{
    admit(text)?;
    Ok(Answer::Ok)
}

// A limiter takes the place of one made before, unless it is refused.
pub(crate) fn make_limiter(
    limiter: &mut Option<RateLimiter>,
    rate: u8,
    start: u64,
) -> Result<Answer, Refusal>
    ensures refused { result_err result ≡ limiter_refusal rate }
    ensures made { IfOk result (λ a. (a ≡ answers.Ok) × (option_map (λ l. l.ration) limiter.new ≡ Some (fresh rate start))) }
    ensures kept { OnErr result (limiter.new ≡ limiter.old) }
{
    *limiter = Some(RateLimiter::new(rate, start)?);
    Ok(Answer::Ok)
}
