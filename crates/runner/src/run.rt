// Replays a script line by line.
ghost use Rattle.std.specs.Prelude.{◌≡◌, ◌++◌, MatchResult};
ghost use Rattle.trace.specs.Traces.{traced};
ghost use Rattle.runner.specs.Answers.{state};
ghost use Rattle.runner.specs.Runs.{Played, Ran, complete};
ghost use Rattle.runner.specs.Stops.{Halted, Stopped};

use crate::rack::Rack;
use crate::stop::{Halt, Stop};
use crate::summary::Summary;
use replay::parse::parse;
use script::escape::unescape;
use script::lines::{Lines, is_skipped};
use std::alloc::Global;
use trace::answer::{Answer, trace};

// Answers one line, and appends its trace.
pub fn play(rack: &mut Rack, heap: Global, line: &[u8], out: &mut Vec<u8>) -> Result<Answer, Halt>
    ensures { MatchResult result (λ a. Played (state rack.old) line.now a (state rack.new) × (out.new.items ≡ out.old.items ++ traced line.now a)) (λ e. Halted (state rack.old) line.now (state rack.new) out.old.items out.new.items e) }
{
    let command = parse(line)?;
    let mut text = Vec::new(heap);
    unescape(command.text(), &mut text)?;
    let answer = rack.perform(&command, &text).ok_or(Halt::Missing)?;
    trace(out, line, &answer)?;
    Ok(answer)
}

// Answers the lines of a script in turn on a rack where nothing stands yet, and appends their trace.
pub fn replay(heap: Global, script: &[u8], out: &mut Vec<u8>) -> Result<Summary, Stop>
    ensures { MatchResult result (λ k. Ran script.now out.old.items out.new.items k complete) (λ s. Stopped script.now out.old.items out.new.items s) }
{
    let mut rack = Rack::new();
    let mut summary = Summary::new();
    for (i, line) in Lines::new(script).enumerate() {
        if is_skipped(line) {
            continue;
        }
        match play(&mut rack, heap, line, out) {
            Ok(answer) => summary = summary.count(&answer),
            Err(halt) => {
                return Err(Stop {
                    line: i as u64 + 1,
                    halt,
                });
            }
        }
    }
    Ok(summary)
}
