// Replays a script of calls and prints what happened.
#![tactic(auto)]

mod demonstration;

use anyhow::bail;
use demonstration::DEMONSTRATION;
use runner::run::replay;
use std::io::{Read, Write};
use std::process::ExitCode;
use std::rt::Files;
use std::{env, fs, io};

const USAGE: &str = "usage: rack, rack [--summary] FILE, rack [--summary] -";

// What is printed of a script that came to its end.
#[derive(Clone, Copy, PartialEq, Eq)]
enum Report {
    Trace,
    TraceAndSummary,
}

// Prints the trace as far as it goes; where the script stopped, its line and reason are the last word.
fn run<R: AllocGlobal + Print + Eprint>(
    rt: &R,
    script: &[u8],
    report: Report,
) -> anyhow::Result<ExitCode> {
    let mut trace = Vec::new(rt.alloc());
    let result = replay(rt.alloc(), script, &mut trace);
    io::writer(rt).write_all(&trace)?;
    match result {
        Ok(summary) => {
            if report == Report::TraceAndSummary {
                println!(rt; "--\n{summary}")?;
            }
            Ok(ExitCode::SUCCESS)
        }
        Err(stop) => {
            eprintln!(rt; "{stop}")?;
            Ok(ExitCode::FAILURE)
        }
    }
}

fn run_source<R: AllocGlobal + Files + Input + Print + Eprint>(
    rt: &R,
    source: &str,
    report: Report,
) -> anyhow::Result<ExitCode> {
    let script = if source == "-" {
        let mut input = Vec::new(rt.alloc());
        let _ = rt.reader().read_to_end(&mut input)?;
        input
    } else {
        fs::read(rt, source)?
    };
    run(rt, &script, report)
}

// By the words behind the program's name.
fn main(rt: HostRuntime) -> anyhow::Result<ExitCode> {
    let words = env::args(&rt)?.skip(1).collect::<Vec<String>>(rt.alloc())?;
    match words.as_slice() {
        [] => run(&rt, DEMONSTRATION.as_bytes(), Report::TraceAndSummary),
        [source] => run_source(&rt, source.as_str(), Report::Trace),
        [option, source] if option.as_str() == "--summary" => {
            run_source(&rt, source.as_str(), Report::TraceAndSummary)
        }
        _ => bail!(USAGE),
    }
}
