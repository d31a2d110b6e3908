// Replays the vectors in the folder that it is run in, and prints their traces.
#![tactic(auto)]

use anyhow::bail;
use runner::run::replay;
use std::io::Write;
use std::rt::Files;
use std::{fs, io};

const SCRIPTS: [&str; 4] = ["utf8.rack", "colour.rack", "measure.rack", "limiters.rack"];

fn run<R: AllocGlobal + Files + Print>(rt: &R, name: &str) -> anyhow::Result<()> {
    let script = fs::read(rt, name)?;
    let mut trace = Vec::new(rt.alloc());
    let result = replay(rt.alloc(), &script, &mut trace);
    println!(rt; "== {name}")?;
    io::writer(rt).write_all(&trace)?;
    match result {
        Ok(_) => Ok(()),
        Err(stop) => {
            println!(rt; "{stop}")?;
            bail!("a vector is no command")
        }
    }
}

fn main(rt: HostRuntime) -> anyhow::Result<()> {
    for name in SCRIPTS {
        run(&rt, name)?;
    }
    Ok(())
}
