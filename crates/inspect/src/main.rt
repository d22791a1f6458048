// Says what a saved heap's file holds: inspect FILE [SCHEME [CELL]]
#![tactic(auto)]

use anyhow::{Context, ensure};
use report::inspect::{Wanted, inspect};
use std::io::Write;
use std::process::ExitCode;
use std::{env, fs};
use text::command::SchemeName;
use text::number::value;

const USAGE: &str = "usage: inspect FILE [SCHEME [CELL]]";

// The scheme that an argument names by its letter.
fn scheme_named(word: &str) -> anyhow::Result<SchemeName> {
    let scheme = match word.as_bytes() {
        [letter] => SchemeName::try_from(char::from(*letter)).ok(),
        _ => None,
    };
    scheme.context("a scheme is one letter: s, b or d")
}

// The cell that an argument names by its number.
fn cell_named(word: &str) -> anyhow::Result<u32> {
    value(word.as_bytes()).context("a cell is a number")
}

fn what_is_wanted(scheme: Option<String>, cell: Option<String>) -> anyhow::Result<Wanted> {
    let Some(scheme) = scheme else {
        return Ok(Wanted::Summary);
    };
    let scheme = scheme_named(&scheme)?;
    let Some(cell) = cell else {
        return Ok(Wanted::Grades { scheme });
    };
    let cell = cell_named(&cell)?;
    Ok(Wanted::Why { scheme, cell })
}

fn run(rt: &HostRuntime) -> anyhow::Result<()> {
    let mut words = env::args(rt)?.skip(1);
    let path = words.next().context(USAGE)?;
    let wanted = what_is_wanted(words.next(), words.next())?;
    ensure!(words.next().is_none(), USAGE);
    let bytes = fs::read(rt, &path)?;
    let mut out = Vec::new(rt.alloc());
    inspect(&bytes, wanted, &mut out)?;
    rt.stdout().write_all(&out)?;
    Ok(())
}

fn main(rt: HostRuntime) -> ExitCode {
    match run(&rt) {
        Ok(()) => ExitCode::SUCCESS,
        Err(e) => {
            let _ = eprintln!(rt; "inspect: {e}");
            ExitCode::FAILURE
        }
    }
}
