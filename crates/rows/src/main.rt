//! Runs rows: files of command lines, each with the files that it names and what it is to come to, over the call that `oauthd`
//! makes of its words.
//!
//! `blocks`, `sections` and `words` read a file into rows, with the texts that `names` has; a `row` may be a `talk` over
//! connections, which is told as a transcript. `running` runs it, in a `world` with another clock, and `comparing` tells what
//! differs. Tests are what no row can say: clients of `serve` and `start`, over the machine's sockets.
#![tactic(auto)]

mod blocks;
mod comparing;
mod fault;
mod names;
mod reading;
mod row;
mod running;
mod sections;
mod talk;
#[cfg(test)]
mod tests;
#[cfg(test)]
mod texts;
mod words;
mod world;

use names::Names;
use reading::rows_of;
use running::run_row;
use std::env;
use std::fs::{self, File};
use std::io::{self, ErrorKind, Stdout};
use std::net::Net;
use std::process::ExitCode;
use std::random::RandomSource;
use std::rt::{Clock, Env, Files};

/// Runs the rows in the file of a path, and tells those that differ, and how many there are. It gives how many, and how many of
/// them differ.
fn run_file<R: Files<File = File> + Net + Clock + RandomSource + Print + AllocGlobal>(
    rt: &R,
    stdout: Stdout,
    names: &mut Names,
    path: &str,
) -> io::Result<(usize, usize)> {
    let text = fs::read_to_string(rt, path)?;
    let rows = rows_of(rt.alloc(), names, text.as_str())?;
    let mut differ = 0usize;
    for row in &rows {
        let told = run_row(rt, stdout, row)?;
        if !told.is_empty() {
            differ = differ.saturating_add(1);
            let name = row.name.as_str();
            println!(rt; "{path}: {name}{told}")?;
        }
    }
    let rows = rows.len();
    println!(rt; "{path}: {rows} rows")?;
    Ok((rows, differ))
}

/// Tells why the runner stops.
fn told(rt: &impl Eprint, place: &str, error: io::Error) -> io::Error {
    let _ = eprintln!(rt; "rows: {place}: {error}");
    error
}

/// Runs the rows in the files that the program's words say, one after the other, and says how many differ.
fn run_files<
    R: Files<File = File> + Net + Clock + RandomSource + Env + Print + Eprint + AllocGlobal,
>(rt: &R, stdout: Stdout) -> io::Result<usize> {
    let args = env::args(rt).map_err(|error| told(rt, "arguments", error))?;
    let paths: Vec<String> = args.skip(1).collect(rt.alloc())?;
    let mut names = Names::new(rt.alloc());
    let (mut rows, mut differ) = (0usize, 0usize);
    for path in &paths {
        let path = path.as_str();
        let (more, wrong) = run_file(rt, stdout, &mut names, path).map_err(|error| told(
            rt, path, error,
        ))?;
        rows = rows.saturating_add(more);
        differ = differ.saturating_add(wrong);
    }
    println!(rt; "{rows} rows, {differ} differ").map_err(|error| told(rt, "output", error))?;
    Ok(differ)
}

fn main(rt: HostRuntime) -> ExitCode {
    ExitCode::from(match run_files(&rt, rt.stdout()) {
        Ok(0) => 0,
        // A row differs.
        Ok(_) => 1,
        Err(error) if error.kind() == ErrorKind::OutOfMemory => 3,
        Err(_) => 2,
    })
}
