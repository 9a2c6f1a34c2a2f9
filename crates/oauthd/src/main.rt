//! An OAuth 2.0 authorization server with verified token hooks.
#![tactic(auto)]

use command_line::perform;
use commands::{program_words, told};
use disk_file::Unknown;
use std::process::ExitCode;

fn main(rt: HostRuntime) -> ExitCode {
    let mut out = rt.stdout();
    let mut err = rt.stderr();
    let status = match program_words(&rt) {
        Ok(words) => perform::<_, _, _, Unknown>(&rt, &words, rt.stdout(), &mut out, &mut err),
        Err(fault) => told(fault, &mut err),
    };
    ExitCode::from(status.code())
}
