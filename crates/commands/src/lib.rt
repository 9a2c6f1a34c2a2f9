//! The commands that answer, and are over: what words call each, what it answers to the file that it is about, how its answer
//! or its fault is written, and how the program then ends.
//!
//! `command` has them as one enum, which `options` helps to read from words; `help`, `registry`, `replay` and `state` each have
//! what one answers. `answer` is what is printed, `fault` why there is none, and `status` how the program then ends. `output`
//! writes them, and `perform` does all of it. What else a command line calls for has its words, its files, its faults and the
//! moment from here, too.
#![tactic(auto)]

mod answer;
mod command;
mod config_file;
mod fault;
mod help;
mod moment;
mod named_file;
mod options;
mod output;
mod perform;
mod registry;
mod replay;
mod state;
mod status;
mod words;

pub use answer::Answer;
pub use command::{Command, HelpWord};
pub use config_file::{candidate_in, registry_of};
pub use fault::CommandFault;
pub use moment::moment_now;
pub use named_file::{NamedFile, Readers, bytes_at, file_at};
pub use output::{Printer, told};
pub use perform::perform_command;
pub use state::told_state;
pub use status::Status;
pub use words::program_words;
