//! A report, and what is told of a request, as lines of JSON.
#![tactic(auto)]

mod report_line;
mod told_line;

pub use report_line::report_text;
pub use told_line::told_text;
