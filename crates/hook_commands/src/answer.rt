//! What a command about a hook answers.

ghost use Rattle.hook_commands.specs.Printed.{hook_answer_text};

use crate::back::JumpBackTold;
use crate::fault::HookCommandFault;
use crate::judge::Judged;
use crate::trace::StepLines;
use crate::why::RefusalTold;
use hook_record::Narrowed;
use insn::verify_fault::VerifyFault;
use lister::SlotLine;
use machine::trace::Trace;
use std::fmt::{self, Display, Formatter, Write};

/// What a command about a hook answers.
#[derive(Drop)]
pub enum HookAnswer {
    /// How a hook's run ended, and what it leaves of the grant.
    Judged(Judged),
    /// The steps of a hook's run, and how it ended.
    Traced {
        trace: Trace,
        judged: Judged,
    },
    /// The bytes of a program, as hex.
    Code(String),
    /// The text of a program.
    Listing(String),
    /// The instructions of a program, behind their slots.
    Slots(Vec<SlotLine>),
    /// How many instructions a program has that is accepted.
    Accepted(usize),
    /// How many instructions a program has that is accepted, and the slots that no way reaches.
    Reached {
        count: usize,
        unreached: Vec<usize>,
    },
    /// Why the first look refuses a program: the fault, the jump of a jump back, and what the manual says of that.
    Looked {
        fault: VerifyFault,
        jump: Option<JumpBackTold>,
        help: &'static str,
    },
    /// Why the walk refuses a program, at length.
    Refused(RefusalTold),
}

/// What a command about a hook answers, or why it has no answer.
pub type HookResult<'w> = Result<HookAnswer, HookCommandFault<'w>>;

impl Display for HookAnswer {
    ghost output = { hook_answer_text };

    fn fmt<W: Write>(&self, f: &mut Formatter<W>) -> fmt::Result {
        match self {
            HookAnswer::Judged(judged) => write!(f, "{judged}"),
            HookAnswer::Traced { trace, judged } => {
                for step in &trace.steps {
                    let lines = StepLines(*step);
                    write!(f, "{lines}")?;
                }
                write!(f, "{judged}")
            }
            HookAnswer::Code(hex) => write!(f, "{hex}\n"),
            HookAnswer::Listing(text) => write!(f, "{text}"),
            HookAnswer::Slots(lines) => {
                for line in lines {
                    write!(f, "{line}")?;
                }
                Ok(())
            }
            HookAnswer::Accepted(count) => write!(f, "accepted {count}\n"),
            HookAnswer::Reached { count, unreached } => {
                write!(f, "accepted {count}\n")?;
                for slot in unreached {
                    write!(f, "no way reaches slot {slot}\n")?;
                }
                Ok(())
            }
            HookAnswer::Looked { fault, jump, help } => {
                write!(f, "refused {fault}\n")?;
                if let Some(jump) = jump {
                    write!(f, "{jump}")?;
                }
                write!(f, "\n{help}")
            }
            HookAnswer::Refused(refusal) => write!(f, "{refusal}"),
        }
    }
}

impl Display for Judged {
    fn fmt<W: Write>(&self, f: &mut Formatter<W>) -> fmt::Result {
        let (r0, steps) = (self.r0, self.steps);
        write!(f, "r0 {r0}\nsteps {steps}\n")?;
        match self.answer {
            Narrowed::Allowed { scope, life } => write!(f, "allowed {scope} {life}\n"),
            Narrowed::Denied => write!(f, "denied\n"),
            Narrowed::EmptyScope => write!(f, "empty scope\n"),
        }
    }
}
