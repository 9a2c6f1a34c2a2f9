//! What a request comes to, before anything is done for it.
ghost use Rattle.std.specs.Prelude.{◌≡◌};

use crate::answer::Answer;
use crate::want::Want;
use consent::Changes;
use messages::ErrorName;

/// What is answered, and what happens with it.
#[derive(Clone, Copy)]
pub struct Decision<'a> {
    pub answer: Answer<'a>,
    pub changes: Changes<'a>,
}

impl<'a> Decision<'a> {
    /// 503 for what is wanting, with which nothing happens.
    pub fn unavailable(want: Want) -> Decision<'a>
        ensures { result ≡ record { answer = Answer.Unavailable want; changes = Changes.Nothing } }
    {
        Decision {
            answer: Answer::Unavailable(want),
            changes: Changes::Nothing,
        }
    }
    /// The error of a grant that a hook denied, with which nothing happens.
    pub fn denied(error: ErrorName) -> Decision<'a>
        ensures { result ≡ record { answer = Answer.Denied error; changes = Changes.Nothing } }
    {
        Decision {
            answer: Answer::Denied(error),
            changes: Changes::Nothing,
        }
    }
}
