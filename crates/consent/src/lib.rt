//! What an authorization server has done and may do next, the questions that are asked of it, and the
//! consents of owners to clients.
#![tactic(auto)]

mod change;
mod consents;
mod digest;
mod grant;
mod kept_consent;
mod kept_record;
mod limits;
mod numbers;
mod parties;
mod record_version;
mod scope;
mod spelling;

pub use change::{Change, Changes, CodeFacts, Home, NewToken};
pub use consents::Consents;
pub use digest::Digest;
pub use grant::{Kind, TokenKind};
pub use kept_consent::KeptConsent;
pub use kept_record::{KeptKind, KeptRecord};
pub use limits::{CODE_LIFE, FAMILY_LIMIT, limits_are_the_defined_ones};
pub use numbers::{ClientNo, Moment, OwnerNo};
pub use parties::Parties;
pub use record_version::RecordVersion;
pub use scope::ScopeSet;
