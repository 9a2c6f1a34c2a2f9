//! What a server has, with the rules under which it has it.

use clients::Bounds;
use consent::{KeptConsent, KeptRecord, Moment, RecordVersion};

/// A hook by its name, with the version of its record and its code.
#[derive(Clone, Copy)]
pub struct KeptHook<'a> {
    pub name: &'a str,
    pub version: RecordVersion,
    pub code: &'a [u8],
}

/// What a server has, with the rules under which it has it.
#[derive(Drop)]
pub struct Standing<'a> {
    pub rules: Bounds<'a>,
    /// The greatest moment that a request was handed.
    pub greatest: Moment,
    /// The greatest number of a family so far, 0 where there is none.
    pub last: u64,
    pub records: Vec<KeptRecord<'a>>,
    pub consents: Vec<KeptConsent>,
    /// In the order of the chain.
    pub hooks: Vec<KeptHook<'a>>,
}
