//! How much may be kept.

use consent::ClientNo;

/// How many codes and tokens may be unexpired: of all clients, and of the one that more are for.
#[derive(Clone, Copy, Debug, PartialEq, Eq)]
pub struct Quota {
    pub records: u32,
    pub client: ClientNo,
    /// `None` where the client has no limit of its own.
    pub of_client: Option<u32>,
}
