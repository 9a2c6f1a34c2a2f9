//! When something was told last.

/// When the journal was told last, in steady seconds.
#[derive(Clone, Copy)]
pub struct LastTold {
    /// What the server has done: when it began, where that was not told yet.
    pub(crate) report: u64,
    /// That the store was full.
    pub(crate) full: Option<u64>,
    /// Whether what is kept wants room, as was told last.
    pub(crate) room: bool,
}
