//! What is told of a server while it runs.
use consent::Moment;
use endpoints::Tally;

/// What a server has done so far, and what it keeps.
#[derive(Clone, Copy)]
pub struct Report {
    /// The greatest moment by which a request was answered.
    pub moment: Moment,
    /// For how many seconds it has served.
    pub seconds: u64,
    /// How many connections are there.
    pub open: u32,
    /// How many came.
    pub accepted: u64,
    /// How many requests were answered, and how.
    pub tally: Tally,
    /// How many codes and tokens it has in memory.
    pub records: usize,
    /// How many consents it keeps.
    pub consents: usize,
    /// How many hooks it has.
    pub hooks: usize,
    /// How many bytes the file of its state has, where there is one.
    pub state: Option<u64>,
}

/// What the journal is told of a server that starts or goes on.
#[derive(Clone, Copy)]
pub enum Notice {
    /// What it has done so far, and what it keeps.
    Reported(Report),
    /// A code or a token was wanted, and no more may be unexpired.
    StoreFull,
    /// What is kept could not be shortened: it grows until that works.
    ShorteningRefused,
    /// Whether the disk refused room for what is kept, so that what was reserved serves; or it gives some again.
    WantsRoom(bool),
    /// So many bytes of an unfinished write stood behind what was kept, and were put beside the file.
    SetAside(usize),
    /// So many codes and tokens ended, which were beyond the registry.
    Narrowed(usize),
    /// What was kept is so many seconds ahead of the clock.
    Ahead(u64),
}
