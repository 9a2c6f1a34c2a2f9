//! What is asked of etcd.

/// What of a key is compared.
#[derive(Clone, Copy, Debug, PartialEq, Eq)]
pub enum Target {
    /// The revision at which it was created.
    Created,
    /// The revision at which it was written last.
    Written,
}

/// That of a key it is this revision: 0 where there is no such key.
#[derive(Clone, Copy, Debug)]
pub struct Compare<'a> {
    pub key: &'a [u8],
    pub target: Target,
    pub revision: u64,
}

/// What a transaction does or tells.
#[derive(Clone, Copy, Debug)]
pub enum Operation<'a> {
    /// The key has this value from then on.
    Put(&'a [u8], &'a [u8]),
    /// So it has until this lease ends.
    PutLeased(&'a [u8], &'a [u8], u64),
    /// The keys from the one on, up to the other, are no more.
    Delete(&'a [u8], &'a [u8]),
    /// What stands under the key.
    Get(&'a [u8]),
    /// What stands under the keys from the one on, up to the other: under the first of them, no more than so many.
    Range(&'a [u8], &'a [u8], u64),
    /// What stood under these keys at that revision.
    Past(&'a [u8], &'a [u8], u64, u64),
}

/// Where all compares hold, the one list of operations is done, and else the other one: all of it at one moment.
#[derive(Clone, Copy, Debug)]
pub struct Transaction<'a> {
    pub compares: &'a [Compare<'a>],
    pub success: &'a [Operation<'a>],
    pub failure: &'a [Operation<'a>],
}
