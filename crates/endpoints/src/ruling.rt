//! What a request comes to, with what the host found of its hook.

use answers::Decision;

/// What the host found of the change of its hooks that is to be made.
#[derive(Drop)]
pub enum Checked<H> {
    /// There is no change of the hooks.
    NoHook,
    /// The hook may be installed; this is what the host takes.
    Installs(H),
    /// The hook is there, and may be removed.
    Removes,
}

/// A decision, and what the host found of the change of its hooks, where it makes one.
pub struct Ruling<'a, H> {
    pub decision: Decision<'a>,
    pub checked: Checked<H>,
}
