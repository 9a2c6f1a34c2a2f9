//! What is wanting where nothing can be done for a request.
ghost use Rattle.std.specs.Prelude.{◌≡◌};
ghost use Rattle.answers.specs.Wants.{want_of};

use token_store::StoreFault;

/// What is wanting where a request is answered 503.
#[derive(Clone, Copy)]
pub enum Want {
    /// The system gave no memory.
    Memory,
    /// As many codes and tokens are unexpired as may be, or no number is left for a family.
    StoreRoom,
    /// As many of the client's codes and tokens are unexpired as may be.
    ClientRoom,
    /// What was drawn names something unexpired, or was drawn twice.
    FreshDraw,
    /// As many consents are kept as may be.
    ConsentRoom,
}

/// What is wanting by why the store refuses codes or tokens: a fresh draw, unless it or the client's share is full.
pub(crate) fn want_of(refusal: Option<StoreFault>) -> Want
    ensures { result ≡ want_of refusal }
{
    match refusal {
        Some(StoreFault::Full) => Want::StoreRoom,
        Some(StoreFault::ClientFull) => Want::ClientRoom,
        Some(StoreFault::DrawTaken) => Want::FreshDraw,
        None => Want::FreshDraw,
    }
}
