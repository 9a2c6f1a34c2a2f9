//! What has expired goes, in portions.
ghost use Rattle.std.specs.Prelude.{◌≡◌, ◌⊎◌, ◌+◌, ◌<◌, ◌≤◌, true, false, length};
ghost use Rattle.consent.specs.History.{unexpired_count};
ghost use Rattle.endpoints.specs.Parts.{WhereverFits};
ghost use Rattle.token_store.specs.Fits.{FitsStore};

use consent::Moment;
use token_store::Store;

/// More than so many codes and tokens fewer are kept behind a request than before it, unless all that has expired is gone: a
/// portion is 64, and a request gives two at most.
const FEWER: usize = 61;

/// So many more a request may give.
const MORE: usize = 3;

// Lets go of a portion of what has expired, which changes no answer: whether there was something.
fn drop_portion(store: &mut Store, moment: Moment) -> bool
    ensures fits { WhereverFits store.old moment (λ h. FitsStore store.new h moment) }
    ensures all { result ≡ false → WhereverFits store.old moment (λ h. length store.new.kept ≡ unexpired_count h moment) }
    ensures fewer { result ≡ true → length store.new.kept < length store.old.kept }
{
    let before = store.kept();
    store.drop_some(moment);
    store.kept() < before
}

/// Lets go of what has expired, which changes no answer: of all, or of so much that 62 fewer are kept than before.
pub(crate) fn let_go(store: &mut Store, before: usize, moment: Moment)
    ensures fits { WhereverFits store.old moment (λ h. FitsStore store.new h moment) }
    ensures kept { WhereverFits store.old moment
        (λ h. (length store.new.kept ≡ unexpired_count h moment) ⊎ length store.new.kept + 62 ≤ before) }
{
    while store.kept() >= before.saturating_sub(FEWER) {
        if !drop_portion(store, moment) {
            return;
        }
    }
}

/// Lets go of a portion of what has expired, which changes no answer, so that how many are unexpired is known without a look;
/// and of all where the store is as good as full. An empty store is told the moment before the first is put there.
pub(crate) fn make_way(store: &mut Store, limit: u32, moment: Moment)
    ensures fits { WhereverFits store.old moment (λ h. FitsStore store.new h moment) }
{
    if store.kept() > (limit as usize).saturating_sub(MORE) {
        store.drop_expired(moment);
    }
    store.drop_some(moment);
}
