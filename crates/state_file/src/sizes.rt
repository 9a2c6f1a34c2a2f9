//! How long batches are, and how much of them was left when they were shortened.

ghost use Rattle.std.specs.Prelude.{◌≡◌, ◌+◌, ◌++◌, List, ℕ, true, false, IfSome, if◌then◌else◌};
ghost use Rattle.batch_file.specs.Frames.{frames_size, lists};
ghost use Rattle.state_file.specs.Knowing.{IsLong, end_of, tells_number};

/// A file of fewer bytes is left as it is.
const SMALL: usize = 1 << 20;

/// Whether batches that take so many bytes are short, beside what was left when they were shortened.
pub fn is_short(end: usize, shortened: usize) -> bool
    ensures short { result ≡ true → ¬ (IsLong end shortened) }
    ensures long { result ≡ false → IsLong end shortened }
{
    end <= SMALL || end / 4 <= shortened
}

/// Whether a batch is of one change, which tells the greatest number of a family.
pub(crate) fn tells_number(batch: &[u8]) -> bool
    ensures { result ≡ tells_number batch.now }
{
    batch.len() > 13 && batch[..5] == [1, 0, 0, 0, 1] && batch[13..14] == [8]
}

/// How many bytes of frames were left when they were shortened, once a batch is behind them: all of them, where it tells a number.
pub fn size_behind(batch: &[u8], all: usize, before: usize) -> usize
    ensures { result ≡ (if tells_number batch.now then all else before) }
{
    if tells_number(batch) { all } else { before }
}

/// Where the frames of batches end that stand behind some that end there, if that is any number of a machine.
fn end_behind(end: usize, batches: &[Vec<u8>]) -> Option<usize>
    ensures { IfSome result (λ all. all ≡ end + frames_size (lists batches.now)) }
{
    let mut all = end;
    for batch in batches {
        all = all.checked_add(21 + batch.len())?;
    }
    Some(all)
}

/// How many bytes of frames were left when they were shortened, once the last of these stands behind those that end there.
pub(crate) fn shortened_behind(
    batch: &[u8],
    end: usize,
    behind: &[Vec<u8>],
    before: usize,
) -> Option<usize>
    ensures { IfSome result (λ size. (front : List (List ℕ)) → end ≡ end_of front →
        size ≡ (if tells_number batch.now then frames_size (front ++ lists behind.now) else before)) }
{
    if !tells_number(batch) {
        return Some(before);
    }
    match end_behind(end, behind) {
        Some(all) => Some(all.saturating_sub(16)),
        None => None,
    }
}
