//! A header, and frames: a byte 255, the length of a batch in four, its digest in 16, and the batch. Behind the last frame come
//! zeros. What is no frame with its digest is not read: it was not finished, or is damaged. The digest is made of the one before it
//! too, so a frame that is dropped, doubled or moved has not its own.

ghost use Rattle.std.specs.Prelude.{◌≡◌, ◌<◌, ◌≤◌, ◌≢◌, ◌^◌, ◌⊎◌, ◌+◌, ◌++◌, [], ◌∷◌, ℕ, List, length, take, drop, IfOk, IfErr, IfSome, IfNone, IsTrue, IsFalse, ◌↔◌};
ghost use Rattle.std.specs.Int.{w32, to_be_bytes};
ghost use Rattle.batch_file.specs.declared.framing.ReadFault.TheVariants.{Memory};
ghost use Rattle.batch_file.specs.Faults.{of_unread};
ghost use Rattle.batch_file.specs.Frames.{digest, first_at, lists, recovered, seal, size_at, torn_of, without_zeros, zeros, HidesFrame, IsClosed, IsDamaged, IsFirstKind, IsFrame, IsNoFrame, IsReadable, IsRightFront, IsTorn, IsVersion, RefusesFile, RefusesHeader};
ghost use Rattle.batch_file.specs.Reads.{Begins, HasFrame, IsFound, IsFront};

use crate::device::DeviceFault;
use crate::frames::Frames;
use sha2::{Digest, Sha256};
use std::alloc::{AllocError, AllocFailed, Global};
use system_faults::SystemFault;

/// What a file of each version begins with, up to its digit.
const TITLE: [u8; 14] = *b"oauthd state v";

/// What each file begins with.
pub const HEADER: [u8; 16] = *b"oauthd state v3\n";

/// Behind the frames there are no more bytes.
pub(crate) const MOST_ROOM: usize = (1 << 23) + (1 << 21);

/// Why a file is not read.
#[derive(Clone, Copy, Debug, PartialEq, Eq)]
pub enum ReadFault {
    /// Memory was refused.
    Memory,
    /// It is no state file.
    NotState,
    /// It is a state file of this other version.
    Version(u8),
    /// So many batches are right, and what is behind them is damaged.
    Damaged(usize),
    /// The system refused to read it, or it is longer than a file is read.
    Unread(SystemFault),
}

impl From<AllocError> for ReadFault {
    ghost from_gives = { λ _ fault. fault ≡ Memory };

    fn from(_: AllocError) -> ReadFault {
        ReadFault::Memory
    }
}

impl<T: Drop> From<AllocFailed<T>> for ReadFault {
    ghost from_gives = { λ _ fault. fault ≡ Memory };

    fn from(_: AllocFailed<T>) -> ReadFault {
        ReadFault::Memory
    }
}

impl From<DeviceFault> for ReadFault {
    ghost from_gives = { λ device fault. fault ≡ of_unread device };

    fn from(device: DeviceFault) -> ReadFault {
        match device {
            DeviceFault::Memory => ReadFault::Memory,
            DeviceFault::Failed(reason) => ReadFault::Unread(reason),
        }
    }
}

/// What a file was read as.
#[derive(Drop)]
pub struct Batches {
    /// The batches, the first one first.
    pub batches: Vec<Vec<u8>>,
    /// A file of these batches.
    pub frames: Frames,
    /// What an append that was not finished left behind them.
    pub torn: Vec<u8>,
}

/// The batches that a file's bytes stand for, where they are not refused.
pub fn read_batches(alloc: Global, bytes: &[u8]) -> Result<Batches, ReadFault>
    ensures batches { IfOk result (λ read. lists read.batches.items ≡ recovered bytes.now) }
    ensures frames { IfOk result (λ read. read.frames ≡ recovered bytes.now) }
    ensures torn { IfOk result (λ read. read.torn.items ≡ torn_of bytes.now) }
    ensures readable { IfOk result (λ _. IsReadable bytes.now) }
    ensures refused { IfErr result (λ fault. (fault ≡ Memory) ⊎ RefusesFile bytes.now fault) }
{
    let found = find_batches(alloc, bytes)?;
    let whole = closed_at(alloc, bytes, found.end)?;
    Ok(Batches {
        batches: found.batches,
        frames: Frames::of(whole, found.last),
        torn: trimmed(&bytes[found.end..]).to_vec(alloc)?,
    })
}

/// The frames at the front of a file that are right, as a whole file in memory: of a damaged one those before the damage.
pub fn right_front(alloc: Global, bytes: &[u8]) -> Result<Frames, ReadFault>
    ensures front { IfOk result (λ frames. IsRightFront frames bytes.now) }
    ensures damaged { IfOk result (λ frames. (number : ℕ) → IsDamaged number bytes.now → length frames ≡ number) }
    ensures readable { IfOk result (λ frames. IsReadable bytes.now → frames ≡ recovered bytes.now) }
    ensures refused { IfErr result (λ fault. (fault ≡ Memory) ⊎ RefusesHeader bytes.now fault) }
{
    let front = find_front(alloc, bytes)?;
    let whole = closed_at(alloc, bytes, front.end)?;
    Ok(Frames::of(whole, front.last))
}

/// Frames that were found in a file, from the first on.
#[derive(Drop)]
struct Found {
    batches: Vec<Vec<u8>>,
    /// Where the last of them ends.
    end: usize,
    /// Its digest.
    last: [u8; 16],
}

/// All frames of a file.
fn find_batches(alloc: Global, bytes: &[u8]) -> Result<Found, ReadFault>
    ensures found { IfOk result (λ found. IsFound (lists found.batches.items) found.last found.end bytes.now) }
    ensures refused { IfErr result (λ fault. (fault ≡ Memory) ⊎ RefusesFile bytes.now fault) }
{
    let front = find_front(alloc, bytes)?;
    if !is_end(&bytes[front.end..], &front.last) {
        return Err(ReadFault::Damaged(front.batches.len()));
    }
    Ok(front)
}

/// Walks over the frames of a file, as long as they are right.
fn find_front(alloc: Global, bytes: &[u8]) -> Result<Found, ReadFault>
    ensures front { IfOk result (λ front. IsFront (lists front.batches.items) front.last front.end bytes.now) }
    ensures within { IfOk result (λ front. front.end ≤ length bytes.now) }
    ensures refused { IfErr result (λ fault. (fault ≡ Memory) ⊎ RefusesHeader bytes.now fault) }
{
    match version_of(bytes, bytes.len()) {
        Some(3) => {}
        Some(version) => return Err(ReadFault::Version(version)),
        None => return Err(ReadFault::NotState),
    }
    let mut batches = Vec::new(alloc);
    let mut end = HEADER.len();
    let mut last = HEADER;
    while let Some(batch) = first_batch(&bytes[end..], &last) {
        last = digest_at(bytes, end + 5);
        batches.push(batch.to_vec(alloc)?)?;
        end += 21 + batch.len();
    }
    Ok(Found { batches, end, last })
}

/// Whether a file of so many bytes that begins with these is of the first kind: it has no header, and begins with a latch of 1, a
/// batch's length in four bytes, and the batch.
fn is_first_kind(bytes: &[u8], len: usize) -> bool
    ensures { (more : List ℕ) → Begins bytes.now more len → IsTrue result ↔ IsFirstKind (bytes.now ++ more) }
{
    if bytes.len() < 5 || bytes[0] != 1 {
        return false;
    }
    let size = u32::from_be_bytes([bytes[1], bytes[2], bytes[3], bytes[4]]) as usize;
    size + 5 <= len
}

/// Of which version a state file of so many bytes is that begins with these, if it is of one.
pub(crate) fn version_of(bytes: &[u8], len: usize) -> Option<u8>
    ensures some { IfSome result (λ version. (more : List ℕ) → Begins bytes.now more len → IsVersion version (bytes.now ++ more)) }
    ensures none { IfNone result ((more : List ℕ) → Begins bytes.now more len → (version : ℕ) → IsVersion version (bytes.now ++ more) → ⊥) }
{
    if bytes.starts_with(&TITLE) {
        return told_digit(&bytes[TITLE.len()..]);
    }
    if is_first_kind(bytes, len) {
        return Some(1);
    }
    None
}

/// The digit that a line ends with.
fn told_digit(bytes: &[u8]) -> Option<u8>
    ensures some { IfSome result (λ digit. (digit < 10) × (take 2 bytes.now ≡ (48 + digit) ∷ 10 ∷ [])) }
    ensures none { IfNone result ((digit : ℕ) → digit < 10 → take 2 bytes.now ≡ (48 + digit) ∷ 10 ∷ [] → ⊥) }
{
    match bytes {
        [digit @ b'0'..=b'9', b'\n', ..] => Some(*digit - b'0'),
        _ => None,
    }
}

/// Whether these bytes, with which no frame begins, are what an append that was not finished may have left, and zeros.
pub(crate) fn is_end(bytes: &[u8], last: &[u8; 16]) -> bool
    ensures yes { IsTrue result → IsNoFrame last.now bytes.now → IsTorn last.now bytes.now }
    ensures no { IsFalse result → IsTorn last.now bytes.now → ⊥ }
{
    if bytes.len() > MOST_ROOM {
        return false;
    }
    if !is_closed(bytes) {
        return false;
    }
    !hides_frame(bytes, last)
}

/// Whether the bytes begin with a 0 or end with 16.
fn is_closed(bytes: &[u8]) -> bool
    ensures { IsTrue result ↔ IsClosed bytes.now }
{
    if bytes.starts_with(&[0]) {
        return true;
    }
    bytes.ends_with(&[0; 16])
}

/// Whether a frame stands further on, behind the digest that stands where the next one's would, or behind the digest that would be
/// right there.
fn hides_frame(bytes: &[u8], last: &[u8; 16]) -> bool
    ensures { IsTrue result ↔ HidesFrame last.now bytes.now }
{
    if bytes.len() < 21 {
        return false;
    }
    if has_frame_behind(bytes) {
        return true;
    }
    has_frame_due(bytes, last)
}

/// Whether a frame stands anywhere behind the digest that stands where the next one's would.
fn has_frame_behind(bytes: &[u8]) -> bool
    requires { 21 ≤ length bytes.now }
    ensures { IsTrue result ↔ ((take 16 (drop 5 bytes.now) ≢ zeros 16) × HasFrame (take 16 (drop 5 bytes.now)) bytes.now) }
{
    let told = digest_at(bytes, 5);
    if told == [0; 16] {
        return false;
    }
    has_frame(bytes, &told)
}

/// Whether a frame stands anywhere behind that digest.
fn has_frame(bytes: &[u8], before: &[u8; 16]) -> bool
    ensures { IsTrue result ↔ HasFrame before.now bytes.now }
{
    for at in 0..bytes.len() {
        if let Some(_) = first_batch(&bytes[at..], before) {
            return true;
        }
    }
    false
}

/// Whether a frame stands behind as many bytes as a length says, and is right behind the digest that these would have.
fn has_frame_due(bytes: &[u8], last: &[u8; 16]) -> bool
    requires { 21 ≤ length bytes.now }
    ensures { IsTrue result ↔ ((batch : List ℕ) × (more : List ℕ) × IsFrame (digest last.now (first_at bytes.now)) batch more (drop (21 + size_at (drop 1 bytes.now)) bytes.now)) }
{
    let size = u32::from_be_bytes([bytes[1], bytes[2], bytes[3], bytes[4]]) as usize;
    if size > bytes.len() - 21 {
        return false;
    }
    let due = head_of(last, &bytes[21..21 + size]).digest;
    let Some(_) = first_batch(&bytes[21 + size..], &due) else {
        return false;
    };
    true
}

/// The bytes without the zeros at their end.
pub(crate) fn trimmed(bytes: &[u8]) -> &[u8]
    ensures { result.now ≡ without_zeros bytes.now }
{
    let mut size = bytes.len();
    while size > 0 {
        let byte = bytes[size - 1];
        if byte != 0 {
            return &bytes[..size];
        }
        size -= 1;
    }
    &[]
}

/// The batch of the frame at the front, if there is one behind that digest.
pub(crate) fn first_batch<'b>(bytes: &'b [u8], before: &[u8; 16]) -> Option<&'b [u8]>
    ensures some { IfSome result (λ batch. IsFrame before.now batch.now (drop (21 + length batch.now) bytes.now) bytes.now) }
    ensures within { IfSome result (λ batch. 21 + length batch.now ≤ length bytes.now) }
    ensures none { IfNone result (IsNoFrame before.now bytes.now) }
{
    if bytes.len() < 21 {
        return None;
    }
    let mark = bytes[0];
    if mark != 255 {
        return None;
    }
    let size = u32::from_be_bytes([bytes[1], bytes[2], bytes[3], bytes[4]]) as usize;
    if bytes.len() - 21 < size {
        return None;
    }
    let batch = &bytes[21..21 + size];
    if !is_sealed(before, &bytes[1..5], batch, &bytes[5..21]) {
        return None;
    }
    Some(batch)
}

/// Whether this is the digest of all three.
fn is_sealed(before: &[u8; 16], size: &[u8], batch: &[u8], digest: &[u8]) -> bool
    ensures { IsTrue result ↔ (seal (before.now ++ (size.now ++ batch.now)) ≡ digest.now) }
{
    let made = seal(before, size, batch);
    made.as_slice() == digest
}

/// The first 16 bytes of the digest of all three.
fn seal(before: &[u8; 16], size: &[u8], batch: &[u8]) -> [u8; 16]
    ensures { result ≡ seal (before.now ++ (size.now ++ batch.now)) }
{
    let mut hasher = Sha256::new();
    hasher.update(before.as_slice());
    hasher.update(size);
    hasher.update(batch);
    let whole = hasher.finalize();
    let mut out = [0; 16];
    out.copy_from_slice(&whole[..16]);
    out
}

/// What stands between the first byte of a frame and its batch.
#[derive(Clone, Copy)]
pub struct Head {
    /// The length of the batch, and its digest.
    pub bytes: [u8; 20],
    /// Its digest.
    pub digest: [u8; 16],
}

/// The head of a batch behind that digest.
pub fn head_of(before: &[u8; 16], batch: &[u8]) -> Head
    requires { length batch.now < 2 ^ 32 }
    ensures bytes { result.bytes ≡ to_be_bytes w32 (length batch.now) ++ digest before.now batch.now }
    ensures digest { result.digest ≡ digest before.now batch.now }
{
    let size = (batch.len() as u32).to_be_bytes();
    let digest = seal(before, &size, batch);
    let mut bytes = [0; 20];
    bytes[..4].copy_from_slice(&size);
    bytes[4..].copy_from_slice(&digest);
    Head { bytes, digest }
}

/// The 16 bytes at that place.
pub(crate) fn digest_at(bytes: &[u8], at: usize) -> [u8; 16]
    requires { at + 16 ≤ length bytes.now }
    ensures { result ≡ take 16 (drop at bytes.now) }
{
    let mut last = [0; 16];
    last.copy_from_slice(&bytes[at..at + 16]);
    last
}

/// A file up to there, with a zero behind.
fn closed_at(alloc: Global, bytes: &[u8], end: usize) -> Result<Vec<u8>, AllocError>
    requires { end ≤ length bytes.now }
    ensures { IfOk result (λ out. out.items ≡ take end bytes.now ++ 0 ∷ []) }
{
    let mut out = Vec::with_capacity(alloc, end + 1)?;
    out.extend_from_slice(&bytes[..end])?;
    out.push(0)?;
    Ok(out)
}
