//! The batches of a file that is read in pieces, one by one: no more than one of them is in memory.

ghost use Rattle.std.specs.Prelude.{◌≡◌, ◌⊎◌, ◌<◌, ◌≤◌, ◌^◌, ◌+◌, ◌++◌, [], ◌∷◌, List, ℕ, length, IfOk, IfErr, IfSome, IfNone, OnOk, IsTrue, IsFalse};
ghost use Rattle.batch_file.specs.Frames.{frames_size, header, last_of, recovered, torn_of, IsNoFrame, IsReadable, RefusesFile, RefusesHeader};
ghost use Rattle.batch_file.specs.Readers.{ahead, HasRead, IsUnread};
ghost use Rattle.batch_file.specs.ReadersParts.{IsEnd, StaysThere};

use crate::appending::MAX_END;
use crate::framing::{HEADER, MOST_ROOM, ReadFault, is_end, trimmed, version_of};
use crate::source::{ByteSource, PIECE};
use crate::walk::{Walk, is_decided};
use std::alloc::Global;
use system_faults::SystemFault;

/// Reads a file frame by frame.
#[derive(Drop)]
pub struct FrameReader<S> {
    /// What it is read from.
    pub source: S,
    /// Where the walk over its frames stands.
    pub walk: Walk,
    /// The source has no more.
    pub over: bool,
    /// There is no frame behind those that were read.
    pub spent: bool,
}

/// Why a file is not read, and what it was read from.
#[derive(Drop)]
pub struct NotRead<S> {
    /// Why.
    pub fault: ReadFault,
    /// What it was read from.
    pub source: S,
}

/// A file that was read to its end.
#[derive(Drop)]
pub struct ReadOver<S> {
    /// What it was read from.
    pub source: S,
    /// What an append that was not finished left behind the frames.
    pub torn: Vec<u8>,
    /// Where the frames end.
    pub end: usize,
    /// The digest of the last of them.
    pub last: [u8; 16],
}

impl<S: ByteSource + Drop> FrameReader<S> {
    /// Begins to read a file. One that does not begin as a file of batches does is read to its end, to tell why.
    pub fn begin(alloc: Global, mut source: S) -> Result<FrameReader<S>, NotRead<S>>
        requires { S.told source ≡ [] }
        ensures begun { IfOk result (λ reader. HasRead S.told S.is_over [] reader) }
        ensures whole { IfOk result (λ reader. (all : List ℕ) → S.whole source all → S.whole reader.source all) }
        ensures whole_lost { IfErr result (λ lost. (all : List ℕ) → S.whole source all → S.whole lost.source all) }
        ensures refused { IfErr result (λ lost. IsUnread lost.fault ⊎ (S.is_over lost.source × RefusesHeader (S.told lost.source) lost.fault)) }
    {
        match read_front(alloc, &mut source) {
            Ok(front) if front.bytes.starts_with(&HEADER) => Ok(FrameReader {
                source,
                walk: Walk::begin(front.bytes),
                over: front.over,
                spent: false,
            }),
            Ok(front) => {
                let fault = refusal(alloc, &mut source, &front);
                Err(NotRead { fault, source })
            }
            Err(fault) => Err(NotRead { fault, source }),
        }
    }

    /// The next batch, if there is one.
    pub fn next_batch(&mut self, alloc: Global) -> Result<Option<Vec<u8>>, ReadFault>
        ensures read { IfOk result (λ found. IfSome found (λ batch. (batches : List (List ℕ))
            → HasRead S.told S.is_over batches self.old → HasRead S.told S.is_over (batches ++ batch.items ∷ []) self.new)) }
        // Each takes it nearer to the end of the longest file that is read.
        ensures further { IfOk result (λ found. IfSome found (λ _. (self.old.walk.end < self.new.walk.end) × (self.old.walk.end < 2 ^ 60))) }
        ensures none { IfOk result (λ found. IfNone found ((batches : List (List ℕ)) → HasRead S.told S.is_over batches self.old → HasRead S.told S.is_over batches self.new)) }
        ensures spent { IfOk result (λ found. IfNone found (IsTrue self.new.spent)) }
        ensures whole { (all : List ℕ) → S.whole self.old.source all → S.whole self.new.source all }
        ensures refused { IfErr result IsUnread }
    {
        if self.spent {
            return Ok(None);
        }
        self.fill_frame(alloc)?;
        let found = self.walk.next(alloc)?;
        let Some(batch) = found else {
            self.spent = true;
            return Ok(None);
        };
        Ok(Some(batch))
    }

    /// Goes over what is left, and tells whether the file ends as one of batches does.
    pub fn finish(self, alloc: Global) -> Result<ReadOver<S>, NotRead<S>>
        ensures over { IfOk result (λ read. S.is_over read.source) }
        ensures batches { IfOk result (λ read. (batches : List (List ℕ)) → HasRead S.told S.is_over batches self
            → (later : List (List ℕ)) × (recovered (S.told read.source) ≡ batches ++ later) × (IsTrue self.spent → later ≡ [])) }
        ensures readable { IfOk result (λ read. (batches : List (List ℕ)) → HasRead S.told S.is_over batches self → IsReadable (S.told read.source)) }
        ensures torn { IfOk result (λ read. (batches : List (List ℕ)) → HasRead S.told S.is_over batches self → read.torn.items ≡ torn_of (S.told read.source)) }
        ensures end { IfOk result (λ read. (batches : List (List ℕ)) → HasRead S.told S.is_over batches self → read.end ≡ 16 + frames_size (recovered (S.told read.source))) }
        ensures last { IfOk result (λ read. (batches : List (List ℕ)) → HasRead S.told S.is_over batches self → read.last ≡ last_of header (recovered (S.told read.source))) }
        ensures whole { IfOk result (λ read. (all : List ℕ) → S.whole self.source all → S.whole read.source all) }
        ensures whole_lost { IfErr result (λ lost. (all : List ℕ) → S.whole self.source all → S.whole lost.source all) }
        ensures refused { IfErr result (λ lost. IsUnread lost.fault ⊎ ((batches : List (List ℕ)) → HasRead S.told S.is_over batches self
            → S.is_over lost.source × RefusesFile (S.told lost.source) lost.fault)) }
    {
        let mut reader = self;
        match reader.read_end(alloc) {
            Ok(torn) => Ok(ReadOver {
                source: reader.source,
                torn,
                end: reader.walk.end,
                last: reader.walk.last,
            }),
            Err(fault) => Err(NotRead {
                fault,
                source: reader.source,
            }),
        }
    }

    /// What it is read from.
    pub fn into_source(self) -> S
        ensures { result ≡ self.source }
    {
        self.source
    }

    /// Goes over all frames, and gives what an append that was not finished left behind them.
    fn read_end(&mut self, alloc: Global) -> Result<Vec<u8>, ReadFault>
        ensures read { IfOk result (λ torn. (batches : List (List ℕ)) → HasRead S.told S.is_over batches self.old
            → (later : List (List ℕ)) × (IsTrue self.old.spent → later ≡ []) × HasRead S.told S.is_over (batches ++ later) self.new
            × IsEnd (S.told self.new.source) (batches ++ later) self.new.walk.end torn.items) }
        ensures over { OnOk result (S.is_over self.new.source) }
        ensures whole { (all : List ℕ) → S.whole self.old.source all → S.whole self.new.source all }
        ensures refused { IfErr result (λ fault. IsUnread fault ⊎ ((batches : List (List ℕ)) → HasRead S.told S.is_over batches self.old
            → S.is_over self.new.source × RefusesFile (S.told self.new.source) fault)) }
    {
        self.go_over(alloc)?;
        self.fill(alloc, MOST_ROOM + 1)?;
        let more = skip(alloc, &mut self.source, 0)?;
        if !self.over {
            return Err(ReadFault::Damaged(self.walk.number));
        }
        if more > 0 {
            // It has grown since its end was reached.
            return Err(ReadFault::Unread(SystemFault::ResourceBusy));
        }
        let last = self.walk.last;
        let number = self.walk.number;
        let ahead = self.walk.ahead();
        if !is_end(ahead, &last) {
            return Err(ReadFault::Damaged(number));
        }
        Ok(trimmed(ahead).to_vec(alloc)?)
    }

    /// Goes over the frames that are left.
    fn go_over(&mut self, alloc: Global) -> Result<(), ReadFault>
        ensures read { OnOk result ((batches : List (List ℕ)) → HasRead S.told S.is_over batches self.old
            → (later : List (List ℕ)) × (IsTrue self.old.spent → later ≡ []) × HasRead S.told S.is_over (batches ++ later) self.new) }
        ensures spent { OnOk result (IsTrue self.new.spent) }
        ensures whole { (all : List ℕ) → S.whole self.old.source all → S.whole self.new.source all }
        ensures refused { IfErr result IsUnread }
    {
        if self.spent {
            return Ok(());
        }
        'frames: loop {
            let found = self.next_batch(alloc)?;
            let Some(_) = found else {
                return Ok(());
            };
        }
    }

    /// Reads until it is known whether a frame is ahead.
    fn fill_frame(&mut self, alloc: Global) -> Result<(), ReadFault>
        ensures read { OnOk result ((batches : List (List ℕ)) → HasRead S.told S.is_over batches self.old → HasRead S.told S.is_over batches self.new) }
        ensures decided { OnOk result (IsTrue self.new.over ⊎ ((last more : List ℕ) → IsNoFrame last (ahead self.new.walk) → IsNoFrame last (ahead self.new.walk ++ more))) }
        ensures same { OnOk result (StaysThere self.old self.new) }
        ensures whole { (all : List ℕ) → S.whole self.old.source all → S.whole self.new.source all }
        ensures refused { IfErr result IsUnread }
    {
        while !self.over && !is_decided(self.walk.ahead()) {
            self.read_piece(alloc)?;
        }
        Ok(())
    }

    /// Reads until so many bytes are ahead, or the source has no more.
    fn fill(&mut self, alloc: Global, size: usize) -> Result<(), ReadFault>
        ensures read { OnOk result ((batches : List (List ℕ)) → HasRead S.told S.is_over batches self.old → HasRead S.told S.is_over batches self.new) }
        ensures enough { OnOk result (IsFalse self.new.over → size ≤ length (ahead self.new.walk)) }
        ensures same { OnOk result (StaysThere self.old self.new) }
        ensures whole { (all : List ℕ) → S.whole self.old.source all → S.whole self.new.source all }
        ensures refused { IfErr result IsUnread }
    {
        while !self.over && self.walk.ahead().len() < size {
            self.read_piece(alloc)?;
        }
        Ok(())
    }

    /// Reads one piece more.
    fn read_piece(&mut self, alloc: Global) -> Result<(), ReadFault>
        requires { IsFalse self.old.over }
        ensures read { OnOk result ((batches : List (List ℕ)) → HasRead S.told S.is_over batches self.old → HasRead S.told S.is_over batches self.new) }
        ensures grows { OnOk result (IsFalse self.new.over → length (ahead self.old.walk) < length (ahead self.new.walk)) }
        ensures same { OnOk result (StaysThere self.old self.new) }
        ensures whole { (all : List ℕ) → S.whole self.old.source all → S.whole self.new.source all }
        ensures refused { IfErr result IsUnread }
    {
        let piece = self.source.read_some(alloc, PIECE)?;
        self.over = is_none(&piece);
        self.walk.add(alloc, &piece)?;
        Ok(())
    }
}

/// Whether nothing was read.
fn is_none(piece: &[u8]) -> bool
    ensures none { IsTrue result → piece.now ≡ [] }
    ensures some { IsFalse result → 0 < length piece.now }
{
    piece.is_empty()
}

/// The first bytes of a file: as many as a header has, if there are so many.
#[derive(Drop)]
struct Front {
    bytes: Vec<u8>,
    /// There are no more.
    over: bool,
}

/// Reads until a header has been read, or the source has no more.
fn read_front<S: ByteSource>(alloc: Global, source: &mut S) -> Result<Front, ReadFault>
    requires { S.told source.old ≡ [] }
    ensures read { IfOk result (λ front. front.bytes.items ≡ S.told source.new) }
    ensures over { IfOk result (λ front. IsTrue front.over → S.is_over source.new) }
    ensures enough { IfOk result (λ front. IsFalse front.over → 16 ≤ length front.bytes.items) }
    ensures whole { (all : List ℕ) → S.whole source.old all → S.whole source.new all }
    ensures refused { IfErr result IsUnread }
{
    let mut bytes = Vec::new(alloc);
    while bytes.len() < HEADER.len() {
        let piece = source.read_some(alloc, PIECE)?;
        if piece.is_empty() {
            return Ok(Front { bytes, over: true });
        }
        bytes.extend_from_slice(&piece)?;
    }
    Ok(Front { bytes, over: false })
}

/// Why a file that begins with these bytes, and not with the header, is not read.
fn refusal<S: ByteSource>(alloc: Global, source: &mut S, front: &Front) -> ReadFault
    requires told { front.now.bytes.items ≡ S.told source.old }
    requires over { IsTrue front.now.over → S.is_over source.old }
    requires enough { IsFalse front.now.over → 16 ≤ length front.now.bytes.items }
    requires other { (rest : List ℕ) → front.now.bytes.items ≡ header ++ rest → ⊥ }
    ensures refused { IsUnread result ⊎ (S.is_over source.new × RefusesHeader (S.told source.new) result) }
    ensures whole { (all : List ℕ) → S.whole source.old all → S.whole source.new all }
{
    let mut size = front.bytes.len();
    if !front.over {
        match skip(alloc, source, size) {
            Ok(all) => size = all,
            Err(fault) => return fault,
        }
    }
    match version_of(&front.bytes, size) {
        Some(version) => ReadFault::Version(version),
        None => ReadFault::NotState,
    }
}

/// Reads to the end without holding what is read. It gives how many bytes there are, with those before.
fn skip<S: ByteSource>(alloc: Global, source: &mut S, before: usize) -> Result<usize, ReadFault>
    ensures read { IfOk result (λ size. (rest : List ℕ) × (S.told source.new ≡ S.told source.old ++ rest) × (size ≡ before + length rest)) }
    ensures over { OnOk result (S.is_over source.new) }
    ensures whole { (all : List ℕ) → S.whole source.old all → S.whole source.new all }
    ensures refused { IfErr result IsUnread }
{
    let mut size = before;
    while size < MAX_END {
        let piece = source.read_some(alloc, PIECE)?;
        if piece.is_empty() {
            return Ok(size);
        }
        size += piece.len();
    }
    Err(ReadFault::Unread(SystemFault::FileTooLarge))
}
