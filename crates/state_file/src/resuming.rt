//! Making a server of the bytes of a state file.

ghost use Rattle.std.specs.Prelude.{◌≡◌, ◌⊎◌, [], ◌∷◌, ℕ, List, Some, None, true, false, IfOk, IfErr, OnOk};
ghost use Rattle.batch_file.specs.Frames.{header, last_of, lists, recovered, torn_of, IsReadable, RefusesFile};
ghost use Rattle.batch_file.specs.Readers.{IsUnread};
ghost use Rattle.endpoints.specs.Server.{Outset, outset_of};
ghost use Rattle.state_file.specs.Going.{HasGone, IsResumed};
ghost use Rattle.state_file.specs.Knowing.{end_of};
ghost use Rattle.state_file.specs.Making.{GivesBack, IsOfFile, IsOfHooks, StopsReading};
ghost use Rattle.state_file.specs.Resuming.{RefusesResume, RefuseServer};
ghost use Rattle.state_file.specs.declared.fault.StateFault.TheVariants.{Memory};

use crate::fault::StateFault;
use crate::front::Front;
use crate::gone::Gone;
use crate::known::Known;
use crate::restored::Restored;
use crate::rules_told::{Spelled, rules_behind};
use batch_file::reader::{FrameReader, NotRead, ReadOver};
use batch_file::source::ByteSource;
use clients::Registry;
use hook_host::HookHost;
use std::alloc::Global;

/// Why nothing is made of a state file.
#[derive(Drop)]
pub struct Unprepared {
    pub fault: StateFault,
    /// The registry, where its rules are not taken.
    pub registry: Option<Registry>,
}

/// A server that was made of a state file, and what is behind the batches that were read.
#[derive(Drop)]
pub(crate) struct Resumed<H> {
    pub(crate) restored: Restored<H>,
    /// The batches that were read.
    pub(crate) front: Front,
    /// Where the last of them ends.
    pub(crate) end: usize,
    /// Its digest.
    pub(crate) last: [u8; 16],
    /// The rules, unless they were told last.
    pub(crate) behind: Vec<Vec<u8>>,
    /// What is known of all of them.
    pub(crate) known: Known,
    /// What an unfinished write left in the file.
    pub(crate) torn: Vec<u8>,
}

/// A source that was read, and what was made of it.
#[derive(Drop)]
pub(crate) struct Resuming<S, H> {
    pub(crate) source: S,
    pub(crate) resumed: Result<Resumed<H>, Unprepared>,
}

/// A file that was gone over to its end.
#[derive(Drop)]
struct Over<S, H> {
    gone: Gone<H>,
    read: ReadOver<S>,
}

impl From<StateFault> for Unprepared {
    ghost from_gives = { λ fault unprepared. unprepared ≡ record { fault = fault; registry = None } };

    fn from(fault: StateFault) -> Unprepared {
        Unprepared {
            fault,
            registry: None,
        }
    }
}

/// Goes over a file, to its end.
fn go_over<S: ByteSource + Drop, H: HookHost>(
    alloc: Global,
    source: S,
    mut gone: Gone<H>,
) -> Result<Over<S, H>, NotRead<S>>
    requires begun { S.told source ≡ [] }
    requires none { gone.front.batches ≡ [] }
    ensures gone { IfOk result (λ over. (outset : Outset H) → HasGone H.HookHost outset gone → HasGone H.HookHost outset over.gone) }
    ensures front { IfOk result (λ over. over.gone.front.batches ≡ recovered (S.told over.read.source)) }
    ensures readable { IfOk result (λ over. IsReadable (S.told over.read.source)) }
    ensures torn { IfOk result (λ over. over.read.torn.items ≡ torn_of (S.told over.read.source)) }
    ensures end { IfOk result (λ over. over.read.end ≡ end_of (recovered (S.told over.read.source))) }
    ensures last { IfOk result (λ over. over.read.last ≡ last_of header (recovered (S.told over.read.source))) }
    ensures over { IfOk result (λ over. S.is_over over.read.source) }
    ensures whole { IfOk result (λ over. (all : List ℕ) → S.whole source all → S.whole over.read.source all) }
    ensures whole_lost { IfErr result (λ not. (all : List ℕ) → S.whole source all → S.whole not.source all) }
    ensures refused { IfErr result (λ not. IsUnread not.fault ⊎ (S.is_over not.source × RefusesFile (S.told not.source) not.fault)) }
{
    let mut reader = FrameReader::begin(alloc, source)?;
    if let Err(fault) = gone.go_on(alloc, &mut reader) {
        let source = reader.into_source();
        return Err(NotRead { fault, source });
    }
    let read = reader.finish(alloc)?;
    Ok(Over { gone, read })
}

/// A copy of rules, unless they were told last.
fn behind_of(alloc: Global, rules: &Spelled) -> Result<Vec<Vec<u8>>, StateFault>
    ensures told { IfOk result (λ behind. rules.now.told ≡ true → lists behind.items ≡ []) }
    ensures untold { IfOk result (λ behind. rules.now.told ≡ false → lists behind.items ≡ rules.now.bytes.items ∷ []) }
    ensures refused { IfErr result (λ fault. fault ≡ Memory) }
{
    let mut behind = Vec::new(alloc);
    if !rules.told {
        behind.push(rules.bytes.as_slice().to_vec(alloc)?)?;
    }
    Ok(behind)
}

impl<H: HookHost> Gone<H> {
    /// What is made of the batches, which end there with that digest, once all were gone over.
    fn resume(
        self,
        alloc: Global,
        end: usize,
        last: [u8; 16],
        torn: Vec<u8>,
    ) -> Result<Resumed<H>, Unprepared>
        requires end { end ≡ end_of self.front.batches }
        requires last { last ≡ last_of header self.front.batches }
        ensures resumed { IfOk result (λ resumed. (outset : Outset H) → HasGone H.HookHost outset self → (bytes : List ℕ) →
            self.front.batches ≡ recovered bytes → torn.items ≡ torn_of bytes → IsResumed H.HookHost bytes outset resumed) }
        ensures refused { IfErr result (λ not. (outset : Outset H) → HasGone H.HookHost outset self →
            RefuseServer H.HookHost outset self.front.batches not.fault) }
        ensures back { IfErr result (λ not. (outset : Outset H) → HasGone H.HookHost outset self →
            GivesBack not.fault → not.registry ≡ Some self.redoing.remade.server.rules) }
    {
        let Gone {
            redoing,
            telling,
            measures,
            front,
        } = self;
        let rules = match rules_behind(alloc, telling.as_slice(), redoing.rules()) {
            Ok(rules) => rules,
            Err(fault) => {
                let registry = Some(redoing.into_rules());
                return Err(Unprepared { fault, registry });
            }
        };
        let restored = redoing.finish(measures.until)?;
        let behind = behind_of(alloc, &rules)?;
        let known = Known {
            rules: rules.bytes,
            shortened: measures.shortened,
            until: measures.until,
        };
        Ok(Resumed {
            restored,
            front,
            end,
            last,
            behind,
            known,
            torn,
        })
    }
}

/// Makes a server of a state file: all changes that it tells are made again under these rules. It goes on from no moment before the
/// file's horizons. What is wrong with the file comes first, then what is with its rules, and then with its changes.
pub(crate) fn resume<S: ByteSource + Drop, H: HookHost>(
    alloc: Global,
    source: S,
    registry: Registry,
    host: H,
) -> Resuming<S, H>
    requires begun { S.told source ≡ [] }
    ensures over { OnOk result.resumed (S.is_over result.source) }
    ensures whole { (all : List ℕ) → S.whole source all → S.whole result.source all }
    ensures resumed { IfOk result.resumed (IsResumed H.HookHost (S.told result.source) (outset_of registry host)) }
    ensures refused { IfErr result.resumed (λ not. StopsReading not.fault
        ⊎ (S.is_over result.source × RefusesResume H.HookHost (outset_of registry host) (S.told result.source) not.fault)) }
    ensures readable { OnOk result.resumed (IsReadable (S.told result.source)) }
    ensures damaged { IfErr result.resumed (λ not. IsOfFile not.fault ⊎ IsReadable (S.told result.source)) }
    ensures back { IfErr result.resumed (λ not. GivesBack not.fault → not.registry ≡ Some registry) }
    ensures hookless { IfErr result.resumed (λ not. IsOfHooks not.fault → ⊥) }
{
    let gone = Gone::new(alloc, registry, host);
    match go_over(alloc, source, gone) {
        Ok(Over { gone, read }) => Resuming {
            source: read.source,
            resumed: gone.resume(alloc, read.end, read.last, read.torn),
        },
        Err(NotRead { fault, source }) => Resuming {
            source,
            resumed: Err(Unprepared {
                fault: StateFault::from(fault),
                registry: None,
            }),
        },
    }
}
