//! What the batches of a file come to, one after the other.

ghost use Rattle.std.specs.Prelude.{◌≡◌, ◌++◌, ℕ, List, [], ◌∷◌, IfErr, OnOk, IsTrue};
ghost use Rattle.batch_file.specs.Frames.{lists};
ghost use Rattle.batch_file.specs.Readers.{HasRead, IsUnread};
ghost use Rattle.endpoints.specs.Server.{Outset, outset_of};
ghost use Rattle.state_file.specs.Going.{HasGone, TellAlike};

use crate::front::Front;
use crate::measures::Measures;
use crate::redoing::Redoing;
use crate::rules_told::tells_rules;
use batch_file::framing::ReadFault;
use batch_file::reader::FrameReader;
use batch_file::source::ByteSource;
use clients::Registry;
use hook_host::HookHost;
use std::alloc::Global;

/// What the batches of a file come to that were gone over.
#[derive(Drop)]
pub(crate) struct Gone<H> {
    pub(crate) redoing: Redoing<H>,
    /// The first of them, and the last that tells rules, where that is another: they tell the same rules as all.
    pub(crate) telling: Vec<Vec<u8>>,
    pub(crate) measures: Measures,
    pub(crate) front: Front,
}

/// Keeps a batch where it is the first one, or tells rules: then it takes the place of those that were told before.
#[tactic(auto, using(crate::proofs::Going::noted_first, crate::proofs::Going::noted_rules, crate::proofs::Going::noted_other))]
fn note_rules(telling: &mut Vec<Vec<u8>>, batch: Vec<u8>) -> Result<(), ReadFault>
    ensures alike { OnOk result ((batches : List (List ℕ)) →
        TellAlike batches (lists telling.old.items) → TellAlike (batches ++ batch.items ∷ []) (lists telling.new.items)) }
    ensures refused { IfErr result IsUnread }
{
    if telling.is_empty() {
        telling.push(batch)?;
        return Ok(());
    }
    if tells_rules(&batch) {
        telling.truncate(1);
        telling.push(batch)?;
    }
    Ok(())
}

impl<H: HookHost> Gone<H> {
    /// What no batch comes to.
    pub(crate) fn new(alloc: Global, registry: Registry, host: H) -> Gone<H>
        ensures gone { HasGone H.HookHost (outset_of registry host) result }
        ensures none { result.front.batches ≡ [] }
    {
        Gone {
            redoing: Redoing::new(alloc, registry, host),
            telling: Vec::new(alloc),
            measures: Measures::new(),
            front: Front::new(),
        }
    }

    /// Goes over a batch.
    fn go_over(&mut self, alloc: Global, batch: Vec<u8>) -> Result<(), ReadFault>
        ensures gone { OnOk result ((outset : Outset H) → HasGone H.HookHost outset self.old → HasGone H.HookHost outset self.new) }
        ensures front { OnOk result (self.new.front.batches ≡ self.old.front.batches ++ batch.items ∷ []) }
        ensures refused { IfErr result IsUnread }
    {
        let bytes = batch.as_slice();
        self.redoing.redo(alloc, bytes);
        self.measures.measure(bytes);
        self.front.note(bytes);
        note_rules(&mut self.telling, batch)
    }

    /// Goes over all batches that are left.
    pub(crate) fn go_on<S: ByteSource + Drop>(
        &mut self,
        alloc: Global,
        reader: &mut FrameReader<S>,
    ) -> Result<(), ReadFault>
        ensures gone { OnOk result ((outset : Outset H) → HasGone H.HookHost outset self.old → HasGone H.HookHost outset self.new) }
        ensures read { OnOk result (HasRead S.told S.is_over self.old.front.batches reader.old → HasRead S.told S.is_over self.new.front.batches reader.new) }
        ensures spent { OnOk result (IsTrue reader.new.spent) }
        ensures whole { (all : List ℕ) → S.whole reader.old.source all → S.whole reader.new.source all }
        ensures refused { IfErr result IsUnread }
    {
        while let Some(batch) = reader.next_batch(alloc)? {
            self.go_over(alloc, batch)?;
        }
        Ok(())
    }
}
