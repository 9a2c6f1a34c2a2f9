//! A store's codes and tokens as values.
ghost use Rattle.std.specs.Prelude.{◌≡◌, filter, IfOk};
ghost use Rattle.consent.specs.History.{is_unexpired};
ghost use Rattle.shelf.specs.Shelved.{slot_at};
ghost use Rattle.shelf.specs.Standing.{stand_slots};
ghost use Rattle.token_store.specs.Image.{as_kept, kept_record};
ghost use Rattle.token_store.specs.Records.{kept_of, kept_under, IsTied};
ghost use Rattle.token_store.specs.RecordsParts.{IsFamilyOf, IsShownIn};

use crate::record::{Given, Record, Shared};
use crate::tables::Tables;
use consent::{Digest, KeptKind, KeptRecord, Moment};
use std::alloc::{AllocError, Global};

impl Record {
    // What the record is under the digest, with what its family shares.
    fn kept(&self, digest: &Digest, shared: &Shared) -> KeptRecord<'_>
        ensures { kept_record result ≡ kept_under shared.now digest.now self.now }
    {
        let kind = match &self.given {
            Given::Code(_, texts) => KeptKind::Code {
                owner: texts.owner,
                redirect: texts.redirect.as_str(),
                challenge: texts.challenge.as_str(),
            },
            Given::UsedCode(_, owner) => KeptKind::Code {
                owner: *owner,
                redirect: "",
                challenge: "",
            },
            Given::Token(.., kind) => KeptKind::Token(*kind),
        };
        KeptRecord {
            digest: *digest,
            kind,
            family: self.family,
            client: shared.client,
            owner: shared.owner,
            scope: self.scope,
            moment: self.moment,
            life: self.life(),
            code_scope: shared.code_scope(),
            spent: self.is_spent(),
            ended: shared.ended,
        }
    }
}

impl Tables {
    // What is in the slot, if it is unexpired.
    fn unexpired_in(&self, slot: usize, moment: Moment) -> Option<KeptRecord<'_>>
        requires { IsFamilyOf self.now.families.entries (slot_at (stand_slots self.now.records) slot) }
        ensures { IsShownIn self.now.families.entries moment (slot_at (stand_slots self.now.records) slot) result }
    {
        let found = self.records.slot(slot)?;
        if !found.kept.is_unexpired(moment) {
            return None;
        }
        let shared = self.families.get(found.kept.family)?;
        Some(found.kept.kept(&found.key, shared))
    }

    /// The unexpired records.
    pub(crate) fn kept_records(
        &self,
        alloc: Global,
        moment: Moment,
    ) -> Result<Vec<KeptRecord<'_>>, AllocError>
        requires tied { IsTied self.now }
        ensures { IfOk result (λ v. as_kept v.items ≡ filter (λ k. is_unexpired moment k.grant) (kept_of self.now)) }
    {
        let mut kept = Vec::new(alloc);
        for slot in 0..self.records.slot_count() {
            let Some(found) = self.unexpired_in(slot, moment) else {
                continue;
            };
            let Ok(()) = kept.push(found) else {
                return Err(AllocError);
            };
        }
        Ok(kept)
    }
}
