//! A code or token as a store keeps it, from which a store is made again.

ghost use Rattle.consent.specs.RecordFacts.{KindFact, kind_fact, RecordFact, record_fact};
ghost use Rattle.consent.specs.RecordFormats.{kept_kind_format, record_format};

use crate::digest::Digest;
use crate::grant::TokenKind;
use crate::numbers::{ClientNo, Moment, OwnerNo};
use crate::scope::ScopeSet;
use wire::{DecodeFault, EncodeFault, Fault, FromWire, Reader, Wire};

/// What was given. The texts of a code that was used are empty.
#[derive(Clone, Copy)]
pub enum KeptKind<'a> {
    Code {
        owner: OwnerNo,
        redirect: &'a str,
        challenge: &'a str,
    },
    Token(TokenKind),
}

/// A code or token as a store keeps it, with what it shares with its family.
#[derive(Clone, Copy)]
pub struct KeptRecord<'a> {
    pub digest: Digest,
    pub kind: KeptKind<'a>,
    /// One number for each family, and no two with the same.
    pub family: u64,
    pub client: ClientNo,
    /// 0 where the family is the client's own.
    pub owner: u32,
    pub scope: ScopeSet,
    pub moment: Moment,
    pub life: u32,
    /// The scope of the family's code, if one opened it.
    pub code_scope: Option<ScopeSet>,
    pub spent: bool,
    pub ended: bool,
}

#[tactic(auto, unfolding(crate::specs::RecordFormats::kept_kind_format))]
impl Wire for KeptKind<'_> {
    ghost Value = { KindFact };

    ghost value = { kind_fact };

    ghost format = { kept_kind_format };

    fn put(&self, out: &mut Vec<u8>) -> Result<(), EncodeFault> {
        match self {
            KeptKind::Token(TokenKind::Access) => 0u8.put(out),
            KeptKind::Token(TokenKind::Refresh) => 1u8.put(out),
            KeptKind::Code {
                owner,
                redirect,
                challenge,
            } => {
                2u8.put(out)?;
                owner.put(out)?;
                redirect.put(out)?;
                challenge.put(out)
            }
        }
    }
}

#[tactic(auto, unfolding(crate::specs::RecordFormats::kept_kind_format))]
impl<'a> FromWire<'a> for KeptKind<'a> {
    fn from_wire(from: &mut Reader<'a>) -> Result<KeptKind<'a>, DecodeFault> {
        match from.byte()? {
            0 => Ok(KeptKind::Token(TokenKind::Access)),
            1 => Ok(KeptKind::Token(TokenKind::Refresh)),
            2 => Ok(KeptKind::Code {
                owner: OwnerNo::from_wire(from)?,
                redirect: <&str>::from_wire(from)?,
                challenge: <&str>::from_wire(from)?,
            }),
            _ => Err(DecodeFault::Bytes(Fault::Kind)),
        }
    }
}

#[tactic(auto, unfolding(crate::specs::RecordFormats::record_format))]
impl Wire for KeptRecord<'_> {
    ghost Value = { RecordFact };

    ghost value = { record_fact };

    ghost format = { record_format };

    fn put(&self, out: &mut Vec<u8>) -> Result<(), EncodeFault> {
        self.digest.put(out)?;
        self.kind.put(out)?;
        self.family.put(out)?;
        self.client.put(out)?;
        self.owner.put(out)?;
        self.scope.put(out)?;
        self.moment.put(out)?;
        self.life.put(out)?;
        self.code_scope.put(out)?;
        self.spent.put(out)?;
        self.ended.put(out)
    }
}

#[tactic(auto, unfolding(crate::specs::RecordFormats::record_format))]
impl<'a> FromWire<'a> for KeptRecord<'a> {
    fn from_wire(from: &mut Reader<'a>) -> Result<KeptRecord<'a>, DecodeFault> {
        let digest = Digest::from_wire(from)?;
        match KeptKind::from_wire(from) {
            Ok(kind) => Ok(KeptRecord {
                digest,
                kind,
                family: u64::from_wire(from)?,
                client: ClientNo::from_wire(from)?,
                owner: u32::from_wire(from)?,
                scope: ScopeSet::from_wire(from)?,
                moment: Moment::from_wire(from)?,
                life: u32::from_wire(from)?,
                code_scope: Option::from_wire(from)?,
                spent: bool::from_wire(from)?,
                ended: bool::from_wire(from)?,
            }),
            Err(fault) => Err(fault),
        }
    }
}
