//! What changes are made of, as bytes.

ghost use Rattle.std.specs.Prelude.{ℕ, List};
ghost use Rattle.consent.specs.Formats.{party_format, moment_format, version_format, kind_format, token_format, code_format, home_format, change_format, consent_format};
ghost use Rattle.wire.specs.Format.{u64_format, fixed};
ghost use Rattle.consent.specs.declared.record_version.RecordVersion.{RecordVersion};
ghost use Rattle.consent.specs.declared.grant.TokenKind.{TokenKind};
ghost use Rattle.consent.specs.declared.change.NewToken.{NewToken};
ghost use Rattle.consent.specs.declared.parties.Parties.{Parties};
ghost use Rattle.consent.specs.Facts.{GivenCode, code_of};
ghost use Rattle.consent.specs.History as history;
ghost use Rattle.consent.specs.Changes.{change_of, parties_of};
ghost use Rattle.consent.specs.declared.kept_consent.KeptConsent.{KeptConsent};

use crate::change::{Change, CodeFacts, Home, NewToken};
use crate::digest::Digest;
use crate::grant::TokenKind;
use crate::kept_consent::KeptConsent;
use crate::numbers::{ClientNo, Moment, OwnerNo};
use crate::record_version::RecordVersion;
use crate::scope::ScopeSet;
use wire::{DecodeFault, EncodeFault, Fault, FromWire, Reader, Wire};

impl Wire for ClientNo {
    ghost Value = { ℕ };

    ghost value = { λ n. n };

    ghost format = { party_format };

    fn put(&self, out: &mut Vec<u8>) -> Result<(), EncodeFault> {
        self.get().put(out)
    }
}

impl<'a> FromWire<'a> for ClientNo {
    fn from_wire(from: &mut Reader<'a>) -> Result<ClientNo, DecodeFault> {
        let number = u32::from_wire(from)?;
        if number == 0 {
            return Err(DecodeFault::Bytes(Fault::Number));
        }
        Ok(ClientNo::new(number))
    }
}

impl Wire for OwnerNo {
    ghost Value = { ℕ };

    ghost value = { λ n. n };

    ghost format = { party_format };

    fn put(&self, out: &mut Vec<u8>) -> Result<(), EncodeFault> {
        self.get().put(out)
    }
}

impl<'a> FromWire<'a> for OwnerNo {
    fn from_wire(from: &mut Reader<'a>) -> Result<OwnerNo, DecodeFault> {
        let number = u32::from_wire(from)?;
        if number == 0 {
            return Err(DecodeFault::Bytes(Fault::Number));
        }
        Ok(OwnerNo::new(number))
    }
}

impl Wire for Moment {
    ghost Value = { ℕ };

    ghost value = { λ n. n };

    ghost format = { moment_format };

    fn put(&self, out: &mut Vec<u8>) -> Result<(), EncodeFault> {
        self.get().put(out)
    }
}

impl<'a> FromWire<'a> for Moment {
    fn from_wire(from: &mut Reader<'a>) -> Result<Moment, DecodeFault> {
        let seconds = u64::from_wire(from)?;
        if seconds >= 1 << 63 {
            return Err(DecodeFault::Bytes(Fault::Moment));
        }
        Ok(Moment::new(seconds))
    }
}

impl Wire for ScopeSet {
    ghost Value = { ℕ };

    ghost value = { λ scope. scope };

    ghost format = { u64_format };

    fn put(&self, out: &mut Vec<u8>) -> Result<(), EncodeFault> {
        self.bits().put(out)
    }
}

impl<'a> FromWire<'a> for ScopeSet {
    fn from_wire(from: &mut Reader<'a>) -> Result<ScopeSet, DecodeFault> {
        Ok(ScopeSet::new(u64::from_wire(from)?))
    }
}

impl Wire for Digest {
    ghost Value = { List ℕ };

    ghost value = { λ digest. digest };

    ghost format = { fixed 32 };

    fn put(&self, out: &mut Vec<u8>) -> Result<(), EncodeFault> {
        self.bytes().put(out)
    }
}

impl<'a> FromWire<'a> for Digest {
    fn from_wire(from: &mut Reader<'a>) -> Result<Digest, DecodeFault> {
        Ok(Digest::new(<[u8; 32]>::from_wire(from)?))
    }
}

impl Wire for RecordVersion {
    ghost Value = { RecordVersion };

    ghost value = { λ version. version };

    ghost format = { version_format };

    fn put(&self, out: &mut Vec<u8>) -> Result<(), EncodeFault> {
        self.number().put(out)
    }
}

impl<'a> FromWire<'a> for RecordVersion {
    fn from_wire(from: &mut Reader<'a>) -> Result<RecordVersion, DecodeFault> {
        match RecordVersion::numbered(u64::from_wire(from)?) {
            Some(version) => Ok(version),
            None => Err(DecodeFault::Bytes(Fault::RecordVersion)),
        }
    }
}

impl Wire for TokenKind {
    ghost Value = { TokenKind };

    ghost value = { λ kind. kind };

    ghost format = { kind_format };

    fn put(&self, out: &mut Vec<u8>) -> Result<(), EncodeFault> {
        match self {
            TokenKind::Access => 0u8.put(out),
            TokenKind::Refresh => 1u8.put(out),
        }
    }
}

impl<'a> FromWire<'a> for TokenKind {
    fn from_wire(from: &mut Reader<'a>) -> Result<TokenKind, DecodeFault> {
        match from.byte()? {
            0 => Ok(TokenKind::Access),
            1 => Ok(TokenKind::Refresh),
            _ => Err(DecodeFault::Bytes(Fault::Kind)),
        }
    }
}

#[tactic(auto, unfolding(crate::specs::Formats::token_format))]
impl Wire for NewToken {
    ghost Value = { NewToken };

    ghost value = { λ token. token };

    ghost format = { token_format };

    fn put(&self, out: &mut Vec<u8>) -> Result<(), EncodeFault> {
        self.kind.put(out)?;
        self.digest.put(out)?;
        self.scope.put(out)?;
        self.life.put(out)
    }
}

#[tactic(auto, unfolding(crate::specs::Formats::token_format))]
impl<'a> FromWire<'a> for NewToken {
    fn from_wire(from: &mut Reader<'a>) -> Result<NewToken, DecodeFault> {
        Ok(NewToken {
            kind: TokenKind::from_wire(from)?,
            digest: Digest::from_wire(from)?,
            scope: ScopeSet::from_wire(from)?,
            life: u32::from_wire(from)?,
        })
    }
}

#[tactic(auto, unfolding(crate::specs::Formats::code_format))]
impl Wire for CodeFacts<'_> {
    ghost Value = { GivenCode };

    ghost value = { code_of };

    ghost format = { code_format };

    fn put(&self, out: &mut Vec<u8>) -> Result<(), EncodeFault> {
        self.client.put(out)?;
        self.owner.put(out)?;
        self.scope.put(out)?;
        self.redirect.put(out)?;
        self.challenge.put(out)
    }
}

#[tactic(auto, unfolding(crate::specs::Formats::code_format))]
impl<'a> FromWire<'a> for CodeFacts<'a> {
    fn from_wire(from: &mut Reader<'a>) -> Result<CodeFacts<'a>, DecodeFault> {
        Ok(CodeFacts {
            client: ClientNo::from_wire(from)?,
            owner: OwnerNo::from_wire(from)?,
            scope: ScopeSet::from_wire(from)?,
            redirect: <&str>::from_wire(from)?,
            challenge: <&str>::from_wire(from)?,
        })
    }
}

#[tactic(auto, unfolding(crate::specs::Formats::home_format))]
impl Wire for Home {
    ghost Value = { ℕ × Parties };

    ghost value = { λ home. (home.family, parties_of home) };

    ghost format = { home_format };

    fn put(&self, out: &mut Vec<u8>) -> Result<(), EncodeFault> {
        self.family.put(out)?;
        self.client.put(out)?;
        OwnerNo::number_of(self.owner).put(out)
    }
}

#[tactic(auto, unfolding(crate::specs::Formats::home_format))]
impl<'a> FromWire<'a> for Home {
    fn from_wire(from: &mut Reader<'a>) -> Result<Home, DecodeFault> {
        Ok(Home {
            family: u64::from_wire(from)?,
            client: ClientNo::from_wire(from)?,
            owner: OwnerNo::numbered(u32::from_wire(from)?),
        })
    }
}

#[tactic(auto, unfolding(crate::specs::Formats::change_format))]
impl Wire for Change<'_> {
    ghost Value = { history.Change };

    ghost value = { change_of };

    ghost format = { change_format };

    fn put(&self, out: &mut Vec<u8>) -> Result<(), EncodeFault> {
        match self {
            Change::Consented {
                owner,
                client,
                mask,
            } => {
                1u8.put(out)?;
                owner.put(out)?;
                client.put(out)?;
                mask.put(out)
            }
            Change::CodeGiven {
                family,
                facts,
                digest,
            } => {
                2u8.put(out)?;
                family.put(out)?;
                facts.put(out)?;
                digest.put(out)
            }
            Change::Issued { home, token } => {
                3u8.put(out)?;
                home.put(out)?;
                token.put(out)
            }
            Change::Spent { digest } => {
                4u8.put(out)?;
                digest.put(out)
            }
            Change::FamilyEnded { family } => {
                5u8.put(out)?;
                family.put(out)
            }
            Change::HookSet {
                name,
                version,
                code,
            } => {
                6u8.put(out)?;
                name.put(out)?;
                version.put(out)?;
                code.put(out)
            }
            Change::HookGone { name } => {
                7u8.put(out)?;
                name.put(out)
            }
            Change::Numbered { last } => {
                8u8.put(out)?;
                last.put(out)
            }
        }
    }
}

#[tactic(auto, unfolding(crate::specs::Formats::change_format))]
impl<'a> FromWire<'a> for Change<'a> {
    fn from_wire(from: &mut Reader<'a>) -> Result<Change<'a>, DecodeFault> {
        match from.byte()? {
            1 => Ok(Change::Consented {
                owner: OwnerNo::from_wire(from)?,
                client: ClientNo::from_wire(from)?,
                mask: ScopeSet::from_wire(from)?,
            }),
            2 => {
                let family = u64::from_wire(from)?;
                match CodeFacts::from_wire(from) {
                    Ok(facts) => Ok(Change::CodeGiven {
                        family,
                        facts,
                        digest: Digest::from_wire(from)?,
                    }),
                    Err(fault) => Err(fault),
                }
            }
            3 => Ok(Change::Issued {
                home: Home::from_wire(from)?,
                token: NewToken::from_wire(from)?,
            }),
            4 => Ok(Change::Spent {
                digest: Digest::from_wire(from)?,
            }),
            5 => Ok(Change::FamilyEnded {
                family: u64::from_wire(from)?,
            }),
            6 => Ok(Change::HookSet {
                name: <&str>::from_wire(from)?,
                version: RecordVersion::from_wire(from)?,
                code: <&[u8]>::from_wire(from)?,
            }),
            7 => Ok(Change::HookGone {
                name: <&str>::from_wire(from)?,
            }),
            8 => Ok(Change::Numbered {
                last: u64::from_wire(from)?,
            }),
            _ => Err(DecodeFault::Bytes(Fault::Variant)),
        }
    }
}

#[tactic(auto, unfolding(crate::specs::Formats::consent_format))]
impl Wire for KeptConsent {
    ghost Value = { KeptConsent };

    ghost value = { λ consent. consent };

    ghost format = { consent_format };

    fn put(&self, out: &mut Vec<u8>) -> Result<(), EncodeFault> {
        self.owner.put(out)?;
        self.client.put(out)?;
        self.mask.put(out)
    }
}

#[tactic(auto, unfolding(crate::specs::Formats::consent_format))]
impl<'a> FromWire<'a> for KeptConsent {
    fn from_wire(from: &mut Reader<'a>) -> Result<KeptConsent, DecodeFault> {
        Ok(KeptConsent {
            owner: OwnerNo::from_wire(from)?,
            client: ClientNo::from_wire(from)?,
            mask: ScopeSet::from_wire(from)?,
        })
    }
}
