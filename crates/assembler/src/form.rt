//! The forms of operands: registers, numbers and targets, whatever their values.

ghost use Rattle.std.specs.Prelude.{◌≡◌, map, MatchBool};
ghost use Rattle.assembler.specs.Forms.{kinds_of, HaveKinds, IsOfKind};

use crate::operand::{is_distance, is_name, is_number, register};
use assembly::mnemonic::Mnemonic;

/// What stands at the place of an operand.
#[derive(Clone, Copy, Debug, PartialEq, Eq)]
pub enum OperandKind {
    Register,
    /// A register or a number.
    Source,
    Number,
    /// How far a jump leads, or a label.
    Target,
}

impl OperandKind {
    /// Whether a word has the form of such an operand.
    fn accepts(self, word: &[u8]) -> bool
        ensures { MatchBool result (IsOfKind self word.now) (¬ (IsOfKind self word.now)) }
    {
        match self {
            OperandKind::Register => register(word).is_some(),
            OperandKind::Source => register(word).is_some() || is_number(word),
            OperandKind::Number => is_number(word),
            OperandKind::Target => is_distance(word) || is_name(word),
        }
    }
}

/// Whether words have the forms of operands.
pub fn have_form(kinds: &[OperandKind], words: &[&[u8]]) -> bool
    ensures { MatchBool result (HaveKinds kinds.now (map (λ word. word.now) words.now))
        (¬ (HaveKinds kinds.now (map (λ word. word.now) words.now))) }
{
    match (kinds.split_first(), words.split_first()) {
        (None, None) => true,
        (None, Some(_)) => false,
        (Some(_), None) => false,
        (Some((kind, kinds)), Some((word, words))) => {
            if !kind.accepts(word) {
                return false;
            }
            have_form(kinds, words)
        }
    }
}

/// The kinds of the operands behind a mnemonic.
pub fn kinds(mnemonic: Mnemonic) -> &'static [OperandKind]
    ensures { result.now ≡ kinds_of mnemonic }
{
    match mnemonic {
        Mnemonic::Alu(_, _) | Mnemonic::Divide(_, _) | Mnemonic::Remainder(_, _) => {
            &[OperandKind::Register, OperandKind::Source]
        }
        Mnemonic::Negate(_) | Mnemonic::SwapBytes(_, _) => &[OperandKind::Register],
        Mnemonic::MoveSigned(_) => &[OperandKind::Register, OperandKind::Register],
        Mnemonic::LoadWide => &[OperandKind::Register, OperandKind::Number],
        Mnemonic::Load(_) | Mnemonic::LoadSigned(_) => &[
            OperandKind::Register,
            OperandKind::Register,
            OperandKind::Number,
        ],
        Mnemonic::StoreReg(_) => &[
            OperandKind::Register,
            OperandKind::Number,
            OperandKind::Register,
        ],
        Mnemonic::StoreImm(_) => &[
            OperandKind::Register,
            OperandKind::Number,
            OperandKind::Number,
        ],
        Mnemonic::Jump | Mnemonic::JumpLong => &[OperandKind::Target],
        Mnemonic::JumpIf(_, _) => &[
            OperandKind::Register,
            OperandKind::Source,
            OperandKind::Target,
        ],
        Mnemonic::Exit => &[],
    }
}
