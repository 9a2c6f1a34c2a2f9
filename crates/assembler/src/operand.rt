//! The words of operands: registers, numbers, distances and names.

ghost use Rattle.std.specs.Prelude.{◌≡◌, ◌≢◌, ◌∷◌, ◌<◌, ◌≤◌, ◌^◌, ℕ, ℤ, true, IfSome, IfNone, FitsSigned};
ghost use Rattle.std.specs.Fmt.{decimal, signed_decimal};
ghost use Rattle.std.specs.Int.{w16, w32};
ghost use Rattle.std.specs.List.{list_all};
ghost use Rattle.insn.specs.declared.register.RegNo.{RegNo};
ghost use Rattle.assembly.specs.Text as text;
ghost use Rattle.assembly.specs.Text.{distance_word, register_word};
ghost use Rattle.assembler.specs.Operands.{IsSmall, decimal_value};

use insn::register::RegNo;

/// Whether a byte is a digit.
fn is_digit(byte: u8) -> bool
    ensures { result ≡ text.is_digit byte }
{
    b'0' <= byte && byte <= b'9'
}

/// Whether a byte is a small letter, a digit or an underscore.
fn is_name_byte(byte: u8) -> bool
    ensures { result ≡ text.is_name_byte byte }
{
    (b'a' <= byte && byte <= b'z') || is_digit(byte) || byte == b'_'
}

/// Whether all bytes are digits.
fn all_digits(word: &[u8]) -> bool
    ensures { result ≡ list_all text.is_digit word.now }
{
    word.iter().all(|byte| is_digit(*byte))
}

/// Whether a word is a positive number: digits, of which the first is not 0.
fn is_positive(word: &[u8]) -> bool
    ensures { result ≡ text.is_positive word.now }
{
    match word.split_first() {
        Some((first, _)) => *first >= b'1' && all_digits(word),
        None => false,
    }
}

/// Whether a word is a positive number or 0.
fn is_natural(word: &[u8]) -> bool
    ensures { result ≡ text.is_natural word.now }
{
    is_positive(word) || word == b"0".as_slice()
}

/// Whether a word is a number: a natural one, or a minus and a positive one.
pub fn is_number(word: &[u8]) -> bool
    ensures { result ≡ text.is_number_word word.now }
{
    match word.split_first() {
        Some((b'-', digits)) => is_positive(digits),
        Some(_) => is_natural(word),
        None => false,
    }
}

/// Whether a word is a distance: a plus and a natural number, or a minus and a positive one.
pub fn is_distance(word: &[u8]) -> bool
    ensures { result ≡ text.is_distance word.now }
{
    match word.split_first() {
        Some((b'+', digits)) => is_natural(digits),
        Some((b'-', digits)) => is_positive(digits),
        Some(_) => false,
        None => false,
    }
}

/// Whether all bytes are such.
fn all_name_bytes(word: &[u8]) -> bool
    ensures { result ≡ list_all text.is_name_byte word.now }
{
    word.iter().all(|byte| is_name_byte(*byte))
}

/// The most bytes of a label's name.
const MAX_NAME: usize = 32;

/// Whether a word is a label's name: such bytes, not too many, of which the first is no digit.
pub fn is_name(word: &[u8]) -> bool
    ensures { result ≡ text.is_name word.now }
{
    match word.split_first() {
        Some((first, _)) => { !is_digit(*first) && all_name_bytes(word) && word.len() <= MAX_NAME }
        None => false,
    }
}

/// The number that digits say, where it is below `2^64`.
fn value(digits: &[u8]) -> Option<u64>
    requires { list_all text.is_digit digits.now ≡ true }
    ensures some { IfSome result (λ n. decimal_value digits.now ≡ n) }
    ensures none { IfNone result (2 ^ 64 ≤ decimal_value digits.now) }
{
    let mut number: u64 = 0;
    for digit in digits {
        number = number
            .checked_mul(10)?
            .checked_add(u64::from(*digit - b'0'))?;
    }
    Some(number)
}

/// The natural number of a word, where it is below `2^64`.
#[tactic(auto, using(crate::proofs::Numbers::natural_word, crate::proofs::Numbers::not_decimal, crate::proofs::Numbers::too_great))]
pub fn natural(word: &[u8]) -> Option<u64>
    ensures some { IfSome result (λ n. word.now ≡ decimal n) }
    ensures none { IfNone result ((n : ℕ) → n < 2 ^ 64 → word.now ≢ decimal n) }
{
    if !is_natural(word) {
        return None;
    }
    value(word)
}

/// The negative number of digits that stand behind a minus, where it is above `-2^63`.
fn negative(digits: &[u8]) -> Option<i64>
    ensures some { IfSome result (λ z. (45 ∷ digits.now ≡ signed_decimal z) × IsSmall z) }
    ensures none { IfNone result ((z : ℤ) → IsSmall z → 45 ∷ digits.now ≢ signed_decimal z) }
{
    if !is_positive(digits) {
        return None;
    }
    let size = i64::try_from(value(digits)?).ok()?;
    Some(-size)
}

/// The natural number of a word, where it is below `2^63`.
#[tactic(auto, using(crate::proofs::Numbers::not_plain))]
fn plain(word: &[u8]) -> Option<i64>
    ensures some { IfSome result (λ z. (word.now ≡ signed_decimal z) × IsSmall z) }
    ensures none { IfNone result ((n : ℕ) → n < 2 ^ 63 → word.now ≢ decimal n) }
{
    i64::try_from(natural(word)?).ok()
}

/// The number of a word, where it is within `2^63` of 0.
fn number(word: &[u8]) -> Option<i64>
    ensures some { IfSome result (λ z. (word.now ≡ signed_decimal z) × IsSmall z) }
    ensures none { IfNone result ((z : ℤ) → IsSmall z → word.now ≢ signed_decimal z) }
{
    match word.split_first() {
        Some((b'-', digits)) => negative(digits),
        Some(_) => plain(word),
        None => None,
    }
}

/// The number of a word, where it has 32 bits.
#[tactic(auto, using(crate::proofs::Numbers::small_injective, crate::proofs::Numbers::small_from_32))]
pub fn immediate(word: &[u8]) -> Option<i32>
    ensures some { IfSome result (λ z. (word.now ≡ signed_decimal z) × IsSmall z) }
    ensures none { IfNone result ((z : ℤ) → FitsSigned w32 z → word.now ≢ signed_decimal z) }
{
    i32::try_from(number(word)?).ok()
}

/// The number of a word, where it has 16 bits.
#[tactic(auto, using(crate::proofs::Numbers::small_injective, crate::proofs::Numbers::small_from_16))]
pub fn offset(word: &[u8]) -> Option<i16>
    ensures some { IfSome result (λ z. word.now ≡ signed_decimal z) }
    ensures none { IfNone result ((z : ℤ) → FitsSigned w16 z → word.now ≢ signed_decimal z) }
{
    i16::try_from(number(word)?).ok()
}

/// The distance of a word, where it has 32 bits.
pub fn distance(word: &[u8]) -> Option<i32>
    ensures some { IfSome result (λ z. word.now ≡ distance_word z) }
    ensures none { IfNone result ((z : ℤ) → FitsSigned w32 z → word.now ≢ distance_word z) }
{
    match word.split_first() {
        Some((b'+', digits)) => i32::try_from(natural(digits)?).ok(),
        Some((b'-', _)) => immediate(word),
        Some(_) => None,
        None => None,
    }
}

/// The register of a word.
pub fn register(word: &[u8]) -> Option<RegNo>
    ensures some { IfSome result (λ r. word.now ≡ register_word r) }
    ensures none { IfNone result ((r : RegNo) → word.now ≢ register_word r) }
{
    match word.split_first() {
        Some((b'r', digits)) => RegNo::from_number(natural(digits)?),
        Some(_) => None,
        None => None,
    }
}
