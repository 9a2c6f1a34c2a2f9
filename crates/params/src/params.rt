// The parameters of a query or a form.
ghost use Rattle.std.specs.Prelude.{◌≡◌, ◌==◌, ◌&&◌, ◌<◌, not, length, IfOk, IfErr, Ok, Some, option_copied, ℕ, List};
ghost use Rattle.std.specs.Cow.{cow_str_bytes};
ghost use Rattle.std.specs.List.{list_all};
ghost use Rattle.params.specs.declared.params.ParamFault.TheVariants.{Memory};
ghost use Rattle.params.specs.Form.{IsFormRefusal, lossy_text, read_params, value_sent, has_replacement, any_twice, names_of_pairs, texts_of};

use form_urlencoded::{decode, raw_pairs};
use std::alloc::{AllocError, AllocFailed, Global};
use std::borrow::CowStr;
use std::collections::BTreeMap;
use std::marker::Model;
use std::{fmt, str};

/// Why parameters are refused.
#[derive(Clone, Copy, Debug, PartialEq, Eq)]
pub enum ParamFault {
    /// A name stands twice (RFC 6749, section 3.1).
    Twice,
    /// A name or a value isn't UTF-8, or contains U+FFFD.
    NotUtf8,
    /// Memory gave out.
    Memory,
}

impl fmt::Display for ParamFault {
    fn fmt<W: fmt::Write>(&self, f: &mut fmt::Formatter<W>) -> fmt::Result {
        write!(f, "{self:?}")
    }
}

impl From<AllocError> for ParamFault {
    ghost from_gives = { λ _ fault. fault ≡ Memory };

    fn from(_error: AllocError) -> ParamFault {
        ParamFault::Memory
    }
}

impl<T: Drop> From<AllocFailed<T>> for ParamFault {
    ghost from_gives = { λ _ fault. fault ≡ Memory };

    fn from(_error: AllocFailed<T>) -> ParamFault {
        ParamFault::Memory
    }
}

/// The parameters of a query or a form, in the order in which they were sent, each name once (RFC 6749, section 3.1
/// and appendix B). Names and values that stand there as they are, are no copies.
#[derive(Drop)]
pub struct Params<'a> {
    pairs: Vec<(CowStr<'a>, CowStr<'a>)>,
}

impl<'a> Model for Params<'a> {
    ghost Value = { List (List ℕ × List ℕ) };

    ghost view = { λ a. texts_of a.pairs.items };
}

impl<'a> Params<'a> {
    /// Reads the pairs of `application/x-www-form-urlencoded` bytes. A pair with an empty value counts as not sent,
    /// before anything else is tested of it. Bytes without a pair take no memory.
    pub fn read(alloc: Global, input: &'a [u8]) -> Result<Params<'a>, ParamFault>
        // NotUtf8 is tested before Twice, and Memory may come in place of either.
        ensures ok { IfOk result (λ params. read_params input.now ≡ Ok params) }
        ensures err { IfErr result (IsFormRefusal input.now) }
    {
        let mut pairs = Vec::new(alloc);
        for pair in raw_pairs(input) {
            let name = text_of(alloc, pair.0)?;
            let value = text_of(alloc, pair.1)?;
            if value.is_empty() {
                continue;
            }
            if has_replacement(&name) || has_replacement(&value) {
                return Err(ParamFault::NotUtf8);
            }
            pairs.push((name, value))?;
        }
        if any_twice(alloc, &pairs)? {
            return Err(ParamFault::Twice);
        }
        Ok(Params { pairs })
    }

    /// The value of the parameter, where it was sent.
    pub fn get(&self, name: &str) -> Option<&str>
        ensures { option_copied result ≡ value_sent name.now self.now }
    {
        for (known, value) in &self.pairs {
            if name == known.as_str() {
                return Some(value.as_str());
            }
        }
        None
    }
}

// Whether no byte stands for another one.
fn is_plain(bytes: &[u8]) -> bool
    ensures { result ≡ list_all (λ b. not (b == 43) && not (b == 37)) bytes.now }
{
    bytes.iter().all(|byte| *byte != b'+' && *byte != b'%')
}

// The text that bytes of a form stand for: where it stands there as it is, it is no copy.
#[tactic(auto, using(crate::proofs::Plain::plain_text))]
fn text_of(alloc: Global, bytes: &[u8]) -> Result<CowStr<'_>, AllocError>
    ensures { IfOk result (λ text. cow_str_bytes text ≡ lossy_text bytes.now) }
{
    if is_plain(bytes) {
        if let Ok(text) = str::from_utf8(bytes) {
            return Ok(CowStr::Borrowed(text));
        }
    }
    decode(alloc, bytes)
}

// Whether some name stands twice.
fn any_twice(alloc: Global, pairs: &[(CowStr<'_>, CowStr<'_>)]) -> Result<bool, AllocError>
    ensures ok { IfOk result (λ twice. twice ≡ any_twice (names_of_pairs (texts_of pairs.now))) }
    ensures err { IfErr result (λ _. 0 < length pairs.now) }
{
    if pairs.len() < 2 {
        return Ok(false);
    }
    let mut names = BTreeMap::new(alloc);
    for (name, _) in pairs {
        if names.insert(name.as_str(), ())?.is_some() {
            return Ok(true);
        }
    }
    Ok(false)
}

/// Whether U+FFFD stands in a text: form-decoding puts it where bytes are no UTF-8.
pub fn has_replacement(text: &str) -> bool
    ensures { result ≡ has_replacement text.now }
{
    !text.is_ascii() && text.contains("\u{FFFD}")
}
