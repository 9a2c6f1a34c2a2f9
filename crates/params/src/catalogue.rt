// The catalogue of scope names, and sets of them as masks.
ghost use Rattle.std.specs.Prelude.{◌≡◌, ◌<◌, ◌≤◌, ◌^◌, ℕ, List, [], ◌∷◌, ◌++◌, length, OnOk, OnErr, IfOk, IfErr, IfSome, Some, None, is_some, map, string_bytes};
ghost use Rattle.params.specs.declared.catalogue.CatalogueFault.TheVariants.{Memory};
ghost use Rattle.params.specs.Limits.{scope_text_limit};
ghost use Rattle.params.specs.Scope.{IsNameRefusal, IsReadBack, name_fault, scope_mask, scope_text, text_with_name, place_among, is_among, is_scope_token, is_scope_character, IsCatalogue};

use consent::ScopeSet;
use std::alloc::{AllocError, AllocFailed, Global};
use std::fmt;
use std::marker::Model;

// The bits of a mask.
const MOST_NAMES: usize = 64;

const LONGEST_NAME: usize = 32;

/// Why a scope name is not taken into a catalogue.
#[derive(Clone, Copy, Debug, PartialEq, Eq)]
pub enum CatalogueFault {
    /// The name isn't a scope token (RFC 6749, section 3.3).
    BadScope,
    /// The name has more than 32 characters.
    TooLong,
    /// The name stands in the catalogue.
    Twice,
    /// The catalogue has 64 names.
    Full,
    /// Memory gave out.
    Memory,
}

impl fmt::Display for CatalogueFault {
    fn fmt<W: fmt::Write>(&self, f: &mut fmt::Formatter<W>) -> fmt::Result {
        write!(f, "{self:?}")
    }
}

impl From<AllocError> for CatalogueFault {
    ghost from_gives = { λ _ fault. fault ≡ Memory };

    fn from(_error: AllocError) -> CatalogueFault {
        CatalogueFault::Memory
    }
}

impl<T: Drop> From<AllocFailed<T>> for CatalogueFault {
    ghost from_gives = { λ _ fault. fault ≡ Memory };

    fn from(_error: AllocFailed<T>) -> CatalogueFault {
        CatalogueFault::Memory
    }
}

/// The scope names that a server knows, at most 64, no two equal. Bit i of a mask stands for name i.
#[derive(Drop)]
pub struct Catalogue {
    names: Vec<String>,
}

impl Model for Catalogue {
    ghost Value = { List (List ℕ) };

    ghost view = { λ a. map string_bytes a.names.items };

    ghost invariant = { λ a. IsCatalogue (map string_bytes a.names.items) };
}

impl Catalogue {
    /// A catalogue without names.
    pub fn new(alloc: Global) -> Catalogue
        ensures { result ≡ [] }
    {
        Catalogue {
            names: Vec::new(alloc),
        }
    }

    /// The names, in their order.
    pub fn names(&self) -> &[String]
        ensures { map string_bytes result.now ≡ self.now }
    {
        &self.names
    }

    /// Takes a further name, which the next bit stands for.
    pub fn push(&mut self, name: &str) -> Result<(), CatalogueFault>
        // Faults are tested in their order, and Memory comes after all tests.
        ensures ok { OnOk result (name_fault self.old name.now ≡ None) }
        ensures pushed { OnOk result (self.new ≡ self.old ++ name.now ∷ []) }
        ensures err { IfErr result (IsNameRefusal self.old name.now) }
        ensures unchanged { OnErr result (self.new ≡ self.old) }
    {
        if let Some(fault) = self.fault_of(name) {
            return Err(fault);
        }
        let name = String::from_str(*self.names.allocator(), name)?;
        self.names.push(name)?;
        Ok(())
    }

    /// The set that a scope text stands for: tokens of the catalogue with one space between two, in any order, where
    /// a token may stand twice (RFC 6749, section 3.3). `None` for any other text, the empty one too.
    pub fn scope_mask(&self, text: &str) -> Option<ScopeSet>
        ensures mask { result ≡ scope_mask self.now text.now }
        ensures within { IfSome result (λ mask. (0 < mask) × (mask < 2 ^ length self.now)) }
    {
        let mut mask = 0;
        for token in text.split(' ') {
            mask |= 1 << place_among(&self.names, token)?;
        }
        Some(ScopeSet::new(mask))
    }

    /// The one written text of a set: its names in catalogue order, one space between two (RFC 6749, section 3.3).
    /// Bits past the catalogue stand for nothing, and the empty set has the empty text, which takes no memory.
    pub fn scope_text(&self, alloc: Global, mask: ScopeSet) -> Result<String, AllocError>
        ensures text { IfOk result (λ text. string_bytes text ≡ scope_text self.now mask) }
        ensures read_back { IfOk result (λ text. IsReadBack self.now mask (string_bytes text)) }
        ensures short { IfOk result (λ text. length (string_bytes text) ≤ scope_text_limit) }
        ensures err { IfErr result (λ _. 0 < length (scope_text self.now mask)) }
    {
        let mut text = String::new(alloc);
        let mut left = mask.bits();
        for name in &self.names {
            if left % 2 == 1 {
                append_name(&mut text, name)?;
            }
            left /= 2;
        }
        Ok(text)
    }

    // Why a further name would not be taken, memory aside.
    fn fault_of(&self, name: &str) -> Option<CatalogueFault>
        ensures { result ≡ name_fault self.now name.now }
    {
        if !is_scope_token(name.as_bytes()) {
            return Some(CatalogueFault::BadScope);
        }
        if name.len() > LONGEST_NAME {
            return Some(CatalogueFault::TooLong);
        }
        if place_among(&self.names, name).is_some() {
            return Some(CatalogueFault::Twice);
        }
        if self.names.len() >= MOST_NAMES {
            return Some(CatalogueFault::Full);
        }
        None
    }
}

// Puts a name behind the others, with a space between two.
fn append_name(text: &mut String, name: &str) -> Result<(), AllocError>
    ensures { OnOk result (string_bytes text.new ≡ text_with_name (string_bytes text.old) name.now) }
{
    if !text.is_empty() {
        text.push(' ')?;
    }
    text.push_str(name)
}

// The place of the name among the names, which is the number of its bit.
fn place_among(names: &[String], name: &str) -> Option<usize>
    ensures place { result ≡ place_among name.now (map string_bytes names.now) }
    ensures found { is_some result ≡ is_among name.now (map string_bytes names.now) }
{
    names.iter().position(|known| name == known.as_str())
}

// RFC 6749, section 3.3.
fn is_scope_token(text: &[u8]) -> bool
    ensures { result ≡ is_scope_token text.now }
{
    !text.is_empty() && text.iter().all(|&byte| is_scope_character(byte))
}

fn is_scope_character(byte: u8) -> bool
    ensures { result ≡ is_scope_character byte }
{
    matches!(byte, 0x21 | 0x23..=0x5B | 0x5D..=0x7E)
}
