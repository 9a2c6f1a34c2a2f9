//! The objects that are open where JSON text is read.

ghost use Rattle.std.specs.Prelude.{◌≡◌, ◌-◌, map, option_copied, [], ◌∷◌, ◌++◌, length, bytes_eq, string_bytes, OnOk, ℕ, List};
ghost use Rattle.std.specs.Option.{option_map_or};
ghost use Rattle.std.specs.List.{list_any};
ghost use Rattle.registry_warnings.specs.Warnings.{last_name, member_read, names_listed, innermost, outer, with_member};

use std::alloc::{AllocError, Global};
use std::marker::Model;

fn stands_among(name: &str, names: &[String]) -> bool
    ensures { result ≡ list_any (λ s. bytes_eq name.now (string_bytes s)) names.now }
{
    names.iter().any(|other| name == other.as_str())
}

fn last_of(names: &[String]) -> Option<&str>
    ensures { option_copied result ≡ last_name (map string_bytes names.now) }
{
    Some(names.last()?.as_str())
}

// The objects that are open, the innermost last, each with the names of its members so far.
#[derive(Drop)]
pub(crate) struct Objects {
    open: Vec<Vec<String>>,
}

impl Model for Objects {
    ghost Value = { List (List (List ℕ)) };

    ghost view = { λ objects. map names_listed objects.open.items };
}

impl Objects {
    pub(crate) fn new(alloc: Global) -> Objects
        ensures { result ≡ [] }
    {
        Objects {
            open: Vec::new(alloc),
        }
    }

    // How many are open.
    pub(crate) fn depth(&self) -> usize
        ensures { result ≡ length self.now }
    {
        self.open.len()
    }

    // The name of the registry's member that is read.
    pub(crate) fn place(&self) -> Option<&str>
        ensures { option_copied result ≡ member_read self.now }
    {
        last_of(self.open.first()?)
    }

    // The names of the members of the innermost one.
    fn innermost(&self) -> &[String]
        ensures { map string_bytes result.now ≡ innermost self.now }
    {
        match self.open.last() {
            Some(names) => names,
            None => &[],
        }
    }

    // The name of the member of the innermost one that is read.
    pub(crate) fn member(&self) -> Option<&str>
        ensures { option_copied result ≡ last_name (innermost self.now) }
    {
        last_of(self.innermost())
    }

    // One more is open.
    pub(crate) fn begin(&mut self, alloc: Global) -> Result<(), AllocError>
        ensures { OnOk result (self.new ≡ self.old ++ [] ∷ []) }
    {
        self.open.push(Vec::new(alloc))?;
        Ok(())
    }

    // The innermost one is closed: the names of its members, if one is open.
    pub(crate) fn end(&mut self) -> Option<Vec<String>>
        ensures names { option_map_or names_listed result [] ≡ innermost self.old }
        ensures others { self.new ≡ outer self.old }
    {
        self.open.pop()
    }

    // Whether the innermost one has a member of this name.
    pub(crate) fn has(&self, name: &str) -> bool
        ensures { result ≡ list_any (bytes_eq name.now) (innermost self.now) }
    {
        stands_among(name, self.innermost())
    }

    // The innermost one has a further member of this name.
    pub(crate) fn take(&mut self, alloc: Global, name: &str) -> Result<(), AllocError>
        ensures { OnOk result (self.new ≡ with_member name.now self.old) }
    {
        let own = String::from_str(alloc, name)?;
        let mut names = self.end().unwrap_or(Vec::new(alloc));
        names.push(own)?;
        self.open.push(names)?;
        Ok(())
    }
}
