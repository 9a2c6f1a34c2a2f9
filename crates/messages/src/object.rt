//! A JSON object, written member by member.
ghost use Rattle.std.specs.Prelude.{◌≡◌, [], ◌∷◌, ◌++◌, IfOk, OnOk, decimal, map};
ghost use Rattle.std.specs.List.{flat_map};
ghost use Rattle.json.specs.Token.{begin_object, end_object, begin_array, end_array, key, string, number, boolean};
ghost use Rattle.json.specs.Print.{print};
ghost use Rattle.messages.specs.Members.{member_tokens};

use crate::member::Member;
use json::Writer;
use std::alloc::{AllocError, Global};

// Room for what stands in an object beside its longest text: names, numbers, identifiers and token texts.
const REST: usize = 256;

/// What has been written of an object.
#[derive(Drop)]
pub struct Object {
    pub json: Writer,
    ghost alone: { json.before ≡ [] },
}

impl Object {
    /// An object without members, with room for a longest text of so many bytes.
    pub fn new(alloc: Global, longest: usize) -> Result<Object, AllocError>
        ensures { IfOk result (λ object. object.json.tokens ≡ begin_object ∷ []) }
    {
        let mut json = Writer::new(Vec::with_capacity(alloc, longest.saturating_add(REST))?);
        json.begin_object()?;
        Ok(Object { json })
    }

    /// One more member, a text.
    pub fn text(&mut self, name: &str, text: &str) -> Result<(), AllocError>
        ensures { OnOk result (self.new.json.tokens ≡ self.old.json.tokens ++ key name.now ∷ string text.now ∷ []) }
    {
        self.json.key(name)?;
        self.json.string(text)
    }

    /// One more member, a number.
    pub fn number(&mut self, name: &str, value: u64) -> Result<(), AllocError>
        ensures { OnOk result (self.new.json.tokens ≡ self.old.json.tokens ++ key name.now ∷ number (decimal value) ∷ []) }
    {
        self.json.key(name)?;
        self.json.u64(value)
    }

    /// One more member, true or false.
    pub fn boolean(&mut self, name: &str, value: bool) -> Result<(), AllocError>
        ensures { OnOk result (self.new.json.tokens ≡ self.old.json.tokens ++ key name.now ∷ boolean value ∷ []) }
    {
        self.json.key(name)?;
        self.json.boolean(value)
    }

    /// One more member begins, an object.
    pub fn begin(&mut self, name: &str) -> Result<(), AllocError>
        ensures { OnOk result (self.new.json.tokens ≡ self.old.json.tokens ++ key name.now ∷ begin_object ∷ []) }
    {
        self.json.key(name)?;
        self.json.begin_object()
    }

    /// The object that began last ends.
    pub fn end(&mut self) -> Result<(), AllocError>
        ensures { OnOk result (self.new.json.tokens ≡ self.old.json.tokens ++ end_object ∷ []) }
    {
        self.json.end_object()
    }

    /// One more member, a list of texts.
    pub fn texts(&mut self, name: &str, texts: &[&str]) -> Result<(), AllocError>
        ensures { OnOk result (self.new.json.tokens ≡ self.old.json.tokens ++ key name.now ∷ begin_array ∷ map (λ text. string text.now) texts.now ++ end_array ∷ []) }
    {
        self.json.key(name)?;
        self.json.begin_array()?;
        for text in texts {
            self.json.string(text)?;
        }
        self.json.end_array()
    }

    /// One more member.
    pub fn member(&mut self, member: &Member<'_>) -> Result<(), AllocError>
        ensures { OnOk result (self.new.json.tokens ≡ self.old.json.tokens ++ member_tokens member.now) }
    {
        match *member {
            Member::Text(name, text) => self.text(name, text),
            Member::Number(name, value) => self.number(name, value),
            Member::Texts(name, texts) => self.texts(name, texts),
        }
    }

    /// More members.
    pub fn members(&mut self, members: &[Member<'_>]) -> Result<(), AllocError>
        ensures { OnOk result (self.new.json.tokens ≡ self.old.json.tokens ++ flat_map member_tokens members.now) }
    {
        for member in members {
            self.member(member)?;
        }
        Ok(())
    }

    /// The object's text.
    pub fn finish(self) -> Result<Vec<u8>, AllocError>
        ensures { IfOk result (λ text. text.items ≡ print (self.json.tokens ++ end_object ∷ [])) }
    {
        let mut json = self.json;
        json.end_object()?;
        Ok(json.into_inner())
    }
}
