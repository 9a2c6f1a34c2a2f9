//! Lines of the text format of Prometheus.
ghost use Rattle.std.specs.Prelude.{◌≡◌, [], ◌∷◌, ◌++◌, IfOk, OnOk, decimal};
ghost use Rattle.std.specs.List.{flat_map};
ghost use Rattle.metrics.specs.Lines.{escaped_byte, family_text, label_text, labelled_line, plain_line};

use std::alloc::{AllocError, Global};

/// Room for the lines of a server with few hooks.
const ROOM: usize = 16_384;

/// A text, line by line.
#[derive(Drop)]
pub(crate) struct Page {
    pub(crate) text: Vec<u8>,
}

/// What a name of numbers is for: each of them has such a name.
#[derive(Clone, Copy)]
pub(crate) struct Family<'a> {
    pub(crate) name: &'a str,
    pub(crate) kind: &'a str,
    pub(crate) help: &'a str,
}

/// A label's name, and what it says.
#[derive(Clone, Copy)]
pub(crate) struct Label<'a> {
    pub(crate) name: &'a str,
    pub(crate) value: &'a [u8],
}

impl Page {
    /// No line.
    pub(crate) fn new(alloc: Global) -> Result<Page, AllocError>
        ensures { IfOk result (λ page. page.text.items ≡ []) }
    {
        Ok(Page {
            text: Vec::with_capacity(alloc, ROOM)?,
        })
    }

    /// These bytes.
    pub(crate) fn put(&mut self, bytes: &[u8]) -> Result<(), AllocError>
        ensures { OnOk result (self.new.text.items ≡ self.old.text.items ++ bytes.now) }
    {
        self.text.extend_from_slice(bytes)
    }

    /// A number.
    pub(crate) fn number(&mut self, value: u64) -> Result<(), AllocError>
        ensures { OnOk result (self.new.text.items ≡ self.old.text.items ++ decimal value) }
    {
        let mut digits = itoa::Buffer::new();
        self.put(digits.format(value).as_bytes())
    }

    // A byte between quotation marks.
    fn escaped(&mut self, byte: u8) -> Result<(), AllocError>
        ensures { OnOk result (self.new.text.items ≡ self.old.text.items ++ escaped_byte byte) }
    {
        match byte {
            b'\\' => self.put(b"\\\\"),
            b'"' => self.put(b"\\\""),
            b'\n' => self.put(b"\\n"),
            byte => Ok(self.text.push(byte)?),
        }
    }

    // Bytes between quotation marks.
    fn quoted(&mut self, bytes: &[u8]) -> Result<(), AllocError>
        ensures { OnOk result (self.new.text.items ≡ self.old.text.items ++ flat_map escaped_byte bytes.now) }
    {
        for byte in bytes {
            self.escaped(*byte)?;
        }
        Ok(())
    }

    /// A label.
    #[tactic(auto, unfolding(crate::specs::Lines::label_text))]
    pub(crate) fn label(&mut self, label: Label<'_>) -> Result<(), AllocError>
        ensures { OnOk result (self.new.text.items ≡ self.old.text.items ++ label_text label.entry.name.now label.entry.value.now) }
    {
        self.put(label.name.as_bytes())?;
        self.put(b"=\"")?;
        self.quoted(label.value)?;
        self.put(b"\"")
    }

    /// The two lines that stand before the numbers of a name.
    #[tactic(auto, unfolding(crate::specs::Lines::family_text))]
    pub(crate) fn family(&mut self, family: Family<'_>) -> Result<(), AllocError>
        ensures { OnOk result (self.new.text.items ≡ self.old.text.items
            ++ family_text family.entry.name.now family.entry.kind.now family.entry.help.now) }
    {
        self.put(b"# HELP ")?;
        self.put(family.name.as_bytes())?;
        self.put(b" ")?;
        self.put(family.help.as_bytes())?;
        self.put(b"\n# TYPE ")?;
        self.put(family.name.as_bytes())?;
        self.put(b" ")?;
        self.put(family.kind.as_bytes())?;
        self.put(b"\n")
    }

    /// A number without labels.
    #[tactic(auto, unfolding(crate::specs::Lines::plain_line))]
    pub(crate) fn plain(&mut self, name: &str, value: u64) -> Result<(), AllocError>
        ensures { OnOk result (self.new.text.items ≡ self.old.text.items ++ plain_line name.now value) }
    {
        self.put(name.as_bytes())?;
        self.put(b" ")?;
        self.number(value)?;
        self.put(b"\n")
    }

    /// A number with a label.
    #[tactic(auto, unfolding(crate::specs::Lines::labelled_line))]
    pub(crate) fn labelled(
        &mut self,
        name: &str,
        label: Label<'_>,
        value: u64,
    ) -> Result<(), AllocError>
        ensures { OnOk result (self.new.text.items ≡ self.old.text.items
            ++ labelled_line name.now label.entry.name.now label.entry.value.now value) }
    {
        self.put(name.as_bytes())?;
        self.put(b"{")?;
        self.label(label)?;
        self.put(b"} ")?;
        self.number(value)?;
        self.put(b"\n")
    }
}
