//! What a name of the program means.

ghost use Rattle.std.specs.Prelude.{◌≡◌, ◌↔◌, IsTrue, bytes_eq};
ghost use Rattle.std.specs.List.{list_any};
ghost use Rattle.std.specs.Option.{option_copied};
ghost use Rattle.manual.specs.Topics.{Say};

/// What a name of the program means.
#[derive(Clone, Copy, Debug)]
pub struct Topic {
    pub name: &'static str,
    pub text: &'static str,
}

impl Topic {
    /// Whether a name is its own.
    fn is_named(self, name: &str) -> bool
        ensures { IsTrue result ↔ (self.name.now ≡ name.now) }
    {
        self.name == name
    }
}

/// Whether one of some topics has a name.
pub fn is_topic(topics: &[Topic], name: &str) -> bool
    ensures { result ≡ list_any (λ topic. bytes_eq name.now topic.name.now) topics.now }
{
    topics.iter().any(|topic| name == topic.name)
}

/// What some topics say of a name: the text of the first one that has it.
pub fn text_named(topics: &[Topic], name: &str) -> Option<&'static str>
    ensures { Say topics.now name.now (option_copied result) }
{
    for topic in topics {
        if topic.is_named(name) {
            return Some(topic.text);
        }
    }
    None
}
