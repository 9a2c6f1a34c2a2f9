//! How clients are told where sockets listen.

/// It could not be told where the sockets listen.
#[derive(Clone, Copy, Debug, PartialEq, Eq)]
pub struct Unopened;

/// Tells clients where sockets listen, once it is known that they are served.
pub trait Opening {
    ghost use Rattle.std.specs.Prelude.{Bool, is_ok};

    // Clients were told, or could not be, and it is another from then on.
    ghost opens: { Self → Bool → Self → Type 0 };

    /// Tells clients where the sockets listen.
    fn open(&mut self) -> Result<(), Unopened>
        ensures { opens self.old (is_ok result) self.new };
}
