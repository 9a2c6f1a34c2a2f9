//! The number of a connection.

use std::marker::Model;

/// The number of a connection, which its caller chooses.
#[derive(Clone, Copy, Debug, PartialEq, Eq)]
pub struct ConnectionNo(u32);

impl Model for ConnectionNo {
    ghost use Rattle.std.specs.Prelude.{ℕ};

    ghost Value = { ℕ };

    ghost view = { λ c. c.0 };

    ghost inverse = { λ c. record { 0 = c } };
}

impl ConnectionNo {
    ghost use Rattle.std.specs.Prelude.{◌≡◌};

    /// The connection of that number.
    pub fn new(number: u32) -> Self
        ensures { result ≡ number }
    {
        ConnectionNo(number)
    }

    /// The number.
    pub fn get(self) -> u32
        ensures { result ≡ self }
    {
        self.0
    }
}
