//! What requests have their draws from.
ghost use Rattle.std.specs.Prelude.{◌≡◌, true, false};
ghost use Rattle.http_edge.specs.Supply.{Suffices, FallsShort, one_fewer};

use messages::Draws;

/// What a request demands of its source.
#[derive(Clone, Copy, Debug, PartialEq, Eq)]
pub enum Demand {
    /// Draws that no request had.
    Fresh,
    /// Nothing: it reads no draws.
    Nothing,
}

/// What requests have their draws from, one after another.
pub trait DrawSource {
    ghost use Rattle.std.specs.Prelude.{ℕ, Option};
    ghost use Rattle.messages.specs.declared.request.Draws.{Draws};
    ghost use Rattle.http_edge.specs.declared.source.Demand.{Demand};

    /// For how many requests it has draws; `None`: for any number.
    ghost supply: { Self → Option ℕ };

    /// The draws of the next request, which demands this.
    ghost draws: { Self → Demand → Draws };

    /// The source behind them.
    ghost behind: { Self → Demand → Self };

    /// Whether it has draws for so many requests.
    fn suffices(&self, count: usize) -> bool
        ensures enough { result ≡ true → Suffices (supply self.now) count }
        ensures short { result ≡ false → FallsShort (supply self.now) count };

    /// The draws of the next request, which demands this.
    fn draw(&mut self, demand: Demand) -> Draws
        requires { Suffices (supply self.old) 1 }
        ensures value { result ≡ draws self.old demand }
        ensures after { self.new ≡ behind self.old demand }
        ensures left { supply self.new ≡ one_fewer (supply self.old) };
}
