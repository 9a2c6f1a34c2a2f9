//! Draws that are handed in with a piece.
ghost use Rattle.std.specs.Prelude.{◌≡◌, Some, length, drop, get_or};
ghost use Rattle.http_edge.specs.Chance.{no_draws};

use crate::source::{Demand, DrawSource};
use messages::Draws;
use std::marker::Model;

/// The k-th request has the k-th draws, whatever it demands.
#[derive(Drop)]
pub(crate) struct DrawList<'a> {
    left: &'a [Draws],
}

impl<'a> Model for DrawList<'a> {
    ghost use Rattle.std.specs.Prelude.{List};
    ghost use Rattle.messages.specs.declared.request.Draws.{Draws};

    ghost Value = { List Draws };

    ghost view = { λ list. list.left.now };
}

impl<'a> DrawList<'a> {
    pub(crate) fn new(draws: &'a [Draws]) -> Self
        ensures { result ≡ draws.now }
    {
        DrawList { left: draws }
    }
}

impl DrawSource for DrawList<'_> {
    ghost supply = { λ draws. Some (length draws) };

    ghost draws = { λ draws _. get_or draws 0 no_draws };

    ghost behind = { λ draws _. drop 1 draws };

    fn suffices(&self, count: usize) -> bool {
        count <= self.left.len()
    }

    fn draw(&mut self, _demand: Demand) -> Draws {
        let next = self.left[0];
        self.left = &self.left[1..];
        next
    }
}
