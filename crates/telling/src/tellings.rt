//! What was told and was not handed on yet.
ghost use Rattle.std.specs.Prelude.{◌≡◌, ◌↔◌, IfOk, IsTrue};
ghost use Rattle.telling.specs.Audience.{IsAllTold, forgotten, heard, heard_some, new_audience, nobody};

use crate::interest::Interest;
use crate::told::Told;
use std::alloc::{AllocError, Global};
use std::marker::Model;

/// What was told and was not handed on yet, up to so many, and how much more there was.
#[derive(Drop)]
pub struct Tellings {
    interest: Interest,
    room: usize,
    told: Vec<Told>,
    dropped: u64,
}

impl Model for Tellings {
    ghost use Rattle.std.specs.Prelude.{◌≤◌, vec_capacity};
    ghost use Rattle.telling.specs.Audience.{Audience};

    ghost Value = { Audience };

    ghost view = { λ t. record { interest = t.interest; room = t.room; told = t.told.items; dropped = t.dropped } };

    // The room was taken at the beginning.
    ghost invariant = { λ t. t.room ≤ vec_capacity t.told };
}

impl Tellings {
    /// Nothing is wanted.
    pub fn unwanted(alloc: Global) -> Self
        ensures { result ≡ nobody }
    {
        Tellings {
            interest: Interest::Nothing,
            room: 0,
            told: Vec::new(alloc),
            dropped: 0,
        }
    }

    /// Room for so many of the requests of which it is to be told.
    pub fn with_room(alloc: Global, interest: Interest, room: usize) -> Result<Self, AllocError>
        ensures { IfOk result (λ tellings. tellings ≡ new_audience interest room) }
    {
        Ok(Tellings {
            interest,
            room,
            told: Vec::with_capacity(alloc, room)?,
            dropped: 0,
        })
    }

    /// Of which requests it is to be told.
    pub fn interest(&self) -> Interest
        ensures { result ≡ self.now.interest }
    {
        self.interest
    }

    /// One more is told: it is heard where there is room, and else counted.
    pub fn hear(&mut self, told: Told)
        ensures { self.new ≡ heard self.old told }
    {
        if self.told.len() < self.room {
            let Ok(()) = self.told.push(told) else {
                unreachable!();
            };
        } else {
            self.dropped = self.dropped.saturating_add(1);
        }
    }

    /// One more, if there is one.
    pub fn hear_some(&mut self, told: Option<Told>)
        ensures { self.new ≡ heard_some self.old told }
    {
        if let Some(told) = told {
            self.hear(told);
        }
    }

    /// Whether nothing is left.
    pub fn is_empty(&self) -> bool
        ensures { IsTrue result ↔ IsAllTold self.now }
    {
        self.told.as_slice().is_empty() && self.dropped == 0
    }

    /// What was told.
    pub fn told(&self) -> &[Told]
        ensures { result.now ≡ self.now.told }
    {
        self.told.as_slice()
    }

    /// How much more there was no room for.
    pub fn dropped(&self) -> u64
        ensures { result ≡ self.now.dropped }
    {
        self.dropped
    }

    /// It was handed on.
    pub fn forget(&mut self)
        ensures { self.new ≡ forgotten self.old }
    {
        self.told.clear();
        self.dropped = 0;
    }
}
