//! What waits at a slot: a few cases of what is known.

ghost use Rattle.std.specs.Prelude.{◌≡◌, ◌<◌, ◌==◌, ℕ, [], ◌∷◌, IfNone, IfOk, IfSome, IsOk, IsSome, None, length, slice_index_or, true, false};
ghost use Rattle.std.specs.Option.{option_map};
ghost use Rattle.std.specs.Box.{box_value};
ghost use Rattle.verifier.specs.Waits.{IsAdded};
ghost use Rattle.verifier.specs.WaitsParts.{cases_held, cases_in, IsCounted, IsFirst, IsFirstPlace, IsRoomFor};

use crate::known::Known;
use stack_state::difference::{MUCH, of_registers, of_stacks};
use stack_state::later::Read;
use std::alloc::{AllocError, Global};
use std::marker::Model;
use std::mem;

/// How many cases may wait at a slot.
const MOST: usize = 4;

/// How much a join may lose of a register that is not read later: it tells apart what is else alike.
const UNREAD: u32 = 1;

/// How a few cases are held.
#[derive(Drop)]
enum Held {
    /// There is none.
    Nothing,
    /// One alone.
    One(Box<Known>),
    /// Those in some places.
    Several(Box<[Option<Box<Known>>; MOST]>),
}

/// What is known of the runs that come to a slot: of each of them one of at most four cases.
#[derive(Drop)]
pub(crate) struct Cases {
    held: Held,
}

impl Model for Cases {
    ghost use Rattle.std.specs.Prelude.{List};
    ghost use Rattle.verifier.specs.declared.known.Known.{Known};
    ghost use Rattle.verifier.specs.WaitsParts.{cases_held};

    ghost Value = { List Known };

    ghost view = { λ c. cases_held c.held };
}

/// A number of a place: the last one's for those that are greater.
fn within(place: usize) -> usize
    ensures { result < 4 }
{
    if place < MOST { place } else { MOST - 1 }
}

/// The place of the first case.
fn first_place(places: &[Option<Box<Known>>; MOST]) -> Option<usize>
    ensures inside { IfSome result (λ place. place < 4) }
    ensures four { length places.now ≡ 4 }
    ensures first { IsFirstPlace places.now result }
{
    for i in 0..MOST {
        if places[i].is_some() {
            return Some(i);
        }
    }
    None
}

/// Two of some cases, and what their join would lose: one that waits in a place, and another one in a place, or the one
/// that comes.
#[derive(Clone, Copy)]
struct Pair {
    lost: u32,
    place: usize,
    other: Option<usize>,
}

/// The first free place.
fn free_place(places: &[Option<Box<Known>>; MOST]) -> Option<usize> {
    places.iter().position(|place| place.is_none())
}

impl Known {
    /// What a join with another case would lose, as far as a bound: where it is not less, some part of it. A register that is
    /// not read later hardly counts, and such a block of the stack does not.
    fn loss(&self, other: &Known, later: Read, bound: u32) -> u32 {
        let mut lost: u32 = 0;
        for i in 0..11 {
            let all = of_registers(self.registers[i], other.registers[i]);
            lost = lost.saturating_add(if later.has_register(i) {
                all
            } else {
                all.min(UNREAD)
            });
        }
        of_stacks(&self.stack, &other.stack, later, lost, bound)
    }
}

/// The pair of which a join loses least: an earlier one, or a case, waiting in a place or not, with one from a place on. The
/// first one of which it loses little is near enough.
fn nearest_to(
    places: &[Option<Box<Known>>; MOST],
    from: usize,
    known: &Known,
    later: Read,
    other: Option<usize>,
    mut nearest: Pair,
) -> Pair {
    for place in from..MOST {
        if nearest.lost < MUCH {
            return nearest;
        }
        if let Some(waiting) = &places[place] {
            let lost = waiting.loss(known, later, nearest.lost);
            if lost < nearest.lost {
                nearest = Pair { lost, place, other };
            }
        }
    }
    nearest
}

/// The pair of which a join loses least: an earlier one, or two that wait.
fn nearest_two(places: &[Option<Box<Known>>; MOST], later: Read, mut nearest: Pair) -> Pair {
    for other in 0..MOST {
        if let Some(waiting) = &places[other] {
            nearest = nearest_to(places, other + 1, waiting, later, Some(other), nearest);
        }
    }
    nearest
}

/// A case is joined with the one in a place; where the place is free, it may go there.
fn settle(places: &mut [Option<Box<Known>>; MOST], place: usize, known: &Known) -> Option<usize>
    requires { place < 4 }
    ensures four { length places.new ≡ 4 }
    ensures inside { IfSome result (λ place. place < 4) }
    ensures room { IsRoomFor places.old known.now places.new result }
    ensures free { (k : ℕ) → slice_index_or places.old k None ≡ None → slice_index_or places.new k None ≡ None }
    ensures same { IsSome result → places.new ≡ places.old }
    ensures own { IfSome result (λ free. free ≡ place) }
{
    match places[place].take() {
        Some(mut waiting) => {
            waiting.join(known);
            places[place] = Some(waiting);
            None
        }
        None => Some(place),
    }
}

/// The case in one place is joined with the one in another, so that a case may go to its place. Where there are no two,
/// that case is settled there.
fn merge(
    places: &mut [Option<Box<Known>>; MOST],
    into: usize,
    from: usize,
    known: &Known,
) -> Option<usize>
    requires into { into < 4 }
    requires from { from < 4 }
    ensures four { length places.new ≡ 4 }
    ensures inside { IfSome result (λ place. place < 4) }
    ensures room { IsRoomFor places.old known.now places.new result }
{
    match places[from].take() {
        Some(one) => {
            if settle(places, into, &one).is_none() {
                return Some(from);
            }
            places[from] = Some(one);
            settle(places, from, known)
        }
        None => Some(from),
    }
}

/// Where a case goes; nowhere where it was joined with one that waits. Where all places are taken, the two are joined of
/// which that loses least.
fn room_for(places: &mut [Option<Box<Known>>; MOST], known: &Known, later: Read) -> Option<usize>
    ensures four { length places.new ≡ 4 }
    ensures inside { IfSome result (λ place. place < 4) }
    ensures room { IsRoomFor places.old known.now places.new result }
{
    let free = free_place(places);
    let lost = if free.is_some() { MUCH } else { u32::MAX };
    let (place, other) = (0, None);
    let near = nearest_to(places, 0, known, later, other, Pair { lost, place, other });
    if near.lost < MUCH {
        return settle(places, within(near.place), known);
    }
    if let Some(place) = free {
        return settle(places, within(place), known);
    }
    let Pair { place, other, .. } = nearest_two(places, later, near);
    match other {
        Some(from) => merge(places, within(place), within(from), known),
        None => settle(places, within(place), known),
    }
}

/// Adds a case to those in some places, and says whether it stands beside them.
#[inline(never)]
fn place(places: &mut [Option<Box<Known>>; MOST], known: Box<Known>, later: Read) -> bool
    ensures added { IsAdded (cases_in places.old) known.value (cases_in places.new) }
    ensures counted { IsCounted (cases_in places.old) (cases_in places.new) result }
{
    match room_for(places, &known, later) {
        Some(place) => {
            places[place] = Some(known);
            true
        }
        None => false,
    }
}

/// The same, of a copy.
#[inline(never)]
fn place_copy(
    places: &mut [Option<Box<Known>>; MOST],
    alloc: Global,
    known: &Known,
    later: Read,
) -> Result<bool, AllocError>
    ensures added { IsOk result → IsAdded (cases_in places.old) known.now (cases_in places.new) }
    ensures counted { IfOk result (IsCounted (cases_in places.old) (cases_in places.new)) }
{
    match room_for(places, known, later) {
        Some(place) => {
            places[place] = Some(Box::new(alloc, *known)?);
            Ok(true)
        }
        None => Ok(false),
    }
}

/// A case is joined with the first of those in some places. Says whether there is one.
fn settle_first(places: &mut [Option<Box<Known>>; MOST], known: &Known) -> bool
    ensures joined { result ≡ true → IsAdded (cases_in places.old) known.now (cases_in places.new) }
    ensures counted { IsCounted (cases_in places.old) (cases_in places.new) false }
    ensures kept { result ≡ false → places.new ≡ places.old }
    ensures none { result ≡ false → cases_in places.old ≡ [] }
{
    match first_place(places) {
        Some(place) => settle(places, place, known).is_none(),
        None => false,
    }
}

impl Cases {
    /// None.
    pub(crate) fn new() -> Cases
        ensures { result ≡ [] }
    {
        Cases {
            held: Held::Nothing,
        }
    }

    /// One alone.
    pub(crate) fn only(known: Box<Known>) -> Cases
        ensures { result ≡ known.value ∷ [] }
    {
        Cases {
            held: Held::One(known),
        }
    }

    /// Whether there is none.
    pub(crate) fn is_empty(&self) -> bool
        ensures { result ≡ (length self.now == 0) }
    {
        match &self.held {
            Held::Nothing => true,
            Held::One(_) => false,
            Held::Several(places) => first_place(places).is_none(),
        }
    }

    /// Takes the first.
    pub(crate) fn next(&mut self) -> Option<Box<Known>>
        ensures { IsFirst self.old (option_map box_value result) self.new }
    {
        match mem::replace(&mut self.held, Held::Nothing) {
            Held::Nothing => None,
            Held::One(known) => Some(known),
            Held::Several(mut places) => {
                let place = first_place(&places)?;
                let first = places[place].take();
                self.held = Held::Several(places);
                first
            }
        }
    }

    /// Takes the one that is alone, where one is.
    pub(crate) fn only_one(&mut self) -> Option<Box<Known>>
        ensures one { IfSome result (λ known. (self.old ≡ known.value ∷ []) × (self.new ≡ [])) }
        ensures kept { IfNone result (self.new ≡ self.old) }
    {
        match mem::replace(&mut self.held, Held::Nothing) {
            Held::One(known) => Some(known),
            held => {
                self.held = held;
                None
            }
        }
    }

    /// Takes all of them, in their places.
    fn take_places(&mut self, alloc: Global) -> Result<Box<[Option<Box<Known>>; MOST]>, AllocError>
        ensures { IfOk result (λ places. cases_in places.value ≡ self.old) }
    {
        let first = match mem::replace(&mut self.held, Held::Nothing) {
            Held::Nothing => None,
            Held::One(known) => Some(known),
            Held::Several(places) => return Ok(places),
        };
        Ok(Box::new(alloc, [first, None, None, None])?)
    }

    /// Joins a case with the first of them, and says whether there is one.
    #[inline(never)]
    pub(crate) fn join_first(&mut self, known: &Known) -> bool
        ensures joined { result ≡ true → IsAdded self.old known.now self.new }
        ensures counted { IsCounted self.old self.new false }
        ensures kept { result ≡ false → self.new ≡ self.old }
        ensures none { result ≡ false → self.old ≡ [] }
    {
        match mem::replace(&mut self.held, Held::Nothing) {
            Held::Nothing => false,
            Held::One(mut one) => {
                one.join(known);
                self.held = Held::One(one);
                true
            }
            Held::Several(mut places) => {
                let joined = settle_first(&mut places, known);
                self.held = Held::Several(places);
                joined
            }
        }
    }

    /// Adds a case: beside them, or joined with one of them, or beside them with two of them joined. Says whether it stands
    /// beside others.
    #[inline]
    pub(crate) fn push(
        &mut self,
        alloc: Global,
        known: Box<Known>,
        later: Read,
    ) -> Result<bool, AllocError>
        ensures added { IsOk result → IsAdded self.old known.value self.new }
        ensures counted { IfOk result (IsCounted self.old self.new) }
    {
        let mut places = self.take_places(alloc)?;
        let stands = place(&mut places, known, later);
        self.held = Held::Several(places);
        Ok(stands)
    }

    /// Adds a copy of a case in the same way.
    pub(crate) fn push_copy(
        &mut self,
        alloc: Global,
        known: &Known,
        later: Read,
    ) -> Result<bool, AllocError>
        ensures added { IsOk result → IsAdded self.old known.now self.new }
        ensures counted { IfOk result (IsCounted self.old self.new) }
    {
        let mut places = self.take_places(alloc)?;
        let stands = place_copy(&mut places, alloc, known, later)?;
        self.held = Held::Several(places);
        Ok(stands)
    }
}
