//! Which hooks denied how often.
ghost use Rattle.std.specs.Prelude.{◌≡◌, IfOk, find, map, option_map};
ghost use Rattle.hook_host.specs.Verdicts.{verdict_in};
ghost use Rattle.metrics.specs.Denied.{counted_in, denials_after, denials_beyond, denials_heard, denials_lost, denials_told, denied_by, denied_once, first_denied, has_hook, is_denier, no_denials};

use hook_host::{Entry, Verdicts};
use hook_record::Narrowed;
use std::alloc::{AllocError, Global};
use std::marker::Model;
use telling::{Interest, Tellings, Told};

/// Of so many hooks it is counted by name how often they denied, also of those that were removed.
const MOST: usize = 64;

/// A hook, by its verdict when it first denied, and how often it did. The count stops at the greatest number.
#[derive(Clone, Copy)]
pub struct DeniedBy {
    first: Entry,
    count: u64,
}

/// Which hooks denied how often, in the order in which they first did, and how often others did.
#[derive(Drop)]
pub struct Denials {
    by: Vec<DeniedBy>,
    others: u64,
}

impl Model for Denials {
    ghost use Rattle.std.specs.Prelude.{◌≤◌, map, vec_capacity};
    ghost use Rattle.metrics.specs.Denied.{Denied, counted_in};

    ghost Value = { Denied };

    ghost view = { λ d. record { by = map counted_in d.by.items; others = d.others } };

    // The room was taken at the beginning.
    ghost invariant = { λ d. 64 ≤ vec_capacity d.by };
}

impl DeniedBy {
    /// The hook's name.
    pub fn hook(&self) -> &[u8]
        ensures { result.now ≡ (counted_in self.now).hook }
    {
        self.first.name()
    }

    /// How often it denied.
    pub fn count(&self) -> u64
        ensures { result ≡ (counted_in self.now).count }
    {
        self.count
    }

    // Once more, where it is the one of this name.
    fn note(&mut self, hook: &[u8])
        ensures { self.new ≡ denied_once hook.now self.old }
    {
        if self.hook() == hook {
            self.count = self.count.saturating_add(1);
        }
    }
}

// Whether one of them has this name.
fn has_hook(by: &[DeniedBy], hook: &[u8]) -> bool
    ensures { result ≡ has_hook hook.now (map counted_in by.now) }
{
    match by {
        [denied, ..] if denied.hook() == hook => true,
        [_, others @ ..] => has_hook(others, hook),
        [] => false,
    }
}

// The one of this name denied once more.
fn note_each(by: &mut [DeniedBy], hook: &[u8])
    ensures { by.new ≡ map (denied_once hook.now) by.old }
{
    for denied in by.iter_mut() {
        denied.note(hook);
    }
}

// Whether a hook denied.
fn is_denier(entry: &Entry) -> bool
    ensures { result ≡ is_denier (verdict_in entry.now) }
{
    matches!(entry.left(), Narrowed::Denied)
}

// The first verdict that denies.
fn denier(entries: &[Entry]) -> Option<Entry>
    ensures { option_map verdict_in result ≡ find is_denier (map verdict_in entries.now) }
{
    match entries {
        [entry, ..] if is_denier(entry) => Some(*entry),
        [_, others @ ..] => denier(others),
        [] => None,
    }
}

// How many of those that there was no room for are denials.
fn beyond(interest: Interest, dropped: u64) -> u64
    ensures { result ≡ denials_beyond interest dropped }
{
    match interest {
        Interest::Denials => dropped,
        Interest::Nothing | Interest::Everything => 0,
    }
}

impl Denials {
    /// No hook did.
    pub fn new(alloc: Global) -> Result<Denials, AllocError>
        ensures { IfOk result (λ denials. denials ≡ no_denials) }
    {
        Ok(Denials {
            by: Vec::with_capacity(alloc, MOST)?,
            others: 0,
        })
    }

    // A hook denied that did not before.
    fn add(&mut self, entry: Entry)
        ensures { self.new ≡ first_denied self.old (verdict_in entry).name }
    {
        if self.by.len() < MOST {
            let Ok(()) = self.by.push(DeniedBy {
                first: entry,
                count: 1,
            })
            else {
                unreachable!();
            };
        } else {
            self.others = self.others.saturating_add(1);
        }
    }

    // A hook denied.
    fn note(&mut self, entry: Entry)
        ensures { self.new ≡ denied_by self.old (verdict_in entry).name }
    {
        if has_hook(&self.by, entry.name()) {
            note_each(&mut self.by, entry.name());
        } else {
            self.add(entry);
        }
    }

    // Hooks were asked, and left this: one of them may have denied.
    fn note_verdicts(&mut self, verdicts: &Verdicts)
        ensures { self.new ≡ denials_after self.old verdicts.now }
    {
        if let Some(entry) = denier(verdicts.entries()) {
            self.note(entry);
        }
    }

    // Requests were told.
    fn note_told(&mut self, tolds: &[Told])
        ensures { self.new ≡ denials_told self.old tolds.now }
    {
        for told in tolds {
            self.note_verdicts(&told.verdicts);
        }
    }

    // So many more denied, by hooks that are not known.
    fn note_lost(&mut self, lost: u64)
        ensures { self.new ≡ denials_lost self.old lost }
    {
        self.others = self.others.saturating_add(lost);
    }

    /// Requests were told, and there may have been no room for some.
    pub fn hear(&mut self, tellings: &Tellings)
        ensures { self.new ≡ denials_heard self.old tellings.now }
    {
        self.note_told(tellings.told());
        self.note_lost(beyond(tellings.interest(), tellings.dropped()));
    }

    /// The hooks that denied.
    pub fn by(&self) -> &[DeniedBy]
        ensures { map counted_in result.now ≡ self.now.by }
    {
        self.by.as_slice()
    }

    /// How often others did.
    pub fn others(&self) -> u64
        ensures { result ≡ self.now.others }
    {
        self.others
    }
}
