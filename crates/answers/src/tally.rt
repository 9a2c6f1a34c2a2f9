//! How many requests were answered, and how.
ghost use Rattle.std.specs.Prelude.{◌≡◌};
ghost use Rattle.answers.specs.Tallies.{asked_at, cause_of, count_at, with_request, one_more, replied, wanted};

use crate::answer::Answer;
use crate::endpoint::{ENDPOINT_COUNT, Endpoint};
use crate::want::Want;
use http::StatusCode;

/// How many requests there were at each endpoint, by its place.
#[derive(Clone, Copy, Default)]
pub struct Asked {
    counts: [u64; ENDPOINT_COUNT],
    /// At paths of no endpoint.
    pub nowhere: u64,
}

/// How many replies there were of each status.
#[derive(Clone, Copy, Default)]
pub struct Replied {
    pub ok: u64,
    pub found: u64,
    pub bad_request: u64,
    pub unauthorized: u64,
    pub forbidden: u64,
    pub not_found: u64,
    pub not_allowed: u64,
    pub unavailable: u64,
}

/// How many replies were 503, by what was wanting.
#[derive(Clone, Copy, Default)]
pub struct Wanted {
    pub memory: u64,
    pub store_room: u64,
    pub client_room: u64,
    pub fresh_draw: u64,
    pub consent_room: u64,
}

/// How many requests were answered, and how. Each count stops at the greatest number.
#[derive(Clone, Copy, Default)]
pub struct Tally {
    pub asked: Asked,
    pub replied: Replied,
    pub wanted: Wanted,
    /// How many grants a hook denied.
    pub denied: u64,
}

/// Why a reply is what it is, where its status doesn't tell.
#[derive(Clone, Copy)]
pub enum Cause {
    /// That is wanting.
    Wants(Want),
    /// A hook denied the grant.
    Denied,
}

impl Cause {
    /// The cause that an answer tells of, if it does.
    pub fn of(answer: &Answer<'_>) -> Option<Cause>
        ensures { result ≡ cause_of answer.now }
    {
        match answer {
            Answer::Unavailable(want) => Some(Cause::Wants(*want)),
            Answer::Denied(_) => Some(Cause::Denied),
            _ => None,
        }
    }
}

fn one_more(count: u64) -> u64
    ensures { result ≡ one_more count }
{
    count.saturating_add(1)
}

impl Asked {
    /// How many there were at the endpoint.
    pub fn count(&self, endpoint: Endpoint) -> u64
        ensures { result ≡ count_at self.now endpoint }
    {
        match self.counts.get(endpoint.place()) {
            Some(count) => *count,
            None => 0,
        }
    }

    // One more at the endpoint, or at none.
    fn note(&mut self, endpoint: Option<Endpoint>)
        ensures { self.new ≡ asked_at self.old endpoint }
    {
        match endpoint {
            Some(endpoint) => self.counts[endpoint.place()] = one_more(self.count(endpoint)),
            None => self.nowhere = one_more(self.nowhere),
        }
    }
}

impl Replied {
    // One more of the status.
    fn note(&mut self, status: StatusCode)
        ensures { self.new ≡ replied self.old status }
    {
        match status.as_u16() {
            200 => self.ok = one_more(self.ok),
            302 => self.found = one_more(self.found),
            400 => self.bad_request = one_more(self.bad_request),
            401 => self.unauthorized = one_more(self.unauthorized),
            403 => self.forbidden = one_more(self.forbidden),
            404 => self.not_found = one_more(self.not_found),
            405 => self.not_allowed = one_more(self.not_allowed),
            503 => self.unavailable = one_more(self.unavailable),
            _ => {}
        }
    }
}

impl Wanted {
    // With one more where that was wanting.
    fn with(self, want: Want) -> Wanted
        ensures { result ≡ wanted self want }
    {
        let mut wanted = self;
        match want {
            Want::Memory => wanted.memory = one_more(wanted.memory),
            Want::StoreRoom => wanted.store_room = one_more(wanted.store_room),
            Want::ClientRoom => wanted.client_room = one_more(wanted.client_room),
            Want::FreshDraw => wanted.fresh_draw = one_more(wanted.fresh_draw),
            Want::ConsentRoom => wanted.consent_room = one_more(wanted.consent_room),
        }
        wanted
    }
}

impl Tally {
    /// One more request was answered at the endpoint, or at none, with the status, for the cause.
    pub fn count(&mut self, endpoint: Option<Endpoint>, status: StatusCode, cause: Option<Cause>)
        ensures { self.new ≡ with_request self.old endpoint status cause }
    {
        self.asked.note(endpoint);
        self.replied.note(status);
        match cause {
            Some(Cause::Wants(want)) => self.wanted = self.wanted.with(want),
            Some(Cause::Denied) => self.denied = one_more(self.denied),
            None => {}
        }
    }
}
