//! What a request is decided by.
ghost use Rattle.std.specs.Prelude.{◌≡◌, List, IfSome};
ghost use Rattle.consent.specs.History.{Event, consented_scope, next_family};
ghost use Rattle.consent.specs.Owners.{owner_number};
ghost use Rattle.consent.specs.Seen.{told_at};
ghost use Rattle.answers.specs.Found.{IsFound, is_free};
ghost use Rattle.answers.specs.Quotas.{quota_of};
ghost use Rattle.answers.specs.Views.{Finds, Shows};
ghost use Rattle.answers.specs.Wants.{want_of};
ghost use Rattle.token_store.specs.Fits.{refusal};

use crate::want::{Want, want_of};
use clients::{Client, ClientNo, Registry};
use consent::{Consents, Digest, Moment, OwnerNo, ScopeSet};
use messages::Draws;
use token_store::{Found, Quota, Store, StoreFault};

/// The rules, what is kept, the moment, and the random bytes of what the reply may give. It is only read.
#[derive(Clone, Copy)]
pub struct View<'a> {
    pub rules: &'a Registry,
    pub store: &'a Store,
    pub consents: &'a Consents,
    pub moment: Moment,
    pub draws: &'a Draws,
}

impl<'a> View<'a> {
    /// The unexpired code or token that the digest names.
    pub fn at(&self, digest: &Digest) -> Option<Found<'a>>
        ensures value { Finds self.now digest.now result (λ history. told_at history digest.now self.now.moment) }
        ensures found { (history : List Event) → Shows self.now history →
            IfSome result (IsFound history digest.now self.now.moment) }
    {
        self.store.at(digest, self.moment)
    }

    // How many codes and tokens may be unexpired, also of the client's.
    fn quota(&self, client: ClientNo) -> Quota
        ensures { result ≡ quota_of self.now.rules.now client }
    {
        let of_client = match self.rules.client_numbered(client) {
            Some(known) => known.records(),
            None => None,
        };
        Quota {
            records: self.rules.limits().records,
            client,
            of_client,
        }
    }

    // Why codes or tokens of these digests may not be given to the client.
    fn refusal(&self, client: ClientNo, digests: &[Digest]) -> Option<StoreFault>
        ensures { (history : List Event) → Shows self.now history →
            result ≡ refusal (quota_of self.now.rules.now client) history self.now.moment digests.now }
    {
        let quota = self.quota(client);
        self.store.refusal(digests, &quota, self.moment)
    }

    /// Whether codes or tokens of these digests may be given to the client.
    pub fn is_free(&self, client: ClientNo, digests: &[Digest]) -> bool
        ensures { (history : List Event) → Shows self.now history →
            result ≡ is_free self.now.rules.now history self.now.moment client digests.now }
    {
        self.refusal(client, digests).is_none()
    }

    /// What is wanting where codes or tokens of these digests may not be given to the client.
    pub fn want(&self, client: ClientNo, digests: &[Digest]) -> Want
        ensures { (history : List Event) → Shows self.now history →
            result ≡ want_of (refusal (quota_of self.now.rules.now client) history self.now.moment digests.now) }
    {
        want_of(self.refusal(client, digests))
    }

    /// The number of the family that is opened next.
    pub fn next_family(&self) -> Option<u64>
        ensures { (history : List Event) → Shows self.now history → result ≡ next_family history }
    {
        self.store.next_family()
    }

    /// The scope that the owner, if there is one, consents to the client's having.
    pub fn consented(&self, owner: Option<OwnerNo>, client: ClientNo) -> ScopeSet
        ensures { (history : List Event) → Shows self.now history →
            result ≡ consented_scope history (owner_number owner) client }
    {
        match owner {
            Some(owner) => self.consents.get(owner, client),
            None => ScopeSet::empty(),
        }
    }
}

/// A client of the registry, with its number.
#[derive(Clone, Copy)]
pub struct KnownClient<'a> {
    pub number: ClientNo,
    pub client: &'a Client,
}
