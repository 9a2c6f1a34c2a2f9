//! A code or token as the store keeps it, and what those of a family share.
ghost use Rattle.std.specs.Prelude.{◌≡◌, ◌+◌, ℕ, List, IfOk};
ghost use Rattle.token_store.specs.Found.{family_seen, found_seen, kept_seen};
ghost use Rattle.token_store.specs.Records.{client_of, code_scope, expiry, homed, is_used, kept_under, life_of, shared_seen, code_shared, home_shared, texts_seen, texts_given, used};
ghost use Rattle.token_store.specs.RecordsParts.{bare_shared, is_live_at, is_open_for, is_peopled, IsCodeRecord, token_kept};

use crate::found::{Family, Found};
use consent::{
    CODE_LIFE, ClientNo, CodeFacts, Home, Kind, Moment, NewToken, OwnerNo, ScopeSet, TokenKind,
};
use shelf::{Blank, Lasts, Stays};
use std::alloc::{AllocError, Global};

/// What an authorization code has and a token has not.
#[derive(Drop)]
pub(crate) struct CodeTexts {
    pub(crate) owner: OwnerNo,
    pub(crate) redirect: String,
    pub(crate) challenge: String,
}

/// What was given to which client, and whether it was used: beside these lies what is narrow, so that
/// a record has 40 bytes.
#[derive(Drop)]
pub(crate) enum Given {
    Code(ClientNo, Box<CodeTexts>),
    /// A code that was used: its owner alone.
    UsedCode(ClientNo, OwnerNo),
    /// A token: its life, whether it was used, and which.
    Token(ClientNo, u32, bool, TokenKind),
}

/// What is kept under a digest.
#[derive(Drop)]
pub(crate) struct Record {
    pub(crate) given: Given,
    pub(crate) family: u64,
    pub(crate) scope: ScopeSet,
    pub(crate) moment: Moment,
}

/// What the codes and tokens of a family share.
#[derive(Clone, Copy)]
pub(crate) struct Shared {
    pub(crate) client: ClientNo,
    /// 0 where the family is the client's own.
    pub(crate) owner: u32,
    /// The scope of the family's code, if one opened it.
    pub(crate) scope: ScopeSet,
    /// From when on none of its records is unexpired.
    pub(crate) until: u64,
    /// How many those are.
    pub(crate) count: u32,
    /// A code opened it.
    pub(crate) coded: bool,
    pub(crate) ended: bool,
}

impl CodeTexts {
    /// Those of a code.
    pub(crate) fn of(alloc: Global, facts: &CodeFacts<'_>) -> Result<Box<CodeTexts>, AllocError>
        ensures { IfOk result (λ texts. texts_seen texts ≡ texts_given facts.now) }
    {
        let texts = CodeTexts {
            owner: facts.owner,
            redirect: String::from_str(alloc, facts.redirect)?,
            challenge: String::from_str(alloc, facts.challenge)?,
        };
        Ok(Box::new(alloc, texts)?)
    }
}

impl Shared {
    // That of a family without records.
    fn bare(client: ClientNo, owner: u32, scope: ScopeSet, coded: bool) -> Shared
        ensures { result ≡ bare_shared client owner scope coded }
    {
        Shared {
            client,
            owner,
            scope,
            until: 0,
            count: 0,
            coded,
            ended: false,
        }
    }

    /// That of the family that a code opens, without records.
    pub(crate) fn of_code(facts: &CodeFacts<'_>) -> Shared
        ensures { result ≡ code_shared facts.now 0 }
    {
        Shared::bare(facts.client, facts.owner.get(), facts.scope, true)
    }

    /// That of a family without a code, without records.
    pub(crate) fn of_home(home: &Home) -> Shared
        ensures { result ≡ home_shared home.now 0 }
    {
        let owner = OwnerNo::number_of(home.owner);
        Shared::bare(home.client, owner, ScopeSet::empty(), false)
    }

    /// The scope of the family's code, if one opened it.
    pub(crate) fn code_scope(&self) -> Option<ScopeSet>
        ensures { result ≡ code_scope self.now }
    {
        self.coded.then_some(self.scope)
    }

    /// Whether it is of the owner, a code opened it, and it has not ended.
    pub(crate) fn is_open_for(&self, owner: OwnerNo) -> bool
        ensures { result ≡ is_open_for owner self.now }
    {
        !self.ended && self.coded && self.owner == owner.get()
    }

    /// What is answered of the family.
    pub(crate) fn family(&self) -> Family
        ensures { family_seen result ≡ shared_seen self.now }
    {
        Family {
            client: self.client,
            owner: OwnerNo::numbered(self.owner),
            code_scope: self.code_scope(),
            ended: self.ended,
        }
    }
}

impl Record {
    /// How many seconds it is good for.
    pub(crate) fn life(&self) -> u32
        ensures { result ≡ life_of self.now }
    {
        if let Given::Token(_, life, ..) = &self.given {
            return *life;
        }
        CODE_LIFE
    }

    /// It is of the client.
    pub(crate) fn home(&mut self, client: ClientNo)
        ensures { self.new ≡ homed client self.old }
    {
        match &mut self.given {
            Given::Code(its, _) => *its = client,
            Given::UsedCode(its, _) => *its = client,
            Given::Token(its, ..) => *its = client,
        }
    }

    /// The first moment at which it is expired.
    pub(crate) fn expiry(&self) -> u64
        ensures { result ≡ expiry self.now }
    {
        self.moment.get() + u64::from(self.life())
    }

    pub(crate) fn is_unexpired(&self, moment: Moment) -> bool
        ensures { result ≡ is_live_at moment self.now }
    {
        moment.get() < self.expiry()
    }

    /// Whether it was used.
    pub(crate) fn is_spent(&self) -> bool
        ensures { result ≡ is_used self.now.given }
    {
        match &self.given {
            Given::Code(..) => false,
            Given::UsedCode(..) => true,
            Given::Token(_, _, spent, _) => *spent,
        }
    }

    /// What is answered of it.
    pub(crate) fn found(&self, shared: &Shared) -> Found<'_>
        ensures { (digest : List ℕ) → found_seen result ≡ kept_seen (kept_under shared.now digest self.now) }
    {
        let (kind, owner, redirect, challenge) = match &self.given {
            Given::Code(_, texts) => (
                Kind::Code,
                Some(texts.owner),
                texts.redirect.as_str(),
                texts.challenge.as_str(),
            ),
            Given::UsedCode(_, owner) => (Kind::Code, Some(*owner), "", ""),
            Given::Token(.., kind) => (Kind::Token(*kind), OwnerNo::numbered(shared.owner), "", ""),
        };
        Found {
            kind,
            family: self.family,
            client: shared.client,
            owner,
            scope: self.scope,
            moment: self.moment,
            life: self.life(),
            redirect,
            challenge,
            spent: self.is_spent(),
            ended: shared.ended,
        }
    }

    /// That of a code, in the family with the number.
    pub(crate) fn of_code(
        texts: Box<CodeTexts>,
        facts: &CodeFacts<'_>,
        moment: Moment,
        number: u64,
    ) -> Record
        requires { texts_seen texts ≡ texts_given facts.now }
        ensures kept { IsCodeRecord number facts.now moment result }
        ensures family { result.family ≡ number }
    {
        Record {
            given: Given::Code(facts.client, texts),
            family: number,
            scope: facts.scope,
            moment,
        }
    }

    /// That of a token, in the home.
    pub(crate) fn of_token(token: &NewToken, moment: Moment, home: &Home) -> Record
        ensures kept { (shared : Shared) → kept_under shared token.now.digest result ≡ token_kept home.now.family shared moment token.now }
        ensures family { result.family ≡ home.now.family }
    {
        Record {
            given: Given::Token(home.client, token.life, false, token.kind),
            family: home.family,
            scope: token.scope,
            moment,
        }
    }
}

impl Stays for Shared {
    ghost stays = { is_peopled };

    fn stays(&self) -> bool {
        self.count > 0
    }
}

impl Lasts for Record {
    ghost until = { expiry };

    ghost whose = { client_of };

    ghost spent = { used };

    fn until(&self) -> u64 {
        self.expiry()
    }

    fn whose(&self) -> u32 {
        match &self.given {
            Given::Code(its, _) | Given::UsedCode(its, _) | Given::Token(its, ..) => its.get(),
        }
    }

    fn spend(&mut self) {
        self.given = match &self.given {
            Given::Code(client, texts) => Given::UsedCode(*client, texts.owner),
            Given::UsedCode(client, owner) => Given::UsedCode(*client, *owner),
            Given::Token(client, life, _, kind) => Given::Token(*client, *life, true, *kind),
        };
    }
}

impl Blank for Shared {
    fn blank() -> Shared {
        Shared::bare(ClientNo::new(1), 0, ScopeSet::empty(), false)
    }
}

impl Blank for Record {
    fn blank() -> Record {
        Record {
            given: Given::Token(ClientNo::new(1), 0, false, TokenKind::Access),
            family: 0,
            scope: ScopeSet::empty(),
            moment: Moment::new(0),
        }
    }
}
