//! The server.
ghost use Rattle.std.specs.Prelude.{◌≡◌, ◌≤◌, [], None, Some, IfErr, IfOk, OnErr, OnOk, max, length, option_map, unwrap_or, ◌⊎◌, ◌+◌};
ghost use Rattle.consent.specs.Changes.{as_list};
ghost use Rattle.messages.specs.Asked.{asked_of};
ghost use Rattle.answers.specs.Short.{IsShortReply, IsShortAnswer, state_limit};
ghost use Rattle.change_codec.specs.Batches.{facts_in};
ghost use Rattle.endpoints.specs.Parts.{WhereverFits};
ghost use Rattle.consent.specs.History.Change.{HookSet};
ghost use Rattle.consent.specs.declared.change.Change.TheVariants as given;
ghost use Rattle.consent.specs.declared.change.Changes.TheVariants.{One};
ghost use Rattle.endpoints.specs.Hosts.{HostRefuses};
ghost use Rattle.endpoints.specs.Making.{GoesOnWith, HasRooms, IsReadyToMake, IsSame, Makes, MakesHost};
ghost use Rattle.consent.specs.History.{unexpired_count};
ghost use Rattle.endpoints.specs.Noting.{IsNothingPrepared, with_notes};
ghost use Rattle.endpoints.specs.Reading.{EndsAt, IsRequestRead, IsShortReading, endpoint_of};
ghost use Rattle.endpoints.specs.Ruling.{CanTake};
ghost use Rattle.endpoints.specs.Rulings.{RulesRead, asking_at, read_request};
ghost use Rattle.endpoints.specs.RulingsParts.{AnswersRequest, EndsBy, IsToldBy, RulesReadAlone, heeding};
ghost use Rattle.endpoints.specs.Listing.{AreConsentsOf, AreRecordsOf, IsLastOf};
ghost use Rattle.endpoints.specs.Server.{FitsServer, Notes, NowNotes, outset_of};
ghost use Rattle.endpoints.specs.Steps.{Reaches, Sweeps};
ghost use Rattle.endpoints.specs.Telling.{Answers, StepsTelling, heeded};
ghost use Rattle.token_store.specs.Fits.{FitsStore};

use crate::authorize::authorize;
use crate::beside::make_beside;
use crate::consenting::consent;
use crate::documents::tell;
use crate::expiring::{let_go, make_way};
use crate::hooks::{install, remove};
use crate::introspect::introspect;
use crate::leaving::end_owner;
use crate::noting::{note_prepared, prepare};
use crate::reading::{Reading, read};
use crate::redo::layout_of;
use crate::revoke::revoke;
use crate::ruling::{Checked, Ruling};
use answers::{Answer, Cause, Decision, Endpoint, Halt, Tally, View, Want, status_of, write};
use change_codec::Batch;
use clients::Registry;
use consent::{Change, Changes, Consents, KeptConsent, KeptRecord, Moment, RecordVersion};
use hook_host::{HookFault, HookHost, hook_count};
use http::StatusCode;
use messages::{Draws, Request, failure};
use std::alloc::{AllocError, Global};
use std::marker::Model;
use telling::{Interest, Stepped, Told, Upshot, told_sought};
use token_endpoint::decide;
use token_store::Store;

/// An authorization server, with any host of hooks.
pub struct Server<H> {
    rules: Registry,
    host: H,
    store: Store,
    consents: Consents,
    greatest: Moment,
    // What has happened and was not kept yet, where that is noted.
    unkept: Option<Batch>,
    // How many requests were answered, which no answer depends on. What a server is seen as leaves it out.
    tally: Tally,
    alloc: Global,
}

// It is written out, so that whoever lets go of a server calls this, and is not proved over all that a server is made of.
impl<H: Drop> Drop for Server<H> {
    fn drop(self) {
        let Server {
            rules: _rules,
            host: _host,
            store: _store,
            consents: _consents,
            greatest: _,
            unkept: _unkept,
            tally: _,
            alloc: _,
        } = self;
    }
}

impl<H> Model for Server<H> {
    ghost use Rattle.endpoints.specs.Noting.{noted_in, prepared_in};
    ghost use Rattle.endpoints.specs.Server.{SeenServer};

    ghost Value = { SeenServer H };

    ghost view = { λ s. record {
      rules = s.rules;
      host = s.host;
      store = s.store;
      consents = s.consents;
      greatest = s.greatest;
      unkept = noted_in s.unkept;
      prepared = prepared_in s.unkept;
    } };
}

/// The later one.
pub(crate) fn greater(a: Moment, b: Moment) -> Moment
    ensures { result ≡ max a b }
{
    if a.get() < b.get() { b } else { a }
}

impl<H: HookHost> Server<H> {
    /// A server under the rules, to which nothing has happened yet, and which notes nothing. What it keeps takes memory
    /// from `alloc`.
    pub fn new(alloc: Global, rules: Registry, host: H) -> Self
        ensures fits { FitsServer H.HookHost result (outset_of rules host) [] 0 }
        ensures notes { Notes result None [] }
    {
        let size = rules.limits().records;
        Server {
            rules,
            host,
            store: Store::new(alloc, size),
            consents: Consents::new(alloc),
            greatest: Moment::new(0),
            unkept: None,
            tally: Tally::default(),
            alloc,
        }
    }

    /// A server under the rules that goes on from the moment with what is kept, and which notes nothing.
    pub(crate) fn going_on(
        alloc: Global,
        rules: Registry,
        host: H,
        store: Store,
        consents: Consents,
        moment: Moment,
    ) -> Self
        ensures { result ≡ record {
          rules = rules;
          host = host;
          store = store;
          consents = consents;
          greatest = moment;
          unkept = None;
          prepared = None;
        } }
    {
        Server {
            rules,
            host,
            store,
            consents,
            greatest: moment,
            unkept: None,
            tally: Tally::default(),
            alloc,
        }
    }

    /// The codes and tokens that are unexpired at the greatest moment.
    pub fn records(&self, alloc: Global) -> Result<Vec<KeptRecord<'_>>, AllocError>
        ensures { IfOk result (λ records. AreRecordsOf self.now records.items) }
    {
        self.store.records(alloc, self.greatest)
    }

    /// The greatest number of a family so far, 0 where there is none.
    pub fn last_family(&self) -> u64
        ensures { IsLastOf self.now result }
    {
        self.store.last_family()
    }

    /// The consents.
    pub fn consents(&self, alloc: Global) -> Result<Vec<KeptConsent>, AllocError>
        ensures { IfOk result (λ consents. AreConsentsOf self.now consents.items) }
    {
        self.consents.listed(alloc)
    }

    /// From now on what happens is noted, unless memory is refused for that. What is noted already stays.
    pub fn begin_noting(&mut self) -> Result<(), AllocError>
        ensures noting { OnOk result (NowNotes self.old self.new (Some (unwrap_or self.old.unkept []))) }
        ensures err { OnErr result (self.new ≡ self.old) }
    {
        if let Some(_) = &self.unkept {
            return Ok(());
        }
        let batch = Batch::new(self.alloc)?;
        self.unkept = Some(batch);
        Ok(())
    }

    /// What has happened and was not kept yet, where that is noted: as a batch of dated changes.
    pub fn unkept(&self) -> Option<&Batch>
        ensures { facts_in result ≡ self.now.unkept }
    {
        self.unkept.as_ref()
    }

    /// What has happened was kept. Where it is noted, nothing is unkept from now on.
    pub fn forget_unkept(&mut self)
        ensures { NowNotes self.old self.new (option_map (λ facts. []) self.old.unkept) }
    {
        if let Some(batch) = &mut self.unkept {
            batch.clear();
        }
    }

    /// Reads a request at its endpoint. Of a change of the hooks the operator's key is looked at first.
    pub fn read<'a>(&self, endpoint: Endpoint, request: &Request<'a>) -> Result<Reading<'a>, Halt>
        ensures endpoint { IfOk result (λ reading. endpoint_of reading ≡ endpoint) }
        ensures read { IfOk result (IsRequestRead self.now.rules (asked_of request.now)) }
        ensures ends { IfErr result (EndsAt endpoint self.now.rules (asked_of request.now)) }
        ensures short { length request.now.target.now ≤ state_limit → IfOk result IsShortReading }
    {
        read(self.alloc, &self.rules, endpoint, request)
    }

    // What a request comes to that asks for no change of the hooks.
    fn decide_alone<'a>(
        &self,
        request: &'a Request<'_>,
        reading: &'a Reading<'_>,
        draws: &Draws,
    ) -> Result<Decision<'a>, Halt>
        ensures decides { RulesReadAlone H.HookHost self.now (read_request (asked_of request.now) reading.now draws.now) result }
        ensures short { IsShortReading reading.now → IfOk result (λ decision. IsShortAnswer decision.answer) }
    {
        let view = View {
            rules: &self.rules,
            store: &self.store,
            consents: &self.consents,
            moment: self.greatest,
            draws,
        };
        match reading {
            Reading::Authorize(params) => authorize(&view, request, params),
            Reading::GiveConsent => consent(self.alloc, &view, request),
            Reading::IssueToken => decide(self.alloc, &view, &self.host, request),
            Reading::RevokeToken => revoke(self.alloc, &view, request),
            Reading::Introspect => introspect(self.alloc, &view, request),
            Reading::EndOwner => end_owner(self.alloc, &view, request),
            Reading::Read(document) => tell(&view, request, *document),
            Reading::InstallHook(_) | Reading::RemoveHook(_) => Ok(Decision {
                answer: Answer::Done,
                changes: Changes::Nothing,
            }),
        }
    }

    /// What a request comes to at the greatest moment so far, by reading alone: the reply of the first point of its
    /// endpoint's list that holds, and what happens with it.
    pub fn decide<'a>(
        &self,
        request: &'a Request<'_>,
        reading: &'a Reading<'_>,
        draws: &Draws,
    ) -> Result<Ruling<'a, H>, Halt>
        ensures rules { RulesRead H.HookHost self.now (read_request (asked_of request.now) reading.now draws.now) result }
        ensures hook { IfOk result (λ ruling. CanTake H.HookHost self.now.host (as_list ruling.decision.changes) ruling.checked) }
        ensures short { IsShortReading reading.now → IfOk result (λ ruling. IsShortAnswer ruling.decision.answer) }
    {
        match reading {
            Reading::InstallHook(params) => install(&self.host, request.body, params),
            Reading::RemoveHook(params) => remove(&self.host, params),
            _ => match self.decide_alone(request, reading, draws) {
                Ok(decision) => Ok(Ruling {
                    decision,
                    checked: Checked::NoHook,
                }),
                Err(halt) => Err(halt),
            },
        }
    }

    /// The greatest moment that a request was handed.
    pub fn moment(&self) -> Moment
        ensures { result ≡ self.now.greatest }
    {
        self.greatest
    }

    // Makes room for the changes, and makes them ready to be noted at the greatest moment, which changes no answer, also where
    // memory is refused. Then what was ready is so still, or nothing is.
    #[tactic(auto, using(crate::proofs::Besides::room_for))]
    fn reserve(&mut self, changes: &Changes<'_>) -> Result<(), AllocError>
        ensures same { IsSame H.HookHost self.old self.new }
        ensures room { OnOk result (HasRooms self.new changes.now) }
        ensures err { OnErr result ((self.new.prepared ≡ self.old.prepared) ⊎ IsNothingPrepared self.new.prepared) }
    {
        if let Changes::One(Change::Consented { .. }) | Changes::Left { .. } = changes {
            self.consents.reserve(1)?;
        }
        self.store.reserve(changes)?;
        prepare(&mut self.unkept, self.greatest, changes)
    }

    /// Sets a hook, at the greatest moment, which is noted where that is done. A refused one changes nothing.
    pub fn set_hook(
        &mut self,
        name: &str,
        version: RecordVersion,
        code: &[u8],
    ) -> Result<(), HookFault>
        ensures set { OnOk result (GoesOnWith H.HookHost self.old (HookSet name.now version code.now) self.new) }
        ensures moment { self.new.greatest ≡ self.old.greatest }
        ensures noted { OnOk result (self.new.unkept
            ≡ with_notes self.old.unkept self.old.greatest (One (given.HookSet name.entry version code.entry))) }
        ensures refused { IfErr result (λ fault. (fault ≡ HookFault.Memory)
            ⊎ HostRefuses H.HookHost self.old.host (HookSet name.now version code.now) fault) }
        ensures same { OnErr result (IsSame H.HookHost self.old self.new) }
    {
        let hook = self.host.check(name, layout_of(version), code)?;
        let changes = Changes::One(Change::HookSet {
            name,
            version,
            code,
        });
        let Ok(()) = self.reserve(&changes) else {
            return Err(HookFault::Memory);
        };
        self.apply(&changes, Checked::Installs(hook));
        Ok(())
    }

    /// Makes the changes of a ruling, which room was made for, and notes them at the greatest moment, where that is done.
    pub(crate) fn apply(&mut self, changes: &Changes<'_>, checked: Checked<H>)
        requires { IsReadyToMake H.HookHost self.old changes.now checked }
        ensures makes { Makes H.HookHost self.old (as_list changes.now) checked self.new }
        ensures host { MakesHost H.HookHost self.old.host (as_list changes.now) checked self.new.host }
        ensures notes { self.new.unkept ≡ with_notes self.old.unkept self.old.greatest changes.now }
        ensures greatest { self.new.greatest ≡ self.old.greatest }
    {
        note_prepared(&mut self.unkept);
        make_beside(&mut self.host, &mut self.consents, changes, checked);
        self.store.apply(changes, self.greatest);
    }

    // What is told of a request at the endpoint, where that is wanted, by what came of it.
    fn told_of(
        &self,
        endpoint: Endpoint,
        request: &Request<'_>,
        draws: &Draws,
        upshot: Upshot,
        interest: Interest,
    ) -> Result<Option<Told>, AllocError>
        ensures { IfOk result (IsToldBy H.HookHost self.now
            (heeding (asking_at endpoint (asked_of request.now) draws.now) interest) upshot) }
    {
        let view = View {
            rules: &self.rules,
            store: &self.store,
            consents: &self.consents,
            moment: self.greatest,
            draws,
        };
        told_sought(
            interest, self.alloc, &view, &self.host, endpoint, request, upshot,
        )
    }

    // What ended a request at the endpoint is answered.
    fn halted(
        &self,
        endpoint: Endpoint,
        request: &Request<'_>,
        draws: &Draws,
        halt: Halt,
        interest: Interest,
    ) -> Result<Stepped, AllocError>
        ensures { IfOk result (EndsBy H.HookHost self.now
            (heeding (asking_at endpoint (asked_of request.now) draws.now) interest) halt) }
    {
        let Halt::Refuse(error) = halt else {
            return Err(AllocError);
        };
        let reply = failure(self.alloc, status_of(error), error)?;
        let told = self.told_of(endpoint, request, draws, Upshot::refused(error), interest)?;
        Ok(Stepped { reply, told })
    }

    // Answers a request at its endpoint, and makes what comes of it. Where memory is refused, nothing is made. The cause of
    // the reply is told, where there is one.
    fn answer_at(
        &mut self,
        endpoint: Endpoint,
        request: &Request<'_>,
        draws: &Draws,
        cause: &mut Option<Cause>,
        interest: Interest,
    ) -> Result<Stepped, AllocError>
        ensures replies { AnswersRequest H.HookHost self.old
            (heeding (asking_at endpoint (asked_of request.now) draws.now) interest) result self.new }
        ensures short { length request.now.target.now ≤ state_limit → IfOk result (λ stepped. IsShortReply stepped.reply) }
    {
        // The decision borrows from the request, which is told of behind it.
        let again = *request;
        let reading = match self.read(endpoint, request) {
            Ok(reading) => reading,
            Err(halt) => return self.halted(endpoint, &again, draws, halt, interest),
        };
        let Ruling { decision, checked } = match self.decide(request, &reading, draws) {
            Ok(ruling) => ruling,
            Err(halt) => return self.halted(endpoint, &again, draws, halt, interest),
        };
        *cause = Cause::of(&decision.answer);
        let reply = write(self.alloc, &self.rules, &self.host, &decision.answer)?;
        let upshot = Upshot::of(&decision.answer, &decision.changes);
        let told = self.told_of(endpoint, &again, draws, upshot, interest)?;
        self.reserve(&decision.changes)?;
        self.apply(&decision.changes, checked);
        Ok(Stepped { reply, told })
    }

    // Answers a request, and tells the cause of the reply, where there is one.
    fn answer(
        &mut self,
        request: &Request<'_>,
        moment: Moment,
        draws: &Draws,
        cause: &mut Option<Cause>,
        interest: Interest,
    ) -> Stepped
        ensures replies { StepsTelling H.HookHost self.old
            (heeded (record { asked = asked_of request.now; moment = moment; draws = draws.now }) interest) result self.new }
        ensures short { length request.now.target.now ≤ state_limit → IsShortReply result.reply }
    {
        self.greatest = greater(self.greatest, moment);
        make_way(&mut self.store, self.rules.limits().records, self.greatest);
        let now = self.greatest;
        let alloc = self.alloc;
        let Some(endpoint) = Endpoint::at(request.path()) else {
            return Stepped::bare(alloc, interest, now, None, StatusCode::NOT_FOUND);
        };
        let at = Some(endpoint);
        if request.method != endpoint.method() {
            return Stepped::bare(alloc, interest, now, at, StatusCode::METHOD_NOT_ALLOWED);
        }
        let Ok(stepped) = self.answer_at(endpoint, request, draws, cause, interest) else {
            *cause = Some(Cause::Wants(Want::Memory));
            return Stepped::bare(alloc, interest, now, at, StatusCode::SERVICE_UNAVAILABLE);
        };
        stepped
    }

    /// From now on nothing is answered by an earlier moment.
    pub fn reach(&mut self, moment: Moment)
        ensures reached { Reaches H.HookHost self.old moment self.new }
        ensures same { self.new ≡ record self.old { greatest = max self.old.greatest moment } }
    {
        self.greatest = greater(self.greatest, moment);
    }

    // Lets go of what has expired, which changes no answer: of all, or of so much that 62 fewer are kept than before.
    fn sweep(&mut self, before: usize)
        ensures same { self.new ≡ record self.old { store = self.new.store } }
        ensures fits { WhereverFits self.old.store self.old.greatest (λ h. FitsStore self.new.store h self.old.greatest) }
        ensures kept { WhereverFits self.old.store self.old.greatest
            (λ h. (length self.new.store.kept ≡ unexpired_count h self.old.greatest) ⊎ length self.new.store.kept + 62 ≤ before) }
    {
        let_go(&mut self.store, before, self.greatest);
    }

    /// Answers a request at the greatest moment so far: the reply of the first point of its endpoint's list that holds, or
    /// the 503 of refused memory, with which nothing happens. What no endpoint answers (404, 405) takes no memory. It is
    /// counted, and told of where that is wanted. Afterwards nothing is kept that has expired, or 62 codes and tokens fewer are
    /// kept than before.
    pub fn step(
        &mut self,
        request: &Request<'_>,
        moment: Moment,
        draws: &Draws,
        interest: Interest,
    ) -> Stepped
        ensures replies { StepsTelling H.HookHost self.old
            (heeded (record { asked = asked_of request.now; moment = moment; draws = draws.now }) interest) result self.new }
        ensures answers { Answers H.HookHost self.old
            (record { asked = asked_of request.now; moment = moment; draws = draws.now }) result.reply self.new }
        ensures kept { Sweeps H.HookHost self.old self.new }
        ensures short { length request.now.target.now ≤ state_limit → IsShortReply result.reply }
    {
        let before = self.record_count();
        let mut cause = None;
        let stepped = self.answer(request, moment, draws, &mut cause, interest);
        self.sweep(before);
        let endpoint = Endpoint::at(request.path());
        self.tally.count(endpoint, stepped.reply.status(), cause);
        stepped
    }
}

impl<H: HookHost> Server<H> {
    /// How many requests were answered, and how.
    pub fn tally(&self) -> &Tally {
        &self.tally
    }

    /// Its rules.
    pub fn rules(&self) -> &Registry
        ensures { result.now ≡ self.now.rules }
    {
        &self.rules
    }

    /// How many codes and tokens it has in memory.
    pub fn record_count(&self) -> usize
        ensures { result ≡ length self.now.store.kept }
    {
        self.store.kept()
    }

    /// How many consents it keeps.
    pub fn consent_count(&self) -> usize
        ensures { result ≡ length self.now.consents.masks }
    {
        self.consents.count()
    }

    /// How many hooks its host has.
    pub fn hook_count(&self) -> usize
        ensures { result ≡ length (H.names self.now.host) }
    {
        hook_count(&self.host)
    }
}
