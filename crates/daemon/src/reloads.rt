//! How a server is asked for a reload or for metrics, and what its next life is to go by.

ghost use Rattle.std.specs.Prelude.{◌≡◌, ◌∷◌, Bool, true, None, Some, IfOk, option_map};
ghost use Rattle.desk.specs.Candidates.{text_of};
ghost use Rattle.desk.specs.Judging.{IsJudged};
ghost use Rattle.desk.specs.declared.judging.Judged.TheVariants as verdict;
ghost use Rattle.daemon.specs.Calls.{Replied};
ghost use Rattle.daemon.specs.Reloading.{AreHeirs, IsAsked, IsSent, KeepsServing, KeepsWanted};
ghost use Rattle.daemon.specs.Scraping.{IsScraped};

use crate::call_log::{CallLog, SystemCall};
use crate::drawn::Drawn;
use clients::OperatorKey;
use desk::{
    Candidate, Judged, NotBegun, PEEK_LIMIT, Refusal, ReloadFault, candidate_of, judge,
    keeps_names, refusal_reply, refused, reply_of, scrape_reply,
};
use mio::net::TcpStream;
use ports::let_go;
use std::fs;
use std::io::{ErrorKind, Write};
use std::random::RandomSource;
use std::rt::Files;

/// What a server is reloaded from, and who asks for it.
#[derive(Drop)]
pub struct Reloads<'r, 'w, R> {
    rt: &'r R,
    /// The path of the registry's file, where the server has a file of its state: else no reload is possible.
    config: Option<&'w str>,
    /// The operator's key by now.
    key: OperatorKey,
    /// The text of the registry by which it serves, where a reload is possible.
    text: Vec<u8>,
    /// The reload that is under way.
    wanted: Option<Wanted<'r, R>>,
    /// What was replied to those whose reloads were refused.
    log: CallLog,
}

/// What a life is to go by.
#[derive(Drop)]
pub struct Heir<'r, R> {
    pub candidate: Candidate,
    pub drawn: Drawn<'r, R>,
}

/// What lives are to go by: the next one; and, where that is refused, the one behind it, as the one before.
#[derive(Drop)]
pub struct Heirs<'r, R> {
    pub next: Heir<'r, R>,
    pub former: Heir<'r, R>,
}

/// A reload that is under way.
#[derive(Drop)]
pub struct Wanted<'r, R> {
    /// Who asked for it, and is to be answered.
    pub asker: TcpStream,
    pub heirs: Heirs<'r, R>,
    /// The loop was told.
    told: bool,
}

/// Answers who asked for a reload, and lets go of him. Where there is no memory for it, he gets nothing.
pub fn answer(log: &mut CallLog, mut asker: TcpStream, reply: Option<Vec<u8>>)
    ensures { log.new.calls ≡ Replied (option_map text_of reply) ∷ log.old.calls }
{
    if let Some(bytes) = &reply {
        let _ = asker.write(bytes);
    }
    let_go(asker);
    log.note(&SystemCall::Reply(&reply));
}

/// Answers who asked for metrics, and lets go of him.
fn tell(log: &mut CallLog, mut asker: TcpStream, reply: &[u8])
    ensures { log.new.calls ≡ Replied (Some reply.now) ∷ log.old.calls }
{
    let _ = asker.write(reply);
    let_go(asker);
    log.note(&SystemCall::Tell(reply));
}

impl<'r, 'w, R> Reloads<'r, 'w, R> {
    /// Those of a server that goes by the registry of a text, and whose registry's file has this path, if it is reloaded.
    pub fn new(
        rt: &'r R,
        config: Option<&'w str>,
        key: OperatorKey,
        text: Vec<u8>,
    ) -> Reloads<'r, 'w, R>
        ensures config { result.config ≡ config.entry }
        ensures key { result.key ≡ key }
        ensures text { result.text ≡ text }
        ensures unwanted { result.wanted ≡ None }
    {
        Reloads {
            rt,
            config,
            key,
            text,
            wanted: None,
            log: CallLog::new(),
        }
    }

    /// How many bytes of a connection are looked at.
    pub fn room(&self) -> usize {
        PEEK_LIMIT
    }

    /// What the first bytes of a connection are.
    pub fn judge(&self, bytes: &[u8]) -> Judged
        ensures judged { IsJudged bytes.now self.now.key result }
        ensures sent { (with_key : Bool) → result ≡ verdict.Asks with_key → with_key ≡ true → IsSent self.now.key }
        ensures sent_too { (with_key : Bool) → result ≡ verdict.AsksMetrics with_key → with_key ≡ true → IsSent self.now.key }
    {
        judge(bytes, &self.key)
    }

    /// The path of the registry's file, if there is one from which the server is reloaded.
    pub fn config(&self) -> Option<&'w str>
        ensures { result ≡ self.now.config }
    {
        self.config
    }

    /// Whether the loop is to be told now of a reload that is wanted.
    pub fn is_untold(&self) -> bool {
        match &self.wanted {
            Some(wanted) => !wanted.told,
            None => false,
        }
    }

    /// The loop was told.
    pub fn tell(&mut self)
        ensures serving { KeepsServing self.old self.new }
        ensures wanted { KeepsWanted self.old self.new }
    {
        let Some(wanted) = &mut self.wanted else {
            return;
        };
        wanted.told = true;
    }

    /// Takes the reload that is under way, if one is.
    pub fn take_wanted(&mut self) -> Option<Wanted<'r, R>>
        ensures taken { result ≡ self.old.wanted }
        ensures rest { self.new ≡ record self.old { wanted = None } }
    {
        self.wanted.take()
    }
}

impl<'r, 'w, R: Files + RandomSource + AllocGlobal> Reloads<'r, 'w, R> {
    // What stands in a file. None where it cannot be read, unless memory is refused.
    fn file_at(&self, path: &str) -> Result<Option<Vec<u8>>, ReloadFault> {
        match fs::read(self.rt, path) {
            Ok(bytes) => Ok(Some(bytes)),
            Err(error) => match error.kind() {
                ErrorKind::OutOfMemory => Err(ReloadFault::Memory),
                _ => Ok(None),
            },
        }
    }

    // A life by a registry, with draws of its own.
    fn heir(&self, candidate: Candidate) -> Result<Heir<'r, R>, NotBegun>
        ensures { IfOk result (λ heir. heir.candidate ≡ candidate) }
    {
        match Drawn::of(self.rt) {
            Some(drawn) => Ok(Heir { candidate, drawn }),
            None => Err(NotBegun::NoSeed),
        }
    }

    // What lives are to go by, once the registry in the file of a path is taken.
    fn heirs(&self, path: &str) -> Result<Heirs<'r, R>, NotBegun>
        ensures { IfOk result (AreHeirs self.now.text.items) }
    {
        let alloc = self.rt.alloc();
        let next = candidate_of(alloc, self.file_at(path)?)?;
        let Ok(text) = Vec::from_slice(alloc, &self.text) else {
            return Err(NotBegun::File(ReloadFault::Memory));
        };
        let former = candidate_of(alloc, Some(text))?;
        if let Err(fault) = keeps_names(alloc, &former.registry, &next.registry) {
            return Err(NotBegun::Beside(fault));
        }
        Ok(Heirs {
            next: self.heir(next)?,
            former: self.heir(former)?,
        })
    }

    // Answers who asks, and begins no reload.
    fn refuse(&mut self, asker: TcpStream, reply: Option<Vec<u8>>)
        ensures noted { self.new.log.calls ≡ Replied (option_map text_of reply) ∷ self.old.log.calls }
        ensures same { self.new ≡ record self.old { log = self.new.log } }
    {
        answer(&mut self.log, asker, reply);
    }

    /// A connection asks for metrics, which are this page, and is answered at once. Where memory for the page was refused, there is none.
    pub fn tell_metrics(&mut self, asker: TcpStream, with_key: bool, page: &Option<Vec<u8>>)
        ensures { IsScraped with_key (option_map text_of page.now) self.old self.new }
    {
        tell(&mut self.log, asker, scrape_reply(with_key, page));
    }

    /// A connection asks for a reload. Where that is refused it is answered at once. Else the loop is to end, and who asked waits.
    pub fn ask(&mut self, asker: TcpStream, with_key: bool)
        ensures { IsAsked with_key self.old self.new }
    {
        let alloc = self.rt.alloc();
        if !with_key {
            return self.refuse(asker, refusal_reply(alloc, Refusal::NoKey));
        }
        let Some(path) = self.config else {
            return self.refuse(asker, refused(alloc, "NoState", None));
        };
        if self.wanted.is_some() {
            return self.refuse(asker, refusal_reply(alloc, Refusal::NotNow));
        }
        match self.heirs(path) {
            Ok(heirs) => {
                self.wanted = Some(Wanted {
                    asker,
                    heirs,
                    told: false,
                });
            }
            Err(why) => self.refuse(asker, reply_of(alloc, &why)),
        }
    }
}
