//! What the words behind the registry's file give.

ghost use Rattle.std.specs.Prelude.{◌≡◌, ◌∷◌, ◌++◌, [], Ok, Err, OnOk, IfOk, IfErr, IfSome, IfNone, map, string_bytes, unwrap_or, option_map, length, ◌≤◌};
ghost use Rattle.std.specs.Option.{option_copied};
ghost use Rattle.start_words.specs.Options.{bad_words, blamed, by_place, clock_limit, flag_taken, hook_said, is_option, IsWhyRefused, listless, lone_fault, lone_option, nothing_said, once, options_after, options_in, placed_after, with_list_value, with_option};
ghost use Rattle.start_words.specs.Lists.{place_of, place_said, user_of, user_said};
ghost use Rattle.start_words.specs.declared.fault.StartFault.TheVariants.{Memory};

use crate::fault::{StartFault, WordFault};
use crate::list::{ListWords, StatePlace, UserWords};
use crate::number::number_said;
use crate::option::{
    FarClock, FlagName, HookFile, ListOption, OptionName, Waiting, above_0, above_1, flag_named,
    hook_in, option_named, path_in,
};
use std::alloc::Global;
use std::marker::Model;

/// The options of `start`.
#[derive(Drop)]
pub struct Options<'w> {
    silence: Option<u32>,
    full: Option<u32>,
    report: Option<u32>,
    audit: Option<&'w str>,
    state: Option<&'w str>,
    etcd: Option<&'w str>,
    prefix: Option<&'w str>,
    user: Option<&'w str>,
    password: Option<&'w str>,
    lease: Option<u32>,
    waiting: Waiting,
    clock: FarClock,
    hooks: Vec<HookFile<'w>>,
}

impl<'w> Model for Options<'w> {
    ghost use Rattle.std.specs.Prelude.{map};
    ghost use Rattle.std.specs.Option.{option_copied};
    ghost use Rattle.start_words.specs.Options.{hook_said, Said};

    ghost Value = { Said };

    ghost view = { λ o. record { silence = o.silence; full = o.full; report = o.report; audit = option_copied o.audit; state = option_copied o.state; etcd = option_copied o.etcd; prefix = option_copied o.prefix; user = option_copied o.user; password = option_copied o.password; lease = o.lease; waiting = o.waiting; clock = o.clock; hooks = map hook_said o.hooks.items } };
}

/// The first word, where it counts by its place, and those behind it.
pub(crate) fn by_place<'w>(words: &'w [String]) -> Option<(&'w str, &'w [String])>
    ensures { option_map (λ p. (p.0.now, map string_bytes p.1.now)) result ≡ by_place (map string_bytes words.now) }
{
    let (word, rest) = words.split_first()?;
    let word = word.as_str();
    if is_option(word) {
        return None;
    }
    Some((word, rest))
}

/// Whether a word begins with two hyphens.
fn is_option(word: &str) -> bool
    ensures { result ≡ is_option word.now }
{
    word.as_bytes().starts_with(b"--")
}

/// The value, unless one was said before.
fn once<T: Copy>(said: Option<T>, value: Option<T>) -> Result<Option<T>, WordFault>
    ensures { result ≡ once said value }
{
    match (said, value) {
        (Some(_), _) => Err(WordFault::Twice),
        (None, None) => Err(WordFault::BadValue),
        (None, Some(value)) => Ok(Some(value)),
    }
}

/// The fault of an option without a value.
fn lone_fault(word: &str) -> WordFault
    ensures { result ≡ lone_fault word.now }
{
    match option_named(word) {
        Some(_) => WordFault::NoValue,
        None => WordFault::Unknown,
    }
}

impl<'w> Options<'w> {
    /// No options.
    fn new(alloc: Global) -> Options<'w>
        ensures { result ≡ nothing_said }
    {
        Options {
            silence: None,
            full: None,
            report: None,
            audit: None,
            state: None,
            etcd: None,
            prefix: None,
            user: None,
            password: None,
            lease: None,
            waiting: Waiting::Deaf,
            clock: FarClock::Refused,
            hooks: Vec::new(alloc),
        }
    }

    /// For how many seconds a connection may take no byte of a reply: 60, where that is left out.
    pub fn silence(&self) -> u32
        ensures { result ≡ unwrap_or self.now.silence 60 }
    {
        self.silence.unwrap_or(60)
    }

    /// For how many seconds a connection may be silent where all places are taken and another one waits: 5, where that is
    /// left out.
    pub fn full(&self) -> u32
        ensures { result ≡ unwrap_or self.now.full 5 }
    {
        self.full.unwrap_or(5)
    }

    /// Each how many seconds a report is written, where one is.
    pub fn report(&self) -> Option<u32>
        ensures { result ≡ self.now.report }
    {
        self.report
    }

    /// The path of the file in which it is told of each request that was answered, where there is one; `-` is standard output.
    pub fn audit(&self) -> Option<&'w str>
        ensures { option_copied result ≡ self.now.audit }
    {
        self.audit
    }

    /// Where the server keeps its state.
    pub fn place(&self) -> StatePlace<'w>
        ensures { place_said result ≡ place_of self.now }
    {
        match (self.state, self.etcd, self.prefix) {
            (Some(path), _, _) => StatePlace::File(path),
            (None, Some(members), Some(prefix)) => StatePlace::Etcd(ListWords {
                members,
                prefix,
                user: self.user(),
            }),
            _ => StatePlace::Nowhere,
        }
    }

    /// As whom the members are asked, where there are users.
    fn user(&self) -> Option<UserWords<'w>>
        ensures { option_map user_said result ≡ user_of self.now }
    {
        match (self.user, self.password) {
            (Some(name), Some(password_file)) => Some(UserWords {
                name,
                password_file,
            }),
            _ => None,
        }
    }

    /// The path of the file in which the user's password stands, where there is one.
    pub fn password(&self) -> Option<&'w str>
        ensures { option_copied result ≡ self.now.password }
    {
        self.password
    }

    /// For how many seconds the server leads, unless it goes on leading: 3, where that is left out.
    pub fn lease(&self) -> u32
        ensures { result ≡ unwrap_or self.now.lease 3 }
    {
        self.lease.unwrap_or(3)
    }

    /// What it tells those who come while it waits to lead.
    pub fn waiting(&self) -> Waiting
        ensures { result ≡ self.now.waiting }
    {
        self.waiting
    }

    /// By how many seconds the clock may be ahead of the moment that the state has, where that is limited.
    pub fn ahead(&self) -> Option<u64>
        ensures { result ≡ clock_limit self.now.clock }
    {
        self.clock.limit()
    }

    /// The hooks, in their order.
    pub fn hooks(&self) -> &[HookFile<'w>]
        ensures { map hook_said result.now ≡ self.now.hooks }
    {
        &self.hooks
    }

    // Takes a hook.
    fn push(&mut self, hook: HookFile<'w>) -> Result<(), StartFault<'w>>
        ensures done { OnOk result (self.new ≡ record self.old { hooks = self.old.hooks ++ hook_said hook.entry ∷ [] }) }
        ensures memory { IfErr result (λ fault. fault ≡ Memory) }
    {
        let Ok(()) = self.hooks.push(hook) else {
            return Err(StartFault::Memory);
        };
        Ok(())
    }

    // Takes what an option says of a list in etcd.
    fn take_of_list(&mut self, option: ListOption, value: &'w str) -> Result<(), WordFault>
        ensures done { OnOk result (with_list_value self.old option value.now ≡ Ok self.new) }
        ensures refused { IfErr result (λ fault. with_list_value self.old option value.now ≡ Err fault) }
    {
        match option {
            ListOption::Etcd => self.etcd = once(self.etcd, path_in(value))?,
            ListOption::Prefix => self.prefix = once(self.prefix, path_in(value))?,
            ListOption::User => self.user = once(self.user, path_in(value))?,
            ListOption::Password => self.password = once(self.password, path_in(value))?,
            ListOption::Lease => self.lease = once(self.lease, above_1(value))?,
        }
        Ok(())
    }

    // Takes an option and its value.
    fn take(&mut self, word: &'w str, value: &'w str) -> Result<(), StartFault<'w>>
        ensures done { OnOk result (with_option self.old word.now value.now ≡ Ok self.new) }
        ensures refused { IfErr result (λ fault. IsWhyRefused (blamed word.now (with_option self.old word.now value.now)) fault) }
    {
        let blame = |fault| StartFault::Word { word, fault };
        match option_named(word).ok_or(WordFault::Unknown).map_err(blame)? {
            OptionName::Silence => self.silence = once(self.silence, above_0(value)).map_err(
                blame,
            )?,
            OptionName::Full => self.full = once(self.full, number_said(value)).map_err(blame)?,
            OptionName::Report => self.report = once(self.report, above_0(value)).map_err(blame)?,
            OptionName::Audit => self.audit = once(self.audit, path_in(value)).map_err(blame)?,
            OptionName::State => self.state = once(self.state, path_in(value)).map_err(blame)?,
            OptionName::List(option) => self.take_of_list(option, value).map_err(blame)?,
            OptionName::Hook(layout) => {
                let hook = hook_in(layout, value)
                    .ok_or(WordFault::BadValue)
                    .map_err(blame)?;
                self.push(hook)?;
            }
        }
        Ok(())
    }

    // Takes an option that has no value.
    fn take_flag(&mut self, word: &'w str, flag: FlagName) -> Result<(), StartFault<'w>>
        ensures done { OnOk result (flag_taken self.old flag ≡ Ok self.new) }
        ensures refused { IfErr result (λ fault. IsWhyRefused (blamed word.now (flag_taken self.old flag)) fault) }
    {
        match (flag, self.clock, self.waiting) {
            (FlagName::AcceptClock, FarClock::Refused, _) => self.clock = FarClock::Accepted,
            (FlagName::StandbyAnswers, _, Waiting::Deaf) => self.waiting = Waiting::Answers,
            _ => {
                let fault = WordFault::Twice;
                return Err(StartFault::Word { word, fault });
            }
        }
        Ok(())
    }

    // Takes the option of a word, with its value where it has one, and gives the words behind it.
    fn take_first(
        &mut self,
        word: &'w str,
        behind: &'w [String],
    ) -> Result<&'w [String], StartFault<'w>>
        ensures done { IfOk result (λ rest. options_after self.old (word.now ∷ map string_bytes behind.now) ≡ options_after self.new (map string_bytes rest.now)) }
        ensures behind { IfOk result (λ rest. length rest.now ≤ length behind.now) }
        ensures refused { IfErr result (IsWhyRefused (options_after self.old (word.now ∷ map string_bytes behind.now))) }
    {
        if let Some(flag) = flag_named(word) {
            self.take_flag(word, flag)?;
            return Ok(behind);
        }
        let Some((value, behind)) = behind.split_first() else {
            let fault = lone_fault(word);
            return Err(StartFault::Word { word, fault });
        };
        self.take(word, value.as_str())?;
        Ok(behind)
    }

    // Takes options.
    fn take_all(&mut self, words: &'w [String]) -> Result<(), StartFault<'w>>
        ensures done { OnOk result (options_after self.old (map string_bytes words.now) ≡ Ok self.new) }
        ensures refused { IfErr result (IsWhyRefused (options_after self.old (map string_bytes words.now))) }
    {
        let mut rest = words;
        while let Some((word, behind)) = rest.split_first() {
            rest = self.take_first(word.as_str(), behind)?;
        }
        Ok(())
    }

    // The option that lacks another one, or stands beside one that it does not go with.
    fn lone(&self) -> Option<(&'static str, WordFault)>
        ensures { option_map (λ p. (p.0.now, p.1)) result ≡ lone_option self.now }
    {
        if self.etcd.is_none() {
            return self.listless();
        }
        if self.state.is_some() {
            return Some(("--etcd", WordFault::BesideState));
        }
        if self.prefix.is_none() {
            return Some(("--etcd", WordFault::NoPrefix));
        }
        match (self.user, self.password) {
            (Some(_), None) => Some(("--etcd-user", WordFault::NoPassword)),
            (None, Some(_)) => Some(("--etcd-password-file", WordFault::NoUser)),
            _ => None,
        }
    }

    // The option that says something of a list in etcd alone.
    fn listless(&self) -> Option<(&'static str, WordFault)>
        ensures { option_map (λ p. (p.0.now, p.1)) result ≡ listless self.now }
    {
        if self.prefix.is_some() {
            return Some(("--prefix", WordFault::NoEtcd));
        }
        if self.user.is_some() {
            return Some(("--etcd-user", WordFault::NoEtcd));
        }
        if self.password.is_some() {
            return Some(("--etcd-password-file", WordFault::NoEtcd));
        }
        if self.lease.is_some() {
            return Some(("--lease", WordFault::NoEtcd));
        }
        match self.waiting {
            Waiting::Answers => Some(("--standby-answers", WordFault::NoEtcd)),
            Waiting::Deaf => None,
        }
    }

    // Takes the numbers that count by their places, and gives the words behind them.
    fn take_places(&mut self, words: &'w [String]) -> Option<&'w [String]>
        ensures some { IfSome result (λ rest. placed_after self.old (map string_bytes words.now) ≡ Ok (self.new, map string_bytes rest.now)) }
        ensures none { IfNone result (placed_after self.old (map string_bytes words.now) ≡ Err bad_words) }
    {
        let Some((silence, words)) = by_place(words) else {
            return Some(words);
        };
        self.silence = Some(above_0(silence)?);
        let Some((full, words)) = by_place(words) else {
            return Some(words);
        };
        self.full = Some(number_said(full)?);
        match by_place(words) {
            Some(_) => None,
            None => Some(words),
        }
    }

    /// The options that the words behind the registry's file say.
    pub fn read(alloc: Global, words: &'w [String]) -> Result<Options<'w>, StartFault<'w>>
        ensures done { IfOk result (λ options. options_in (map string_bytes words.now) ≡ Ok options) }
        ensures refused { IfErr result (IsWhyRefused (options_in (map string_bytes words.now))) }
    {
        let mut options = Options::new(alloc);
        let Some(rest) = options.take_places(words) else {
            return Err(StartFault::BadWords);
        };
        options.take_all(rest)?;
        match options.lone() {
            Some((word, fault)) => Err(StartFault::Word { word, fault }),
            None => Ok(options),
        }
    }
}
