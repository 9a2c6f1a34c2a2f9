//! Where faults are noted, and what is told is handed on.
use crate::fault::ConnectionFault;
use crate::report::Notice;
use clients::Registry;
use telling::Tellings;

/// What a fault is noted in, a line each.
pub trait Journal {
    ghost use Rattle.outside.specs.declared.fault.ConnectionFault.{ConnectionFault};
    ghost use Rattle.outside.specs.declared.report.Notice.{Notice};
    ghost use Rattle.clients.specs.RegistryRecord.{RegistryRecord};
    ghost use Rattle.telling.specs.Audience.{Audience};

    // A fault was noted, or could not be, and the journal is another from then on.
    ghost notes: { Self → ConnectionFault → Self → Type 0 };

    // A notice was written, or could not be, and the journal is another from then on.
    ghost reports: { Self → Notice → Self → Type 0 };

    // What was told of requests, under the rules, was written, or could not be, and the journal is another from then on.
    ghost audits: { Self → RegistryRecord → Audience → Self → Type 0 };

    /// Notes why a connection ended.
    fn note(&mut self, fault: ConnectionFault)
        ensures { notes self.old fault self.new };

    /// Tells what the server does.
    fn report(&mut self, notice: &Notice)
        ensures { reports self.old notice.now self.new };

    /// Takes what was told of requests, in its order, and how much more there was no room for.
    fn audit(&mut self, rules: &Registry, tellings: &Tellings)
        ensures { audits self.old rules.now tellings.now self.new };
}
