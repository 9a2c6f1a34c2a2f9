//! A report, as lines.
ghost use Rattle.std.specs.Prelude.{◌≡◌, ◌++◌, OnOk};
ghost use Rattle.std.specs.List.{flat_map};
ghost use Rattle.metrics.specs.Text.{began_text, connections_text, denied_text, kept_text, replies_text, report_text, reported_text, request_line, requests_text, single_text, state_text, status_line, unavailable_text, why_line};

use crate::page::{Family, Label, Page};
use answers::{Asked, ENDPOINTS, Endpoint, Replied, Wanted};
use outside::Report;
use std::alloc::AllocError;

impl Page {
    // A name of one number, and that.
    #[tactic(auto, unfolding(crate::specs::Text::single_text))]
    fn single(&mut self, family: Family<'_>, value: u64) -> Result<(), AllocError>
        ensures { OnOk result (self.new.text.items ≡ self.old.text.items
            ++ single_text family.entry.name.now family.entry.kind.now family.entry.help.now value) }
    {
        self.family(family)?;
        self.plain(family.name, value)
    }

    /// Since when the server runs.
    pub(crate) fn began(&mut self, began: u64) -> Result<(), AllocError>
        ensures { OnOk result (self.new.text.items ≡ self.old.text.items ++ began_text began) }
    {
        let family = Family {
            name: "oauthd_start_time_seconds",
            kind: "gauge",
            help: "When the program began, in seconds since 1970.",
        };
        self.single(family, began)
    }

    // How many requests there were at an endpoint.
    fn request(&mut self, asked: &Asked, endpoint: Endpoint) -> Result<(), AllocError>
        ensures { OnOk result (self.new.text.items ≡ self.old.text.items ++ request_line asked.now endpoint) }
    {
        let label = Label {
            name: "path",
            value: endpoint.name().as_bytes(),
        };
        self.labelled("oauthd_requests_total", label, asked.count(endpoint))
    }

    // How many there were at these.
    fn requests_at(&mut self, asked: &Asked, endpoints: &[Endpoint]) -> Result<(), AllocError>
        ensures { OnOk result (self.new.text.items ≡ self.old.text.items ++ flat_map (request_line asked.now) endpoints.now) }
    {
        for endpoint in endpoints {
            self.request(asked, *endpoint)?;
        }
        Ok(())
    }

    // How many there were, by their paths.
    fn requests(&mut self, asked: &Asked) -> Result<(), AllocError>
        ensures { OnOk result (self.new.text.items ≡ self.old.text.items ++ requests_text asked.now) }
    {
        self.family(Family {
            name: "oauthd_requests_total",
            kind: "counter",
            help: "Requests that were answered, by their paths.",
        })?;
        self.requests_at(asked, &ENDPOINTS)?;
        let label = Label {
            name: "path",
            value: b"nowhere",
        };
        self.labelled("oauthd_requests_total", label, asked.nowhere)?;
        Ok(())
    }

    // How many replies there were of a status.
    fn status(&mut self, status: &str, count: u64) -> Result<(), AllocError>
        ensures { OnOk result (self.new.text.items ≡ self.old.text.items ++ status_line status.now count) }
    {
        let label = Label {
            name: "status",
            value: status.as_bytes(),
        };
        self.labelled("oauthd_replies_total", label, count)
    }

    // How many replies there were, by their statuses.
    fn replies(&mut self, replied: &Replied) -> Result<(), AllocError>
        ensures { OnOk result (self.new.text.items ≡ self.old.text.items ++ replies_text replied.now) }
    {
        self.family(Family {
            name: "oauthd_replies_total",
            kind: "counter",
            help: "Replies, by their statuses.",
        })?;
        self.status("200", replied.ok)?;
        self.status("302", replied.found)?;
        self.status("400", replied.bad_request)?;
        self.status("401", replied.unauthorized)?;
        self.status("403", replied.forbidden)?;
        self.status("404", replied.not_found)?;
        self.status("405", replied.not_allowed)?;
        self.status("503", replied.unavailable)?;
        Ok(())
    }

    // How often something was wanting.
    fn why(&mut self, why: &str, count: u64) -> Result<(), AllocError>
        ensures { OnOk result (self.new.text.items ≡ self.old.text.items ++ why_line why.now count) }
    {
        let label = Label {
            name: "why",
            value: why.as_bytes(),
        };
        self.labelled("oauthd_unavailable_total", label, count)
    }

    // How many replies were 503, by what was wanting.
    fn unavailable(&mut self, wanted: &Wanted) -> Result<(), AllocError>
        ensures { OnOk result (self.new.text.items ≡ self.old.text.items ++ unavailable_text wanted.now) }
    {
        self.family(Family {
            name: "oauthd_unavailable_total",
            kind: "counter",
            help: "Replies with status 503, by what was wanting.",
        })?;
        self.why("memory", wanted.memory)?;
        self.why("store_full", wanted.store_room)?;
        self.why("client_full", wanted.client_room)?;
        self.why("drawn_twice", wanted.fresh_draw)?;
        self.why("consents_full", wanted.consent_room)?;
        Ok(())
    }

    // How many connections there are, and came.
    fn connections(&mut self, report: &Report) -> Result<(), AllocError>
        ensures { OnOk result (self.new.text.items ≡ self.old.text.items ++ connections_text report.now) }
    {
        let open = Family {
            name: "oauthd_connections",
            kind: "gauge",
            help: "Connections that are there.",
        };
        self.single(open, report.open as u64)?;
        let accepted = Family {
            name: "oauthd_accepted_total",
            kind: "counter",
            help: "Connections that came.",
        };
        self.single(accepted, report.accepted)?;
        Ok(())
    }

    // How many bytes the file of the state has, where there is one.
    fn state(&mut self, bytes: Option<u64>) -> Result<(), AllocError>
        ensures { OnOk result (self.new.text.items ≡ self.old.text.items ++ state_text bytes) }
    {
        let Some(bytes) = bytes else {
            return Ok(());
        };
        let family = Family {
            name: "oauthd_state_bytes",
            kind: "gauge",
            help: "Bytes of the state file.",
        };
        self.single(family, bytes)
    }

    // How much is kept.
    fn kept(&mut self, report: &Report) -> Result<(), AllocError>
        ensures { OnOk result (self.new.text.items ≡ self.old.text.items ++ kept_text report.now) }
    {
        let records = Family {
            name: "oauthd_codes_and_tokens",
            kind: "gauge",
            help: "Codes and tokens in memory.",
        };
        self.single(records, report.records as u64)?;
        let consents = Family {
            name: "oauthd_consents",
            kind: "gauge",
            help: "Consents that are kept.",
        };
        self.single(consents, report.consents as u64)?;
        let hooks = Family {
            name: "oauthd_hooks",
            kind: "gauge",
            help: "Hooks.",
        };
        self.single(hooks, report.hooks as u64)?;
        self.state(report.state)?;
        Ok(())
    }

    // How many grants hooks denied.
    fn denied(&mut self, denied: u64) -> Result<(), AllocError>
        ensures { OnOk result (self.new.text.items ≡ self.old.text.items ++ denied_text denied) }
    {
        let family = Family {
            name: "oauthd_denied_total",
            kind: "counter",
            help: "Grants that a hook denied.",
        };
        self.single(family, denied)
    }

    // A report.
    fn report(&mut self, report: &Report) -> Result<(), AllocError>
        ensures { OnOk result (self.new.text.items ≡ self.old.text.items ++ report_text report.now) }
    {
        self.requests(&report.tally.asked)?;
        self.replies(&report.tally.replied)?;
        self.unavailable(&report.tally.wanted)?;
        self.denied(report.tally.denied)?;
        self.connections(report)?;
        self.kept(report)?;
        Ok(())
    }

    /// What was reported last, if anything.
    pub(crate) fn reported(&mut self, report: &Option<Report>) -> Result<(), AllocError>
        ensures { OnOk result (self.new.text.items ≡ self.old.text.items ++ reported_text report.now) }
    {
        match report {
            Some(report) => self.report(report),
            None => Ok(()),
        }
    }
}
