//! Reports as lines of JSON.
ghost use Rattle.std.specs.Prelude.{◌≡◌, ◌++◌, IfOk, OnOk};
ghost use Rattle.std.specs.List.{flat_map};
ghost use Rattle.json.specs.Print.{print};
ghost use Rattle.reports.specs.ReportTokens.{asked_tokens, connections_tokens, endpoint_tokens, kept_tokens, replied_tokens, report_tokens, state_tokens, wanted_tokens};

use answers::ENDPOINTS;
use endpoints::{Asked, Endpoint, Replied, Wanted};
use messages::Object;
use outside::Report;
use std::alloc::{AllocError, Global};

// Room for a report whose numbers have ten digits.
const ROOM: usize = 1024;

// How many connections there are, and came.
fn connections(line: &mut Object, report: &Report) -> Result<(), AllocError>
    ensures { OnOk result (line.new.json.tokens ≡ line.old.json.tokens ++ connections_tokens report.now) }
{
    line.begin("connections")?;
    line.number("open", report.open as u64)?;
    line.number("accepted", report.accepted)?;
    line.end()
}

// How many requests there were at these endpoints.
fn counts(line: &mut Object, asked: &Asked, endpoints: &[Endpoint]) -> Result<(), AllocError>
    ensures { OnOk result (line.new.json.tokens ≡ line.old.json.tokens ++ flat_map (endpoint_tokens asked.now) endpoints.now) }
{
    for endpoint in endpoints {
        line.number(endpoint.name(), asked.count(*endpoint))?;
    }
    Ok(())
}

// How many requests there were, by their endpoints.
fn asked(line: &mut Object, asked: &Asked) -> Result<(), AllocError>
    ensures { OnOk result (line.new.json.tokens ≡ line.old.json.tokens ++ asked_tokens asked.now) }
{
    line.begin("requests")?;
    counts(line, asked, &ENDPOINTS)?;
    line.number("nowhere", asked.nowhere)?;
    line.end()
}

// How many replies, by their statuses.
fn replied(line: &mut Object, replied: &Replied) -> Result<(), AllocError>
    ensures { OnOk result (line.new.json.tokens ≡ line.old.json.tokens ++ replied_tokens replied.now) }
{
    line.begin("replies")?;
    line.number("200", replied.ok)?;
    line.number("302", replied.found)?;
    line.number("400", replied.bad_request)?;
    line.number("401", replied.unauthorized)?;
    line.number("403", replied.forbidden)?;
    line.number("404", replied.not_found)?;
    line.number("405", replied.not_allowed)?;
    line.number("503", replied.unavailable)?;
    line.end()
}

// How many 503s, by what was wanting.
fn wanted(line: &mut Object, wanted: &Wanted) -> Result<(), AllocError>
    ensures { OnOk result (line.new.json.tokens ≡ line.old.json.tokens ++ wanted_tokens wanted.now) }
{
    line.begin("unavailable")?;
    line.number("memory", wanted.memory)?;
    line.number("store_full", wanted.store_room)?;
    line.number("client_full", wanted.client_room)?;
    line.number("drawn_twice", wanted.fresh_draw)?;
    line.number("consents_full", wanted.consent_room)?;
    line.end()
}

// How much is kept.
fn kept(line: &mut Object, report: &Report) -> Result<(), AllocError>
    ensures { OnOk result (line.new.json.tokens ≡ line.old.json.tokens ++ kept_tokens report.now) }
{
    line.number("records", report.records as u64)?;
    line.number("consents", report.consents as u64)?;
    line.number("hooks", report.hooks as u64)
}

// How many bytes the file of the state has, where there is one.
fn state(line: &mut Object, bytes: Option<u64>) -> Result<(), AllocError>
    ensures { OnOk result (line.new.json.tokens ≡ line.old.json.tokens ++ state_tokens bytes) }
{
    match bytes {
        Some(bytes) => line.number("state_bytes", bytes),
        None => Ok(()),
    }
}

/// A report as a line of JSON, without its end.
pub fn report_text(alloc: Global, report: &Report) -> Result<Vec<u8>, AllocError>
    ensures { IfOk result (λ text. text.items ≡ print (report_tokens report.now)) }
{
    let mut line = Object::new(alloc, ROOM)?;
    line.number("moment", report.moment.get())?;
    line.number("seconds", report.seconds)?;
    connections(&mut line, report)?;
    asked(&mut line, &report.tally.asked)?;
    replied(&mut line, &report.tally.replied)?;
    wanted(&mut line, &report.tally.wanted)?;
    line.number("denied_by_hooks", report.tally.denied)?;
    kept(&mut line, report)?;
    state(&mut line, report.state)?;
    line.finish()
}
