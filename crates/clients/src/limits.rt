//! What a server keeps at most.

ghost use Rattle.std.specs.Prelude.{◌≡◌};
ghost use Rattle.serde_json.specs.Find.{get};
ghost use Rattle.serde_json.specs.View.{view};
ghost use Rattle.registry_json.specs.Json.{number_if_any};
ghost use Rattle.clients.specs.Limits.{greatest_limit};
ghost use Rattle.clients.specs.Registry.{limit_member, limits_of, limits_member, usual_limits};

use registry_json::fault::{ConfigFault, Refusal, located};
use registry_json::json::number_if_any;
use registry_json::spot::Spot;
use serde_json::Value;

const GREATEST: u32 = 16_777_216;

const USUAL_RECORDS: u32 = 65_536;

const USUAL_CONSENTS: u32 = 4096;

/// What a server keeps at most.
#[derive(Clone, Copy, Debug, PartialEq, Eq)]
pub struct Limits {
    /// Codes and tokens that have not expired.
    pub records: u32,
    /// Consents to something.
    pub consents: u32,
}

impl Limits {
    // The limits where a registry states none.
    fn usual() -> Limits
        ensures { result ≡ usual_limits }
    {
        Limits {
            records: USUAL_RECORDS,
            consents: USUAL_CONSENTS,
        }
    }

    // The greatest that a registry may state.
    pub(crate) fn greatest() -> Limits
        ensures { (result.records ≡ greatest_limit) × (result.consents ≡ greatest_limit) }
    {
        Limits {
            records: GREATEST,
            consents: GREATEST,
        }
    }
}

// The limit that the member of this name states, if there is one.
pub(crate) fn stated_limit(value: &Value, name: &str) -> Result<Option<u32>, ConfigFault>
    ensures { result ≡ number_if_any greatest_limit (get name.now (view value.now)) }
{
    number_if_any(GREATEST, value.get(name))
}

// The limit that the member of this name states, and the usual one where there is none.
fn limit_member(value: &Value, name: &str, usual: u32) -> Result<u32, ConfigFault>
    ensures { result ≡ limit_member name.now usual (view value.now) }
{
    Ok(stated_limit(value, name)?.unwrap_or(usual))
}

// The limits that an object states.
fn limits_of(value: &Value) -> Result<Limits, Refusal>
    ensures { result ≡ limits_of (view value.now) }
{
    if !value.is_object() {
        return Err(Refusal::At(ConfigFault::BadShape, Spot::Limits));
    }
    Ok(Limits {
        records: located(
            Spot::RecordLimit,
            limit_member(value, "records", USUAL_RECORDS),
        )?,
        consents: located(
            Spot::ConsentLimit,
            limit_member(value, "consents", USUAL_CONSENTS),
        )?,
    })
}

// The member `limits`.
pub(crate) fn limits_member(value: &Value) -> Result<Limits, Refusal>
    ensures { result ≡ limits_member (view value.now) }
{
    match value.get("limits") {
        Some(value) => limits_of(value),
        None => Ok(Limits::usual()),
    }
}
