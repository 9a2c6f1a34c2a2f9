//! Members, texts, numbers and lists of JSON data (RFC 8259).

ghost use Rattle.std.specs.Prelude.{◌≡◌, ◌≤◌, length, option_map, IfOk};
ghost use Rattle.serde_json.specs.View.{view, items_view};
ghost use Rattle.registry_json.specs.FaultsParts.{seen_by};
ghost use Rattle.registry_json.specs.Json.{member_of, text_of, number_to, number_if_any, life_of, list_of, items_in};

use crate::fault::ConfigFault;
use serde_json::Value;

/// The member of this name.
pub fn member<'v>(value: &'v Value, name: &str) -> Result<&'v Value, ConfigFault>
    ensures { seen_by (λ v. view v.now) result ≡ member_of name.now (view value.now) }
{
    value.get(name).ok_or(ConfigFault::BadShape)
}

/// The text of a string.
pub fn text(value: &Value) -> Result<&str, ConfigFault>
    ensures { seen_by (λ s. s.now) result ≡ text_of (view value.now) }
{
    value.as_str().ok_or(ConfigFault::BadShape)
}

/// A whole number, from 1 to the most.
pub fn number_to(most: u32, value: &Value) -> Result<u32, ConfigFault>
    ensures { result ≡ number_to most (view value.now) }
{
    let number = value.as_number().ok_or(ConfigFault::BadShape)?;
    match number.as_u64() {
        Some(number) if 1 <= number && number <= most as u64 => Ok(number as u32),
        _ => Err(ConfigFault::OutOfRange),
    }
}

/// One that may be absent.
pub fn number_if_any(most: u32, value: Option<&Value>) -> Result<Option<u32>, ConfigFault>
    ensures { result ≡ number_if_any most (option_map (λ v. view v.now) value.entry) }
{
    match value {
        Some(value) => Ok(Some(number_to(most, value)?)),
        None => Ok(None),
    }
}

/// A life in seconds.
pub fn life(value: &Value) -> Result<u32, ConfigFault>
    ensures { result ≡ life_of (view value.now) }
{
    number_to(31_536_000, value)
}

/// The items of a list.
pub fn list(value: &Value) -> Result<&[Value], ConfigFault>
    ensures { seen_by (λ list. items_view list.now) result ≡ list_of (view value.now) }
{
    let list = value.as_array().ok_or(ConfigFault::BadShape)?;
    Ok(list.as_slice())
}

/// The items of the list of this name, of which there are from the least to the most.
#[tactic(auto, using(crate::proofs::Items::item_count_of))]
pub fn items<'v>(
    value: &'v Value,
    name: &str,
    least: usize,
    most: usize,
) -> Result<&'v [Value], ConfigFault>
    ensures value { seen_by (λ list. items_view list.now) result ≡ items_in name.now least most (view value.now) }
    ensures at_most { IfOk result (λ list. length list.now ≤ most) }
{
    let list = list(member(value, name)?)?;
    if least <= list.len() && list.len() <= most {
        Ok(list)
    } else {
        Err(ConfigFault::OutOfRange)
    }
}
