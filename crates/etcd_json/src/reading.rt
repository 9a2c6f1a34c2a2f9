//! Replies, read.

ghost use Rattle.std.specs.Prelude.{codes, map, string_bytes};
ghost use Rattle.base64.specs.Engines.{standard};
ghost use Rattle.base64.specs.GeneralPurpose.{decoded_of};
ghost use Rattle.json.specs.Find.{as_array};
ghost use Rattle.json.specs.Value.{value_view, items_view};
ghost use Rattle.etcd_json.specs.Outcomes.{ReadsAs};
ghost use Rattle.etcd_json.specs.Replies.{bytes_in, bytes_or_none, code_told, each_in, each_of, entry_fact, entry_in, flag_in, found_fact, found_in, granted_in, granted_told, header_in, json_of, keepalive_told, login_told, number_in, number_or_0, reply_fact, reply_in, response_fact, response_in, revision_told, seconds_in, text_in, transaction_told};

use crate::number::number_told;
use crate::reply::ReplyFault::Strange;
use crate::reply::{Entry, Found, Granted, Header, Reply, ReplyFault, Response};
use base64::DecodeAllocError;
use base64::engine::general_purpose::STANDARD;
use json::{Error, Scratch, Value};
use std::alloc::Global;

/// The JSON that bytes are.
fn parsed<'t>(
    alloc: Global,
    bytes: &'t [u8],
    scratch: &'t mut Scratch,
) -> Result<Value<'t>, ReplyFault>
    ensures { ReadsAs value_view result (json_of bytes.now) }
{
    match Value::from_slice(alloc, bytes, scratch) {
        Ok(value) => Ok(value),
        Err(Error::OutOfMemory) => Err(ReplyFault::Memory),
        Err(Error::Invalid) => Err(Strange),
        Err(Error::TooLong) => Err(Strange),
        Err(Error::DuplicateKey) => Err(Strange),
    }
}

/// A text that is in an object.
fn text_in<'t>(value: &Value<'t>, name: &str) -> Result<&'t str, ReplyFault>
    ensures { ReadsAs (λ text. text.now) result (text_in name.now (value_view value.now)) }
{
    value.get(name).ok_or(Strange)?.as_str().ok_or(Strange)
}

/// A number that is, as digits in quotes.
fn number_in(value: &Value<'_>, name: &str) -> Result<u64, ReplyFault>
    ensures { ReadsAs (λ number. number) result (number_in name.now (value_view value.now)) }
{
    number_told(text_in(value, name)?).ok_or(Strange)
}

/// One that may be left out where it is 0.
fn number_or_0(value: &Value<'_>, name: &str) -> Result<u64, ReplyFault>
    ensures { ReadsAs (λ number. number) result (number_or_0 name.now (value_view value.now)) }
{
    match value.get(name) {
        None => Ok(0),
        Some(member) => number_told(member.as_str().ok_or(Strange)?).ok_or(Strange),
    }
}

/// The bytes of a text in base64.
fn decoded(alloc: Global, text: &str) -> Result<Vec<u8>, ReplyFault>
    ensures { ReadsAs (λ bytes. bytes.items) result (decoded_of standard text.now) }
{
    match STANDARD.decode(alloc, text.as_bytes()) {
        Ok(bytes) => Ok(bytes),
        Err(DecodeAllocError::OutOfMemory) => Err(ReplyFault::Memory),
        Err(DecodeAllocError::DecodeError(_)) => Err(Strange),
    }
}

/// Bytes that are in an object, in base64.
fn bytes_in(alloc: Global, value: &Value<'_>, name: &str) -> Result<Vec<u8>, ReplyFault>
    ensures { ReadsAs (λ bytes. bytes.items) result (bytes_in name.now (value_view value.now)) }
{
    decoded(alloc, text_in(value, name)?)
}

/// Those that may be left out where there are none.
fn bytes_or_none(alloc: Global, value: &Value<'_>, name: &str) -> Result<Vec<u8>, ReplyFault>
    ensures { ReadsAs (λ bytes. bytes.items) result (bytes_or_none name.now (value_view value.now)) }
{
    match value.get(name) {
        None => Ok(Vec::new(alloc)),
        Some(member) => decoded(alloc, member.as_str().ok_or(Strange)?),
    }
}

/// What may be left out where it is false.
fn flag_in(value: &Value<'_>, name: &str) -> Result<bool, ReplyFault>
    ensures { ReadsAs (λ flag. flag) result (flag_in name.now (value_view value.now)) }
{
    match value.get(name) {
        None => Ok(false),
        Some(member) => member.as_bool().ok_or(Strange),
    }
}

/// The items of a list.
fn list_of<'v, 't>(value: &'v Value<'t>) -> Result<&'v [Value<'t>], ReplyFault>
    ensures { ReadsAs (λ items. items_view items.now) result (as_array (value_view value.now)) }
{
    if let Value::Array(items) = value {
        Ok(items.as_slice())
    } else {
        Err(Strange)
    }
}

/// Of which cluster a reply is, and of which revision.
fn header_in(value: &Value<'_>) -> Result<Header, ReplyFault>
    ensures { ReadsAs (λ header. header) result (header_in (value_view value.now)) }
{
    let header = value.get("header").ok_or(Strange)?;
    Ok(Header {
        cluster: number_in(header, "cluster_id")?,
        revision: number_in(header, "revision")?,
    })
}

/// What stands under a key.
fn entry_in(alloc: Global, value: &Value<'_>) -> Result<Entry, ReplyFault>
    ensures { ReadsAs entry_fact result (entry_in (value_view value.now)) }
{
    Ok(Entry {
        key: bytes_in(alloc, value, "key")?,
        value: bytes_or_none(alloc, value, "value")?,
        created: number_in(value, "create_revision")?,
        written: number_in(value, "mod_revision")?,
        lease: number_or_0(value, "lease")?,
    })
}

/// What each of these tells.
fn entries_of(alloc: Global, items: &[Value<'_>]) -> Result<Vec<Entry>, ReplyFault>
    ensures { ReadsAs (λ entries. map entry_fact entries.items) result (each_of entry_in (items_view items.now)) }
{
    let mut entries = Vec::new(alloc);
    let mut rest = items;
    while let [item, later @ ..] = rest {
        entries.push(entry_in(alloc, item)?)?;
        rest = later;
    }
    Ok(entries)
}

/// What stands under each of the keys, which may be left out where there are none.
fn entries_in(alloc: Global, value: &Value<'_>) -> Result<Vec<Entry>, ReplyFault>
    ensures { ReadsAs (λ entries. map entry_fact entries.items) result (each_in (codes "kvs") entry_in (value_view value.now)) }
{
    match value.get("kvs") {
        None => Ok(Vec::new(alloc)),
        Some(member) => entries_of(alloc, list_of(member)?),
    }
}

/// What stands under keys.
fn found_in(alloc: Global, value: &Value<'_>) -> Result<Found, ReplyFault>
    ensures { ReadsAs found_fact result (found_in (value_view value.now)) }
{
    Ok(Found {
        entries: entries_in(alloc, value)?,
        more: flag_in(value, "more")?,
    })
}

/// What an operation came to.
fn response_in(alloc: Global, value: &Value<'_>) -> Result<Response, ReplyFault>
    ensures { ReadsAs response_fact result (response_in (value_view value.now)) }
{
    if let Some(range) = value.get("response_range") {
        return Ok(Response::Found(found_in(alloc, range)?));
    }
    if let Some(_put) = value.get("response_put") {
        return Ok(Response::Put);
    }
    if let Some(_deleted) = value.get("response_delete_range") {
        return Ok(Response::Deleted);
    }
    Err(Strange)
}

/// What each of these came to.
fn responses_of(alloc: Global, items: &[Value<'_>]) -> Result<Vec<Response>, ReplyFault>
    ensures { ReadsAs (λ responses. map response_fact responses.items) result (each_of response_in (items_view items.now)) }
{
    let mut responses = Vec::new(alloc);
    let mut rest = items;
    while let [item, later @ ..] = rest {
        responses.push(response_in(alloc, item)?)?;
        rest = later;
    }
    Ok(responses)
}

/// What each operation came to, which may be left out where there was none.
fn responses_in(alloc: Global, value: &Value<'_>) -> Result<Vec<Response>, ReplyFault>
    ensures { ReadsAs (λ responses. map response_fact responses.items) result (each_in (codes "responses") response_in (value_view value.now)) }
{
    match value.get("responses") {
        None => Ok(Vec::new(alloc)),
        Some(member) => responses_of(alloc, list_of(member)?),
    }
}

/// What a transaction came to.
fn reply_in(alloc: Global, value: &Value<'_>) -> Result<Reply, ReplyFault>
    ensures { ReadsAs reply_fact result (reply_in (value_view value.now)) }
{
    Ok(Reply {
        header: header_in(value)?,
        succeeded: flag_in(value, "succeeded")?,
        responses: responses_in(alloc, value)?,
    })
}

/// What a transaction came to (`/v3/kv/txn`).
pub fn transaction_reply(alloc: Global, bytes: &[u8]) -> Result<Reply, ReplyFault>
    ensures { ReadsAs reply_fact result (transaction_told bytes.now) }
{
    let mut scratch = Scratch::new(alloc);
    let value = parsed(alloc, bytes, &mut scratch)?;
    reply_in(alloc, &value)
}

/// The lease that was granted (`/v3/lease/grant`).
pub fn granted_reply(alloc: Global, bytes: &[u8]) -> Result<Granted, ReplyFault>
    ensures { ReadsAs (λ granted. granted) result (granted_told bytes.now) }
{
    let mut scratch = Scratch::new(alloc);
    let value = parsed(alloc, bytes, &mut scratch)?;
    Ok(Granted {
        lease: number_in(&value, "ID")?,
        seconds: number_in(&value, "TTL")?,
    })
}

/// For how many seconds a lease began anew: 0 where it is no more (`/v3/lease/keepalive`).
pub fn keepalive_reply(alloc: Global, bytes: &[u8]) -> Result<u64, ReplyFault>
    ensures { ReadsAs (λ seconds. seconds) result (keepalive_told bytes.now) }
{
    let mut scratch = Scratch::new(alloc);
    let value = parsed(alloc, bytes, &mut scratch)?;
    number_or_0(value.get("result").ok_or(Strange)?, "TTL")
}

/// Which cluster did what was asked, and at which revision (`/v3/kv/compaction`).
pub fn revision_reply(alloc: Global, bytes: &[u8]) -> Result<Header, ReplyFault>
    ensures { ReadsAs (λ header. header) result (revision_told bytes.now) }
{
    let mut scratch = Scratch::new(alloc);
    let value = parsed(alloc, bytes, &mut scratch)?;
    header_in(&value)
}

/// The token of a user (`/v3/auth/authenticate`).
pub fn login_reply(alloc: Global, bytes: &[u8]) -> Result<String, ReplyFault>
    ensures { ReadsAs string_bytes result (login_told bytes.now) }
{
    let mut scratch = Scratch::new(alloc);
    let value = parsed(alloc, bytes, &mut scratch)?;
    Ok(String::from_str(alloc, text_in(&value, "token")?)?)
}

/// The code of a fault.
pub fn fault_code(alloc: Global, bytes: &[u8]) -> Result<u64, ReplyFault>
    ensures { ReadsAs (λ code. code) result (code_told bytes.now) }
{
    let mut scratch = Scratch::new(alloc);
    let value = parsed(alloc, bytes, &mut scratch)?;
    let code = value.get("code").ok_or(Strange)?;
    number_told(code.as_number().ok_or(Strange)?).ok_or(Strange)
}
