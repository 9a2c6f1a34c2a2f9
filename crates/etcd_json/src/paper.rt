//! Requests, spelled.

ghost use Rattle.std.specs.Prelude.{◌≡◌, ◌++◌, ◌∷◌, [], IfOk, OnOk, flat_map, map};
ghost use Rattle.json.specs.Token.{begin_array, begin_object, end_array, end_object, key};
ghost use Rattle.json.specs.Print.{print};
ghost use Rattle.etcd_json.specs.Requests.{PastIn, PutLeasedAt, RangeIn, bounds, bytes_member, compaction_text, compare_fact, compare_members, compare_tokens, grant_text, lease_text, login_text, number_member, operation_fact, operation_members, operation_name, operation_tokens, put_members, revision_name, target_name, text_member, transaction_fact, transaction_text};

use crate::request::{Compare, Operation, Target, Transaction};
use base64::engine::general_purpose::STANDARD;
use json::Writer;
use std::alloc::{AllocError, Global};

/// What was written of a request: its tokens, from the first on.
#[derive(Drop)]
pub struct Paper {
    alloc: Global,
    pub json: Writer,
    ghost alone: { json.before ≡ [] },
}

/// What of a key is compared.
fn target_name(target: Target) -> &'static str
    ensures { result.now ≡ target_name target }
{
    match target {
        Target::Created => "CREATE",
        Target::Written => "MOD",
    }
}

/// What its revision is called.
fn revision_name(target: Target) -> &'static str
    ensures { result.now ≡ revision_name target }
{
    match target {
        Target::Created => "create_revision",
        Target::Written => "mod_revision",
    }
}

/// What an operation is called.
fn operation_name(operation: &Operation<'_>) -> &'static str
    ensures { result.now ≡ operation_name (operation_fact operation.now) }
{
    match operation {
        Operation::Put(..) | Operation::PutLeased(..) => "request_put",
        Operation::Delete(..) => "request_delete_range",
        _ => "request_range",
    }
}

impl Paper {
    /// Of a transaction: its three lists are to follow, `compare`, `success` and `failure`.
    pub fn new(alloc: Global) -> Result<Paper, AllocError>
        ensures { IfOk result (λ paper. paper.json.tokens ≡ begin_object ∷ []) }
    {
        let mut json = Writer::new(Vec::new(alloc));
        json.begin_object()?;
        Ok(Paper { alloc, json })
    }

    /// One more member, a text.
    fn text(&mut self, name: &str, text: &str) -> Result<(), AllocError>
        ensures { OnOk result (self.new.json.tokens ≡ self.old.json.tokens ++ text_member name.now text.now) }
    {
        self.json.key(name)?;
        self.json.string(text)
    }

    /// One more member, a number.
    fn number(&mut self, name: &str, number: u64) -> Result<(), AllocError>
        ensures { OnOk result (self.new.json.tokens ≡ self.old.json.tokens ++ number_member name.now number) }
    {
        self.json.key(name)?;
        self.json.quoted_u64(number)
    }

    /// One more member, bytes.
    fn bytes(&mut self, name: &str, bytes: &[u8]) -> Result<(), AllocError>
        ensures { OnOk result (self.new.json.tokens ≡ self.old.json.tokens ++ bytes_member name.now bytes.now) }
    {
        let text = STANDARD.encode(self.alloc, bytes)?;
        self.text(name, text.as_str())
    }

    /// Two more members: from which key on, and up to which one.
    fn bounds(&mut self, from: &[u8], to: &[u8]) -> Result<(), AllocError>
        ensures { OnOk result (self.new.json.tokens ≡ self.old.json.tokens ++ bounds from.now to.now) }
    {
        self.bytes("key", from)?;
        self.bytes("range_end", to)
    }

    /// Two more members: which key, and its value.
    fn put(&mut self, name: &[u8], value: &[u8]) -> Result<(), AllocError>
        ensures { OnOk result (self.new.json.tokens ≡ self.old.json.tokens ++ put_members name.now value.now) }
    {
        self.bytes("key", name)?;
        self.bytes("value", value)
    }

    /// The members of a compare.
    fn compare_members(&mut self, compare: &Compare<'_>) -> Result<(), AllocError>
        ensures { OnOk result (self.new.json.tokens ≡ self.old.json.tokens ++ compare_members (compare_fact compare.now)) }
    {
        self.bytes("key", compare.key)?;
        self.text("target", target_name(compare.target))?;
        self.text("result", "EQUAL")?;
        self.number(revision_name(compare.target), compare.revision)
    }

    /// A compare.
    pub fn compare(&mut self, compare: &Compare<'_>) -> Result<(), AllocError>
        ensures { OnOk result (self.new.json.tokens ≡ self.old.json.tokens ++ compare_tokens (compare_fact compare.now)) }
    {
        self.json.begin_object()?;
        self.compare_members(compare)?;
        self.json.end_object()
    }

    /// The members of a put with a lease.
    fn put_leased(&mut self, name: &[u8], value: &[u8], lease: u64) -> Result<(), AllocError>
        ensures { OnOk result (self.new.json.tokens ≡ self.old.json.tokens ++ operation_members (PutLeasedAt name.now value.now lease)) }
    {
        self.put(name, value)?;
        self.number("lease", lease)
    }

    /// The members of a range.
    fn range(&mut self, from: &[u8], to: &[u8], most: u64) -> Result<(), AllocError>
        ensures { OnOk result (self.new.json.tokens ≡ self.old.json.tokens ++ operation_members (RangeIn from.now to.now most)) }
    {
        self.bounds(from, to)?;
        self.number("limit", most)
    }

    /// The members of a range at a revision.
    fn past(&mut self, from: &[u8], to: &[u8], most: u64, revision: u64) -> Result<(), AllocError>
        ensures { OnOk result (self.new.json.tokens ≡ self.old.json.tokens ++ operation_members (PastIn from.now to.now most revision)) }
    {
        self.range(from, to, most)?;
        self.number("revision", revision)
    }

    /// The members of an operation.
    fn operation_members(&mut self, operation: &Operation<'_>) -> Result<(), AllocError>
        ensures { OnOk result (self.new.json.tokens ≡ self.old.json.tokens ++ operation_members (operation_fact operation.now)) }
    {
        match *operation {
            Operation::Put(name, value) => self.put(name, value),
            Operation::PutLeased(name, value, lease) => self.put_leased(name, value, lease),
            Operation::Delete(from, to) => self.bounds(from, to),
            Operation::Get(name) => self.bytes("key", name),
            Operation::Range(from, to, most) => self.range(from, to, most),
            Operation::Past(from, to, most, revision) => self.past(from, to, most, revision),
        }
    }

    /// An operation.
    pub fn operation(&mut self, operation: &Operation<'_>) -> Result<(), AllocError>
        ensures { OnOk result (self.new.json.tokens ≡ self.old.json.tokens ++ operation_tokens (operation_fact operation.now)) }
    {
        self.json.begin_object()?;
        self.json.key(operation_name(operation))?;
        self.json.begin_object()?;
        self.operation_members(operation)?;
        self.json.end_object()?;
        self.json.end_object()
    }

    /// Compares.
    fn compares(&mut self, compares: &[Compare<'_>]) -> Result<(), AllocError>
        ensures { OnOk result (self.new.json.tokens ≡ self.old.json.tokens ++ flat_map compare_tokens (map compare_fact compares.now)) }
    {
        for compare in compares {
            self.compare(compare)?;
        }
        Ok(())
    }

    /// Operations.
    fn operations(&mut self, operations: &[Operation<'_>]) -> Result<(), AllocError>
        ensures { OnOk result (self.new.json.tokens ≡ self.old.json.tokens ++ flat_map operation_tokens (map operation_fact operations.now)) }
    {
        for operation in operations {
            self.operation(operation)?;
        }
        Ok(())
    }

    /// One more member begins, a list.
    pub fn begin_list(&mut self, name: &str) -> Result<(), AllocError>
        ensures { OnOk result (self.new.json.tokens ≡ self.old.json.tokens ++ key name.now ∷ begin_array ∷ []) }
    {
        self.json.key(name)?;
        self.json.begin_array()
    }

    /// It ends.
    pub fn end_list(&mut self) -> Result<(), AllocError>
        ensures { OnOk result (self.new.json.tokens ≡ self.old.json.tokens ++ end_array ∷ []) }
    {
        self.json.end_array()
    }

    /// The text of the object.
    pub fn finish(self) -> Result<Vec<u8>, AllocError>
        ensures { IfOk result (λ text. text.items ≡ print (self.json.tokens ++ end_object ∷ [])) }
    {
        let mut json = self.json;
        json.end_object()?;
        Ok(json.into_inner())
    }
}

/// A transaction (`/v3/kv/txn`).
pub fn transaction_request(
    alloc: Global,
    transaction: &Transaction<'_>,
) -> Result<Vec<u8>, AllocError>
    ensures { IfOk result (λ text. text.items ≡ transaction_text (transaction_fact transaction.now)) }
{
    let mut paper = Paper::new(alloc)?;
    paper.begin_list("compare")?;
    paper.compares(transaction.compares)?;
    paper.end_list()?;
    paper.begin_list("success")?;
    paper.operations(transaction.success)?;
    paper.end_list()?;
    paper.begin_list("failure")?;
    paper.operations(transaction.failure)?;
    paper.end_list()?;
    paper.finish()
}

/// A lease of so many seconds is wanted (`/v3/lease/grant`).
pub fn grant_request(alloc: Global, seconds: u64) -> Result<Vec<u8>, AllocError>
    ensures { IfOk result (λ text. text.items ≡ grant_text seconds) }
{
    let mut paper = Paper::new(alloc)?;
    paper.number("TTL", seconds)?;
    paper.finish()
}

/// A lease is to begin anew, or to end (`/v3/lease/keepalive`, `/v3/lease/revoke`).
pub fn lease_request(alloc: Global, lease: u64) -> Result<Vec<u8>, AllocError>
    ensures { IfOk result (λ text. text.items ≡ lease_text lease) }
{
    let mut paper = Paper::new(alloc)?;
    paper.number("ID", lease)?;
    paper.finish()
}

/// What keys had before a revision may be let go of (`/v3/kv/compaction`).
pub fn compaction_request(alloc: Global, revision: u64) -> Result<Vec<u8>, AllocError>
    ensures { IfOk result (λ text. text.items ≡ compaction_text revision) }
{
    let mut paper = Paper::new(alloc)?;
    paper.number("revision", revision)?;
    paper.finish()
}

/// A token for a user is wanted (`/v3/auth/authenticate`).
pub fn login_request(alloc: Global, name: &str, password: &str) -> Result<Vec<u8>, AllocError>
    ensures { IfOk result (λ text. text.items ≡ login_text name.now password.now) }
{
    let mut paper = Paper::new(alloc)?;
    paper.text("name", name)?;
    paper.text("password", password)?;
    paper.finish()
}
