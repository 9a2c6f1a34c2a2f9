//! The requests for a list, as bytes.

ghost use Rattle.std.specs.Prelude.{◌≡◌, ◌++◌, [], ◌∷◌, IfOk, OnOk, codes, flat_map, map};
ghost use Rattle.etcd_json.specs.Requests.{DeleteIn, GetAt, PutAt, compare_tokens, list_member, operation_tokens, transaction_text};
ghost use Rattle.etcd_cluster.specs.Stands.{change_fact, write_fact};
ghost use Rattle.etcd_client.specs.Asked.{change_asked, change_compares, change_operations, end_key, head_asked, lead_asked, leader_asked, past_asked, pieces_asked, write_operations};
ghost use Rattle.etcd_keys.specs.Keys.{head_key};

use etcd_cluster::change::{Change, Wanted, Write};
use etcd_json::{Compare, Operation, Paper, Target, Transaction, transaction_request};
use etcd_keys::{Names, head_bytes};
use std::alloc::{AllocError, Global};

/// Behind the pieces that are to go: the last of all places stands behind each piece.
fn end_key(alloc: Global, names: &Names, generation: u64, to: u64) -> Result<Vec<u8>, AllocError>
    ensures { IfOk result (λ key. key.items ≡ end_key names.now.prefix.items generation to) }
{
    if to == u64::MAX {
        names.behind(alloc, generation)
    } else {
        names.piece(alloc, generation, to)
    }
}

/// Adds a put.
fn put_one<'x>(paper: &mut Paper, name: &'x [u8], value: &'x [u8]) -> Result<(), AllocError>
    ensures { OnOk result (paper.new.json.tokens ≡ paper.old.json.tokens ++ operation_tokens (PutAt name.now value.now)) }
{
    paper.operation(&Operation::Put(name, value))
}

/// Adds a deletion.
fn delete_one<'x>(paper: &mut Paper, from: &'x [u8], to: &'x [u8]) -> Result<(), AllocError>
    ensures { OnOk result (paper.new.json.tokens ≡ paper.old.json.tokens ++ operation_tokens (DeleteIn from.now to.now)) }
{
    paper.operation(&Operation::Delete(from, to))
}

/// Adds what a write does.
fn write_one(
    alloc: Global,
    paper: &mut Paper,
    names: &Names,
    write: &Write<'_>,
) -> Result<(), AllocError>
    ensures { OnOk result (paper.new.json.tokens ≡ paper.old.json.tokens
        ++ flat_map operation_tokens (write_operations names.now.prefix.items (write_fact write.now))) }
{
    match *write {
        Write::Lay(generation, at, bytes) => {
            let key = names.piece(alloc, generation, at)?;
            let value = bytes.to_vec(alloc)?;
            put_one(paper, &key, &value)
        }
        Write::Clear(generation, from, to) => {
            let from = names.piece(alloc, generation, from)?;
            let to = end_key(alloc, names, generation, to)?;
            delete_one(paper, &from, &to)
        }
        Write::Forget(generation) => {
            let first = names.first(alloc)?;
            let before = names.before(alloc, generation)?;
            delete_one(paper, &first, &before)?;
            let behind = names.behind(alloc, generation)?;
            let last = names.last(alloc)?;
            delete_one(paper, &behind, &last)
        }
    }
}

/// Adds what writes do, in their order.
fn write_all(
    alloc: Global,
    paper: &mut Paper,
    names: &Names,
    writes: &[Write<'_>],
) -> Result<(), AllocError>
    ensures { OnOk result (paper.new.json.tokens ≡ paper.old.json.tokens
        ++ flat_map operation_tokens (flat_map (write_operations names.now.prefix.items) (map write_fact writes.now))) }
{
    for write in writes {
        write_one(alloc, paper, names, write)?;
    }
    Ok(())
}

/// Where a change is done: where the head is of that version, and this server leads.
fn write_compares(
    alloc: Global,
    paper: &mut Paper,
    names: &Names,
    server: u64,
    after: u64,
) -> Result<(), AllocError>
    ensures { OnOk result (paper.new.json.tokens ≡ paper.old.json.tokens
        ++ list_member (codes "compare") (flat_map compare_tokens (change_compares names.now.prefix.items server after))) }
{
    let head = names.head(alloc)?;
    let leader = names.leader(alloc)?;
    paper.begin_list("compare")?;
    paper.compare(&Compare {
        key: &head,
        target: Target::Written,
        revision: after,
    })?;
    paper.compare(&Compare {
        key: &leader,
        target: Target::Created,
        revision: server,
    })?;
    paper.end_list()
}

/// What it does: it puts the head, and changes pieces.
fn write_success(
    alloc: Global,
    paper: &mut Paper,
    names: &Names,
    cluster: u64,
    change: &Change<'_>,
) -> Result<(), AllocError>
    ensures { OnOk result (paper.new.json.tokens ≡ paper.old.json.tokens
        ++ list_member (codes "success") (flat_map operation_tokens (change_operations names.now.prefix.items cluster (change_fact change.now)))) }
{
    let head = names.head(alloc)?;
    let value = head_bytes(alloc, cluster, &change.head)?;
    paper.begin_list("success")?;
    put_one(paper, &head, &value)?;
    write_all(alloc, paper, names, change.writes)?;
    paper.end_list()
}

/// Else the head is told.
fn write_failure(alloc: Global, paper: &mut Paper, names: &Names) -> Result<(), AllocError>
    ensures { OnOk result (paper.new.json.tokens ≡ paper.old.json.tokens
        ++ list_member (codes "failure") (flat_map operation_tokens (GetAt (head_key names.now.prefix.items) ∷ []))) }
{
    let head = names.head(alloc)?;
    paper.begin_list("failure")?;
    paper.operation(&Operation::Get(&head))?;
    paper.end_list()
}

/// A change.
pub(crate) fn change_request(
    alloc: Global,
    names: &Names,
    server: u64,
    cluster: u64,
    change: &Change<'_>,
) -> Result<Vec<u8>, AllocError>
    ensures { IfOk result (λ text. text.items
        ≡ transaction_text (change_asked names.now.prefix.items server cluster (change_fact change.now))) }
{
    let mut paper = Paper::new(alloc)?;
    write_compares(alloc, &mut paper, names, server, change.after)?;
    write_success(alloc, &mut paper, names, cluster, change)?;
    write_failure(alloc, &mut paper, names)?;
    paper.finish()
}

/// The head is to be told.
pub(crate) fn head_request(alloc: Global, names: &Names) -> Result<Vec<u8>, AllocError>
    ensures { IfOk result (λ text. text.items ≡ transaction_text (head_asked names.now.prefix.items)) }
{
    let head = names.head(alloc)?;
    let success = [Operation::Get(&head)];
    let transaction = Transaction {
        compares: &[],
        success: &success,
        failure: &[],
    };
    transaction_request(alloc, &transaction)
}

/// Pieces are, where the head is of that version.
pub(crate) fn pieces_request(
    alloc: Global,
    names: &Names,
    wanted: Wanted,
) -> Result<Vec<u8>, AllocError>
    ensures { IfOk result (λ text. text.items ≡ transaction_text (pieces_asked names.now.prefix.items wanted)) }
{
    let head = names.head(alloc)?;
    let from = names.piece(alloc, wanted.generation, wanted.from)?;
    let to = names.behind(alloc, wanted.generation)?;
    let compares = [Compare {
        key: &head,
        target: Target::Written,
        revision: wanted.version,
    }];
    let success = [Operation::Range(&from, &to, wanted.most)];
    let failure = [Operation::Get(&head)];
    let transaction = Transaction {
        compares: &compares,
        success: &success,
        failure: &failure,
    };
    transaction_request(alloc, &transaction)
}

/// Pieces are that stood there when the head was put at that version.
pub(crate) fn past_request(
    alloc: Global,
    names: &Names,
    wanted: Wanted,
) -> Result<Vec<u8>, AllocError>
    ensures { IfOk result (λ text. text.items ≡ transaction_text (past_asked names.now.prefix.items wanted)) }
{
    let from = names.piece(alloc, wanted.generation, wanted.from)?;
    let to = names.behind(alloc, wanted.generation)?;
    let success = [Operation::Past(&from, &to, wanted.most, wanted.version)];
    let transaction = Transaction {
        compares: &[],
        success: &success,
        failure: &[],
    };
    transaction_request(alloc, &transaction)
}

/// Whether somebody leads is.
pub(crate) fn leader_request(alloc: Global, names: &Names) -> Result<Vec<u8>, AllocError>
    ensures { IfOk result (λ text. text.items ≡ transaction_text (leader_asked names.now.prefix.items)) }
{
    let leader = names.leader(alloc)?;
    let success = [Operation::Get(&leader)];
    let transaction = Transaction {
        compares: &[],
        success: &success,
        failure: &[],
    };
    transaction_request(alloc, &transaction)
}

/// By this lease, where nobody leads, this server is to lead.
pub(crate) fn lead_request(alloc: Global, names: &Names, lease: u64) -> Result<Vec<u8>, AllocError>
    ensures { IfOk result (λ text. text.items ≡ transaction_text (lead_asked names.now.prefix.items lease)) }
{
    let leader = names.leader(alloc)?;
    let compares = [Compare {
        key: &leader,
        target: Target::Created,
        revision: 0,
    }];
    let success = [Operation::PutLeased(&leader, b"oauthd", lease)];
    let failure = [Operation::Get(&leader)];
    let transaction = Transaction {
        compares: &compares,
        success: &success,
        failure: &failure,
    };
    transaction_request(alloc, &transaction)
}
