//! The keys of a list, and what its head says as bytes.

ghost use Rattle.std.specs.Prelude.{◌≡◌, ◌≤◌, ◌+◌, ◌++◌, IfOk, OnOk, bytes_eq, codes, length};
ghost use Rattle.etcd_keys.specs.Keys.{before_key, behind_key, digits, first_key, head_bytes, head_key, head_told, is_head_of_other, last_key, leader_key, number_at, number_told, piece_key, place_told, worth};

use etcd_cluster::change::Head;
use hex::{decode_to_slice, encode, encode_to_slice};
use std::alloc::{AllocError, Global};

/// The keys of a list begin with these bytes.
#[derive(Drop)]
pub struct Names {
    pub prefix: Vec<u8>,
}

/// Adds a number, as 16 digits.
fn push_digits(alloc: Global, out: &mut Vec<u8>, number: u64) -> Result<(), AllocError>
    ensures { OnOk result (out.new.items ≡ out.old.items ++ digits number) }
{
    let text = encode(alloc, number.to_be_bytes().as_slice())?;
    out.extend_from_slice(text.as_bytes())?;
    Ok(())
}

/// Whether the text is the number, as 16 digits.
fn are_digits(number: u64, text: &[u8]) -> bool
    ensures { result ≡ bytes_eq text.now (digits number) }
{
    let mut spelled = [0; 16];
    match encode_to_slice(number.to_be_bytes().as_slice(), &mut spelled) {
        Ok(()) => text == spelled.as_slice(),
        Err(_) => false,
    }
}

/// What 16 digits are worth, in either case.
fn worth(text: &[u8]) -> Option<u64>
    ensures { result ≡ worth text.now }
{
    let mut bytes = [0; 8];
    match decode_to_slice(text, &mut bytes) {
        Ok(()) => Some(u64::from_be_bytes(bytes)),
        Err(_) => None,
    }
}

/// The number that is spelled so.
fn number_told(text: &[u8]) -> Option<u64>
    ensures { result ≡ number_told text.now }
{
    let number = worth(text)?;
    if are_digits(number, text) {
        Some(number)
    } else {
        None
    }
}

/// Whether these bytes stand behind a prefix in the key of a head.
fn is_of_head(rest: &[u8]) -> bool
    ensures { result ≡ bytes_eq rest.now (codes "/head") }
{
    rest == b"/head".as_slice()
}

impl Names {
    /// Those of a list under this name.
    pub fn new(alloc: Global, name: &str) -> Result<Names, AllocError>
        ensures { IfOk result (λ names. names.prefix.items ≡ name.now) }
    {
        let mut prefix = Vec::new(alloc);
        prefix.extend_from_slice(name.as_bytes())?;
        Ok(Names { prefix })
    }

    /// A key that begins so.
    fn key(&self, alloc: Global, rest: &[u8]) -> Result<Vec<u8>, AllocError>
        ensures { IfOk result (λ key. key.items ≡ self.now.prefix.items ++ rest.now) }
    {
        let mut key = Vec::new(alloc);
        key.extend_from_slice(&self.prefix)?;
        key.extend_from_slice(rest)?;
        Ok(key)
    }

    /// Who writes.
    pub fn leader(&self, alloc: Global) -> Result<Vec<u8>, AllocError>
        ensures { IfOk result (λ key. key.items ≡ leader_key self.now.prefix.items) }
    {
        self.key(alloc, b"/leader")
    }

    /// The head.
    pub fn head(&self, alloc: Global) -> Result<Vec<u8>, AllocError>
        ensures { IfOk result (λ key. key.items ≡ head_key self.now.prefix.items) }
    {
        self.key(alloc, b"/head")
    }

    /// Whether it is the key of the head.
    pub fn is_head(&self, key: &[u8]) -> bool
        ensures { result ≡ bytes_eq key.now (head_key self.now.prefix.items) }
    {
        if !key.starts_with(&self.prefix) {
            return false;
        }
        is_of_head(&key[self.prefix.len()..])
    }

    /// What the keys of all pieces begin with.
    pub fn first(&self, alloc: Global) -> Result<Vec<u8>, AllocError>
        ensures { IfOk result (λ key. key.items ≡ first_key self.now.prefix.items) }
    {
        self.key(alloc, b"/at/")
    }

    /// What stands behind them all.
    pub fn last(&self, alloc: Global) -> Result<Vec<u8>, AllocError>
        ensures { IfOk result (λ key. key.items ≡ last_key self.now.prefix.items) }
    {
        self.key(alloc, b"/at0")
    }

    /// What the keys of a generation begin with.
    pub fn before(&self, alloc: Global, generation: u64) -> Result<Vec<u8>, AllocError>
        ensures { IfOk result (λ key. key.items ≡ before_key self.now.prefix.items generation) }
    {
        let mut key = self.first(alloc)?;
        push_digits(alloc, &mut key, generation)?;
        key.extend_from_slice(b"/")?;
        Ok(key)
    }

    /// What stands behind them.
    pub fn behind(&self, alloc: Global, generation: u64) -> Result<Vec<u8>, AllocError>
        ensures { IfOk result (λ key. key.items ≡ behind_key self.now.prefix.items generation) }
    {
        let mut key = self.first(alloc)?;
        push_digits(alloc, &mut key, generation)?;
        key.extend_from_slice(b"0")?;
        Ok(key)
    }

    /// The piece of a generation at that place.
    pub fn piece(&self, alloc: Global, generation: u64, at: u64) -> Result<Vec<u8>, AllocError>
        ensures { IfOk result (λ key. key.items ≡ piece_key self.now.prefix.items generation at) }
    {
        let mut key = self.before(alloc, generation)?;
        push_digits(alloc, &mut key, at)?;
        Ok(key)
    }
}

/// The place of a piece, by its key and what those of its generation begin with.
pub fn place_told(before: &[u8], key: &[u8]) -> Option<u64>
    ensures { result ≡ place_told before.now key.now }
{
    if !key.starts_with(before) {
        return None;
    }
    number_told(&key[before.len()..])
}

/// What a head says, as 48 bytes, in that cluster.
pub fn head_bytes(alloc: Global, cluster: u64, head: &Head) -> Result<Vec<u8>, AllocError>
    ensures { IfOk result (λ bytes. bytes.items ≡ head_bytes cluster head.now) }
{
    let mut bytes = Vec::new(alloc);
    bytes.extend_from_slice(&cluster.to_be_bytes())?;
    bytes.extend_from_slice(&head.server.to_be_bytes())?;
    bytes.extend_from_slice(&head.turn.to_be_bytes())?;
    bytes.extend_from_slice(&head.generation.to_be_bytes())?;
    bytes.extend_from_slice(&head.end.to_be_bytes())?;
    bytes.extend_from_slice(&head.room.to_be_bytes())?;
    Ok(bytes)
}

/// The number of eight bytes at that place.
fn number_at(bytes: &[u8], at: usize) -> u64
    requires { at + 8 ≤ length bytes.now }
    ensures { result ≡ number_at bytes.now at }
{
    let mut part = [0; 8];
    part.copy_from_slice(&bytes[at..at + 8]);
    u64::from_be_bytes(part)
}

/// Whether bytes are a head that was put in another cluster than that one.
pub fn is_head_of_other(cluster: u64, bytes: &[u8]) -> bool
    ensures { result ≡ is_head_of_other cluster bytes.now }
{
    bytes.len() == 48 && number_at(bytes, 0) != cluster
}

/// The head that bytes say, if they are one of that cluster.
pub fn head_told(cluster: u64, bytes: &[u8]) -> Option<Head>
    ensures { result ≡ head_told cluster bytes.now }
{
    if bytes.len() != 48 || number_at(bytes, 0) != cluster {
        return None;
    }
    Some(Head {
        server: number_at(bytes, 8),
        turn: number_at(bytes, 16),
        generation: number_at(bytes, 24),
        end: number_at(bytes, 32),
        room: number_at(bytes, 40),
    })
}
