//! The part of a registry that bounds grants.

use consent::{Digest, OwnerNo, ScopeSet};

/// A client by its name, with the scope that it may be allowed.
#[derive(Clone, Copy)]
pub struct ClientBounds<'r> {
    pub name: &'r str,
    pub allowed: ScopeSet,
}

/// An owner by its number, with the digests of its key and of what it is called, if anything.
#[derive(Clone, Copy)]
pub struct OwnerBounds {
    pub number: OwnerNo,
    pub key: Digest,
    pub sub: Option<Digest>,
}

/// The part of a registry that bounds grants: what their numbers mean, and how far they may reach.
#[derive(Drop)]
pub struct Bounds<'r> {
    /// The names of the scopes, in the order of the registry.
    pub scopes: Vec<&'r str>,
    /// The owners, in the order of the registry.
    pub owners: Vec<OwnerBounds>,
    /// Owners state their numbers: they are no places.
    pub numbered: bool,
    /// There is a gateway, which may name owners who are not listed.
    pub gateway: bool,
    /// The clients, in the order of the registry.
    pub clients: Vec<ClientBounds<'r>>,
    /// In seconds.
    pub access_life: u32,
    /// In seconds.
    pub refresh_life: u32,
}
