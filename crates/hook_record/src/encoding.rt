//! The bytes of a record, little-endian, in versions 1 and 2.

ghost use Rattle.std.specs.Prelude.{◌≡◌, ◌+◌, ◌≤◌, [], length, Some, IfSome};
ghost use Rattle.std.specs.List.{AllByRecursion};
ghost use Rattle.hook_record.specs.Record.{ask_at_version, ask_in_v1, ask_in_v2, bytes_of, fields_before, fields_v1, fields_v2, kind_number, kind_of, record_v1, record_v2, u32_at, u64_at, without_further, StandsIn};

use crate::numbers::{put_u32, put_u64, u32_at, u64_at};
use crate::{Ask, Kind};

/// Where the scope mask of the grant stands, which the hook may write.
pub(crate) const SCOPE_OFFSET: usize = 40;

/// Where its lifetime stands, which the hook may write.
pub(crate) const LIFE_OFFSET: usize = 48;

impl Kind {
    /// The number by which a record names the kind.
    fn number(self) -> u32
        ensures { result ≡ kind_number self }
    {
        match self {
            Kind::Code => 1,
            Kind::Refresh => 2,
            Kind::ClientCredentials => 3,
        }
    }

    /// The kind that a number names.
    pub fn from_number(number: u64) -> Option<Kind>
        ensures { result ≡ kind_of number }
    {
        match number {
            1 => Some(Kind::Code),
            2 => Some(Kind::Refresh),
            3 => Some(Kind::ClientCredentials),
            _ => None,
        }
    }
}

/// The first 64 bytes of an ask's record: the fields that both versions have.
fn first_fields(version: u32, ask: &Ask) -> [u8; 64]
    ensures bytes { result ≡ bytes_of (fields_before [] version ask.entry.now) }
    ensures offsets { AllByRecursion (StandsIn result) (fields_before [] version ask.entry.now) }
{
    let mut bytes = [0; 64];
    put_u32(&mut bytes, 0, version);
    put_u32(&mut bytes, 4, ask.kind.number());
    put_u64(&mut bytes, 8, ask.now);
    put_u64(&mut bytes, 16, ask.client);
    put_u64(&mut bytes, 24, ask.owner);
    put_u64(&mut bytes, 32, ask.asked);
    put_u64(&mut bytes, SCOPE_OFFSET, ask.scope);
    put_u32(&mut bytes, LIFE_OFFSET, ask.life);
    put_u32(&mut bytes, 52, 0);
    put_u64(&mut bytes, 56, ask.allowed);
    bytes
}

/// The ask in the fields that both versions have, unless the record is of another version.
fn read_fields(bytes: &[u8], version: u32) -> Option<Ask>
    requires { 64 ≤ length bytes.now }
    ensures { result ≡ ask_at_version version bytes.now }
{
    if u32_at(bytes, 0) != version || u32_at(bytes, 52) != 0 {
        return None;
    }
    let kind = Kind::from_number(u64::from(u32_at(bytes, 4)))?;
    Some(Ask {
        kind,
        now: u64_at(bytes, 8),
        client: u64_at(bytes, 16),
        owner: u64_at(bytes, 24),
        asked: u64_at(bytes, 32),
        scope: u64_at(bytes, SCOPE_OFFSET),
        life: u32_at(bytes, LIFE_OFFSET),
        allowed: u64_at(bytes, 56),
        consented: 0,
        access_limit: 0,
        refresh_limit: 0,
    })
}

/// The record of an ask in version 1, which leaves out the consented scopes and the two limits.
pub fn write(ask: &Ask) -> [u8; 64]
    ensures bytes { result ≡ record_v1 ask.entry.now }
    ensures offsets { AllByRecursion (StandsIn result) (fields_v1 ask.entry.now) }
    ensures read_again { ask_in_v1 result ≡ Some (without_further ask.entry.now) }
{
    first_fields(1, ask)
}

/// The ask of a record of version 1, with 0 for the consented scopes and the two limits.
///
/// `None` where the version is not 1, the kind is not 1 to 3, or bytes 52 to 55 are not 0.
pub fn read(bytes: &[u8; 64]) -> Option<Ask>
    ensures ask { result ≡ ask_in_v1 bytes.now }
    ensures written_so { IfSome result (λ ask. record_v1 ask ≡ bytes.now) }
{
    read_fields(bytes, 1)
}

/// The record of an ask in version 2.
pub fn write_v2(ask: &Ask) -> [u8; 96]
    ensures bytes { result ≡ record_v2 ask.entry.now }
    ensures offsets { AllByRecursion (StandsIn result) (fields_v2 ask.entry.now) }
    ensures read_again { ask_in_v2 result ≡ Some ask.entry.now }
{
    let mut bytes = [0; 96];
    bytes[..64].copy_from_slice(&first_fields(2, ask));
    put_u64(&mut bytes, 64, ask.consented);
    put_u32(&mut bytes, 72, ask.access_limit);
    put_u32(&mut bytes, 76, ask.refresh_limit);
    bytes
}

/// The ask of a record of version 2.
///
/// `None` where the version is not 2, the kind is not 1 to 3, or bytes 52 to 55 or 80 to 95 are not 0.
pub fn read_v2(bytes: &[u8; 96]) -> Option<Ask>
    ensures ask { result ≡ ask_in_v2 bytes.now }
    ensures written_so { IfSome result (λ ask. record_v2 ask ≡ bytes.now) }
{
    if u64_at(bytes, 80) != 0 || u64_at(bytes, 88) != 0 {
        return None;
    }
    let ask = read_fields(bytes, 2)?;
    Some(Ask {
        consented: u64_at(bytes, 64),
        access_limit: u32_at(bytes, 72),
        refresh_limit: u32_at(bytes, 76),
        ..ask
    })
}
