//! Owners whom a gateway names.

ghost use Rattle.std.specs.Prelude.{◌≡◌};
ghost use Rattle.std.specs.List.{position, before_first, after_first};
ghost use Rattle.clients.specs.Gateway.{is_space, with_digits, number_in};

use consent::OwnerNo;

// The greatest number of an owner.
const GREATEST: u64 = u32::MAX as u64;

fn place_of_space(sent: &[u8]) -> Option<usize>
    ensures { result ≡ position is_space sent.now }
{
    sent.iter().position(|byte| *byte == b' ')
}

// What stands before the first space: all of it, where there is none.
pub(crate) fn before_space(sent: &[u8]) -> &[u8]
    ensures { result.now ≡ before_first is_space sent.now }
{
    match place_of_space(sent) {
        Some(place) => &sent[..place],
        None => sent,
    }
}

// What stands behind the first space: nothing, where there is none.
pub(crate) fn behind_space(sent: &[u8]) -> &[u8]
    ensures { result.now ≡ after_first is_space sent.now }
{
    match place_of_space(sent) {
        Some(place) => &sent[place + 1..],
        None => &[],
    }
}

// The number of these decimal digits, where it is that of an owner or 0.
fn of_digits(digits: &[u8]) -> Option<u32>
    ensures { result ≡ with_digits 0 digits.now }
{
    let mut number = 0u32;
    for &digit in digits {
        if !digit.is_ascii_digit() {
            return None;
        }
        let more = number as u64 * 10 + (digit - b'0') as u64;
        if more > GREATEST {
            return None;
        }
        number = more as u32;
    }
    Some(number)
}

/// An owner's number in decimal, without a leading zero.
pub fn number_in(text: &[u8]) -> Option<OwnerNo>
    ensures { result ≡ number_in text.now }
{
    if *text.first()? == b'0' {
        return None;
    }
    OwnerNo::numbered(of_digits(text)?)
}
