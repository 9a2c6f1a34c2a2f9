//! The path of a request, as far as its first line came.
ghost use Rattle.std.specs.Prelude.{◌≡◌, ◌==◌};
ghost use Rattle.std.specs.List.{position, before_first, after_first};
ghost use Rattle.metrics.specs.Watching.{path_in};

use answers::Endpoint;

fn place_of(text: &[u8], delimiter: u8) -> Option<usize>
    ensures { result ≡ position (λ b. b == delimiter) text.now }
{
    text.iter().position(|byte| *byte == delimiter)
}

// All of the text where it has no such byte.
fn before(text: &[u8], delimiter: u8) -> &[u8]
    ensures { result.now ≡ before_first (λ b. b == delimiter) text.now }
{
    match place_of(text, delimiter) {
        Some(place) => &text[..place],
        None => text,
    }
}

// Empty where the text has no such byte.
fn behind(text: &[u8], delimiter: u8) -> &[u8]
    ensures { result.now ≡ after_first (λ b. b == delimiter) text.now }
{
    match place_of(text, delimiter) {
        Some(place) => &text[place + 1..],
        None => &[],
    }
}

/// The endpoint whose path stands behind the first blank.
pub(crate) fn path_in(bytes: &[u8]) -> Option<Endpoint>
    ensures { result ≡ path_in bytes.now }
{
    Endpoint::at(before(before(behind(bytes, b' '), b' '), b'?'))
}
