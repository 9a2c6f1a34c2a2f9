//! The two parts round the first place of a byte.
ghost use Rattle.std.specs.Prelude.{◌≡◌, ◌==◌};
ghost use Rattle.std.specs.List.{position, before_first, after_first};

fn place_of(text: &[u8], delimiter: u8) -> Option<usize>
    ensures { result ≡ position (λ b. b == delimiter) text.now }
{
    text.iter().position(|byte| *byte == delimiter)
}

// All of the text where it has no such byte.
pub(crate) fn before(text: &[u8], delimiter: u8) -> &[u8]
    ensures { result.now ≡ before_first (λ b. b == delimiter) text.now }
{
    match place_of(text, delimiter) {
        Some(place) => &text[..place],
        None => text,
    }
}

// Empty where the text has no such byte.
pub(crate) fn behind(text: &[u8], delimiter: u8) -> &[u8]
    ensures { result.now ≡ after_first (λ b. b == delimiter) text.now }
{
    match place_of(text, delimiter) {
        Some(place) => &text[place + 1..],
        None => &[],
    }
}
