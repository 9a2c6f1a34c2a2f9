//! Numbers in decimal digits.

ghost use Rattle.std.specs.Prelude.{◌≡◌};
ghost use Rattle.std.specs.List.{list_all};
ghost use Rattle.std.specs.Char.{is_ascii_digit};
ghost use Rattle.start_words.specs.Numbers.{number_said};

/// Whether all bytes are digits.
fn are_digits(bytes: &[u8]) -> bool
    ensures { result ≡ list_all is_ascii_digit bytes.now }
{
    bytes.iter().all(|byte| byte.is_ascii_digit())
}

/// The number that digits say, where it is below `2^32`.
pub fn number_said(text: &str) -> Option<u32>
    ensures { result ≡ number_said text.now }
{
    if !are_digits(text.as_bytes()) {
        return None;
    }
    text.parse::<u32>().ok()
}
