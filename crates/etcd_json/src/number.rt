//! Numbers in decimal digits.

ghost use Rattle.std.specs.Prelude.{◌≡◌};
ghost use Rattle.std.specs.List.{list_all};
ghost use Rattle.std.specs.Char.{is_ascii_digit};
ghost use Rattle.etcd_json.specs.Replies.{number_told};

/// Whether all bytes are digits.
fn are_digits(bytes: &[u8]) -> bool
    ensures { result ≡ list_all is_ascii_digit bytes.now }
{
    bytes.iter().all(|byte| byte.is_ascii_digit())
}

/// The number that digits tell, where it is below `2^64`.
pub(crate) fn number_told(text: &str) -> Option<u64>
    ensures { result ≡ number_told text.now }
{
    if !are_digits(text.as_bytes()) {
        return None;
    }
    text.parse::<u64>().ok()
}
