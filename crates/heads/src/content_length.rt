//! Content-Length (RFC 9110, section 8.6).
ghost use Rattle.std.specs.Prelude.{◌≡◌, ◌≤◌, IsTrue, IfSome, length};
ghost use Rattle.std.specs.List.{list_all};
ghost use Rattle.std.specs.Char.{is_ascii_digit};
ghost use Rattle.std.specs.Str.Parse.{digits_value};
ghost use Rattle.heads.specs.Limits.{body_size_limit, length_digit_limit};
ghost use Rattle.heads.specs.ContentLength.{body_length};

use crate::limits::{BODY_SIZE_LIMIT, LENGTH_DIGIT_LIMIT};

// The length that the text writes. None: it is faulty.
pub(crate) fn read_body_length(text: &[u8]) -> Option<usize>
    ensures value { result ≡ body_length text.now }
    ensures small { IfSome result (λ length_read. length_read ≤ body_size_limit) }
{
    if text.is_empty() || text.len() > LENGTH_DIGIT_LIMIT || !are_digits(text) {
        return None;
    }
    let value = number(text);
    if value <= BODY_SIZE_LIMIT {
        Some(value)
    } else {
        None
    }
}

fn are_digits(text: &[u8]) -> bool
    ensures { result ≡ list_all is_ascii_digit text.now }
{
    text.iter().all(|byte| byte.is_ascii_digit())
}

fn number(digits: &[u8]) -> usize
    requires few { length digits.now ≤ length_digit_limit }
    requires digits { IsTrue (list_all is_ascii_digit digits.now) }
    ensures { result ≡ digits_value 10 digits.now }
{
    let mut value = 0;
    for digit in digits {
        value = value * 10 + usize::from(*digit - b'0');
    }
    value
}
