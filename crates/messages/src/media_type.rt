//! The media type of a form (RFC 6749, appendix B).
ghost use Rattle.std.specs.Prelude.{◌≡◌, ◌==◌, Some};
ghost use Rattle.std.specs.List.{before_first};
ghost use Rattle.std.specs.Option.{option_copied};
ghost use Rattle.messages.specs.MediaType.{is_form, without_front, without_back};

use crate::parts::before;

const FORM: &[u8] = b"application/x-www-form-urlencoded";

// Whether the Content-Type is that of a form, or absent.
pub(crate) fn is_form(content_type: Option<&[u8]>) -> bool
    ensures { result ≡ is_form (option_copied content_type.entry) }
{
    let Some(value) = content_type else {
        return true;
    };
    // Most clients send it as it is written here.
    value == FORM || is_form_type(value)
}

// The media type before any `;`, without spaces around it, ASCII case ignored.
fn is_form_type(value: &[u8]) -> bool
    ensures { result ≡ is_form (Some value.now) }
{
    trim_back(trim_front(media_type(value))).eq_ignore_ascii_case(FORM)
}

// The value before any parameters (RFC 9110, section 8.3.1).
fn media_type(value: &[u8]) -> &[u8]
    ensures { result.now ≡ before_first (λ b. b == 59) value.now }
{
    before(value, b';')
}

fn trim_front(text: &[u8]) -> &[u8]
    ensures { result.now ≡ without_front text.now }
{
    let mut start = 0;
    while start < text.len() && text[start] == b' ' {
        start += 1;
    }
    &text[start..]
}

fn trim_back(text: &[u8]) -> &[u8]
    ensures { result.now ≡ without_back text.now }
{
    let mut end = text.len();
    while end > 0 && text[end - 1] == b' ' {
        end -= 1;
    }
    &text[..end]
}
