//! The limits of a message.
ghost use Rattle.std.specs.Prelude.{◌≡◌};
ghost use Rattle.heads.specs.Limits.{head_size_limit, field_line_limit, body_size_limit, message_size_limit, length_digit_limit};

/// So many bytes has a head at most, with the empty lines before it.
pub const HEAD_SIZE_LIMIT: usize = 8192;

/// So many field lines has a head at most.
pub const FIELD_LINE_LIMIT: usize = 64;

/// So many bytes has a body at most.
pub const BODY_SIZE_LIMIT: usize = 65_536;

/// So many bytes has a message at most: a head and a body.
pub const MESSAGE_SIZE_LIMIT: usize = HEAD_SIZE_LIMIT + BODY_SIZE_LIMIT;

/// So many digits has a Content-Length at most, leading zeros among them.
pub const LENGTH_DIGIT_LIMIT: usize = 5;

/// The limits of the program are those of the definitions.
pub fn limits_are_the_defined_ones()
    ensures heads { HEAD_SIZE_LIMIT ≡ head_size_limit }
    ensures lines { FIELD_LINE_LIMIT ≡ field_line_limit }
    ensures bodies { BODY_SIZE_LIMIT ≡ body_size_limit }
    ensures digits { LENGTH_DIGIT_LIMIT ≡ length_digit_limit }
    ensures messages { MESSAGE_SIZE_LIMIT ≡ message_size_limit }
{}
