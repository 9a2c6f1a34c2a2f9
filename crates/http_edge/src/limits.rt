//! The limits of the edge.
ghost use Rattle.std.specs.Prelude.{◌≡◌};
ghost use Rattle.messages.specs.Small.{reply_limit};
ghost use Rattle.http_edge.specs.Limits.{connection_limit, piece_limit, request_limit, room_to_hear};

use heads::MESSAGE_SIZE_LIMIT;

/// So many connections are kept at most, until they are forgotten.
pub const CONNECTION_LIMIT: usize = 64;

/// So many bytes has a piece at most.
pub const PIECE_LIMIT: usize = 65_536;

/// So many requests may a piece complete.
pub const REQUEST_LIMIT: usize = 64;

/// So many bytes has a reply at most.
pub const REPLY_LIMIT: usize = 32_768;

// So many bytes have the longest rest and the longest piece.
pub(crate) const ROOM_TO_HEAR: usize = MESSAGE_SIZE_LIMIT + PIECE_LIMIT;

/// The limits of the program are those of the definitions.
pub fn limits_are_the_defined_ones()
    ensures connections { CONNECTION_LIMIT ≡ connection_limit }
    ensures pieces { PIECE_LIMIT ≡ piece_limit }
    ensures requests { REQUEST_LIMIT ≡ request_limit }
    ensures replies { REPLY_LIMIT ≡ reply_limit }
    ensures rooms { ROOM_TO_HEAR ≡ room_to_hear }
{}
