//! Refused events.

use crate::topic::Topic;

/// What the faults of an event mean that is refused.
pub const EVENT_FAULTS: [Topic; 6] = [
    Topic {
        name: "TooMany",
        text: "\
TooMany: 64 connections are open or not forgotten, and no other can be opened. In a transcript there can't be more.
",
    },
    Topic {
        name: "NotOpen",
        text: "\
NotOpen: an event of a connection that was not opened, or whose stream has ended. Open it first; no bytes come after its end.

  bytes 1 1000 - 47        open 1
                           bytes 1 1000 - 47
",
    },
    Topic {
        name: "AlreadyOpen",
        text: "\
AlreadyOpen: a connection of this number was opened before. Give another number.

  open 1                   open 1
  open 1                   open 2
",
    },
    Topic {
        name: "PieceTooLong",
        text: "\
PieceTooLong: more than 65,536 bytes came at once. Write them as several lines.
",
    },
    Topic {
        name: "DrawsShort",
        text: "\
DrawsShort: the bytes complete more requests than there are draws. Each request takes one: 128 hex digits, the first 64 for a code or an access token and the others for a refresh token.
",
    },
    Topic {
        name: "TooManyRequests",
        text: "\
TooManyRequests: the bytes complete more than 64 requests. Write them as several lines.
",
    },
];
