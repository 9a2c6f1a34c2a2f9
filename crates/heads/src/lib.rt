//! HTTP/1.1 requests in a stream of bytes: where each begins and ends, where its parts lie, and when no request can
//! follow any more. Nothing is copied, and no memory is taken.
#![tactic(auto)]

mod content_length;
mod fields;
mod front;
mod limits;
mod scan;
mod waits;

pub use fields::FieldSpans;
pub use front::{Found, Front, front_of, lend, read_front};
pub use limits::{
    BODY_SIZE_LIMIT, FIELD_LINE_LIMIT, HEAD_SIZE_LIMIT, LENGTH_DIGIT_LIMIT, MESSAGE_SIZE_LIMIT,
    limits_are_the_defined_ones,
};
pub use scan::{Scan, scan_behind};
pub use waits::Waits;
