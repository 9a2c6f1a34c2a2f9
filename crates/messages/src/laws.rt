//! Laws of replies.
ghost use Rattle.std.specs.Prelude.{◌<◌, length};
ghost use Rattle.messages.specs.Reply.{Reply};
ghost use Rattle.messages.specs.Written.{in_writing, reply_bytes};
ghost use Rattle.messages.specs.Small.{IsSmallReply, reply_limit};

/// A reply of short texts has fewer bytes than the limit.
#[tactic(auto, using(crate::specs::SmallLaws::small_bytes))]
pub fn small_replies_have_few_bytes()
    ensures { (reply : Reply) → IsSmallReply reply → length (reply_bytes (in_writing reply)) < reply_limit }
{}
