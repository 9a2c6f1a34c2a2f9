//! Requests answered one after another.
ghost use Rattle.std.specs.Prelude.{◌≤◌, ◌+◌, ◌*◌, vec_len, vec_capacity};
ghost use Rattle.messages.specs.Small.{reply_limit};
ghost use Rattle.heads.specs.Front.{IsFront};
ghost use Rattle.http_edge.specs.Heard.{HasMessages, HasRoom, AnswersFirst, answering, first_requests, said_so, seen_output};
ghost use Rattle.http_edge.specs.Supply.{Suffices};

use crate::output::Output;
use crate::source::DrawSource;
use crate::wanting::demand_of;
use endpoints::{Moment, Server};
use heads::{Front, front_of, lend};
use hook_host::HookHost;
use telling::{Stepped, Tellings};

/// Answers the first requests of the bytes, each with the next draws of the source. What stands at their front was read
/// before. There is room for the replies.
pub(crate) fn answer_all<H: HookHost, S: DrawSource>(
    server: &mut Server<H>,
    bytes: &[u8],
    first: Front,
    count: usize,
    moment: Moment,
    source: &mut S,
    output: &mut Output,
    tellings: &mut Tellings,
)
    requires first { IsFront bytes.now first }
    requires messages { HasMessages bytes.now count }
    requires draws { Suffices (S.supply source.old) count }
    requires room { HasRoom output.old (count * reply_limit) count }
    ensures answered { AnswersFirst H.HookHost S.DrawSource (answering server.old (said_so (seen_output output.old) tellings.old) source.old)
        (first_requests bytes.now count moment) (answering server.new (said_so (seen_output output.new) tellings.new) source.new) }
    ensures room { vec_capacity output.old.bytes ≤ vec_capacity output.new.bytes }
    ensures len { vec_len output.new.bytes ≤ vec_len output.old.bytes + count * reply_limit }
    ensures ends_room { vec_capacity output.old.ends ≤ vec_capacity output.new.ends }
    ensures ends_len { vec_len output.new.ends ≤ vec_len output.old.ends + count }
{
    let mut start = 0;
    for i in 0..count {
        let here = &bytes[start..];
        let Front::Whole(found) = front_of(here, i, first) else {
            unreachable!();
        };
        let request = lend(here, &found);
        let draws = source.draw(demand_of(&request));
        let Stepped { reply, told } = server.step(&request, moment, &draws, tellings.interest());
        output.push(&reply);
        tellings.hear_some(told);
        start += found.end;
    }
}
