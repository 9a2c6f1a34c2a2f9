//! The calls that were made of a cluster, as a list that only clauses read and that takes no memory.

ghost use Rattle.std.specs.Prelude.{◌≡◌, [], ◌∷◌, Option, Some, map, option_map};
ghost use Rattle.std.specs.Borrow.{ftrue};
ghost use Rattle.etcd_cluster.specs.Calls.{AskedHead, AskedPieces, Compacted, Forgot, Kept, Sent};
ghost use Rattle.etcd_cluster.specs.Stands.{change_fact, piece_fact, write_fact};
ghost use Rattle.etcd_cluster.specs.Worlds.{seen_pieces};
ghost use Rattle.etcd_client.specs.Exchanges.{exchange, text_of};
ghost use Rattle.etcd_client.specs.Connections.{text_of_token};
ghost use Rattle.etcd_client.specs.Noted.{Log, no_log, with_note, with_write};
ghost use Rattle.etcd_client.specs.Sendings.{attempted};
ghost use Rattle.etcd_client.specs.Tries.{came_in};

use crate::members::AskFault;
use etcd_cluster::change::{Answer, CallFault, Change, Piece, Standing, Wanted, Write};
use http_call::{CallFault as CallFailed, Response};
use std::marker::{Model, PhantomData};

/// A request that is sent once: to which member, and within how many milliseconds it is to be answered.
#[derive(Clone, Copy, Debug)]
pub struct Attempt<'a> {
    pub member: usize,
    pub path: &'a str,
    pub body: &'a [u8],
    pub limit: u64,
}

/// The calls, the last one first.
#[derive(Drop)]
pub struct CallLog {
    marker: PhantomData<u8>,
    pub ghost log: { Log },
}

impl Model for CallLog {
    ghost also_owns = { λ _. ftrue };
}

impl CallLog {
    /// No call.
    pub(crate) fn new() -> CallLog
        ensures { result.log ≡ no_log }
    {
        CallLog {
            marker: PhantomData,
        }
    }

    /// Notes a call, or a part of the next one, by numbers, the first of which is its kind.
    fn note(&mut self, _numbers: &[u64], _bytes: &[u8])
        ensures { self.new.log ≡ with_note _numbers.now _bytes.now self.old.log }
    {}

    /// Notes what a change writes, behind what is noted of it.
    fn write(&mut self, write: &Write<'_>)
        ensures { self.new.log ≡ with_write (write_fact write.now) self.old.log }
    {
        match *write {
            Write::Lay(generation, at, bytes) => self.note(&[1, generation, at], bytes),
            Write::Clear(generation, from, to) => self.note(&[2, generation, from, to], &[]),
            Write::Forget(generation) => self.note(&[3, generation], &[]),
        }
    }

    /// Notes all that a change writes.
    fn writes(&mut self, writes: &[Write<'_>])
        ensures writes { self.new.log.writes ≡ map write_fact writes.now }
        ensures calls { self.new.log.calls ≡ self.old.log.calls }
    {
        self.note(&[0], &[]);
        for write in writes {
            self.write(write);
        }
    }

    /// Notes a change that was sent once, and what was told of it.
    pub(crate) fn sent(&mut self, change: &Change<'_>, told: Result<Answer, CallFault>)
        ensures { self.new.log.calls ≡ Sent (change_fact change.now) told ∷ self.old.log.calls }
    {
        self.writes(change.writes);
        let after = change.after;
        let head = change.head;
        let (server, turn) = (head.server, head.turn);
        let (generation, end, room) = (head.generation, head.end, head.room);
        match told {
            Ok(Answer::Done(version)) => {
                self.note(
                    &[4, after, server, turn, generation, end, room, version],
                    &[],
                );
            }
            Ok(Answer::NotDone(None)) => {
                self.note(&[5, after, server, turn, generation, end, room], &[]);
            }
            Ok(Answer::NotDone(Some(found))) => {
                let there = found.head;
                self.note(
                    &[
                        6,
                        after,
                        server,
                        turn,
                        generation,
                        end,
                        room,
                        found.version,
                        there.server,
                        there.turn,
                        there.generation,
                        there.end,
                        there.room,
                    ],
                    &[],
                );
            }
            Err(CallFault::Unclear) => {
                self.note(&[7, after, server, turn, generation, end, room], &[]);
            }
            Err(CallFault::Refused) => {
                self.note(&[8, after, server, turn, generation, end, room], &[]);
            }
        }
    }

    /// Notes what was told of the head.
    pub(crate) fn asked_head(&mut self, told: Result<Option<Standing>, CallFault>)
        ensures { self.new.log.calls ≡ AskedHead told ∷ self.old.log.calls }
    {
        match told {
            Ok(None) => self.note(&[9], &[]),
            Ok(Some(found)) => {
                let head = found.head;
                self.note(
                    &[
                        10,
                        found.version,
                        head.server,
                        head.turn,
                        head.generation,
                        head.end,
                        head.room,
                    ],
                    &[],
                );
            }
            Err(CallFault::Unclear) => self.note(&[11], &[]),
            Err(CallFault::Refused) => self.note(&[12], &[]),
        }
    }

    /// Notes pieces that were told.
    fn pieces(&mut self, pieces: &[Piece])
        ensures pieces { self.new.log.pieces ≡ map piece_fact pieces.now }
        ensures calls { self.new.log.calls ≡ self.old.log.calls }
    {
        self.note(&[0], &[]);
        for piece in pieces {
            self.note(&[20, piece.at], &piece.bytes);
        }
    }

    /// Notes what was told of pieces.
    pub(crate) fn asked_pieces(
        &mut self,
        wanted: Wanted,
        told: &Result<Option<Vec<Piece>>, CallFault>,
    )
        ensures { self.new.log.calls ≡ AskedPieces wanted (seen_pieces told.now) ∷ self.old.log.calls }
    {
        let (version, generation) = (wanted.version, wanted.generation);
        let (from, most) = (wanted.from, wanted.most);
        match told {
            Ok(Some(pieces)) => {
                self.pieces(pieces);
                self.note(&[13, version, generation, from, most], &[]);
            }
            Ok(None) => self.note(&[14, version, generation, from, most], &[]),
            Err(CallFault::Unclear) => self.note(&[15, version, generation, from, most], &[]),
            Err(CallFault::Refused) => self.note(&[16, version, generation, from, most], &[]),
        }
    }

    /// Notes a request that was sent once, and what was told of it.
    pub(crate) fn asked(&mut self, path: &str, body: &[u8], told: &Result<Vec<u8>, AskFault>)
        ensures exchanges { self.new.log.exchanges ≡ exchange path.now body.now (text_of told.now) ∷ self.old.log.exchanges }
        ensures tries { self.new.log.tries ≡ self.old.log.tries }
    {
        self.note(&[21], path.as_bytes());
        self.note(&[22], body);
        match told {
            Ok(text) => self.note(&[23], text),
            Err(AskFault::Unclear) => self.note(&[24], &[]),
            Err(AskFault::Refused(code)) => self.note(&[25, *code], &[]),
            Err(AskFault::Memory) => self.note(&[30], &[]),
        }
    }

    /// Notes the token of a request.
    fn token(&mut self, token: Option<&str>)
        ensures { self.new.log ≡ record self.old.log { token = text_of_token token.entry } }
    {
        match token {
            Some(token) => self.note(&[26], token.as_bytes()),
            None => self.note(&[27], &[]),
        }
    }

    /// Notes that a request was sent to a member, and what came.
    pub(crate) fn tried(
        &mut self,
        token: Option<&str>,
        attempt: &Attempt<'_>,
        told: &Result<Response, CallFailed>,
    )
        ensures tries { self.new.log.tries ≡ attempted (text_of_token token.entry) attempt.now (came_in told.now) ∷ self.old.log.tries }
        ensures exchanges { self.new.log.exchanges ≡ self.old.log.exchanges }
    {
        self.token(token);
        self.note(&[21], attempt.path.as_bytes());
        self.note(&[22], attempt.body);
        let (member, limit) = (attempt.member as u64, attempt.limit);
        match told {
            Ok(response) => {
                let status = u64::from(response.status);
                self.note(&[28, member, limit, status], &response.body);
            }
            Err(_) => self.note(&[29, member, limit], &[]),
        }
    }

    /// Notes that a lease was to begin anew.
    pub(crate) fn kept(&mut self)
        ensures { self.new.log.calls ≡ Kept ∷ self.old.log.calls }
    {
        self.note(&[17], &[]);
    }

    /// Notes that what stood there before that version was to be let go of.
    pub(crate) fn compacted(&mut self, version: u64)
        ensures { self.new.log.calls ≡ Compacted version ∷ self.old.log.calls }
    {
        self.note(&[18, version], &[]);
    }

    /// Notes that what was told of pieces is not known any more.
    pub(crate) fn forgot(&mut self)
        ensures { self.new.log.calls ≡ Forgot ∷ self.old.log.calls }
    {
        self.note(&[19], &[]);
    }
}
