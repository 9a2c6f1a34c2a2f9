//! What comes on connections.
use crate::connection::ConnectionNo;
use endpoints::Moment;
use messages::Draws;

/// What comes on a connection, by its number.
#[derive(Clone, Copy, Debug)]
pub enum Event<'a> {
    /// It is opened.
    Open(ConnectionNo),
    /// A piece of its stream came at a moment. The k-th request that it completes has the k-th draws.
    Bytes {
        connection: ConnectionNo,
        piece: &'a [u8],
        moment: Moment,
        draws: &'a [Draws],
    },
    /// Its stream ended.
    End(ConnectionNo),
}
