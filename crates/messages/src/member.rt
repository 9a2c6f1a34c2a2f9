//! Members of JSON objects.

/// A member, with its name.
#[derive(Clone, Copy)]
pub enum Member<'a> {
    Text(&'a str, &'a str),
    Number(&'a str, u64),
    Texts(&'a str, &'a [&'a str]),
}

// How many bytes its text has, if it is one.
fn longest(member: &Member<'_>) -> usize {
    match member {
        Member::Text(_, text) => text.len(),
        Member::Number(..) | Member::Texts(..) => 0,
    }
}

/// Room for the texts of the members.
pub(crate) fn room_of(members: &[Member<'_>]) -> usize {
    let mut room = 0usize;
    for member in members {
        room = room.saturating_add(longest(member));
    }
    room
}
