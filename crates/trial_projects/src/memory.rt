// Memory to lend, and whether a call kept to what it takes of it.
use crate::lists::Starts;

/// What memory is filled with before it is lent.
pub const FILLER: u8 = 77;

/// Whether memory holds what it was filled with, from a place on.
pub fn untouched<T: PartialEq + From<u8> + Drop>(memory: &[T], from: usize) -> bool {
    memory
        .iter()
        .skip(from)
        .all(|held| *held == T::from(FILLER))
}

/// Whether so many node words are zero, and those past them are untouched.
pub fn cleared(nodes: &[u32], taken: usize) -> bool {
    taken <= nodes.len()
        && nodes.iter().take(taken).all(|word| *word == 0)
        && untouched(nodes, taken)
}

/// Whether the start bytes of so many activities are those of a list, and those past them are untouched.
pub fn written(starts: &[u8], list: &Starts, count: u16) -> bool {
    let taken = count as usize;
    taken <= list.len() && starts.starts_with(&list[..taken]) && untouched(starts, taken)
}
