// Nodes in lent words: an entry that some chain may have, and the node before it.
ghost use Rattle.std.specs.Prelude.{◌≡◌};
ghost use Rattle.earliest.specs.Nodes.{of_words};

use crate::chain::{Entry, How};
use model::time::Slot;

/// An entry, and the number of the node before it. Node 0 stands for slot 0 of any activity, where
/// every chain begins.
#[derive(Clone, Copy)]
pub struct Node {
    pub entry: Entry,
    // A number and no `Box`: nodes stand in lent words.
    pub parent: u32,
}

/// Activity, slot, how and parent, a word each: lent memory has words alone.
impl From<Node> for [u32; 4] {
    ghost from_gives = { λ node words. of_words words ≡ node };

    fn from(node: Node) -> [u32; 4] {
        let how = match node.entry.how {
            How::Start => 0,
            How::PastClosed(height) => u32::from(height) + 1,
            How::ByLag(number) => u32::from(number) + 257,
        };
        [
            u32::from(node.entry.activity),
            u32::from(node.entry.slot.0),
            how,
            node.parent,
        ]
    }
}

/// What no node wrote is cut to what an entry can hold.
impl From<[u32; 4]> for Node {
    ghost from_gives = { λ words node. node ≡ of_words words };

    fn from(words: [u32; 4]) -> Node {
        let [activity, slot, how, parent] = words;
        let how = match how {
            0 => How::Start,
            1..=256 => How::PastClosed((how - 1) as u8),
            _ => How::ByLag(u16::try_from(how - 257).unwrap_or(u16::MAX)),
        };
        let entry = Entry {
            activity: u16::try_from(activity).unwrap_or(u16::MAX),
            slot: Slot(u16::try_from(slot).unwrap_or(u16::MAX)),
            how,
        };
        Node { entry, parent }
    }
}
