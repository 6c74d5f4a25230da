// Reading a chain out of the nodes: back from the horizon to slot 0, and then turned round.
ghost use Rattle.std.specs.Prelude.{◌≡◌, ◌≤◌, length as size};
ghost use Rattle.earliest.specs.Nodes.{node_of};
ghost use Rattle.earliest.specs.Outcome.{entries_needed, Explained};
ghost use Rattle.earliest.specs.Pushing.{origin, latest_of, Known, Reaches};

use crate::bounds::Bounds;
use crate::chain::{Entry, How};
use crate::nodes::Node;
use model::project::Project;
use model::time::Slot;

// The activity whose bound led to an entry.
fn origin_of<P: Project>(project: &P, entry: Entry) -> u16
    requires { Known (P.meaning project.now) entry.how }
    ensures { result ≡ origin (P.meaning project.now) entry.how entry.activity }
{
    if let How::ByLag(number) = entry.how
        && let Some(lag) = project.lag(number)
    {
        u16::from(lag.from)
    } else {
        entry.activity
    }
}

impl<P: Project> Bounds<'_, P> {
    /// Writes the chain that ends in `last` and says how long it is.
    pub fn write_chain(&self, last: Node, chain: &mut [Entry]) -> u16
        requires driven { Reaches (P.meaning self.now.project.now)
            (node_of self.now.nodes.now) (latest_of self.now.latest) last }
        requires room { entries_needed (P.meaning self.now.project.now) ≤ size chain.old }
        ensures { Explained (P.meaning self.now.project.now) chain.old chain.new result }
    {
        let mut node = last;
        chain[0] = node.entry;
        // Beside the entries, since lent ones are no `Vec`.
        let mut length = 1;
        while node.parent != 0 {
            node = self.node(node.parent);
            chain[length] = node.entry;
            length += 1;
        }
        chain[length] = Entry {
            activity: origin_of(self.project, node.entry),
            slot: Slot(0),
            how: How::Start,
        };
        chain[..=length].reverse();
        length as u16 + 1
    }
}
