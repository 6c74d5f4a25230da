// Pushing bounds up over closed slots and lags, until nothing is left to push or one activity is
// driven to the horizon. Each push leaves a node that says why.
ghost use Rattle.std.specs.Prelude.{◌≡◌, ◌<◌, ◌≤◌, ◌++◌, length, drop, IfSome, None, pos, ◌+ℤ◌};
ghost use Rattle.earliest.specs.Chain.{cut_to};
ghost use Rattle.earliest.specs.Nodes.{node_of};
ghost use Rattle.earliest.specs.Outcome.{node_count};
ghost use Rattle.earliest.specs.Pushing.{closed_step, lag_step, latest_of, bound, bounds, State, State-prop, Reaches, Ended, Steps, Taken, Kept};

use crate::chain::{Entry, How};
use crate::nodes::Node;
use model::price::Price;
use model::project::Project;
use model::time::Slot;

const ACTIVITIES: usize = 64;

// The slot `gap` later, cut to 0 to the horizon.
fn cut_slot(slot: Slot, gap: i16, horizon: u16) -> Slot
    ensures { result.0 ≡ cut_to horizon (pos slot.0 +ℤ gap) }
{
    let moved = i32::from(slot.0) + i32::from(gap);
    Slot(moved.clamp(0, i32::from(horizon)) as u16)
}

/// The bounds of a project's activities: no list that meets the project starts an activity before
/// the slot of its latest node, which says why. Node 0 stands for slot 0 of any activity, and nodes
/// 1 to `count` have been written.
#[derive(Drop)]
pub struct Bounds<'a, P: Project> {
    pub project: &'a P,
    pub nodes: &'a mut [[u32; 4]],
    pub latest: [u32; ACTIVITIES],
    // Beside the nodes, since lent words are no `Vec`.
    pub count: u32,
    ghost room: { node_count (P.meaning project.now) ≤ length nodes.now },
    ghost state: { State (P.meaning project.now) (node_of nodes.now) (latest_of latest) count } by { State-prop (P.meaning project.now) (node_of nodes.now) (latest_of latest) count },
}

impl<'a, P: Project> Bounds<'a, P> {
    /// Every bound at slot 0.
    pub fn new(project: &'a P, nodes: &'a mut [[u32; 4]]) -> Bounds<'a, P>
        requires { node_count (P.meaning project.now) ≤ length nodes.old }
        ensures { result.project.now ≡ project.now }
    {
        let entry = Entry {
            activity: 0,
            slot: Slot(0),
            how: How::Start,
        };
        nodes[0] = Node { entry, parent: 0 }.into();
        Bounds {
            project,
            nodes,
            latest: [0; ACTIVITIES],
            count: 0,
        }
    }

    /// A node that has been written, or node 0.
    pub fn node(&self, e: u32) -> Node
        requires { e < length self.now.nodes.now }
        ensures { result ≡ node_of self.now.nodes.now e }
    {
        Node::from(self.nodes[e as usize])
    }

    // The bound of an activity.
    pub fn bound(&self, activity: u16) -> Slot
        requires { activity < (P.meaning self.now.project.now).n }
        ensures value { result.0 ≡ bound (node_of self.now.nodes.now) (latest_of self.now.latest) activity }
        ensures low { result.0 < 128 }
    {
        self.node(self.latest[usize::from(activity)]).entry.slot
    }

    // The push of an activity off a closed slot, if its bound is one.
    fn closed_step(&self, activity: u16) -> Option<Node>
        requires { activity < (P.meaning self.now.project.now).n }
        ensures { result ≡ closed_step (P.meaning self.now.project.now)
            (node_of self.now.nodes.now) (latest_of self.now.latest) activity }
    {
        let slot = self.bound(activity);
        let Some(Price::Closed(height)) = self.project.price(activity, slot) else {
            return None;
        };
        let entry = Entry {
            activity,
            slot: Slot(slot.0 + 1),
            how: How::PastClosed(height),
        };
        let parent = self.latest[usize::from(activity)];
        Some(Node { entry, parent })
    }

    // The push of a lag's second activity, if the lag does not hold at the bounds.
    fn lag_step(&self, number: u16) -> Option<Node>
        requires { number < (P.meaning self.now.project.now).lags }
        ensures { result ≡ lag_step (P.meaning self.now.project.now)
            (node_of self.now.nodes.now) (latest_of self.now.latest) number }
    {
        let lag = self.project.lag(number)?;
        let activity = u16::from(lag.to);
        let from = self.bound(u16::from(lag.from));
        let slot = cut_slot(from, lag.gap, self.project.horizon());
        if slot <= self.bound(activity) {
            return None;
        }
        let entry = Entry {
            activity,
            slot,
            how: How::ByLag(number),
        };
        let parent = self.latest[usize::from(lag.from)];
        Some(Node { entry, parent })
    }

    // Makes the node of a step the latest of its activity, unless it reaches the horizon: then it
    // is the answer.
    fn take(&mut self, step: Option<Node>) -> Option<Node>
        requires { Steps (P.meaning self.old.project.now)
            (node_of self.old.nodes.now) (latest_of self.old.latest) step }
        ensures same_project { self.new.project.now ≡ self.old.project.now }
        ensures reaches { IfSome result (λ last. Reaches (P.meaning self.new.project.now)
            (node_of self.new.nodes.now) (latest_of self.new.latest) last) }
        ensures taken { Taken self.old.nodes.now self.old.latest self.old.count
            self.new.nodes.now self.new.latest self.new.count step result }
        ensures kept { result ≡ None → IfSome step (λ v. Kept self.old.nodes.now self.old.latest self.old.count
            self.new.nodes.now self.new.latest self.new.count v) }
    {
        let node = step?;
        if node.entry.slot.0 == self.project.horizon() {
            return Some(node);
        }
        let number = self.count + 1;
        self.nodes[number as usize] = node.into();
        self.latest[usize::from(node.entry.activity)] = number;
        self.count = number;
        None
    }

    /// Pushes the bounds as far as closed slots and lags push them. The answer is the node that
    /// reaches the horizon, or none when every bound lies in an open slot and all lags hold.
    pub fn push(&mut self) -> Option<Node>
        ensures same_project { self.new.project.now ≡ self.old.project.now }
        ensures ended { Ended (P.meaning self.new.project.now)
            (node_of self.new.nodes.now) (latest_of self.new.latest) result }
    {
        let project = self.project;
        'push: loop {
            let before = self.count;
            for activity in 0..project.count() {
                if let Some(last) = self.take(self.closed_step(activity)) {
                    break 'push Some(last);
                }
            }
            for number in 0..project.lag_count() {
                if let Some(last) = self.take(self.lag_step(number)) {
                    break 'push Some(last);
                }
            }
            if self.count == before {
                break 'push None;
            }
        }
    }

    /// The bounds as start bytes.
    pub fn write_starts(&self, starts: &mut [u8])
        requires { (P.meaning self.now.project.now).n ≤ length starts.old }
        ensures { starts.new
            ≡ bounds (P.meaning self.now.project.now) (node_of self.now.nodes.now) (latest_of self.now.latest)
            ++ drop (P.meaning self.now.project.now).n starts.old }
    {
        // No `iter_mut` and `zip`: past their borrow a proof knows none of the starts.
        for activity in 0..self.project.count() {
            starts[usize::from(activity)] = self.bound(activity).0 as u8;
        }
    }
}
