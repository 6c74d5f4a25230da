// Reading starts from the nodes that a maximum flow has marked.
ghost use Rattle.std.specs.Prelude.{◌≡◌, ℕ, ◌<◌, ◌≤◌, ◌++◌, length, drop};
ghost use Rattle.flow.specs.Turning.{other};
ghost use Rattle.max_flow.specs.Outcome.{marked};
ghost use Rattle.plan_theory.specs.TimeNetwork.{time_net, point as point_node};
ghost use Rattle.plan_theory.specs.Plans.{start_from, start_before};
ghost use Rattle.least_cost.specs.Sides.{start_by, starts_by, least_marked};

use crate::side::Side;
use flow::turned::renamed_node;
use model::project::Project;

/// The marks at the nodes of the time network of a project.
#[derive(Drop)]
pub(crate) struct Marks<'a, P: Project> {
    pub project: &'a P,
    pub nodes: &'a [u32],
    ghost enough: { (time_net (P.meaning project.now)).nodes ≤ length nodes.now },
}

// Activities come from a range: a struct around one would be made at each start to be taken apart below.
impl<P: Project> Marks<'_, P> {
    fn is_marked(&self, node: usize) -> bool
        requires { node < (time_net (P.meaning self.now.project.now)).nodes }
        ensures { result ≡ marked self.now.nodes.now node }
    {
        self.nodes[node] == 1
    }

    // The node of a point: the source at slot 0, the sink from the horizon on.
    // The time network asks this of its own counts: a text for both would take them, and bounds on them, at
    // each call.
    fn point(&self, activity: usize, slot: usize) -> usize
        requires { activity < (P.meaning self.now.project.now).n }
        ensures node { result ≡ point_node (P.meaning self.now.project.now).horizon activity slot }
        ensures inside { result < (time_net (P.meaning self.now.project.now)).nodes }
    {
        let horizon = self.project.horizon() as usize;
        if slot == 0 {
            0
        } else if slot < horizon {
            2 + (activity * (horizon - 1) + (slot - 1))
        } else {
            1
        }
    }

    // The greatest marked slot of an activity.
    fn early_start(&self, activity: usize) -> usize
        requires { activity < (P.meaning self.now.project.now).n }
        ensures start { result ≡ start_from (P.meaning self.now.project.now) (marked self.now.nodes.now) activity }
        ensures small { result ≤ 128 }
    {
        (0..self.project.horizon() as usize)
            .rfind(|t| self.is_marked(self.point(activity, *t)))
            .unwrap_or(0)
    }

    // The least slot of an activity that is marked over the turned network, or the horizon. Apart from `early_start`:
    // it is looked for from the other end, under other names, and may be absent.
    fn least_marked(&self, activity: usize) -> usize
        requires { activity < (P.meaning self.now.project.now).n }
        ensures least { result ≡ least_marked (P.meaning self.now.project.now) (marked self.now.nodes.now) activity }
        ensures small { result ≤ 128 }
    {
        let horizon = self.project.horizon() as usize;
        (0..horizon)
            .find(|t| self.is_marked(renamed_node(self.point(activity, *t))))
            .unwrap_or(horizon)
    }

    fn start_of(&self, side: Side, activity: usize) -> u8
        requires { activity < (P.meaning self.now.project.now).n }
        ensures { result ≡ start_by side (P.meaning self.now.project.now) (marked self.now.nodes.now) activity }
    {
        match side {
            Side::Early => self.early_start(activity) as u8,
            Side::Late => self.least_marked(activity).saturating_sub(1) as u8,
        }
    }

    /// Writes the start of each activity in front of the start bytes.
    pub fn write_starts(&self, side: Side, starts: &mut [u8])
        requires { (P.meaning self.now.project.now).n ≤ length starts.old }
        ensures { let m = P.meaning self.now.project.now in
            starts.new ≡ starts_by side m (marked self.now.nodes.now) ++ drop m.n starts.old }
    {
        let count = self.project.count() as usize;
        for (activity, start) in starts[..count].iter_mut().enumerate() {
            *start = self.start_of(side, activity);
        }
    }
}
