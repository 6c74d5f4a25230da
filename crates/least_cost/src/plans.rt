// Lists of least cost, found over the time network.
ghost use Rattle.std.specs.Prelude.{◌≡◌, length, replicate};
ghost use Rattle.max_flow.specs.Outcome.{Outcome as FlowOutcome};
ghost use Rattle.time_network.specs.Meant.{net_of};
ghost use Rattle.least_cost.specs.declared.side.Side.TheVariants.{Early, Late};
ghost use Rattle.least_cost.specs.Sides.{net_by};
ghost use Rattle.least_cost.specs.Outcome.{Settled, Enough, Outcome};

use crate::reading::Marks;
use crate::side::Side;
use earliest::earliest::node_words;
use earliest::guard::Cleared;
use flow::network::Network;
use flow::turned::Turned;
use max_flow::engine::max_flow;
use model::project::Project;
use model::refusal::{Fault, Refusal};
pub use plan_theory::sizes::flow_words;
use time_network::held::TimeNetwork;

// The two networks differ in type, so the side is told apart here.
fn flow_over(
    side: Side,
    network: &TimeNetwork,
    flow: &mut [u64],
    nodes: &mut [u32],
) -> Result<u64, Refusal>
    ensures { FlowOutcome (net_by side (net_of network.now)) flow.old flow.new nodes.old nodes.new result }
{
    match side {
        Side::Early => max_flow(network, flow, nodes),
        Side::Late => max_flow(&Turned(network), flow, nodes),
    }
}

// Works in exactly the words needed, and leaves them clean.
fn settle<P: Project>(
    side: Side,
    project: &P,
    starts: &mut [u8],
    flow: &mut [u64],
    words: &mut [u32],
) -> Result<u64, Refusal>
    requires { Enough (P.meaning project.now) starts.old flow.old words.old }
    ensures clean { words.new ≡ replicate (length words.old) 0 }
    ensures settled { Settled side (P.meaning project.now) starts.old starts.new flow.old flow.new result }
{
    let guard = Cleared(words);
    let network = TimeNetwork::of(project);
    let value = flow_over(side, &network, flow, guard.0)?;
    let marks = Marks {
        project,
        nodes: guard.0,
    };
    marks.write_starts(side, starts);
    Ok(value)
}

// The three memories are lent one by one: a struct of them would be packed here to be taken apart below.
fn plan<P: Project>(
    side: Side,
    project: &P,
    starts: &mut [u8],
    flow: &mut [u64],
    nodes: &mut [u32],
) -> Result<u64, Refusal>
    ensures { Outcome side (P.meaning project.now) starts.old starts.new flow.old flow.new nodes.old nodes.new result }
{
    let count = project.count();
    if starts.len() < count as usize {
        return Err(Fault::StartBytes.at(count));
    }
    let arcs = flow_words(project);
    if flow.len() < arcs {
        return Err(Fault::FlowWords.at(arcs as u16));
    }
    let words = node_words(project);
    if nodes.len() < words {
        return Err(Fault::NodeWords.at(words as u16));
    }
    settle(side, project, starts, flow, &mut nodes[0..words])
}

/// Writes the starts of the cheapest list into the first n start bytes: no list that meets the project costs
/// less, and one of equal cost starts no activity earlier. The answer is the value of the flow in the first
/// flow words, which is what the list costs above the floors.
///
/// It takes n start bytes, H · (2 · n + m) flow words and 4 · (n · (H − 1) + 2) node words; exactly enough is
/// enough. With less it is refused for the first that is too short, with the length needed, and nothing is
/// changed. Otherwise the node words taken are zero afterwards, and nothing past what is taken ever changes.
/// Where no list meets the project it is refused as unbounded, and neither starts nor flow words change.
pub fn cheapest<P: Project>(
    project: &P,
    starts: &mut [u8],
    flow: &mut [u64],
    nodes: &mut [u32],
) -> Result<u64, Refusal>
    ensures { Outcome Early (P.meaning project.now) starts.old starts.new flow.old flow.new nodes.old nodes.new result }
{
    plan(Side::Early, project, starts, flow, nodes)
}

/// The same for the latest of the cheapest lists: one of equal cost starts no activity later.
// A name for callers beside `cheapest`: the text of both is `plan`.
pub fn latest<P: Project>(
    project: &P,
    starts: &mut [u8],
    flow: &mut [u64],
    nodes: &mut [u32],
) -> Result<u64, Refusal>
    ensures { Outcome Late (P.meaning project.now) starts.old starts.new flow.old flow.new nodes.old nodes.new result }
{
    plan(Side::Late, project, starts, flow, nodes)
}
