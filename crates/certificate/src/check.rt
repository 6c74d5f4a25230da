// The check of a proposed plan, part by part; the first fault counts, at its least place.
ghost use Rattle.std.specs.Prelude.{◌≡◌, ◌≤◌, length};
ghost use Rattle.certificate.specs.Faults.{unless, arcs_of, sizes_fault, plan_fault, check_answer};
ghost use Rattle.certificate.specs.Accepting.{PassesExactly, PassedIsCheapest};

use crate::nodes::Rows;
use crate::starts::StartList;
use crate::words::Floors;
use model::project::Project;
use model::refusal::{Fault, Refusal};
use plan_theory::sizes::flow_words;

fn check_sizes<P: Project>(project: &P, starts: &[u8], flow: &[u64]) -> Result<(), Refusal>
    ensures { result ≡ unless (sizes_fault (P.meaning project.now) starts.now flow.now) }
{
    let activities = project.count();
    let arcs = flow_words(project);
    if starts.len() < activities as usize {
        return Err(Fault::StartBytes.at(activities));
    }
    if flow.len() < arcs {
        return Err(Fault::FlowWords.at(arcs as u16));
    }
    Ok(())
}

fn check_plan<P: Project>(list: &StartList<P>, flow: &[u64]) -> Result<(), Refusal>
    requires { arcs_of (P.meaning list.now.project.now) ≤ length flow.now }
    ensures { result ≡ unless (plan_fault (P.meaning list.now.project.now) list.now.starts.now flow.now) }
{
    list.check_starts()?;
    list.check_lags()?;
    let floors = Floors::of(list.project);
    floors.check_words(flow)?;
    let rows = Rows {
        project: list.project,
        flow,
    };
    rows.check_nodes()?;
    rows.check_value(floors.cost_above(list.starts))
}

fn answer_of<P: Project>(project: &P, starts: &[u8], flow: &[u64]) -> Result<(), Refusal>
    ensures { result ≡ check_answer (P.meaning project.now) starts.now flow.now }
{
    check_sizes(project, starts, flow)?;
    let starts = &starts[..project.count() as usize];
    check_plan(&StartList { project, starts }, flow)
}

/// Checks a proposed plan: a start byte for each activity, and a flow word for each arc of the time
/// network. What lies past them is of no account.
///
/// It passes exactly when the starts meet the project and the words are a flow of the time network whose
/// value is what the starts cost above the floors; then no list that meets the project costs less. Else it
/// is refused, by the first of these that is wrong: the number of bytes, the number of words (with the
/// number needed), a start at or past the horizon or in a closed slot (with the activity), a lag (with its
/// number), a word above what its arc can carry (with the arc), a node that does not pass on what it gets
/// (with the node), or the value.
pub fn check<P: Project>(project: &P, starts: &[u8], flow: &[u64]) -> Result<(), Refusal>
    ensures answer { result ≡ check_answer (P.meaning project.now) starts.now flow.now }
    ensures passes { PassesExactly (P.meaning project.now) starts.now flow.now result }
    ensures cheapest { PassedIsCheapest (P.meaning project.now) starts.now result }
{
    answer_of(project, starts, flow)
}
