// What the check of a proposed plan is to answer, by its definition alone.
use crate::least::{cost_of, floors_of};
use crate::network::{Passing, time_network};
use model::project::Project;
use model::refusal::{Fault, Refusal};
use trial_projects::lists::{Starts, first_broken, first_not_open};

/// The first start bytes as a list; 0 where there is none.
pub fn list_of(starts: &[u8]) -> Starts {
    let mut list = [0; 4];
    for (start, byte) in list.iter_mut().zip(starts) {
        *start = *byte;
    }
    list
}

/// The answer for a project of at most four activities, six slots and four lags.
pub fn defined_answer<P: Project>(project: &P, starts: &[u8], flow: &[u64]) -> Result<(), Refusal> {
    let network = time_network(project);
    if starts.len() < project.count() as usize {
        return Err(Fault::StartBytes.at(project.count()));
    }
    if flow.len() < network.arc_count() as usize {
        return Err(Fault::FlowWords.at(network.arc_count()));
    }
    let list = list_of(starts);
    if let Some(activity) = first_not_open(project, &list) {
        return Err(Fault::StartClosed.at(activity));
    }
    if let Some(lag) = first_broken(project, &list) {
        return Err(Fault::LagBroken.at(lag));
    }
    if let Some(arc) = network.first_above(flow) {
        return Err(Fault::WordAbove.at(arc));
    }
    if let Some(node) = network.first_unbalanced(flow) {
        return Err(Fault::Unbalanced.at(node));
    }
    let Passing { out, into } = network.passing(flow, 0);
    let above_floors = cost_of(project, &list).saturating_sub(floors_of(project));
    if out as i128 - into as i128 != above_floors as i128 {
        return Err(Fault::ValueDiffers.at(0));
    }
    Ok(())
}
