// The earliest starts by trying every list, and the rules of a chain, both without any cleverness.
use earliest::chain::{Entry, How};
use model::price::Price;
use model::project::Project;
use model::time::Slot;
use std::iter::successors;
use trial_projects::lists::{Starts, meets, next};

/// The first list that meets a project of at most four activities and six slots.
pub fn first_to_meet<P: Project>(project: &P) -> Option<Starts> {
    successors(Some([0; 4]), |list| next(project, *list))
        .take(1296)
        .find(|list| meets(project, list))
}

fn follows<P: Project>(project: &P, before: &Entry, entry: &Entry) -> bool {
    match entry.how {
        How::Start => false,
        How::PastClosed(height) => {
            project.price(before.activity, before.slot) == Some(Price::Closed(height))
                && entry.activity == before.activity
                && entry.slot.0 as u32 == before.slot.0 as u32 + 1
        }
        How::ByLag(number) => project.lag(number).is_some_and(|lag| {
            let moved = before.slot.0 as i32 + lag.gap as i32;
            before.activity == lag.from as u16
                && entry.activity == lag.to as u16
                && entry.slot.0 as i32 == moved.clamp(0, project.horizon() as i32)
        }),
    }
}

fn stands_once(chain: &[Entry], entry: &Entry) -> bool {
    let same = |other: &&Entry| other.activity == entry.activity && other.slot == entry.slot;
    chain.iter().filter(same).count() == 1
}

/// Whether entries are a chain that shows a project to be impossible.
pub fn is_chain<P: Project>(project: &P, chain: &[Entry]) -> bool {
    let [first, inner @ .., last] = chain else {
        return false;
    };
    let later = &chain[1..];
    let horizon = Slot(project.horizon());
    first.slot == Slot(0)
        && first.how == How::Start
        && chain
            .iter()
            .zip(later)
            .all(|(before, entry)| follows(project, before, entry))
        && last.slot == horizon
        && inner.iter().all(|entry| entry.slot != horizon)
        && later.iter().all(|entry| stands_once(chain, entry))
}
