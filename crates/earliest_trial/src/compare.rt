// One project tried: the earliest starts against every list, the chain against its rules, and the lent
// memory against what was lent.
use crate::brute::{first_to_meet, is_chain};
use earliest::chain::{Entry, How};
use earliest::earliest::{chain_entries, earliest, node_words};
use model::project::Project;
use model::refusal::{Fault, Refusal};
use model::time::Slot;
use trial_projects::memory::{FILLER, cleared, untouched, written};

const UNTOUCHED: Entry = Entry {
    activity: 99,
    slot: Slot(99),
    how: How::Start,
};

/// What came out of a trial.
#[derive(Clone, Copy)]
pub enum Verdict {
    /// The earliest starts are those that trying every list gives.
    Starts,
    /// No list meets, and a chain of this length shows it.
    Impossible(u16),
    /// Something differs.
    Differs,
}

/// Memory enough for any project of four activities and six slots, and some to spare.
#[derive(Clone, Copy)]
struct Lent {
    starts: [u8; 6],
    nodes: [u32; 96],
    chain: [Entry; 32],
}

fn untouched_memory() -> Lent {
    Lent {
        starts: [FILLER; 6],
        nodes: [FILLER as u32; 96],
        chain: [UNTOUCHED; 32],
    }
}

fn is_untouched(chain: &[Entry]) -> bool {
    chain.iter().all(|entry| *entry == UNTOUCHED)
}

fn shows_impossible<P: Project>(project: &P, length: u16, memory: &Lent) -> bool {
    let Some((chain, rest)) = memory.chain.split_at_checked(length as usize) else {
        return false;
    };
    is_chain(project, chain) && is_untouched(rest) && untouched(&memory.starts, 0)
}

fn judge<P: Project>(project: &P, answer: Result<(), Refusal>, memory: &Lent) -> Verdict {
    match (first_to_meet(project), answer) {
        (Some(list), Ok(()))
            if written(&memory.starts, &list, project.count()) && is_untouched(&memory.chain) =>
            Verdict::Starts,
        (None, Err(refusal))
            if refusal.fault == Fault::Impossible
                && shows_impossible(project, refusal.place, memory) => Verdict::Impossible(
            refusal.place,
        ),
        _ => Verdict::Differs,
    }
}

/// Tries one project of at most four activities and six slots.
pub fn compare<P: Project>(project: &P) -> Verdict {
    let mut memory = untouched_memory();
    let answer = earliest(
        project,
        &mut memory.starts,
        &mut memory.nodes,
        &mut memory.chain,
    );
    if cleared(&memory.nodes, node_words(project)) {
        judge(project, answer, &memory)
    } else {
        Verdict::Differs
    }
}

// The number and the place of the refusal with this much memory, or with all that there is where this is more.
fn refusal_with<P: Project>(
    project: &P,
    starts: usize,
    nodes: usize,
    entries: usize,
) -> Result<(), (u16, u16)> {
    let mut memory = untouched_memory();
    earliest(
        project,
        &mut memory.starts[..starts.min(6)],
        &mut memory.nodes[..nodes.min(96)],
        &mut memory.chain[..entries.min(32)],
    )
    .map_err(|refusal| (refusal.fault.number(), refusal.place))
}

/// Whether each memory that is one short is refused with the length needed, in order, and exactly
/// enough is not.
pub fn memory_is_tested<P: Project>(project: &P) -> bool {
    let count = project.count() as usize;
    let nodes = node_words(project);
    let entries = chain_entries(project);
    if nodes > 96 || entries > 32 || count > 6 || count == 0 || nodes == 0 || entries == 0 {
        return false;
    }
    refusal_with(project, count - 1, nodes - 1, entries - 1) == Err((13, count as u16))
        && refusal_with(project, count, nodes - 1, entries - 1) == Err((15, nodes as u16))
        && refusal_with(project, count, nodes, entries - 1) == Err((16, entries as u16))
        && matches!(
            refusal_with(project, count, nodes, entries),
            Ok(()) | Err((18, _))
        )
}
