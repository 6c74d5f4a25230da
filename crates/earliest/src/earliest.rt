// The call for the earliest starts, and the memory that it takes.
ghost use Rattle.std.specs.Prelude.{◌≡◌, length, replicate};
ghost use Rattle.model.specs.Starts.{earliest as first_to_meet};
ghost use Rattle.earliest.specs.Outcome.{words_needed, entries_needed, searched, Enough, Told, Outcome};

use crate::bounds::Bounds;
use crate::chain::Entry;
use crate::guard::Cleared;
use model::project::Project;
use model::refusal::{Fault, Refusal};

/// How many node words the earliest starts of a project take: 4 · (n · (H − 1) + 2).
pub fn node_words<P: Project>(project: &P) -> usize
    ensures { result ≡ words_needed (P.meaning project.now) }
{
    4 * (usize::from(project.count()) * (usize::from(project.horizon()) - 1) + 2)
}

/// How many chain entries they take: n · H + 1.
// A size and a formula of its own, as are the node words.
pub fn chain_entries<P: Project>(project: &P) -> usize
    ensures { result ≡ entries_needed (P.meaning project.now) }
{
    usize::from(project.count()) * usize::from(project.horizon()) + 1
}

// Pushes the bounds, and writes the starts or the chain. The words are left clean. A function of
// its own: under a guard over a part of the nodes, the proof lacks what that part ends as.
fn settle<P: Project>(
    project: &P,
    starts: &mut [u8],
    words: &mut [u32],
    chain: &mut [Entry],
) -> Result<(), Refusal>
    requires { Enough (P.meaning project.now)
        (length starts.old) (length words.old) (length chain.old) }
    ensures clean { words.new ≡ replicate (length words.old) 0 }
    ensures told { Told (P.meaning project.now)
        (searched (first_to_meet (P.meaning project.now)))
        starts.old starts.new chain.old chain.new result }
{
    let guard = Cleared(words);
    let (nodes, _) = guard.0.as_chunks_mut();
    let mut bounds = Bounds::new(project, nodes);
    match bounds.push() {
        Some(last) => Err(Fault::Impossible.at(bounds.write_chain(last, chain))),
        None => {
            bounds.write_starts(starts);
            Ok(())
        }
    }
}

/// Writes the earliest start of each activity into the first n start bytes: the start list that
/// meets the project and starts each activity no later than any other that does. Where no list
/// meets, it is refused as impossible, a chain in front of the entries shows why, and the place is
/// the chain's length.
///
/// It takes n start bytes, 4 · (n · (H − 1) + 2) node words and n · H + 1 chain entries; exactly
/// enough is enough. With less, it is refused for the first that is too short, in that order, with
/// the length needed as the place, and nothing is changed. Otherwise the node words taken are zero
/// afterwards. Start bytes change only on success, entries only where it is impossible, and nothing
/// past what is taken ever changes.
pub fn earliest<P: Project>(
    project: &P,
    starts: &mut [u8],
    nodes: &mut [u32],
    chain: &mut [Entry],
) -> Result<(), Refusal>
    ensures { Outcome (P.meaning project.now)
        starts.old starts.new nodes.old nodes.new
        chain.old chain.new result }
{
    let count = project.count();
    if starts.len() < usize::from(count) {
        return Err(Fault::StartBytes.at(count));
    }
    let words = node_words(project);
    if nodes.len() < words {
        return Err(Fault::NodeWords.at(words as u16));
    }
    let entries = chain_entries(project);
    if chain.len() < entries {
        return Err(Fault::ChainEntries.at(entries as u16));
    }
    settle(project, starts, &mut nodes[..words], chain)
}
