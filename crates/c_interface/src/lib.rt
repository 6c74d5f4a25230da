#![tactic(auto)]
// The entry for callers in C: a table file and lent memory in, the cheapest starts and their cost out.
ghost use Rattle.c_interface.specs.Entry.{Priced, FileOutcome, EntryOutcome, FullSizeIsEnough};

use least_cost::plans::cheapest;
use model::floors::sum_of_floors;
use model::project::Project;
use model::refusal::Refusal;
use table_file::held::Table;

// The cheapest starts of any project, and what they cost: the floors and the value of the flow.
// C lends the three memories one by one; a struct of them would be taken apart again at each call.
fn plan_project<P: Project>(
    project: &P,
    starts: &mut [u8],
    flow: &mut [u64],
    nodes: &mut [u32],
) -> Result<i64, Refusal>
    ensures { Priced (P.meaning project.now)
        starts.old starts.new flow.old flow.new
        nodes.old nodes.new result }
{
    let floors = sum_of_floors(project);
    let value = cheapest(project, starts, flow, nodes)?;
    Ok(floors + value as i64)
}

// The same for the project that a table file states, if it has no fault.
fn plan_file(
    file: &[u8],
    starts: &mut [u8],
    flow: &mut [u64],
    nodes: &mut [u32],
) -> Result<i64, Refusal>
    ensures { FileOutcome file.now
        starts.old starts.new flow.old flow.new
        nodes.old nodes.new result }
{
    plan_project(&Table::open(file)?, starts, flow, nodes)
}

/// Opens a table file and writes the cheapest start of each activity into the first n start bytes, and
/// what they cost into `cost`. It answers 0, or number × 65,536 + place of the refusal: the first fault of
/// the file, or too few start bytes, flow words or node words, or that no start list meets the project.
///
/// With a file of any size, 64 start bytes, 49,152 flow words and 32,520 node words are enough. Starts, flow
/// words and cost change only where the answer is 0; the node words taken are zero afterwards unless the
/// file or the memory was refused. What lies past what is taken never changes.
#[unsafe(no_mangle)]
pub extern "C" fn campaign_cheapest(
    file: &[u8],
    starts: &mut [u8],
    flow: &mut [u64],
    nodes: &mut [u32],
    cost: &mut i64,
) -> u32
    ensures outcome { EntryOutcome file.now
        starts.old starts.new flow.old flow.new
        nodes.old nodes.new cost.old cost.new result }
    ensures enough { FullSizeIsEnough file.now starts.old flow.old nodes.old }
{
    match plan_file(file, starts, flow, nodes) {
        Ok(least) => {
            *cost = least;
            0
        }
        Err(refusal) => refusal.code(),
    }
}
