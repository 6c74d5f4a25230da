// The worked examples, run.
use earliest::chain::{Entry, How};
use earliest::earliest::earliest;
use layers::calendar::Calendar;
use layers::layered::Layered;
use model::project::Project;
use model::refusal::Refusal;
use model::time::Slot;
use std::io;
use trial_projects::drawn::{Drawn, Link};

// Two activities in four slots at prices 5 3 4 6 and 9 7 2 6; the second starts 2 slots after the first.
fn two_in_four() -> Drawn<64> {
    let mut cells = [0; 32];
    cells[..4].copy_from_slice(&[69, 67, 68, 70]);
    cells[8..12].copy_from_slice(&[73, 71, 66, 70]);
    Drawn {
        count: 2,
        horizon: 4,
        durations: [2, 1, 0, 0],
        cells,
        lags: 1,
        links: [Link {
            from: 0,
            to: 1,
            gap: 6,
        }; 4],
    }
}

// One activity in two slots, with a lag of 1 to itself.
fn after_itself() -> Drawn<64> {
    Drawn {
        count: 1,
        horizon: 2,
        durations: [0; 4],
        cells: [68; 32],
        lags: 1,
        links: [Link {
            from: 0,
            to: 0,
            gap: 5,
        }; 4],
    }
}

fn print_chain(rt: &HostRuntime, chain: &[Entry]) -> io::Result<()> {
    for Entry {
        activity,
        slot,
        how,
    } in chain {
        print!(rt; " ({},{activity},{},{})", how.code(), slot.0, how.number())?;
    }
    println!(rt; "")
}

fn print_outcome<P: Project>(rt: &HostRuntime, project: &P) -> io::Result<()> {
    let mut starts = [0; 4];
    let mut nodes = [0; 96];
    let mut chain = [Entry {
        activity: 0,
        slot: Slot(0),
        how: How::Start,
    }; 32];
    match earliest(project, &mut starts, &mut nodes, &mut chain) {
        Ok(()) => {
            for start in starts.iter().take(project.count() as usize) {
                print!(rt; " {start}")?;
            }
            println!(rt; "")
        }
        Err(Refusal { fault, place }) => {
            print!(rt; " refused {} {place}:", fault.number())?;
            print_chain(rt, &chain[..(place as usize).min(32)])
        }
    }
}

pub fn print_examples(rt: &HostRuntime) -> io::Result<()> {
    let mut calendar = Calendar::fresh();
    let _ = calendar.set(Slot(0), true);
    let _ = calendar.set(Slot(1), true);
    let shut = Layered {
        below: two_in_four(),
        rule: calendar,
    };
    print!(rt; "two in four:")?;
    print_outcome(rt, &two_in_four())?;
    print!(rt; "slots 0 and 1 shut:")?;
    print_outcome(rt, &shut)?;
    print!(rt; "after itself:")?;
    print_outcome(rt, &after_itself())
}
