// The projects that every trial runs on: drawn ones, each bare and under three stacks of layers.
use crate::drawn::{Source, Spread};
use layers::calendar::Calendar;
use layers::lateness::Lateness;
use layers::layered::Layered;
use model::project::Project;
use model::time::Slot;

/// What is tried on a project.
pub trait Trial {
    /// Tries a project of at most four activities, six slots and four lags, and notes what came out.
    fn on<P: Project>(&mut self, project: &P);
}

fn drawn_calendar(source: &mut Source) -> Calendar {
    let mut calendar = Calendar::fresh();
    let _ = calendar.set(Slot(source.byte() as u16 % 6), true);
    let _ = calendar.set(Slot(source.byte() as u16 % 6), true);
    calendar
}

fn drawn_lateness(source: &mut Source) -> Lateness {
    let mut lateness = Lateness::fresh();
    let _ = lateness.set(
        source.byte() as u16 % 4,
        source.byte() as u32 % 8,
        source.byte() as u32,
    );
    lateness
}

// Bare, under a calendar, under lateness on that, and under another calendar on both.
fn try_stack<T: Trial, P: Project + Drop>(trial: &mut T, source: &mut Source, project: P) {
    trial.on(&project);
    let first = Layered {
        below: project,
        rule: drawn_calendar(source),
    };
    trial.on(&first);
    let second = Layered {
        below: first,
        rule: drawn_lateness(source),
    };
    trial.on(&second);
    let third = Layered {
        below: second,
        rule: drawn_calendar(source),
    };
    trial.on(&third);
}

/// Tries 800 projects, the same in every run.
pub fn try_projects<T: Trial, const BASE: u8>(trial: &mut T, spread: Spread) {
    let mut source = Source(2003);
    for _ in 0..200 {
        let project = source.draw::<BASE>(spread);
        try_stack(trial, &mut source, project);
    }
}
