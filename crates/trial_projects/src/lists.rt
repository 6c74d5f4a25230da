// Start lists one after the other, and whether one meets a project, without any cleverness.
use model::lag::Lag;
use model::price::Price;
use model::project::Project;
use model::time::Slot;

/// One slot for each of at most four activities.
pub type Starts = [u8; 4];

/// The start of an activity in a list; 0 past the fourth.
pub fn start_of(starts: &Starts, activity: u16) -> u8 {
    starts.get(activity as usize).copied().unwrap_or(0)
}

/// What it costs to start an activity in a slot; none if the slot is closed or there is none.
pub fn open_price<P: Project>(project: &P, activity: u16, slot: u16) -> Option<i64> {
    match project.price(activity, Slot(slot)) {
        Some(Price::Open(price)) => Some(price as i64),
        _ => None,
    }
}

fn holds(lag: Lag, starts: &Starts) -> bool {
    start_of(starts, lag.from as u16) as i32 + lag.gap as i32
        <= start_of(starts, lag.to as u16) as i32
}

/// The least activity of a project that a list does not start in an open slot.
pub fn first_not_open<P: Project>(project: &P, starts: &Starts) -> Option<u16> {
    (0..project.count()).find(|a| open_price(project, *a, start_of(starts, *a) as u16).is_none())
}

/// The least lag of a project that a list breaks.
pub fn first_broken<P: Project>(project: &P, starts: &Starts) -> Option<u16> {
    (0..project.lag_count()).find(|number| project
        .lag(*number)
        .is_some_and(|lag| !holds(lag, starts)))
}

/// Whether a list meets a project of at most four activities.
pub fn meets<P: Project>(project: &P, starts: &Starts) -> bool {
    first_not_open(project, starts).is_none() && first_broken(project, starts).is_none()
}

/// The next list in the order of a dictionary, or none after the last.
pub fn next<P: Project>(project: &P, starts: Starts) -> Option<Starts> {
    let mut list = starts;
    for start in list.iter_mut().take(project.count() as usize).rev() {
        if (*start as u16) + 1 < project.horizon().min(128) {
            *start += 1;
            return Some(list);
        }
        *start = 0;
    }
    None
}
