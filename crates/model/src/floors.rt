// What is worked out from the prices of an activity.
ghost use Rattle.std.specs.Prelude.{◌≡◌, pos, negsuc, ◌≤ℤ◌};
ghost use Rattle.model.specs.Starts.{lower, floor, floors};
ghost use Rattle.model.specs.Openings.{opened, open_slots};

use crate::price::Price;
use crate::project::Project;
use crate::time::Slot;

fn lowered(least: Option<i32>, price: Option<Price>) -> Option<i32>
    ensures { result ≡ lower least price }
{
    match price {
        None => least,
        Some(Price::Closed(_)) => least,
        Some(Price::Open(p)) => match least {
            None => Some(p),
            Some(q) => Some(q.min(p)),
        },
    }
}

/// The least open price of an activity; 0 if it has none, or if there is no such activity.
pub fn floor_of<P: Project>(project: &P, activity: u16) -> i32
    ensures { result ≡ floor (P.meaning project.now) activity }
{
    let mut least = None;
    for t in 0..project.horizon() {
        least = lowered(least, project.price(activity, Slot(t)));
    }
    least.unwrap_or(0)
}

/// How many slots are open for an activity; 0 if there is no such activity.
pub fn open_slots_of<P: Project>(project: &P, activity: u16) -> u16
    ensures { result ≡ open_slots (P.meaning project.now) activity }
{
    let mut count = 0;
    for t in 0..project.horizon() {
        if let Some(Price::Open(_)) = project.price(activity, Slot(t)) {
            count += 1;
        }
    }
    count
}

/// The sum of the floors of all activities: no start list costs less.
pub fn sum_of_floors<P: Project>(project: &P) -> i64
    ensures value { result ≡ floors (P.meaning project.now) }
    ensures low { negsuc 137438953471 ≤ℤ result }
    ensures high { result ≤ℤ pos 137438953472 }
{
    let mut sum: i64 = 0;
    for activity in 0..project.count() {
        sum += floor_of(project, activity) as i64;
    }
    sum
}
