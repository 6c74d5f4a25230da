// The lists of least cost by trying every list, and sums of prices, without any cleverness. The floors are worked out
// here again, apart from the library's: what the library is held to may not stand on it.
use least_cost::side::Side;
use model::project::Project;
use std::iter::successors;
use trial_projects::lists::{Starts, meets, next, open_price, start_of};

/// The lists of least cost of a project: the first and the last of them in the order of a dictionary.
#[derive(Clone, Copy)]
pub struct Least {
    pub cost: i64,
    first: Starts,
    last: Starts,
}

impl Least {
    /// The one that a call is to find: the first is the cheapest list, the last the latest.
    pub fn list(&self, side: Side) -> Starts {
        match side {
            Side::Early => self.first,
            Side::Late => self.last,
        }
    }
}

/// The least open price of an activity, or 0 if it has none.
pub fn floor_of<P: Project>(project: &P, activity: u16) -> i64 {
    (0..project.horizon())
        .filter_map(|slot| open_price(project, activity, slot))
        .min()
        .unwrap_or(0)
}

/// The sum of the floors of a project.
pub fn floors_of<P: Project>(project: &P) -> i64 {
    (0..project.count()).fold(0, |sum: i64, a| sum.saturating_add(floor_of(project, a)))
}

/// The sum of the prices of a list; a start that is not open adds nothing.
pub fn cost_of<P: Project>(project: &P, starts: &Starts) -> i64 {
    (0..project.count())
        .filter_map(|a| open_price(project, a, start_of(starts, a) as u16))
        .fold(0, |sum: i64, price| sum.saturating_add(price))
}

// The lists of least cost, with one list more that comes after those so far.
fn with(least: Option<Least>, list: Starts, cost: i64) -> Least {
    match least {
        Some(known) if known.cost < cost => known,
        Some(known) if known.cost == cost => Least {
            last: list,
            ..known
        },
        _ => Least {
            cost,
            first: list,
            last: list,
        },
    }
}

/// The lists of least cost of a project of at most four activities and six slots; none if no list meets it.
pub fn lists_of_least_cost<P: Project>(project: &P) -> Option<Least> {
    successors(Some([0; 4]), |list| next(project, *list))
        .take(1296)
        .filter(|list| meets(project, list))
        .fold(None, |least, list| {
            Some(with(least, list, cost_of(project, &list)))
        })
}
