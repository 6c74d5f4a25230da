// Making the time network of a project: floors, capacities and the index of lags are worked out once.
ghost use Rattle.std.specs.Prelude.{◌≡◌, ◌<◌, ◌≤◌};
ghost use Rattle.model.specs.Starts.{floor};
ghost use Rattle.plan_theory.specs.TimeNetwork.{time_net};
ghost use Rattle.time_network.specs.Agreement.{Same};
ghost use Rattle.time_network.specs.Making.{rise, RowWritten, AllPriced, AllCopied};
ghost use Rattle.time_network.specs.Meant.{net_of};

use crate::held::TimeNetwork;
use crate::index::End;
use crate::indexing::index_of;
use flow::network::Capacity;
use model::floors::floor_of;
use model::lag::Lag;
use model::price::Price;
use model::project::Project;
use model::time::Slot;

const NO_LAG: Lag = Lag {
    from: 0,
    to: 0,
    gap: 0,
};

/// The capacity of a price arc.
fn rise(price: Price, low: i32) -> Capacity
    ensures { result ≡ rise low price }
{
    match price {
        Price::Open(p) => Capacity::Bounded(p.abs_diff(low)),
        Price::Closed(_) => Capacity::Unbounded,
    }
}

/// Writes the capacities of an activity.
fn write_row<P: Project>(project: &P, activity: u16, capacities: &mut [Capacity; 8192])
    requires { activity < (P.meaning project.now).n }
    ensures { RowWritten (P.meaning project.now) activity
        capacities.old capacities.new }
{
    let low = floor_of(project, activity);
    let horizon = project.horizon();
    let base = activity as usize * horizon as usize;
    for t in 0..horizon {
        let price = project.price(activity, Slot(t)).unwrap();
        capacities[base + t as usize] = rise(price, low);
    }
}

/// Writes the capacities of all activities.
fn write_rows<P: Project>(project: &P, capacities: &mut [Capacity; 8192])
    ensures { AllPriced (P.meaning project.now) capacities.new }
{
    for a in 0..project.count() {
        write_row(project, a, capacities);
    }
}

fn lags_of<P: Project>(project: &P) -> [Lag; 256]
    ensures { AllCopied (P.meaning project.now) result }
{
    let mut lags = [NO_LAG; 256];
    for k in 0..project.lag_count() {
        lags[k as usize] = project.lag(k).unwrap();
    }
    lags
}

impl TimeNetwork {
    /// The time network of a project.
    pub fn of<P: Project>(project: &P) -> TimeNetwork
        ensures { Same (net_of result) (time_net (P.meaning project.now)) }
    {
        let activities = project.count() as usize;
        let horizon = project.horizon() as usize;
        let lag_count = project.lag_count() as usize;
        let lags = lags_of(project);
        let leads = index_of(&lags, lag_count, End::From);
        let ends = index_of(&lags, lag_count, End::To);
        let mut capacities = [Capacity::Unbounded; 8192];
        write_rows(project, &mut capacities);
        TimeNetwork {
            activities,
            horizon,
            lag_count,
            capacities,
            lags,
            leads,
            ends,
        }
    }
}
