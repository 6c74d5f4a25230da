// What the time network of a project holds of it.
ghost use Rattle.std.specs.Prelude.{◌*◌, ◌≤◌};
ghost use Rattle.time_network.specs.declared.index.End.TheVariants.{From, To};
ghost use Rattle.time_network.specs.Held.{WithinLimit, LagsFit, Indexed};

use crate::index::Index;
use flow::network::Capacity;
use model::lag::Lag;

/// The time network of a project. Only the first `lag_count` lags count, and of the capacities the first
/// `activities · horizon`, one for each price arc.
// Arrays of the greatest size with the counts beside them: a plan allocates nothing.
#[derive(Clone, Copy)]
pub struct TimeNetwork {
    pub(crate) activities: usize,
    pub(crate) horizon: usize,
    pub(crate) lag_count: usize,
    pub(crate) capacities: [Capacity; 8192],
    pub(crate) lags: [Lag; 256],
    pub(crate) leads: Index,
    pub(crate) ends: Index,
    ghost some: { 1 ≤ activities },
    ghost few: { activities ≤ 64 },
    ghost ahead: { 1 ≤ horizon },
    ghost near: { horizon ≤ 128 },
    ghost counted: { lag_count ≤ 256 },
    ghost limited: { WithinLimit (activities * horizon) capacities },
    ghost joined: { LagsFit activities lag_count lags },
    ghost leading: { Indexed From lags lag_count leads },
    ghost ending: { Indexed To lags lag_count ends },
}
