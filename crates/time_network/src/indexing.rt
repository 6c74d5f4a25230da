// Making the index of lags.
ghost use Rattle.std.specs.Prelude.{◌≡◌, ◌<◌, ◌≤◌};
ghost use Rattle.time_network.specs.Held.{at_end, lag_at, Indexed};

use crate::index::{End, Index};
use model::lag::Lag;

/// The activity at an end of a lag.
fn at_end(lags: &[Lag; 256], end: End, k: usize) -> u8
    requires { k < 256 }
    ensures { result ≡ at_end end (lag_at lags.now k) }
{
    match end {
        End::From => lags[k].from,
        End::To => lags[k].to,
    }
}

/// The index of the first `count` lags by one of their ends, made from the last lag to the first.
pub(crate) fn index_of(lags: &[Lag; 256], count: usize, end: End) -> Index
    requires { count ≤ 256 }
    ensures { Indexed end lags.now count result }
{
    let mut first = [count as u16; 256];
    let mut next = [0; 256];
    for k in (0..count).rev() {
        let activity = at_end(lags, end, k) as usize;
        next[k] = first[activity];
        first[activity] = k as u16;
    }
    Index { first, next }
}
