// The arcs that leave a node of a time network.
ghost use Rattle.std.specs.Prelude.{◌≡◌};
ghost use Rattle.time_network.specs.Meant.{meant};
ghost use Rattle.time_network.specs.Listing as lists;

use crate::held::TimeNetwork;
use crate::place::{Point, Row};
use flow::network::Step;

impl TimeNetwork {
    /// From the source: to each activity's slot 1, and along each lag from slot 0.
    pub(crate) fn leaving_source(&self, cursor: usize) -> Option<Step>
        ensures { result ≡ lists.leaving_source (meant self.now) cursor }
    {
        if cursor < self.activities {
            let arc = self.on_arc(cursor, 0);
            return Some(Step {
                arc,
                node: self.point(cursor, 1),
                next: cursor + 1,
            });
        }
        let k = cursor - self.activities;
        if k >= self.lag_count {
            return None;
        }
        let lag = self.lag(k);
        let arc = self.lag_arc(k, 0);
        let node = self.point(lag.to as usize, self.moved(0, lag.gap));
        Some(Step {
            arc,
            node,
            next: cursor + 1,
        })
    }

    /// From the sink: back to each activity's last slot.
    pub(crate) fn leaving_sink(&self, cursor: usize) -> Option<Step>
        ensures { result ≡ lists.leaving_sink (meant self.now) cursor }
    {
        if cursor >= self.activities {
            return None;
        }
        let t = self.horizon - 1;
        let arc = self.back_arc(cursor, t);
        Some(Step {
            arc,
            node: self.point(cursor, t),
            next: cursor + 1,
        })
    }

    // The step along a row between a point and the point before.
    pub(crate) fn before(&self, row: Row, at: Point) -> Step
        ensures { result ≡ lists.before (meant self.now) row at.activity at.before }
    {
        let activity = at.activity as usize;
        let t = at.before as usize;
        let arc = match row {
            Row::On => self.on_arc(activity, t),
            Row::Back => self.back_arc(activity, t),
        };
        Step {
            arc,
            node: self.point(activity, t),
            next: 1,
        }
    }

    // The step along a row between a point and the point after; lags come next.
    pub(crate) fn after(&self, row: Row, at: Point) -> Step
        ensures { result ≡ lists.after (meant self.now) row at.activity at.before }
    {
        let activity = at.activity as usize;
        let t = at.before as usize + 1;
        let (arc, lags) = match row {
            Row::On => (self.on_arc(activity, t), &self.leads),
            Row::Back => (self.back_arc(activity, t), &self.ends),
        };
        Step {
            arc,
            node: self.point(activity, t + 1),
            next: 2 + lags.first[activity] as usize,
        }
    }

    fn lag_from(&self, at: Point, k: usize) -> Option<Step>
        ensures { result ≡ lists.leaving_lag (meant self.now) at.activity at.before k }
    {
        if k >= self.lag_count {
            return None;
        }
        let lag = self.lag(k);
        if lag.from != at.activity {
            return None;
        }
        let t = at.before as usize + 1;
        let arc = self.lag_arc(k, t);
        let node = self.point(lag.to as usize, self.moved(t, lag.gap));
        Some(Step {
            arc,
            node,
            next: 2 + self.leads.next[k] as usize,
        })
    }

    /// From a point: back, on, and along each lag that leads from its activity.
    // Apart from `entering_point`: of a lag the two have nothing in common but the cursor.
    pub(crate) fn leaving_point(&self, at: Point, cursor: usize) -> Option<Step>
        ensures { result
            ≡ lists.leaving_point (meant self.now) at.activity at.before cursor }
    {
        match cursor {
            0 => Some(self.before(Row::Back, at)),
            1 => Some(self.after(Row::On, at)),
            _ => self.lag_from(at, cursor - 2),
        }
    }
}
