// The arcs that enter a node of a time network.
ghost use Rattle.std.specs.Prelude.{◌≡◌, ◌+◌, ◌-◌, ◌*◌, ◌<◌, ◌≤◌, true, unsigned_abs};
ghost use Rattle.time_network.specs.Meant.{meant};
ghost use Rattle.time_network.specs.Listing as lists;

use crate::held::TimeNetwork;
use crate::place::{Point, Row, Side};
use flow::network::Step;

impl TimeNetwork {
    /// How many arcs of a lag are cut off at an end of the network.
    fn cut_arcs(&self, side: Side, k: usize) -> usize
        requires { k < 256 }
        ensures { result ≡ lists.cut_arcs (meant self.now) side k }
    {
        let gap = self.lag(k).gap as i32;
        match side {
            Side::AtSource => self.cut(1 - gap),
            Side::AtSink => self.cut(gap),
        }
    }

    /// The slot of the arc that is cut off in that place.
    fn cut_slot(&self, side: Side, u: usize) -> usize
        ensures { result ≡ lists.cut_slot (meant self.now) side u }
    {
        match side {
            Side::AtSource => u,
            Side::AtSink => (self.horizon - 1).saturating_sub(u),
        }
    }

    /// The next place that an arc of a lag has among those cut off; lags that have none are passed over.
    fn next_cut(&self, side: Side, from: usize) -> usize
        ensures { result ≡ lists.next_cut (meant self.now) side from }
    {
        let places = self.lag_count * 128;
        // From within a row of 128 on, and then row by row: no range goes like this.
        let mut at = from;
        while at < places {
            if at % 128 < self.cut_arcs(side, at / 128) {
                return at;
            }
            at = (at / 128 + 1) * 128;
        }
        at
    }

    /// The arc at that place.
    fn cut_step(&self, side: Side, place: usize) -> Option<Step>
        ensures { result ≡ lists.cut_step (meant self.now) side place }
    {
        if place >= self.lag_count * 128 {
            return None;
        }
        let k = place / 128;
        let t = self.cut_slot(side, place % 128);
        let arc = self.lag_arc(k, t);
        let node = self.point(self.lag(k).from as usize, t);
        Some(Step {
            arc,
            node,
            next: self.activities + (place + 1),
        })
    }

    /// Into the source: back from each activity's slot 1, and along lags to slots before the first. Into the sink:
    /// on from each activity's last slot, and along lags to slots past the last.
    pub(crate) fn entering_end(&self, side: Side, cursor: usize) -> Option<Step>
        ensures { result ≡ lists.entering_end (meant self.now) side cursor }
    {
        if cursor >= self.activities {
            return self.cut_step(side, self.next_cut(side, cursor - self.activities));
        }
        let last = self.horizon - 1;
        let (arc, node) = match side {
            Side::AtSource => (self.back_arc(cursor, 0), self.point(cursor, 1)),
            Side::AtSink => (self.on_arc(cursor, last), self.point(cursor, last)),
        };
        Some(Step {
            arc,
            node,
            next: cursor + 1,
        })
    }
}

impl TimeNetwork {
    /// Whether an arc of a lag ends at the point.
    fn lands(&self, at: Point, k: usize) -> bool
        requires { k < 256 }
        ensures { result ≡ lists.lands (meant self.now) at.activity (at.before + 1) k }
    {
        let lag = self.lag(k);
        let begin = at.before as i32 + 1 - lag.gap as i32;
        lag.to == at.activity && 0 <= begin && begin < self.horizon as i32
    }

    /// The slot where the arc of a lag that ends at the point begins.
    fn begin(&self, at: Point, k: usize) -> usize
        requires { k < self.now.lag_count }
        ensures is { result ≡ unsigned_abs (lists.begins (meant self.now) (at.before + 1) k) }
        ensures small { result < 1024 }
    {
        let begin = at.before as i32 + 1 - self.lag(k).gap as i32;
        begin.unsigned_abs() as usize
    }

    /// The next lag of which an arc ends at the point, on the list of those that lead to its activity.
    fn next_landing(&self, at: Point, from: usize) -> usize
        requires { (from < self.now.lag_count) × (lists.ends (meant self.now) at.activity from ≡ true) }
        ensures is { result ≡ lists.next_landing (meant self.now) at.activity (at.before + 1) from }
        ensures there { result < self.now.lag_count
            → lists.ends (meant self.now) at.activity result ≡ true }
    {
        // The list runs through the index: each lag tells the next, so there is no range to go over.
        let mut k = from;
        while k < self.lag_count {
            if self.lands(at, k) {
                return k;
            }
            k = self.ends.next[k] as usize;
        }
        k
    }

    /// The step along a lag to the point.
    fn landing(&self, at: Point, k: usize) -> Option<Step>
        requires { k < self.now.lag_count → lists.ends (meant self.now) at.activity k ≡ true }
        ensures { result ≡ lists.landing (meant self.now) at.activity (at.before + 1) k }
    {
        if k >= self.lag_count {
            return None;
        }
        let t = self.begin(at, k);
        let arc = self.lag_arc(k, t);
        let node = self.point(self.lag(k).from as usize, t);
        Some(Step {
            arc,
            node,
            next: 2 + self.ends.next[k] as usize,
        })
    }

    fn lag_into(&self, at: Point, k: usize) -> Option<Step>
        ensures { result ≡ lists.entering_lag (meant self.now) at.activity at.before k }
    {
        if k >= self.lag_count {
            return None;
        }
        if self.lag(k).to != at.activity {
            return None;
        }
        self.landing(at, self.next_landing(at, k))
    }

    /// Into a point: on, back, and along each lag to its activity that has an arc that ends there.
    pub(crate) fn entering_point(&self, at: Point, cursor: usize) -> Option<Step>
        ensures { result
            ≡ lists.entering_point (meant self.now) at.activity at.before cursor }
    {
        match cursor {
            0 => Some(self.before(Row::On, at)),
            1 => Some(self.after(Row::Back, at)),
            _ => self.lag_into(at, cursor - 2),
        }
    }
}
