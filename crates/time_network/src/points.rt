// Points, arcs and capacities of a time network by their numbers.
ghost use Rattle.std.specs.Prelude.{◌≡◌, ◌+◌, ◌-◌, ◌*◌, ◌/◌, ◌%◌, ◌<◌, ◌≤◌, pos, ◌+ℤ◌};
ghost use Rattle.plan_theory.specs.TimeNetwork as nets;
ghost use Rattle.time_network.specs.Meant.{meant, net_of};
ghost use Rattle.time_network.specs.Listing.{decode};

use crate::held::TimeNetwork;
use crate::place::{Place, Point};
use model::lag::Lag;

/// The two ends of an arc.
#[derive(Clone, Copy)]
pub(crate) struct Ends {
    pub tail: usize,
    pub head: usize,
}

impl TimeNetwork {
    /// How many price arcs there are; as many arcs lead back.
    pub(crate) fn size(&self) -> usize
        ensures is { result ≡ self.now.activities * self.now.horizon }
        ensures small { result ≤ 8192 }
    {
        self.activities * self.horizon
    }

    /// The place of slot t in a row, where each row has a place for each slot.
    pub(crate) fn in_row(&self, row: usize, t: usize) -> usize
        requires { (row < 256) × (t < 1024) }
        ensures is { result ≡ row * self.now.horizon + t }
        ensures small { result < 65536 }
    {
        row * self.horizon + t
    }

    /// The arc on from a slot of an activity to the next.
    pub(crate) fn on_arc(&self, activity: usize, t: usize) -> usize
        requires { (activity < 256) × (t < 1024) }
        ensures { result ≡ nets.on_arc (meant self.now) activity t }
    {
        self.in_row(activity, t)
    }

    /// The arc back to a slot of an activity from the next.
    pub(crate) fn back_arc(&self, activity: usize, t: usize) -> usize
        requires { (activity < 256) × (t < 1024) }
        ensures { result ≡ nets.back_arc (meant self.now) activity t }
    {
        self.size() + self.in_row(activity, t)
    }

    /// The arc of a lag from a slot.
    pub(crate) fn lag_arc(&self, k: usize, t: usize) -> usize
        requires { (k < 256) × (t < 1024) }
        ensures { result ≡ nets.lag_arc (meant self.now) k t }
    {
        2 * self.size() + self.in_row(k, t)
    }

    pub(crate) fn arcs(&self) -> usize
        ensures { result ≡ (nets.time_net (meant self.now)).arcs }
    {
        self.horizon * (2 * self.activities + self.lag_count)
    }

    pub(crate) fn nodes(&self) -> usize
        ensures { result ≡ (nets.time_net (meant self.now)).nodes }
    {
        self.activities * (self.horizon - 1) + 2
    }

    /// The node of a point.
    pub(crate) fn point(&self, activity: usize, t: usize) -> usize
        requires { activity < 256 }
        ensures { result ≡ nets.here (meant self.now) activity t }
    {
        if t == 0 {
            0
        } else if t < self.horizon {
            2 + (activity * (self.horizon - 1) + (t - 1))
        } else {
            1
        }
    }

    /// A slot moved by a gap, cut to 0 up to the horizon.
    pub(crate) fn moved(&self, t: usize, gap: i16) -> usize
        requires { t < 512 }
        ensures { result ≡ nets.cut_to self.now.horizon (pos t +ℤ gap) }
    {
        self.cut(t as i32 + gap as i32)
    }

    /// A slot cut to 0 up to the horizon.
    pub(crate) fn cut(&self, at: i32) -> usize
        ensures { result ≡ nets.cut_to self.now.horizon at }
    {
        at.clamp(0, self.horizon as i32) as usize
    }

    // Numbers of lags come from cursors and from the index: a type for one would be made at each step.
    pub(crate) fn lag(&self, k: usize) -> Lag
        requires { k < 256 }
        ensures { result ≡ (meant self.now).lag k }
    {
        self.lags[k]
    }
}

impl TimeNetwork {
    /// The ends of an arc on, and turned round those of the arc back beside it.
    fn on_ends(&self, place: usize) -> Ends
        requires { place < self.now.activities * self.now.horizon }
        ensures tail { result.tail
            ≡ nets.at_place self.now.horizon (nets.here (meant self.now)) place }
        ensures head { result.head
            ≡ nets.at_place self.now.horizon (nets.next (meant self.now)) place }
    {
        let activity = place / self.horizon;
        let t = place % self.horizon;
        Ends {
            tail: self.point(activity, t),
            head: self.point(activity, t + 1),
        }
    }

    /// The ends of the arc of a lag, by its place among those of all lags.
    fn lag_ends(&self, place: usize) -> Ends
        requires { place < self.now.lag_count * self.now.horizon }
        ensures tail { result.tail
            ≡ nets.at_place self.now.horizon (nets.lag_tail (meant self.now)) place }
        ensures head { result.head
            ≡ nets.at_place self.now.horizon (nets.lag_head (meant self.now)) place }
    {
        let lag = self.lag(place / self.horizon);
        let t = place % self.horizon;
        Ends {
            tail: self.point(lag.from as usize, t),
            head: self.point(lag.to as usize, self.moved(t, lag.gap)),
        }
    }

    pub(crate) fn ends_of(&self, k: usize) -> Ends
        requires { k < (nets.time_net (meant self.now)).arcs }
        ensures tail { result.tail ≡ (net_of self.now).tail k }
        ensures head { result.head ≡ (net_of self.now).head k }
    {
        let size = self.size();
        if k < size {
            self.on_ends(k)
        } else if k < 2 * size {
            let on = self.on_ends(k - size);
            Ends {
                tail: on.head,
                head: on.tail,
            }
        } else {
            self.lag_ends(k - 2 * size)
        }
    }

    /// A node taken apart.
    pub(crate) fn place_of(&self, v: usize) -> Place
        ensures { result ≡ decode (meant self.now) v }
    {
        match v {
            0 => Place::Source,
            1 => Place::Sink,
            _ if v < self.nodes() => {
                let width = self.horizon - 1;
                Place::Inner(Point {
                    activity: ((v - 2) / width) as u8,
                    before: ((v - 2) % width) as u8,
                })
            }
            _ => Place::Sink,
        }
    }
}
