// Small projects drawn from bytes, to try planners on.
ghost use Rattle.std.specs.Prelude.{◌≡◌};
ghost use Rattle.trial_projects.specs.Drawn.{count_of, cell, drawn, drawn_bounded};

use model::lag::Lag;
use model::price::Price;
use model::project::Project;
use model::time::Slot;
use std::array::from_fn;

/// A lag as it is drawn.
#[derive(Clone, Copy, Default)]
pub struct Link {
    pub from: u8,
    pub to: u8,
    /// 0 to 8, for gaps from −4 to 4.
    pub gap: u8,
}

/// A project of one to four activities in one to six slots, with up to four lags. The counts stand beside whole
/// arrays, so that any bytes make a project: what is too large is cut. The price of an open slot is its byte less
/// `BASE`.
#[derive(Clone, Copy)]
pub struct Drawn<const BASE: u8> {
    pub count: u8,
    pub horizon: u8,
    pub durations: [u8; 4],
    /// Eight for each activity. Below 64 the slot is closed.
    pub cells: [u8; 32],
    pub lags: u8,
    pub links: [Link; 4],
}

fn price_of<const BASE: u8>(byte: u8) -> Price
    ensures { result ≡ cell BASE byte }
{
    if byte < 64 {
        Price::Closed(0)
    } else {
        Price::Open(byte as i32 - BASE as i32)
    }
}

impl<const BASE: u8> Drawn<BASE> {
    fn activities(&self) -> u8
        ensures { result ≡ count_of self.now }
    {
        self.count.clamp(1, 4)
    }
}

impl<const BASE: u8> Project for Drawn<BASE> {
    ghost meaning = { drawn BASE };

    ghost bounded = { drawn_bounded BASE };

    fn count(&self) -> u16 {
        self.activities() as u16
    }

    fn horizon(&self) -> u16 {
        self.horizon.clamp(1, 6) as u16
    }

    fn duration(&self, activity: u16) -> Option<u16> {
        if activity < self.count() {
            Some(self.durations[activity as usize].min(3) as u16)
        } else {
            None
        }
    }

    fn price(&self, activity: u16, slot: Slot) -> Option<Price> {
        if activity < self.count() && slot.0 < self.horizon() {
            Some(price_of::<BASE>(self.cells[8 * activity as usize + slot.0 as usize]))
        } else {
            None
        }
    }

    fn lag_count(&self) -> u16 {
        self.lags.min(4) as u16
    }

    fn lag(&self, number: u16) -> Option<Lag> {
        if number < self.lag_count() {
            let last = self.activities() - 1;
            let link = self.links[number as usize];
            Some(Lag {
                from: link.from.min(last),
                to: link.to.min(last),
                gap: link.gap.min(8) as i16 - 4,
            })
        } else {
            None
        }
    }

    fn height(&self) -> u8 {
        0
    }
}

/// How projects are drawn.
#[derive(Clone, Copy)]
pub enum Spread {
    /// Every size and every byte of a cell is as likely as any other.
    Even,
    /// Most have four activities, six slots and four lags, since more is cut to that. The prices of some are
    /// coarse, for many lists of equal cost; some have every slot open.
    Large,
}

/// Bytes that look random, the same in every run.
#[derive(Clone, Copy)]
pub struct Source(pub u32);

impl Source {
    pub fn byte(&mut self) -> u8 {
        self.0 = self.0.wrapping_mul(1_664_525).wrapping_add(1_013_904_223);
        self.0.to_le_bytes()[3]
    }

    fn cells(&mut self, kept_bits: u8, set_bits: u8) -> [u8; 32] {
        from_fn(|_| (self.byte() & kept_bits) | set_bits)
    }

    fn coarse_cells(&mut self) -> [u8; 32] {
        let kept_bits = match self.byte() % 3 {
            0 => 0b1111_1111,
            1 => 0b1110_0000,
            _ => 0b1100_0000,
        };
        let open_bit = 64 * (self.byte() % 2);
        self.cells(kept_bits, open_bit)
    }

    fn links(&mut self) -> [Link; 4] {
        let mut links = [Link::default(); 4];
        for link in links.iter_mut() {
            link.from = self.byte() % 4;
        }
        for link in links.iter_mut() {
            link.to = self.byte() % 4;
        }
        for link in links.iter_mut() {
            link.gap = self.byte() % 9;
        }
        links
    }

    /// A project drawn from the next bytes.
    pub fn draw<const BASE: u8>(&mut self, spread: Spread) -> Drawn<BASE> {
        let cells = match spread {
            Spread::Even => self.cells(0b1111_1111, 0),
            Spread::Large => self.coarse_cells(),
        };
        let (counts, horizons, lag_counts) = match spread {
            Spread::Even => (4, 6, 5),
            Spread::Large => (8, 16, 8),
        };
        Drawn {
            count: 1 + self.byte() % counts,
            horizon: 1 + self.byte() % horizons,
            durations: from_fn(|_| self.byte() % 4),
            cells,
            lags: self.byte() % lag_counts,
            links: self.links(),
        }
    }
}
