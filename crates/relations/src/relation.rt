// A relation between an end of one activity and an end of another, by its letters and its interval.
ghost use Rattle.std.specs.Prelude.{◌≡◌, ℕ, Result, pos, ◌+ℤ◌, ◌-ℤ◌};
ghost use Rattle.model.specs.declared.refusal.Refusal.{Refusal};
ghost use Rattle.model.specs.Meaning.{within};
ghost use Rattle.relations.specs.Letters.{end_answer, sense_answer};
ghost use Rattle.relations.specs.Lags.{reach, gap_of, gap_fits, lag_of};

use model::lag::Lag;
use model::refusal::{Fault, Refusal};

/// An end of an activity.
#[derive(Clone, Copy, PartialEq, Eq, Debug)]
pub enum End {
    /// Its start, letter S.
    Start,
    /// Its finish, letter F: as many slots after the start as the activity lasts.
    Finish,
}

/// Whether an interval is the least or the greatest that is allowed.
#[derive(Clone, Copy, PartialEq, Eq, Debug)]
pub enum Sense {
    /// The to-end lies at least the interval after the from-end, letter L.
    Least,
    /// The to-end lies at most the interval after the from-end, letter M.
    Greatest,
}

/// "The to-end of `to` lies at least, or at most, `interval` slots after the from-end of `from`."
#[derive(Clone, Copy, PartialEq, Eq, Debug)]
pub struct Relation {
    pub from_end: End,
    pub to_end: End,
    pub sense: Sense,
    pub from: u8,
    pub to: u8,
    pub interval: i16,
}

/// What a letter of a relation stands for: an end or a sense.
pub trait Letter: Sized {
    ghost answer: { ℕ → ℕ → Result Self Refusal };

    /// What a letter stands for. One that stands for nothing is out of range at its place.
    fn of_letter(letter: char, place: u16) -> Result<Self, Refusal>
        ensures { result ≡ answer letter place };
}

impl Letter for End {
    ghost answer = { end_answer };

    fn of_letter(letter: char, place: u16) -> Result<End, Refusal> {
        match letter {
            'S' => Ok(End::Start),
            'F' => Ok(End::Finish),
            _ => Err(Fault::Range.at(place)),
        }
    }
}

impl Letter for Sense {
    ghost answer = { sense_answer };

    fn of_letter(letter: char, place: u16) -> Result<Sense, Refusal> {
        match letter {
            'L' => Ok(Sense::Least),
            'M' => Ok(Sense::Greatest),
            _ => Err(Fault::Range.at(place)),
        }
    }
}

impl End {
    /// How many slots this end lies after the start of an activity that lasts `duration`.
    pub fn reach(self, duration: u8) -> u8
        ensures { result ≡ reach self duration }
    {
        match self {
            End::Start => 0,
            End::Finish => duration,
        }
    }
}

impl Relation {
    /// The gap between the two starts that this relation asks for. It has no bound of its own.
    pub fn gap(self, from_duration: u8, to_duration: u8) -> i32
        ensures { result ≡ gap_of self from_duration to_duration }
    {
        let a = i32::from(self.from_end.reach(from_duration));
        let b = i32::from(self.to_end.reach(to_duration));
        let v = i32::from(self.interval);
        match self.sense {
            Sense::Least => v + a - b,
            Sense::Greatest => b - a - v,
        }
    }

    /// The lag that this relation gives between activities of these durations; `None` where its gap
    /// leaves −256 to 256. With a greatest interval the lag leads from `to` to `from`.
    pub fn lag(self, from_duration: u8, to_duration: u8) -> Option<Lag>
        ensures { result ≡ within (gap_fits (gap_of self from_duration to_duration)) (lag_of self from_duration to_duration) }
    {
        let gap = self.gap(from_duration, to_duration);
        if !(-256..=256).contains(&gap) {
            return None;
        }
        let (from, to) = match self.sense {
            Sense::Least => (self.from, self.to),
            Sense::Greatest => (self.to, self.from),
        };
        Some(Lag {
            from,
            to,
            gap: gap as i16,
        })
    }
}
