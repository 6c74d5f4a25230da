// What it costs to end an activity late.
ghost use Rattle.std.specs.Prelude.{◌≡◌};
ghost use Rattle.layers.specs.Layers.{late_by, dearer};
ghost use Rattle.layers.specs.Kept.{late_keeps};
ghost use Rattle.layers.specs.Terms.{settled, term_fits, never_late, charged};

use crate::layered::{Asked, Rule};
use model::price::Price;
use model::refusal::{Fault, Refusal};
use model::time::Slot;

const ACTIVITIES: usize = 64;

const LATEST_DUE: u32 = 256;

const HIGHEST_RATE: u32 = 1_000_000;

const HIGHEST_PRICE: i64 = 1_000_000_000;

/// When an activity is due, and what each slot past that costs.
#[derive(Clone, Copy)]
pub struct Term {
    /// 0 to 256.
    pub due: u16,
    /// 0 to 1,000,000.
    pub rate: u32,
}

const NO_TERM: Term = Term { due: 0, rate: 0 };

/// A term for each of 64 activities. A start costs the rate more for each slot by which start and
/// duration together pass the due slot; the price stays within ±1,000,000,000. Terms of activities
/// that the project does not have are of no effect.
#[derive(Clone, Copy)]
pub struct Lateness {
    terms: [Term; ACTIVITIES],
}

impl Lateness {
    /// No lateness costs anything: every rate is 0, and every due slot too.
    pub fn fresh() -> Lateness
        ensures { result.terms ≡ never_late }
    {
        Lateness {
            terms: [NO_TERM; ACTIVITIES],
        }
    }

    /// Sets the due slot and the rate of an activity. An activity from 64 on, a due slot above 256
    /// or a rate above 1,000,000 is refused as a term out of range, with the activity as the place,
    /// and then no term changes.
    pub fn set(&mut self, activity: u16, due: u32, rate: u32) -> Result<(), Refusal>
        ensures answer { result ≡ settled (term_fits activity due rate) activity }
        ensures after { self.new.terms ≡ charged self.old.terms activity due rate }
    {
        // No `get_mut`: past its borrow a proof knows no element of the table.
        let place = usize::from(activity);
        if place >= ACTIVITIES || due > LATEST_DUE || rate > HIGHEST_RATE {
            return Err(Fault::Term.at(activity));
        }
        self.terms[place] = Term {
            due: due as u16,
            rate,
        };
        Ok(())
    }
}

// The charge is below 2⁶⁴, and a sum that it takes past 2⁶³ is cut all the same.
fn dearer(price: i32, rate: u32, late: u32) -> i32
    ensures { result ≡ dearer rate late price }
{
    let charge = u64::from(rate) * u64::from(late);
    i64::from(price)
        .saturating_add_unsigned(charge)
        .clamp(-HIGHEST_PRICE, HIGHEST_PRICE) as i32
}

impl Rule for Lateness {
    ghost repricing = { λ x. late_by x.terms };

    ghost keeps = { λ x. late_keeps x.terms };

    fn reprice(&self, asked: Asked) -> Price {
        // An activity past the table has no term.
        let term = self
            .terms
            .get(usize::from(asked.activity))
            .copied()
            .unwrap_or(NO_TERM);
        let end = u32::from(asked.slot.0) + u32::from(asked.duration);
        let late = end.saturating_sub(u32::from(term.due));
        Price::Open(dearer(asked.price, term.rate, late))
    }
}
