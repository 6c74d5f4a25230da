// A calendar: slots in which nothing may start.
ghost use Rattle.std.specs.Prelude.{◌≡◌};
ghost use Rattle.layers.specs.Layers.{shut_by};
ghost use Rattle.layers.specs.Kept.{shut_keeps};
ghost use Rattle.layers.specs.Terms.{settled, has_mark, all_open, marked};

use crate::layered::{Asked, Rule};
use model::price::Price;
use model::refusal::{Fault, Refusal};
use model::time::Slot;

const SLOTS: usize = 128;

/// A mark for each of 128 slots: no activity may start in a shut one. Marks at or past the horizon
/// have no effect.
#[derive(Clone, Copy)]
pub struct Calendar {
    shut: [bool; SLOTS],
}

impl Calendar {
    /// A calendar with every slot open.
    pub fn fresh() -> Calendar
        ensures { result.shut ≡ all_open }
    {
        Calendar {
            shut: [false; SLOTS],
        }
    }

    /// Shuts a slot, or opens it again. A slot from 128 on is refused as a term out of range, with
    /// that slot as the place, and then no mark changes.
    pub fn set(&mut self, slot: Slot, shut: bool) -> Result<(), Refusal>
        ensures answer { result ≡ settled (has_mark slot.0) slot.0 }
        ensures after { self.new.shut ≡ marked self.old.shut slot.0 shut }
    {
        // No `get_mut`: past its borrow a proof knows no element of the table.
        let place = usize::from(slot.0);
        if place >= SLOTS {
            return Err(Fault::Term.at(slot.0));
        }
        self.shut[place] = shut;
        Ok(())
    }
}

impl Rule for Calendar {
    ghost repricing = { λ x. shut_by x.shut };

    ghost keeps = { λ x. shut_keeps x.shut };

    fn reprice(&self, asked: Asked) -> Price {
        // A slot past the table has no mark.
        let mark = self.shut.get(usize::from(asked.slot.0));
        if mark.copied().unwrap_or(false) {
            Price::Closed(asked.height)
        } else {
            Price::Open(asked.price)
        }
    }
}
