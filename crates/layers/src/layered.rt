// The layer of any kind, written once: a rule for open slots, laid on a project.
ghost use Rattle.std.specs.Prelude.{◌≡◌};
ghost use Rattle.model.specs.Meaning.{Bounds};
ghost use Rattle.layers.specs.Layers.{Repricing, Keeps, over};
ghost use Rattle.layers.specs.Kept.{over_kept};

use model::lag::Lag;
use model::price::Price;
use model::project::Project;
use model::time::Slot;

/// An open slot that a rule is asked about.
#[derive(Clone, Copy)]
pub struct Asked {
    /// Of the layer.
    pub height: u8,
    pub activity: u16,
    pub slot: Slot,
    /// Of the activity.
    pub duration: u16,
    /// Of the slot, below the layer.
    pub price: i32,
}

/// What a layer does to a slot that is open below. It closes the slot at the layer's height, or
/// gives it a price, and is asked about open slots only.
pub trait Rule {
    /// The rule as a function of the layer's height, activity, slot, duration and price below.
    ghost repricing: { Self → Repricing };

    /// The price of the activity at the slot.
    fn reprice(&self, asked: Asked) -> Price
        ensures { result ≡ repricing self.now
            asked.height asked.activity asked.slot.0 asked.duration asked.price };

    /// It keeps prices and heights within their bounds.
    ghost keeps: { (x : Self) → Keeps (repricing x) };
}

/// A layer: a rule laid on a project. It is a project itself, so layers can be stacked. What the
/// rule does not change passes through, and a slot closed below keeps its height.
#[derive(Drop)]
pub struct Layered<P, R> {
    pub below: P,
    pub rule: R,
}

impl<P: Project, R: Rule> Project for Layered<P, R> {
    ghost meaning = { λ x. over (R.repricing x.rule) (P.meaning x.below) };

    ghost bounded = { λ x. over_kept (R.repricing x.rule) (P.meaning x.below)
        (R.keeps x.rule) (P.bounded x.below) };

    fn count(&self) -> u16 {
        self.below.count()
    }

    fn horizon(&self) -> u16 {
        self.below.horizon()
    }

    fn duration(&self, activity: u16) -> Option<u16> {
        self.below.duration(activity)
    }

    fn price(&self, activity: u16, slot: Slot) -> Option<Price> {
        let duration = self.below.duration(activity)?;
        match self.below.price(activity, slot)? {
            Price::Closed(height) => Some(Price::Closed(height)),
            Price::Open(price) => Some(
                self.rule.reprice(Asked {
                    height: self.height(),
                    activity,
                    slot,
                    duration,
                    price,
                }),
            ),
        }
    }

    fn lag_count(&self) -> u16 {
        self.below.lag_count()
    }

    fn lag(&self, number: u16) -> Option<Lag> {
        self.below.lag(number)
    }

    /// One more than the height below, or 255 on a height of 255.
    fn height(&self) -> u8 {
        self.below.height().saturating_add(1)
    }
}
