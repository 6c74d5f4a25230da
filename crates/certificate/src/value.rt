// The value of the flow of a proposed plan.
ghost use Rattle.std.specs.Prelude.{◌≡◌, ◌+◌, ◌*◌, ◌^◌, ◌<◌, ◌≤◌};
ghost use Rattle.flow.specs.Sums.{sum_to};
ghost use Rattle.flow.specs.Nets.{word, inflow, outflow};
ghost use Rattle.plan_theory.specs.TimeNetwork.{time_net};
ghost use Rattle.certificate.specs.Faults.{unless, word_limit, worth_fault};
ghost use Rattle.certificate.specs.Sums.{rows_of, most_terms, first_words, word_to_source, lag_to_source};

use crate::nodes::Rows;
use crate::starts::lag_at;
use model::project::Project;
use model::refusal::{Fault, Refusal};

impl<P: Project> Rows<'_, P> {
    // The words of slot 0 in so many rows.
    fn first_words(&self, row: u16, rows: u16) -> u64
        requires { row + rows ≤ rows_of (P.meaning self.now.project.now) }
        ensures value { result ≡ first_words self.now.flow.now (P.meaning self.now.project.now).horizon row rows }
        ensures low { result ≤ most_terms * word_limit }
    {
        (0..rows).map(|i| self.row_word(row + i, 0)).sum()
    }

    // What a lag at a slot brings to the source: its word, if it leads to slot 0 or before.
    fn word_to_source(&self, number: u16, slot: u16) -> u64
        requires known { number < (P.meaning self.now.project.now).lags }
        requires within { slot < (P.meaning self.now.project.now).horizon }
        ensures value { result ≡ word_to_source (P.meaning self.now.project.now) self.now.flow.now number slot }
        ensures low { result ≤ word_limit }
    {
        if slot as i32 + lag_at(self.project, number).gap as i32 > 0 {
            0
        } else {
            self.lag_word(number, slot)
        }
    }

    // What a lag brings to the source.
    fn lag_to_source(&self, number: u16) -> u64
        requires { number < (P.meaning self.now.project.now).lags }
        ensures value { result ≡ lag_to_source (P.meaning self.now.project.now) self.now.flow.now number }
        ensures low { result ≤ most_terms * word_limit }
    {
        (0..self.project.horizon())
            .map(|t| self.word_to_source(number, t))
            .sum()
    }

    // What the lags bring to the source.
    fn lags_to_source(&self) -> u64
        ensures value { let m = P.meaning self.now.project.now in
            result ≡ sum_to (lag_to_source m self.now.flow.now) m.lags }
        ensures low { result ≤ most_terms * (most_terms * word_limit) }
    {
        (0..self.project.lag_count())
            .map(|k| self.lag_to_source(k))
            .sum()
    }

    // What leaves the source, the first point of every activity.
    fn source_sends(&self) -> u64
        ensures { result ≡ outflow (time_net (P.meaning self.now.project.now)) (word self.now.flow.now) 0 }
    {
        let activities = self.project.count();
        let on = self.first_words(0, activities);
        on + self.first_words(2 * activities, self.project.lag_count())
    }

    // What enters the source.
    fn source_gets(&self) -> u64
        ensures value { result ≡ inflow (time_net (P.meaning self.now.project.now)) (word self.now.flow.now) 0 }
        ensures low { result ≤ 20000000000000000 }
    {
        let activities = self.project.count();
        self.first_words(activities, activities) + self.lags_to_source()
    }

    /// The source sends more than it gets by what the starts cost above the floors, or it is a fault.
    pub fn check_value(&self, above: u64) -> Result<(), Refusal>
        requires { above ≤ most_terms * 2 ^ 32 }
        ensures { result ≡ unless (worth_fault (P.meaning self.now.project.now) self.now.flow.now above) }
    {
        if self.source_sends() == self.source_gets() + above {
            Ok(())
        } else {
            Err(Fault::ValueDiffers.at(0))
        }
    }
}
