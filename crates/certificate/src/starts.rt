// The starts of a proposed plan: each in an open slot below the horizon, and no lag broken.
ghost use Rattle.std.specs.Prelude.{◌≡◌, ◌<◌, length};
ghost use Rattle.certificate.specs.Faults.{unless, start_fault, starts_fault, lag_fault, lags_fault};

use model::lag::Lag;
use model::price::Price;
use model::project::Project;
use model::refusal::{Fault, Refusal};
use model::time::Slot;

/// A lag that the project has.
// Numbers of lags come from ranges: a struct around one would be made in each closure to be taken apart below.
pub fn lag_at<P: Project>(project: &P, number: u16) -> Lag
    requires { number < (P.meaning project.now).lags }
    ensures { result ≡ (P.meaning project.now).lag number }
{
    project.lag(number).unwrap()
}

/// A start byte for each activity of a project.
#[derive(Drop)]
pub struct StartList<'a, P: Project> {
    pub project: &'a P,
    pub starts: &'a [u8],
    ghost exact: { length starts.now ≡ (P.meaning project.now).n },
}

impl<P: Project> StartList<'_, P> {
    fn check_start(&self, activity: u16) -> Result<(), Refusal>
        requires { activity < (P.meaning self.now.project.now).n }
        ensures { result ≡ unless (start_fault (P.meaning self.now.project.now) self.now.starts.now activity) }
    {
        let slot = Slot(self.starts[activity as usize] as u16);
        match self.project.price(activity, slot) {
            Some(Price::Open(_)) => Ok(()),
            _ => Err(Fault::StartClosed.at(activity)),
        }
    }

    /// Every activity starts below the horizon in a slot that is open for it, or the least that does not.
    // A loop with `?`, as for lags and nodes: one text for all would take what is checked as a closure, with its contract.
    pub fn check_starts(&self) -> Result<(), Refusal>
        ensures { result ≡ unless (starts_fault (P.meaning self.now.project.now) self.now.starts.now) }
    {
        for a in 0..self.project.count() {
            self.check_start(a)?;
        }
        Ok(())
    }

    fn check_lag(&self, number: u16) -> Result<(), Refusal>
        requires { number < (P.meaning self.now.project.now).lags }
        ensures { result ≡ unless (lag_fault (P.meaning self.now.project.now) self.now.starts.now number) }
    {
        let lag = lag_at(self.project, number);
        let from = self.starts[lag.from as usize] as i32;
        let to = self.starts[lag.to as usize] as i32;
        if from + lag.gap as i32 <= to {
            Ok(())
        } else {
            Err(Fault::LagBroken.at(number))
        }
    }

    /// No lag is broken, or the least that is.
    pub fn check_lags(&self) -> Result<(), Refusal>
        ensures { result ≡ unless (lags_fault (P.meaning self.now.project.now) self.now.starts.now) }
    {
        for k in 0..self.project.lag_count() {
            self.check_lag(k)?;
        }
        Ok(())
    }
}
