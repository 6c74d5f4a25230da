// Lent words that are left clean.
ghost use Rattle.std.specs.Prelude.{◌≡◌, length, replicate};

/// Holds lent words, and clears them when it ends, whichever way that is.
pub struct Cleared<'a>(pub &'a mut [u32]);

impl Drop for Cleared<'_> {
    fn drop(self)
        ensures { self.exit.0.now ≡ replicate (length self.entry.0.now) 0 }
    {
        self.0.fill(0);
        let Cleared(_) = self;
    }
}
