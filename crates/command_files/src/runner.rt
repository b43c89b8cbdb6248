//! How tests are run.
ghost use Rattle.std.specs.Prelude.{◌≡◌};

/// How tests are run: by so many threads, which call the gate before each test.
#[derive(Clone, Copy)]
pub struct Runner<'a, R, G> {
    /// The runtime that starts the threads.
    pub rt: &'a R,
    /// How many there are, from 1 to 64.
    pub workers: usize,
    /// What they call.
    pub gate: &'a G,
}

impl<'a, R, G> Runner<'a, R, G> {
    /// The same for other tests. (A derived copy would ask for a runtime that can be copied.)
    pub fn again(&self) -> Runner<'a, R, G>
        ensures { result.workers ≡ self.now.workers }
    {
        Runner {
            rt: self.rt,
            workers: self.workers,
            gate: self.gate,
        }
    }
}
