//! The generator of numbers.
ghost use Rattle.std.specs.Prelude.{◌≡◌, ◌<◌, ◌≤◌, ◌%◌};
ghost use Rattle.dv_gen.specs.Draws.{next_state};

/// A generator of numbers, whose every draw is determined by its seed.
#[derive(Drop)]
pub struct Draws {
    state: u32,
    ghost in_range: { state < 65537 },
}

impl Draws {
    /// The generator that begins with this seed.
    pub fn new(seed: u32) -> Draws
        requires { seed ≤ 65535 }
        ensures { result.state ≡ seed }
    {
        Draws { state: seed }
    }

    /// The next number below `m`.
    pub fn draw(&mut self, m: u32) -> u32
        requires { 1 ≤ m }
        ensures state { self.new.state ≡ next_state self.old.state }
        ensures value { result ≡ next_state self.old.state % m }
    {
        self.state = (75 * self.state + 74) % 65_537;
        self.state % m
    }
}
