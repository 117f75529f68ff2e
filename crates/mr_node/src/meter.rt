//! The count of steps.
ghost use Rattle.std.specs.Prelude.{◌≡◌};
ghost use Rattle.mr_node.specs.Steps.{after_steps};

use std::marker::Model;

/// A counter of steps, where a step is one node taken apart, or one node built. It stops at 18446744073709551615.
#[derive(Drop)]
pub struct Meter {
    steps: u64,
}

impl Model for Meter {
    ghost use Rattle.std.specs.Prelude.{ℕ};

    ghost Value = { ℕ };

    ghost view = { λ m. m.steps };
}

impl Meter {
    /// Makes a meter with no step.
    pub fn new() -> Self
        ensures { result ≡ 0 }
    {
        Meter { steps: 0 }
    }

    /// Returns the number of steps.
    pub fn steps(&self) -> u64
        ensures { result ≡ self.now }
    {
        self.steps
    }

    /// Counts this many steps, one for each node that is taken apart and one for each that is built, also in place.
    pub(crate) fn tick(&mut self, steps: u64)
        ensures { self.new ≡ after_steps steps self.old }
    {
        self.steps = self.steps.saturating_add(steps);
    }
}
