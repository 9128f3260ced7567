// Timers that TTIs count down.
ghost use Rattle.std.specs.Prelude.{◌≡◌};

use std::marker::Model;

/// A timer of a length in TTIs. Set to n, it reaches its end as the n-th TTI after that begins; one
/// of length 0 never does by counting. It runs until `cease`, also past its end.
#[derive(Clone, Copy, Debug, PartialEq, Eq)]
pub struct Timer {
    length: u32,
    left: Option<u32>,
}

impl Model for Timer {
    ghost use Rattle.l2_num.specs.Timers.{Clock, clock};

    ghost Value = { Clock };

    ghost view = { λ t. clock t.length t.left };

    ghost inverse = { λ c. record { length = c.length; left = c.left } };
}

impl Timer {
    ghost use Rattle.l2_num.specs.Timers.{stopped, begun, ceased, runs, ticked, ends};

    /// A timer of this length, which doesn't run.
    pub fn new(length: u32) -> Timer
        ensures { result ≡ stopped length }
    {
        Timer { length, left: None }
    }

    /// Sets the timer to its whole length, whether or not it runs.
    pub fn begin(&mut self)
        ensures { self.new ≡ begun self.old }
    {
        self.left = Some(self.length);
    }

    /// Stops the timer.
    pub fn cease(&mut self)
        ensures { self.new ≡ ceased self.old }
    {
        self.left = None;
    }

    /// Whether the timer runs.
    pub fn runs(&self) -> bool
        ensures { result ≡ runs self.now }
    {
        self.left.is_some()
    }

    /// A TTI begins. True exactly where the timer runs and reaches its end.
    pub fn tick(&mut self) -> bool
        ensures clock { self.new ≡ ticked self.old }
        ensures ends { result ≡ ends self.old }
    {
        match self.left {
            Some(left) => {
                self.left = Some(left.saturating_sub(1));
                left == 1
            }
            None => false,
        }
    }
}
