// What time it is.
ghost use Rattle.std.specs.Prelude.{◌≡◌, ℕ, Option, Some, IfSome};
ghost use Rattle.outside.specs.Clock.{later};

/// Milliseconds since a moment that doesn't change while the program runs.
pub trait Clock {
    /// What it tells next, where that is known.
    ghost told: { Self → Option ℕ };

    fn now_ms(&mut self) -> u64
        ensures { IfSome (told self.old) (λ moment. result ≡ moment) };
}

/// A clock that stands still until it is moved.
#[derive(Debug, Drop)]
pub struct StepClock {
    moment: u64,
}

impl StepClock {
    /// A clock that tells this moment.
    pub fn at(moment: u64) -> StepClock
        ensures { result.moment ≡ moment }
    {
        StepClock { moment }
    }

    /// Moves it on by so many milliseconds, up to the end of its type.
    pub fn advance(&mut self, milliseconds: u64)
        ensures { self.new.moment ≡ later self.old.moment milliseconds }
    {
        self.moment = self.moment.saturating_add(milliseconds);
    }
}

impl Clock for StepClock {
    ghost use Rattle.std.specs.Prelude.{Some};

    ghost told = { λ clock. Some clock.moment };

    fn now_ms(&mut self) -> u64 {
        self.moment
    }
}
