//! What time it is.
ghost use Rattle.std.specs.Prelude.{◌≡◌, ℕ, max, Option, Some};
ghost use Rattle.es_outside.specs.Told.{Answers};
ghost use Rattle.es_outside.specs.Memory.{Asks, Dial};

use es_types::Moment;
use std::marker::Model;

/// What time it is.
pub trait Clock {
    /// The greatest answer so far.
    ghost greatest: { Self → ℕ };

    /// The last answer, 0 at first, where that is told. What is told at one call is told at all later ones.
    ghost last: { Self → Option ℕ };

    /// What a question says of the clock before it, what it was told, its answer, and the clock after it. Code that
    /// works for any clock has it of the question alone.
    ghost asked: { Self → Option ℕ → ℕ → Self → Type 0 };

    /// The same of a pause: the clock before it and after it.
    ghost paused: { Self → Self → Type 0 };

    /// The moment. A clock may take the one that it is told.
    fn now(&mut self, told: Option<Moment>) -> Moment
        ensures greatest { greatest self.new ≡ max (greatest self.old) result }
        ensures last { Answers (last self.old) (last self.new) told result }
        ensures asked { asked self.old told result self.new };

    /// Rests between two looks.
    fn pause(&mut self)
        ensures greatest { greatest self.new ≡ greatest self.old }
        ensures last { last self.new ≡ last self.old }
        ensures paused { paused self.old self.new };
}

/// A clock that is told the moments, and else answers the last one again.
#[derive(Drop)]
pub struct ReplayClock {
    last: Moment,
    greatest: Moment,
}

impl Model for ReplayClock {
    ghost use Rattle.es_outside.specs.Memory.{Dial};

    ghost Value = { Dial };

    ghost view = { λ c. record { last = c.last; greatest = c.greatest } };
}

impl ReplayClock {
    pub fn make() -> ReplayClock
        ensures { result ≡ record { last = 0; greatest = 0 } }
    {
        ReplayClock {
            last: Moment::zero(),
            greatest: Moment::zero(),
        }
    }
}

impl Clock for ReplayClock {
    ghost greatest = { λ c. c.greatest };

    ghost last = { λ c. Some c.last };

    ghost asked = { Asks };

    ghost paused = { λ old new. new ≡ old };

    fn now(&mut self, told: Option<Moment>) -> Moment {
        if let Some(moment) = told {
            self.last = moment;
        }
        self.greatest = self.greatest.later(self.last);
        self.last
    }

    fn pause(&mut self) {}
}
