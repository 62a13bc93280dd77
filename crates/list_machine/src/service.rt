//! One seat at a machine that others may use too.
ghost use Rattle.std.specs.Prelude.{◌≡◌, ◌+◌, ◌*◌, ◌≤◌, ℕ, List, length, MatchResult, IfOk, IsFalse};
ghost use Rattle.list_machine.specs.declared.event.Entry.{Entry};
ghost use Rattle.list_machine.specs.declared.event.Limits.{Limits};
ghost use Rattle.list_machine.specs.Run.{state_of};
ghost use Rattle.list_machine.specs.Serving.{Asked, GrowsBeside, IsAskable, IsKept, MayHaveAsked, applied, asked};

use crate::{Event, Reply};
use es_types::{Moment, NoMemory};

/// One caller's seat at a machine whose history others may lengthen too. Each call says which entries it adds,
/// and an answer is what the plain machine replies at the asked entry. A history is never longer than it may be,
/// and each put in it is a JSON object.
pub trait Service {
    /// The history as far as the seat knows it.
    ghost front: { Self → List Entry };

    /// The seat's number. It asks by the number `2 * seat`, and does what nobody asked for by the next one.
    ghost seat: { Self → ℕ };

    ghost limits: { Self → Limits };

    /// What a call of `help` says of its moment and of the history before and after it. Code that works for any
    /// service has it of the call alone.
    ghost helped: { ℕ → List Entry → List Entry → Type 0 };

    /// The same of a call of `tidy`.
    ghost tidied: { ℕ → List Entry → List Entry → Type 0 };

    /// Asks for an event. `Spent` says that the history is full and nothing was asked. After `NoMemory` the event
    /// was asked or not.
    fn ask(&mut self, event: Event, moment: Moment) -> Result<Reply, NoMemory>
        requires { IsAskable (limits self.old) (front self.old) event }
        ensures asked { MatchResult result
            (λ reply. Asked (limits self.old) (seat self.old) 4 (front self.old) (front self.new) (asked (seat self.old) moment event) reply)
            (λ _. MayHaveAsked (seat self.old) 4 (front self.old) (front self.new) (asked (seat self.old) moment event)) }
        ensures seat { seat self.new ≡ seat self.old }
        ensures limits { limits self.new ≡ limits self.old }
        ensures kept { IsKept (limits self.new) (front self.new) };

    /// Finishes one waiting shard of a task, and says whether there was one. There are no tasks yet.
    fn help(&mut self, moment: Moment) -> Result<bool, NoMemory>
        ensures none { IfOk result IsFalse }
        ensures called { helped moment (front self.old) (front self.new) }
        ensures beside { GrowsBeside (seat self.old) 4 moment (front self.old) (front self.new) }
        ensures seat { seat self.new ≡ seat self.old }
        ensures limits { limits self.new ≡ limits self.old }
        ensures kept { IsKept (limits self.new) (front self.new) };

    /// Puts the state in order, as far as no search can see it.
    fn tidy(&mut self, moment: Moment) -> Result<(), NoMemory>
        ensures called { tidied moment (front self.old) (front self.new) }
        ensures beside { GrowsBeside (seat self.old) (4 + 2 * applied (state_of (limits self.old) (front self.old))) moment
            (front self.old) (front self.new) }
        ensures seat { seat self.new ≡ seat self.old }
        ensures limits { limits self.new ≡ limits self.old }
        ensures kept { IsKept (limits self.new) (front self.new) };
}
