//! What workers step.
ghost use Rattle.std.specs.Prelude.{◌≡◌, Ok};

use std::alloc::AllocError;
use std::sync::Wait;

/// What a step did.
#[derive(Clone, Copy, PartialEq, Eq, Debug)]
pub enum Stepped {
    /// It did something.
    Went,
    /// Another thread was at what it needs next, and soon is no more. It is tried again, though no
    /// machine may have moved.
    Pending,
    /// It needs what only another machine can do. It is tried again once one has moved.
    Waiting,
    /// All was done before. It is not stepped again, or for no use.
    Finished,
}

/// What workers step over what all of them share, now one of them and now another. A step is short,
/// so that the others get their turns.
pub trait Machine<E> {
    /// What holds of a machine that has come of `first` by steps over `shared`: `comes shared first
    /// machine`.
    ghost comes: { E → Self → Self → Type 0 };

    /// Nothing is left to do.
    ghost finished: { Self → Type 0 };

    /// Does the next thing that is to be done.
    fn step<R: Wait>(&mut self, rt: &R, shared: &E) -> Result<Stepped, AllocError>
        requires comes { (first : Self) × comes shared.now first self.old }
        ensures comes { (first : Self) →
            comes shared.now first self.old → comes shared.now first self.new }
        ensures finished { result ≡ Ok Stepped.Finished → finished self.new };
}
