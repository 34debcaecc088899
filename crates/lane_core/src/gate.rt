//! What may stop a lane before a command.

ghost use Rattle.std.specs.Prelude.{◌≡◌, ◌↔◌, ℕ, Bool, IsTrue};

/// What a gate answers.
#[derive(Clone, Copy, PartialEq, Eq, Debug)]
pub enum Pass {
    /// The lane carries the command out.
    Go,
    /// The lane carries out neither this command nor a later one.
    Stop,
}

/// It is asked once before each command of a lane, by the lane's number and the command's line, and
/// no more once it has stopped the lane.
pub trait Gate: Sync {
    /// Whether it stops this lane at this line.
    ghost stops: { Self → ℕ → ℕ → Bool };

    /// Answers `Stop` exactly where it stops the lane at the line.
    fn pass(&self, lane: u32, line: u32) -> Pass
        ensures { (result ≡ Pass.Stop) ↔ IsTrue (stops self.now lane line) };
}
