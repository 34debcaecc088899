//! What a step comes to of what is done in stages.

use pool_law::Held;

/// What one step came to of what is done in stages `S`, to an answer `A` in the end.
pub enum StageStep<S, A> {
    /// There is more to do, and this stage is next.
    More(S),
    /// Another seat was there; the same is to be tried again.
    Held(Held, S),
    /// It is done, with this answer.
    Done(A),
}
