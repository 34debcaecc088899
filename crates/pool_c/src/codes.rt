//! Why a call was refused, and the number by which C is told.

ghost use Rattle.std.specs.Prelude.{◌≡◌, MatchResult};
ghost use Rattle.pool_c.specs.Codes.{answer_code, code_of, ok};

/// The answer of a call that did its work.
pub(crate) const OK: i32 = 0;

/// Why a call did not do its work.
#[derive(Clone, Copy, PartialEq, Eq, Debug, Drop)]
pub enum Refusal {
    /// Another thread was just then at what the call needs. Made again, it may do its work.
    Busy,
    /// The buffer is not one of this thread and pool, or was released.
    NotHere,
    /// The range passes an end of the buffer.
    Range,
    /// The thread has used up its turns or its moves.
    Spent,
    /// More bytes than a chunk has.
    TooLarge,
    /// The thread has as many live buffers as it may.
    NoHandle,
    /// The thread's arena has no region of that size left.
    Full,
    /// The place of the thread's next buffer is used up. Another call gets the next.
    Worn,
    /// The pool has no thread of that number.
    NoThread,
    /// An earlier parcel of the same way was not accepted yet.
    OutOfOrder,
    /// A measure is outside its limits.
    Shape,
    /// A thread has something to put away. It settles first.
    Unsettled,
    /// There was no memory.
    NoMemory,
    /// Nothing was opened behind the handle, or it was left.
    Empty,
    /// The handle is in another call.
    InCall,
    /// A handle that is to be opened is not empty.
    Occupied,
    /// There are not as many handles as the pool has threads, or they are not in order.
    Threads,
    /// Another handle has a share in the pool.
    Shared,
}

impl Refusal {
    /// Its number in C, as the header names it.
    pub(crate) fn code(self) -> i32
        ensures { result ≡ code_of self }
    {
        match self {
            Refusal::Busy => 1,
            Refusal::NotHere => 2,
            Refusal::Range => 3,
            Refusal::Spent => 4,
            Refusal::TooLarge => 5,
            Refusal::NoHandle => 6,
            Refusal::Full => 7,
            Refusal::Worn => 8,
            Refusal::NoThread => 9,
            Refusal::OutOfOrder => 10,
            Refusal::Shape => 11,
            Refusal::Unsettled => 12,
            Refusal::NoMemory => 13,
            Refusal::Empty => 14,
            Refusal::InCall => 15,
            Refusal::Occupied => 16,
            Refusal::Threads => 17,
            Refusal::Shared => 18,
        }
    }
}

/// The number of an answer.
pub(crate) fn code(answer: Result<(), Refusal>) -> i32
    ensures { result ≡ answer_code answer }
{
    match answer {
        Ok(()) => OK,
        Err(why) => why.code(),
    }
}

/// The number of an answer that has a value, which is written out.
pub(crate) fn give<T: Copy>(answer: Result<T, Refusal>, out: &mut T) -> i32
    ensures code { result ≡ answer_code answer }
    ensures out { MatchResult answer (λ value. out.new ≡ value) (λ _. out.new ≡ out.old) }
{
    match answer {
        Ok(value) => {
            *out = value;
            OK
        }
        Err(why) => why.code(),
    }
}
