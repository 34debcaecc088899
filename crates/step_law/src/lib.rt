#![tactic(auto)]
//! Values that stand for a numbered history, and the word of a count.

ghost use Rattle.std.specs.Prelude.{◌≡◌, ℕ, ◌+◌, ◌*◌, ◌/◌, ◌%◌, ◌^◌, ◌<◌, List};
ghost use Rattle.step_law.specs.Settings.{Setting};

/// A value that stands for the notes made on it so far, oldest first.
///
/// A setting is seen by contracts alone: the grounds of the pool's chunk places, by arena and
/// chunk.
pub trait Told {
    type Note;

    // At an object with these measures the value stands for these notes, under this setting.
    ghost stands: { List ℕ → Setting → List Self.Note → Self → Type 0 };

    // The note may come after these, at an object with the measures of this value.
    ghost may_follow: { Self → List Self.Note → Self.Note → Type 0 };

    // How many counts of the root at this place and generation the note gains for its lane.
    ghost gains: { ℕ → ℕ → Self.Note → ℕ };

    // How many it loses.
    ghost losses: { ℕ → ℕ → Self.Note → ℕ };

    // A value that stands for a list decides which notes may follow.
    ghost decides: { (measures : List ℕ) (setting : Setting) (x : Self) (xs ys : List Self.Note) →
        stands measures setting xs x → stands measures setting ys x →
        (n : Self.Note) → may_follow x xs n → may_follow x ys n };

    // What is settled once, as a pool opens with these values, one for each object in order.
    ghost settles: { List Self → Setting };
}

/// The word of a count: the generation in the high half, the raw count in the low.
pub fn pack(generation: u32, raw: u32) -> u64
    ensures word { result ≡ generation * 2 ^ 32 + raw }
    ensures undone { (result / 2 ^ 32 ≡ generation) × (result % 2 ^ 32 ≡ raw) }
{
    generation as u64 * (1 << 32) + raw as u64
}

pub fn unpack(word: u64) -> (u32, u32)
    ensures { (result.0 ≡ word / 2 ^ 32) × (result.1 ≡ word % 2 ^ 32) }
{
    ((word / (1 << 32)) as u32, (word % (1 << 32)) as u32)
}
