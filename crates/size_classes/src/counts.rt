//! The series 1, 2, 3, 4, 5, 6, 7, 8, 10, 12, 14, 16, 20 and so on, four in each doubling: page
//! classes in pages, and sizes of classes in units of 16 bytes.

ghost use Rattle.std.specs.Prelude.{◌≡◌, ◌<◌};
ghost use Rattle.size_classes.specs.PageCounts.{IsFirstAtLeast, IsLastAtMost};

/// The place of the last of them that is at most `n`: the greatest page class of at most `n` pages.
pub fn last_at_most(n: u32) -> u32
    requires { 0 < n }
    ensures last { IsLastAtMost n result }
    ensures few { result < 124 }
{
    if n < 4 {
        return n - 1;
    }
    let doubling = n.ilog2();
    4 * doubling + (n >> (doubling - 2)) - 9
}

// The place of the first that is at least `n`.
pub(crate) fn first_at_least(n: u32) -> u32
    ensures first { IsFirstAtLeast n result }
    ensures few { result < 125 }
{
    if n <= 1 {
        return 0;
    }
    last_at_most(n - 1) + 1
}
