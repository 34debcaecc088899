//! Reading a source to its end.
ghost use Rattle.std.specs.Prelude.{◌≡◌, ◌≤◌, ◌+◌, length, List, ℕ};
ghost use Rattle.std.specs.declared.option.Option.{Option};
ghost use Rattle.text_ends.specs.Ends.{Rose};
ghost use Rattle.text_ends.specs.Transfer.{HasRead};

use crate::Source;
use std::alloc::Global;
use trace_text::TEXT_LIMIT;

// The bytes that one read may give.
const PIECE: usize = 4096;

/// What reading came to.
#[derive(Drop)]
pub enum Input {
    /// All that was left, or the first bytes of it where it is longer than a trace may be.
    Text(Vec<u8>),
    /// A read failed.
    Fault,
    /// There was no memory for the text.
    Memory,
}

/// Reads to the end, or to one byte past the text limit and then no further.
pub fn read_all<S: Source>(alloc: Global, source: &mut S) -> Input
    ensures { HasRead (S.left source.old) (S.left source.new)
        (S.faults source.old) (S.faults source.new) result }
{
    let mut text = Vec::new(alloc);
    let mut piece = [0u8; PIECE];
    while text.len() <= TEXT_LIMIT {
        let room = PIECE.min(TEXT_LIMIT + 1 - text.len());
        match source.read(&mut piece[..room]) {
            Ok(0) => return Input::Text(text),
            Ok(count) => {
                if text.extend_from_slice(&piece[..count]).is_err() {
                    return Input::Memory;
                }
            }
            Err(_) => return Input::Fault,
        }
    }
    Input::Text(text)
}
