//! Writing a text to a sink.
ghost use Rattle.std.specs.Prelude.{◌≡◌};
ghost use Rattle.text_ends.specs.Transfer.{HasWritten};

use crate::Sink;

/// What writing came to.
#[derive(Clone, Copy)]
pub enum Output {
    /// The sink took all of the text.
    Whole,
    /// The sink failed, or took nothing of a piece that isn't empty.
    Fault,
}

/// Writes all of the text, each time the whole rest of it.
pub fn write_all<K: Sink>(sink: &mut K, text: &[u8]) -> Output
    ensures { HasWritten (K.got sink.old) (K.got sink.new) (K.faults sink.old) (K.faults sink.new)
        (K.empty_takes sink.old) (K.empty_takes sink.new) text.now result }
{
    let mut at = 0;
    while at < text.len() {
        match sink.write(&text[at..]) {
            Ok(0) => return Output::Fault,
            Ok(count) => at += count,
            Err(_) => return Output::Fault,
        }
    }
    Output::Whole
}
