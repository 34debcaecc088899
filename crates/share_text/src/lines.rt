//! The lines of what readers saw, and of what was released.
ghost use Rattle.std.specs.Prelude.{◌≡◌, ◌++◌, IfOk, OnOk};
ghost use Rattle.share_text.specs.Lines.{all_lines, composite_line, composite_lines, end_lines, last_line, read_line, reader_lines, text_with};

use pool_law::{Bytes, Items};
use run_report::Writer;
use std::alloc::{AllocError, Global};

/// What a read of a composite gave.
#[derive(Drop)]
pub struct Seen {
    /// The number of the composite.
    pub composite: u32,
    /// Its bytes.
    pub bytes: Bytes,
}

/// What the reads of a reader gave, in order.
pub type SeenList = Items<Seen>;

/// The text of what each reader saw, where so many parts of each composite were released: a line for
/// each read, reader by reader, one for each composite, and the last, which says that nothing is
/// live.
pub fn text_with(alloc: Global, seen: &[SeenList], released: &[u32]) -> Result<Bytes, AllocError>
    ensures { IfOk result (λ text. text ≡ text_with seen.now released.now) }
{
    let mut writer = Writer::new(alloc);
    write_all_lines(&mut writer, seen)?;
    write_end_lines(&mut writer, released)?;
    Ok(writer.into_bytes())
}

// The lines of all readers.
fn write_all_lines(writer: &mut Writer, seen: &[SeenList]) -> Result<(), AllocError>
    ensures { OnOk result (writer.new ≡ writer.old ++ all_lines 0 seen.now) }
{
    for reader in 0..seen.len() {
        write_reader_lines(writer, reader as u64, seen[reader].items())?;
    }
    Ok(())
}

// The lines of a reader.
fn write_reader_lines(writer: &mut Writer, reader: u64, seen: &[Seen]) -> Result<(), AllocError>
    ensures { OnOk result (writer.new ≡ writer.old ++ reader_lines reader 0 seen.now) }
{
    for number in 0..seen.len() {
        write_read_line(writer, reader, number as u64, &seen[number])?;
    }
    Ok(())
}

/// Appends the line of a read: the reader's number, the read's number among the reader's, from 0,
/// the composite, and the bytes in hexadecimal, a dash for none.
pub fn write_read_line(
    writer: &mut Writer,
    reader: u64,
    number: u64,
    seen: &Seen,
) -> Result<(), AllocError>
    ensures { OnOk result (writer.new ≡ writer.old ++ read_line reader number seen.now) }
{
    writer.first_dotted(reader, number)?;
    writer.number(u64::from(seen.composite))?;
    writer.shown(seen.bytes.items())?;
    writer.end()
}

/// Appends the lines behind the reads: how many parts of each composite were released, and that
/// nothing is live.
pub fn write_end_lines(writer: &mut Writer, released: &[u32]) -> Result<(), AllocError>
    ensures { OnOk result (writer.new ≡ writer.old ++ end_lines released.now) }
{
    write_composite_lines(writer, released)?;
    write_last_line(writer)
}

// The lines of all composites.
fn write_composite_lines(writer: &mut Writer, released: &[u32]) -> Result<(), AllocError>
    ensures { OnOk result (writer.new ≡ writer.old ++ composite_lines 0 released.now) }
{
    for number in 0..released.len() {
        write_composite_line(writer, number as u64, released[number])?;
    }
    Ok(())
}

// The line of a composite.
fn write_composite_line(writer: &mut Writer, number: u64, parts: u32) -> Result<(), AllocError>
    ensures { OnOk result (writer.new ≡ writer.old ++ composite_line number parts) }
{
    writer.first("composite")?;
    writer.number(number)?;
    writer.named("released", u64::from(parts))?;
    writer.end()
}

// The last line.
fn write_last_line(writer: &mut Writer) -> Result<(), AllocError>
    ensures { OnOk result (writer.new ≡ writer.old ++ last_line) }
{
    writer.first("end")?;
    writer.named("live", 0)?;
    writer.end()
}
