//! Puts what is made on the sink, its files in hexadecimal.
ghost use Rattle.std.specs.Prelude.{◌≡◌, ◌+◌, ◌*◌, ◌<◌, length, string_bytes, IfOk};
ghost use Rattle.outside_io.specs.Writing.{Puts, Writes};
ghost use Rattle.run_report.specs.MadeText.{row_of as row_in, row_text, file_line as file_line_of, bytes_text, file_text, made_text};
ghost use Rattle.run_report.specs.Report.{in_order};

use crate::rendering::put_two;
use guest_gen::Made;
use outside_io::{HeldFile, Sink, SinkFault, pieces_join};
use std::alloc::{AllocError, Global};

/// How many bytes a line has.
const ROW: usize = 32;

/// The bytes of a line's number.
fn row_of(bytes: &[u8], number: usize) -> &[u8]
    requires { number * 32 < length bytes.now + 32 }
    ensures { result.now ≡ row_in bytes.now number }
{
    let start = bytes.len().min(ROW * number);
    let end = bytes.len().min(start + ROW);
    &bytes[start..end]
}

/// Puts a line of bytes.
fn put_row<K: Sink>(alloc: Global, sink: &mut K, row: &[u8]) -> Result<(), SinkFault>
    ensures { Puts (K.view sink.old) (K.view sink.new) (row_text row.now) result }
{
    let digits = hex::encode(alloc, row)?;
    put_two(sink, digits.as_bytes(), b"\n")
}

/// Puts the lines of a file's bytes.
fn put_bytes<K: Sink>(alloc: Global, sink: &mut K, bytes: &[u8]) -> Result<(), SinkFault>
    ensures { Puts (K.view sink.old) (K.view sink.new) (bytes_text bytes.now) result }
{
    pieces_join();
    let count = (bytes.len() + 31) / ROW;
    for number in 0..count {
        match put_row(alloc, sink, row_of(bytes, number)) {
            Ok(()) => {}
            Err(fault) => return Err(fault),
        }
    }
    Ok(())
}

/// The line before a file's bytes.
fn file_line(alloc: Global, name: &str, count: usize) -> Result<String, AllocError>
    ensures { IfOk result (λ line. string_bytes line ≡ file_line_of name.now count) }
{
    format!(in alloc; "file {name} {count}\n")
}

/// Puts the line before a file's bytes.
fn put_file_line<K: Sink>(alloc: Global, sink: &mut K, file: &HeldFile) -> Result<(), SinkFault>
    ensures { Puts (K.view sink.old) (K.view sink.new) (file_line_of file.now.name (length file.now.bytes)) result }
{
    let line = file_line(alloc, file.name.as_str(), file.bytes.len())?;
    sink.put(line.as_bytes())
}

/// Puts a file: its line, and its bytes.
fn put_file<K: Sink>(alloc: Global, sink: &mut K, file: &HeldFile) -> Result<(), SinkFault>
    ensures { Puts (K.view sink.old) (K.view sink.new) (file_text file.now) result }
{
    pieces_join();
    match put_file_line(alloc, sink, file) {
        Ok(()) => put_bytes(alloc, sink, file.bytes.as_slice()),
        Err(fault) => Err(fault),
    }
}

/// Puts files, in order.
fn put_files<K: Sink>(alloc: Global, sink: &mut K, files: &[HeldFile]) -> Result<(), SinkFault>
    ensures { Puts (K.view sink.old) (K.view sink.new) (in_order file_text files.now) result }
{
    pieces_join();
    for file in files {
        match put_file(alloc, sink, file) {
            Ok(()) => {}
            Err(fault) => return Err(fault),
        }
    }
    Ok(())
}

/// Puts what is made.
fn put_made<K: Sink>(alloc: Global, sink: &mut K, made: &Made) -> Result<(), SinkFault>
    ensures { Puts (K.view sink.old) (K.view sink.new) (made_text made.now) result }
{
    pieces_join();
    match sink.put(made.description.as_slice()) {
        Ok(()) => put_files(alloc, sink, made.files.as_slice()),
        Err(fault) => Err(fault),
    }
}

/// Puts what is made, and settles it.
pub fn render_made<K: Sink>(alloc: Global, made: &Made, sink: &mut K) -> Result<(), SinkFault>
    ensures { Writes (K.view sink.old) (K.view sink.new) (made_text made.now) result }
{
    match put_made(alloc, sink, made) {
        Ok(()) => sink.finish(),
        Err(fault) => Err(fault),
    }
}
