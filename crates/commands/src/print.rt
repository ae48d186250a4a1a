// The output of a command that has finished, as text or as JSON.
use inspection::write_line;
use serde_json::{Value, json};
use std::alloc::Global;
use std::io;
use volume_files::FileFailure;
use volume_reading::WriteFault;

/// Prints how much was made: a word for the work, a count, and its unit.
pub fn print_count<'a, W: io::Write>(
    global: Global,
    json: bool,
    done: &str,
    count: u64,
    unit: &str,
    out: &mut W,
) -> Result<(), FileFailure<'a>> {
    if json {
        let value = json!(in global; {unit: count})?;
        return print_value(global, &value, out);
    }
    writeln!(out, "{done} {count} {unit}")?;
    Ok(())
}

/// Prints a value on a line of its own.
pub fn print_value<'a, W: io::Write>(
    global: Global,
    value: &Value,
    out: &mut W,
) -> Result<(), FileFailure<'a>> {
    match write_line(global, value, out) {
        Ok(()) => Ok(()),
        Err(WriteFault::Output(fault)) => Err(FileFailure::Output(fault)),
        Err(WriteFault::Memory(fault)) => Err(FileFailure::Memory(fault)),
    }
}
