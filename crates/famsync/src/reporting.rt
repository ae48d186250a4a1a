// Reports why a command failed, as text or as JSON.
use commands::Failure;
use serde_json::{Value, json};
use std::alloc::{AllocError, Global};
use std::convert::AsStr;
use std::io;
use volume_files::SyncNote;

/// The word that asks for JSON.
const JSON: &str = "--json";

/// Whether one of the words asks for JSON.
pub fn asks_for_json<S: AsStr>(words: &[S]) -> bool {
    words.iter().any(|word| word.as_str() == JSON)
}

/// Writes one line to `err` that states why a command failed, as JSON or as text. If no memory can be allocated for the
/// JSON, the line is text.
pub fn report_failure<W: io::Write>(
    global: Global,
    json: bool,
    failure: &Failure<'_>,
    note: &SyncNote,
    err: &mut W,
) -> io::Result<()> {
    if json {
        if let Ok(line) = failure_line(global, failure, note) {
            return writeln!(err, "{line}");
        }
    }
    writeln!(err, "famsync: {failure}{note}")
}

fn failure_line(
    global: Global,
    failure: &Failure<'_>,
    note: &SyncNote,
) -> Result<String, AllocError> {
    let fault = format!(in global; "{failure}{note}")?;
    let value = failure_value(global, fault.as_str(), failure.status())?;
    value.to_string(global)
}

fn failure_value(global: Global, fault: &str, status: u8) -> Result<Value, AllocError> {
    json!(in global; {"fault": fault, "status": status})
}
