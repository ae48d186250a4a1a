// What is found of a volume with a log, as JSON. The members of an object are ordered by name.
ghost use Rattle.std.specs.Prelude.{◌≡◌, ◌<◌, length, IfOk};
ghost use Rattle.serde_json.specs.View.{view};
ghost use Rattle.log_volume.specs.Super.{log_of};
ghost use Rattle.log_recovery.specs.Reading.{IsFoundLog};
ghost use Rattle.inspection.specs.Json.{list};
ghost use Rattle.inspection.specs.LogJson.{log_file_data, log_files_data, log_data, log_volume_data, log_value_data, log_info_data};

use crate::file::{capacity_of, name_of};
use crate::json::file_object;
use crate::log_text::{home_of, layout_of};
use log_codec::LogGeometry;
use log_volume::LogSuper;
use page_entry::PAGE;
use serde_json::{Value, json};
use std::alloc::{AllocError, Allocator, Global};
use volume_reading::{LoggedVolume, used_blocks};

/// Returns what is found of a volume with a log, as one object.
pub fn log_found_value<A: Allocator + Copy>(
    global: Global,
    found: &LoggedVolume<A>,
) -> Result<Value, AllocError>
    requires count { length found.now.lengths.items ≡ length found.now.table.files }
    requires log { IsFoundLog (log_of found.now.table) found.now.log }
    ensures { IfOk result (λ value. view value ≡ log_info_data found.now) }
{
    let files = files_value(global, &found.table, &found.lengths)?;
    let geometry = found.table.log();
    let log = log_value(
        global,
        geometry.ring(),
        found.log.commits.len(),
        used_blocks(found),
        found.log.start.epoch,
    )?;
    volume_value(global, &geometry, files, log)
}

fn volume_value(
    global: Global,
    geometry: &LogGeometry,
    files: Value,
    log: Value,
) -> Result<Value, AllocError>
    ensures { IfOk result (λ value. view value ≡ log_value_data geometry.now (view files) (view log)) }
{
    volume_object(
        global,
        layout_of(geometry.sealing()),
        geometry.block_count(),
        files,
        log,
    )
}

fn volume_object(
    global: Global,
    layout: u64,
    blocks: u32,
    files: Value,
    log: Value,
) -> Result<Value, AllocError>
    ensures { IfOk result (λ value. view value ≡ log_volume_data layout blocks (view files) (view log)) }
{
    let bytes = PAGE * u64::from(blocks);
    json!(in global; {
        "blocks": blocks,
        "bytes": bytes,
        "files": files,
        "layout": layout,
        "log": log
    })
}

fn log_value(
    global: Global,
    ring: u32,
    commits: usize,
    used: u64,
    epoch: u64,
) -> Result<Value, AllocError>
    ensures { IfOk result (λ value. view value ≡ log_data ring commits used epoch) }
{
    let commits = commits as u64;
    json!(in global; {
        "blocks": ring,
        "commits": commits,
        "epoch": epoch,
        "used": used
    })
}

// Returns the files, which have these lengths.
fn files_value<A: Allocator + Copy>(
    global: Global,
    table: &LogSuper<A>,
    lengths: &[u64],
) -> Result<Value, AllocError>
    requires { length lengths.now ≡ length table.now.files }
    ensures { IfOk result (λ value. view value
        ≡ list (log_files_data table.now lengths.now (length table.now.files))) }
{
    let mut files = Vec::new(global);
    for file in 0..table.table().file_count() {
        let value = file_value(global, table, file, lengths[file])?;
        files.push(value)?;
    }
    Ok(Value::Array(files))
}

// Returns a file of this length.
fn file_value<A: Allocator + Copy>(
    global: Global,
    table: &LogSuper<A>,
    file: usize,
    bytes: u64,
) -> Result<Value, AllocError>
    requires { file < length table.now.files }
    ensures { IfOk result (λ value. view value ≡ log_file_data table.now file bytes) }
{
    let home = home_of(table, file);
    let files = table.table();
    let name = name_of(files, file);
    let capacity = capacity_of(files, file);
    let pages = files.pages(file);
    file_object(global, name, bytes, capacity, pages, home)
}
