// What is found of a volume, as JSON. The members of an object are ordered by name.
ghost use Rattle.std.specs.Prelude.{◌≡◌, ◌<◌, length, map, IfOk};
ghost use Rattle.serde_json.specs.Data.{Data};
ghost use Rattle.serde_json.specs.View.{view};
ghost use Rattle.volume_codec.specs.Super.{SuperValue};
ghost use Rattle.inspection.specs.Json.{list, file_members, file_data, files_data, home_data, closed_data, open_data, journal_data, volume_data, info_data, health_data, damage_data};

use crate::file::{capacity_of, name_of};
use crate::found::{Found, Journal};
use crate::health::Health;
use crate::place::place_of;
use page_entry::PAGE;
use serde_json::{Value, json};
use std::alloc::{AllocError, Allocator, Global};
use volume_codec::{Descriptor, Super};

/// Returns what is found of a volume, as one object.
pub fn found_value<A: Allocator + Copy>(
    global: Global,
    found: &Found<A>,
) -> Result<Value, AllocError>
    requires { length found.now.lengths.items ≡ length found.now.table.files }
    ensures { IfOk result (λ value. view value ≡ info_data found.now) }
{
    let making = Making {
        global,
        table: &found.table,
    };
    let files = files_value(making, &found.lengths)?;
    let journals = list_value(making, &found.journals)?;
    volume_value(making, found.calls, files, journals)
}

// The arguments that each value needs: memory, and the table of the volume.
#[derive(Clone, Copy)]
struct Making<'t, A: Allocator + Copy> {
    global: Global,
    table: &'t Super<A>,
}

fn volume_value<A: Allocator + Copy>(
    making: Making<'_, A>,
    calls: u64,
    files: Value,
    journals: Value,
) -> Result<Value, AllocError>
    ensures { IfOk result (λ value. view value
        ≡ volume_data making.entry.table.now calls (view files) (view journals)) }
{
    let Making { global, table } = making;
    let layout = table.layout().number();
    let slots = table.slots();
    let blocks = table.block_count();
    let bytes = PAGE * u64::from(blocks);
    json!(in global; {
        "blocks": blocks,
        "bytes": bytes,
        "files": files,
        "journals": journals,
        "layout": layout,
        "opening_calls": calls,
        "slots": slots
    })
}

// Returns the files, which have these lengths.
fn files_value<A: Allocator + Copy>(
    making: Making<'_, A>,
    lengths: &[u64],
) -> Result<Value, AllocError>
    requires { length lengths.now ≡ length making.table.now.files }
    ensures { IfOk result (λ value. view value
        ≡ list (files_data making.entry.table.now lengths.now (length making.entry.table.now.files))) }
{
    let mut files = Vec::new(making.global);
    for file in 0..making.table.file_count() {
        let value = file_value(making, file, lengths[file])?;
        files.push(value)?;
    }
    Ok(Value::Array(files))
}

// Returns a file of this length.
fn file_value<A: Allocator + Copy>(
    making: Making<'_, A>,
    file: usize,
    bytes: u64,
) -> Result<Value, AllocError>
    requires { file < length making.table.now.files }
    ensures { IfOk result (λ value. view value ≡ file_data making.entry.table.now file bytes) }
{
    let Making { global, table } = making;
    let name = name_of(table, file);
    let capacity = capacity_of(table, file);
    let pages = table.pages(file);
    let home = u64::from(table.first_home(file));
    file_object(global, name, bytes, capacity, pages, home)
}

/// Returns a file whose home blocks begin at `home`.
pub fn file_object(
    global: Global,
    name: &str,
    bytes: u64,
    capacity: u64,
    pages: u32,
    home: u64,
) -> Result<Value, AllocError>
    ensures { IfOk result (λ value. view value ≡ file_members name.now bytes capacity pages home) }
{
    json!(in global; {
        "capacity": capacity,
        "home": home,
        "length": bytes,
        "name": name,
        "pages": pages
    })
}

// An item in a list of a volume with a table.
trait Item {
    // The item as a value of JSON.
    ghost json: { Self → SuperValue → Data };

    fn value<A: Allocator + Copy>(&self, making: Making<'_, A>) -> Result<Value, AllocError>
        ensures { IfOk result (λ value. view value ≡ json self.now making.entry.table.now) };
}

fn list_value<A: Allocator + Copy, I: Item>(
    making: Making<'_, A>,
    items: &[I],
) -> Result<Value, AllocError>
    ensures { IfOk result (λ value. view value ≡ list (map (λ item. I.json item making.entry.table.now) items.now)) }
{
    let mut values = Vec::new(making.global);
    for item in items {
        let value = item.value(making)?;
        values.push(value)?;
    }
    Ok(Value::Array(values))
}

impl<B: Allocator + Copy> Item for Journal<B> {
    ghost json = { λ journal table. journal_data table journal };

    fn value<A: Allocator + Copy>(&self, making: Making<'_, A>) -> Result<Value, AllocError> {
        let global = making.global;
        match &self.descriptor {
            None => closed_value(global, self.number, self.gate),
            Some(descriptor) => {
                let blocks = list_value(making, descriptor.homes())?;
                open_value(global, self.number, self.gate, descriptor.mark(), blocks)
            }
        }
    }
}

fn closed_value(global: Global, number: u32, gate: u8) -> Result<Value, AllocError>
    ensures { IfOk result (λ value. view value ≡ closed_data number gate) }
{
    json!(in global; {"gate": gate, "number": number, "open": false})
}

fn open_value(
    global: Global,
    number: u32,
    gate: u8,
    mark: u64,
    blocks: Value,
) -> Result<Value, AllocError>
    ensures { IfOk result (λ value. view value ≡ open_data number gate mark (view blocks)) }
{
    json!(in global; {
        "blocks": blocks,
        "gate": gate,
        "mark": mark,
        "number": number,
        "open": true
    })
}

// A home block, as a page of its file.
impl Item for u32 {
    ghost json = { λ home table. home_data table home };

    fn value<A: Allocator + Copy>(&self, making: Making<'_, A>) -> Result<Value, AllocError> {
        let Making { global, table } = making;
        let home = *self;
        match place_of(table, home) {
            Some(place) => {
                let name = name_of(table, place.file);
                let page = place.page;
                json!(in global; {"file": name, "page": page})
            }
            None => json!(in global; {"block": home}),
        }
    }
}

/// Returns the state of a volume, as one object.
pub fn health_value(global: Global, health: Health) -> Result<Value, AllocError>
    ensures { IfOk result (λ value. view value ≡ health_data health) }
{
    let state = match health {
        Health::Clean => "clean",
        Health::NeedsOpening => "needs opening",
    };
    json!(in global; {"state": state})
}

/// Returns an object that reports a volume as damaged, with this cause.
pub fn damage_value(global: Global, cause: &str) -> Result<Value, AllocError>
    ensures { IfOk result (λ value. view value ≡ damage_data cause.now) }
{
    json!(in global; {"cause": cause, "state": "damaged"})
}
