// The rules of a volume's table: the allowed files and numbers of record slots.
ghost use Rattle.std.specs.Prelude.{◌≡◌, ◌≢◌, ◌↔◌, ◌<◌, ◌≤◌, ◌^◌, IsTrue, IfOk, IfErr, All, ℕ, List, length, take};
ghost use Rattle.volume_codec.specs.Files.{asked_by, asked_by_pairs};
ghost use Rattle.volume_codec.specs.Super.{SuperValue, Fits, IsName, IsLengthIn, IsAsked, AreDistinct, pages_of as pages, total_pages, block_count};
ghost use Rattle.volume_codec.specs.inside.Tables.{files_asked_for, names_of, table_of, HaveLengths};

use crate::file_spec::FileSpec;
use crate::geometry::first_file_home_block;
use crate::layout::Layout;
use page_entry::{PAGE, Refusal};

/// The largest number of files of a volume. The smallest is 1.
pub const MAX_FILES: usize = 64;

/// The largest number of bytes of a name. The smallest is 1.
pub const MAX_NAME: usize = 32;

/// Returns the number of blocks that `length` bytes take.
pub fn pages_of(length: u64) -> u64
    ensures value { result ≡ pages length }
    ensures small { result ≤ 2 ^ 52 }
{
    length / PAGE + u64::from(length % PAGE != 0)
}

/// Whether these bytes are a valid name: 1 to 32 printable ASCII characters, none of them a space.
fn is_name(name: &str) -> bool
    ensures { IsTrue result ↔ IsName name.now }
{
    !name.is_empty() && name.len() <= MAX_NAME && name.bytes().all(|b| b.is_ascii_graphic())
}

/// Whether a file of this capacity may have this length in a layout.
fn is_length_in(layout: Layout, length: u64, capacity: u64) -> bool
    ensures { IsTrue result ↔ IsLengthIn layout length capacity }
{
    length == capacity || layout.lengths_blocks() > 0 && length < capacity
}

/// Whether a layout allows a file: it has a valid name, room for at least one byte, and an allowed length.
fn is_file(layout: Layout, file: &FileSpec) -> bool
    ensures { IsTrue result
        ↔ (IsName file.now.name.now × (0 < file.now.capacity) × IsLengthIn layout file.now.length file.now.capacity) }
{
    is_name(file.name) && file.capacity > 0 && is_length_in(layout, file.length, file.capacity)
}

/// Whether a layout allows each of the files.
fn are_files(layout: Layout, files: &[FileSpec]) -> bool
    ensures { IsTrue result
        ↔ All (λ f. IsName f.name.now × (0 < f.capacity) × IsLengthIn layout f.length f.capacity) files.now }
{
    files.iter().all(|file| is_file(layout, file))
}

/// Whether none of the files has this name.
fn is_free(files: &[FileSpec], name: &str) -> bool
    ensures { IsTrue result ↔ All (λ f. f.name.now ≢ name.now) files.now }
{
    files.iter().all(|other| other.name != name)
}

/// Whether no two files have the same name.
fn are_distinct(files: &[FileSpec]) -> bool
    ensures { IsTrue result ↔ AreDistinct (names_of files.now) }
{
    match files {
        [] => true,
        [file, rest @ ..] => is_free(rest, file.name) && are_distinct(rest),
    }
}

/// Returns the number of home blocks that these files take.
fn home_blocks(files: &[FileSpec]) -> u64
    requires { length files.now ≤ 64 }
    ensures value { result ≡ total_pages (files_asked_for files.now) }
    ensures small { result ≤ 2 ^ 58 }
{
    let mut total = 0;
    for file in files {
        total += pages_of(file.capacity);
    }
    total
}

/// Returns the number of blocks of a volume in this layout, by the rules of `block_count_as`.
pub(crate) fn count_blocks(layout: Layout, files: &[FileSpec], slots: u64) -> Result<u64, Refusal>
    ensures lengths { IfOk result (λ _. HaveLengths layout files.now) }
    ensures fits { IfOk result (λ _. Fits (table_of layout files.now slots)) }
    ensures count { IfOk result (λ blocks. blocks ≡ block_count (table_of layout files.now slots)) }
    ensures err { IfErr result (λ refusal. (refusal ≡ Refusal.BadShape)
        × (HaveLengths layout files.now → Fits (table_of layout files.now slots) → ⊥)) }
{
    if files.is_empty() || files.len() > MAX_FILES {
        return Err(Refusal::BadShape);
    }
    if slots <= u64::from(layout.lengths_blocks()) || slots > u64::from(layout.max_slots()) {
        return Err(Refusal::BadShape);
    }
    if !are_files(layout, files) || !are_distinct(files) {
        return Err(Refusal::BadShape);
    }
    let blocks = u64::from(first_file_home_block(layout, slots as u32)) + home_blocks(files);
    if blocks > u64::from(u32::MAX) {
        return Err(Refusal::BadShape);
    }
    Ok(blocks)
}

/// Returns the number of blocks of a volume with this layout number, these files, and this number of record slots in
/// each journal. It allocates no memory.
///
/// Fails with `BadShape` if no volume can have them. The rules are:
/// - The layout exists.
/// - There are 1 to 64 files with distinct names. A name has 1 to 32 bytes from 0x21 to 0x7E.
/// - A capacity is at least 1 byte. A length is at most the capacity, and equal to it in a layout without a lengths
///   block.
/// - There are slots for at least the lengths and one page, and at most the layout's largest number.
/// - The volume has at most 2^32 - 1 blocks.
pub fn block_count_as(layout: u64, files: &[FileSpec], slots: u64) -> Result<u64, Refusal>
    ensures ok { IfOk result (λ blocks. (v : SuperValue) × IsAsked layout (asked_by files.now) slots v
        × (blocks ≡ block_count v)) }
    ensures err { IfErr result (λ refusal.
        (refusal ≡ Refusal.BadShape) × ((v : SuperValue) → IsAsked layout (asked_by files.now) slots v → ⊥)) }
{
    let Some(layout) = Layout::from_number(layout) else {
        return Err(Refusal::BadShape);
    };
    count_blocks(layout, files, slots)
}

/// Returns the files of these names and lengths, in the first places. None of them may grow. The caller must pass at
/// most 64.
pub fn specs_of<'a>(files: &[(&'a str, u64)]) -> [FileSpec<'a>; 64]
    requires { length files.now ≤ 64 }
    ensures { asked_by (take (length files.now) result) ≡ asked_by_pairs files.now }
{
    let mut specs = [FileSpec {
        name: "",
        length: 0,
        capacity: 0,
    }; 64];
    for (i, (name, length)) in files.iter().enumerate() {
        specs[i] = FileSpec {
            name,
            length: *length,
            capacity: *length,
        };
    }
    specs
}

/// Returns the number of blocks of a volume in layout 1 with these files, by the rules of `block_count_as`. Each file
/// has its name and its length in bytes, and `slots` is the number of record slots. It allocates no memory.
pub fn block_count_of(files: &[(&str, u64)], slots: u64) -> Result<u64, Refusal>
    ensures ok { IfOk result (λ blocks. (v : SuperValue) × IsAsked 1 (asked_by_pairs files.now) slots v
        × (blocks ≡ block_count v)) }
    ensures err { IfErr result (λ refusal.
        (refusal ≡ Refusal.BadShape) × ((v : SuperValue) → IsAsked 1 (asked_by_pairs files.now) slots v → ⊥)) }
{
    if files.len() > MAX_FILES {
        return Err(Refusal::BadShape);
    }
    let specs = specs_of(files);
    block_count_as(1, &specs[..files.len()], slots)
}
