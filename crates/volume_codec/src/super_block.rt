// The super block: a volume's layout, its table of files, and the number of record slots of each journal.
ghost use Rattle.std.specs.Prelude.{◌≡◌, ◌≢◌, ◌<◌, ◌≤◌, ◌+◌, ◌*◌, ◌^◌, ◌++◌, IfOk, IfErr, IfSome, IfNone, MatchOption, not, ◌==◌, ℕ, List, length, slice_get, slice_index, Some, take, drop};
ghost use Rattle.std.specs.List.{AllByRecursion, prefix_len};
ghost use Rattle.volume_codec.specs.Files.{asked_by, asked_by_pairs};
ghost use Rattle.volume_codec.specs.Layout.{magic_of};
ghost use Rattle.volume_codec.specs.Super.{SuperValue, Fits, IsName, IsSuper, IsAsked, AreDistinct, pages_of as pages, total_pages, first_home_of, block_count as blocks_of, geometry_of, entry_text, super_text, names_in, capacities_in};
ghost use Rattle.volume_codec.specs.Refusals.{RefusesTable, RefusesSuper};
ghost use Rattle.volume_codec.specs.Text.{number_in};
ghost use Rattle.volume_codec.specs.inside.Reading.{name_in, file_in, table_files_in, damage_of as damage};
ghost use Rattle.volume_codec.specs.inside.Tables.{files_asked_for, names_of, rows_of, homes_of, homes_from, AreFull};

use crate::block::{BlockWriter, u32_at, u64_at};
use crate::file_spec::FileSpec;
use crate::geometry::{Geometry, first_file_home_block};
use crate::layout::Layout;
use crate::rules::{MAX_FILES, MAX_NAME, count_blocks, pages_of, specs_of};
use indexmap::IndexMap;
use page_entry::Refusal;
use std::alloc::{AllocError, Allocator};
use std::hash::{BuildHasherDefault, FoldHasher};
use std::marker::Model;

/// The number of bytes to which a file may grow, and the first of its home blocks.
#[derive(Clone, Copy)]
struct Extent {
    capacity: u64,
    first_home: u32,
}

/// The files by name, in the table's order, each with its extent.
type Table<A> = IndexMap<String<A>, Extent, BuildHasherDefault<FoldHasher>, A>;

/// The contents of a super block: the layout, the files in order, and the number of record slots of each journal. Each
/// file has its name and its capacity in bytes, and files are counted from 0.
#[derive(Drop)]
pub struct Super<A: Allocator + Copy> {
    layout: Layout,
    files: Table<A>,
    slots: u32,
    blocks: u32,
}

impl<A: Allocator + Copy> Model for Super<A> {
    ghost use Rattle.volume_codec.specs.Super.{SuperValue};
    ghost use Rattle.volume_codec.specs.inside.Tables.{rows_of, homes_of, IsKept};

    ghost Value = { SuperValue };

    ghost view = { λ s. record { layout = s.layout; files = rows_of s.files.entries; slots = s.slots } };

    ghost invariant = { λ s. IsKept (record { layout = s.layout; files = rows_of s.files.entries; slots = s.slots })
        (homes_of s.files.entries) s.blocks };
}

/// Returns a table of these files, whose names are distinct. Their home blocks begin at `first_home`. Fails if memory
/// is refused.
fn table<A: Allocator + Copy>(
    alloc: A,
    files: &[FileSpec],
    first_home: u32,
) -> Result<Table<A>, AllocError>
    requires distinct { AreDistinct (names_of files.now) }
    requires few { first_home + total_pages (files_asked_for files.now) < 2 ^ 32 }
    ensures rows { IfOk result (λ table. rows_of table.entries ≡ files_asked_for files.now) }
    ensures homes { IfOk result (λ table. homes_of table.entries ≡ homes_from first_home (files_asked_for files.now)) }
{
    let mut table = IndexMap::with_capacity(alloc, files.len())?;
    let mut home = first_home;
    for file in files {
        let place = Extent {
            capacity: file.capacity,
            first_home: home,
        };
        table.insert(String::from_str(alloc, file.name)?, place)?;
        home += pages_of(file.capacity) as u32;
    }
    Ok(table)
}

/// Writes the entry of a file next.
fn push_entry(block: &mut BlockWriter, name: &str, capacity: u64, home: u32)
    requires room { length block.old + 48 ≤ 4096 }
    requires short { length name.now ≤ 32 }
    requires pages { pages capacity < 2 ^ 32 }
    ensures value { block.new ≡ block.old ++ entry_text home (record { name = name.now; capacity = capacity }) }
    ensures len { length block.new ≡ length block.old + 48 }
{
    block.push(name.as_bytes());
    block.skip(MAX_NAME - name.len());
    block.push_u64(capacity);
    block.push_u32(home);
    block.push_u32(pages_of(capacity) as u32);
}

impl<A: Allocator + Copy> Super<A> {
    /// Returns the table of these files in the layout of this number, with `slots` record slots in each journal. Fails
    /// with `BadShape` if they break the rules of `block_count_as`, before it allocates memory. Fails with
    /// `OutOfMemory` if memory is refused.
    pub fn new(alloc: A, layout: u64, files: &[FileSpec], slots: u64) -> Result<Super<A>, Refusal>
        ensures ok { IfOk result (IsAsked layout (asked_by files.now) slots) }
        ensures refused { IfErr result (RefusesTable layout (asked_by files.now) slots) }
    {
        let Some(layout) = Layout::from_number(layout) else {
            return Err(Refusal::BadShape);
        };
        let blocks = count_blocks(layout, files, slots)? as u32;
        let slots = slots as u32;
        match table(alloc, files, first_file_home_block(layout, slots)) {
            Ok(files) => Ok(Super {
                layout,
                files,
                slots,
                blocks,
            }),
            Err(_) => Err(Refusal::OutOfMemory),
        }
    }

    /// Returns the layout.
    pub fn layout(&self) -> Layout
        ensures value { result ≡ self.now.layout }
        ensures fits { Fits self.now }
    {
        self.layout
    }

    /// Returns the geometry: the places of the volume's parts.
    pub fn geometry(&self) -> Geometry
        ensures value { result ≡ geometry_of self.now }
        ensures fits { Fits self.now }
    {
        Geometry::new(self.layout, self.slots, self.blocks)
    }

    /// Returns the number of record slots of each journal, from 1 to the layout's largest number.
    pub fn slots(&self) -> u32
        ensures value { result ≡ self.now.slots }
        ensures fits { Fits self.now }
    {
        self.slots
    }

    /// Returns the number of files, 1 to 64.
    pub fn file_count(&self) -> usize
        ensures value { result ≡ length self.now.files }
        ensures fits { Fits self.now }
    {
        self.files.len()
    }

    /// Returns the name of a file.
    pub fn name(&self, file: usize) -> &str
        requires { file < length self.now.files }
        ensures { slice_get (names_in self.now) file ≡ Some result.now }
    {
        let (name, _) = self.files.get_index(file).unwrap();
        name.as_str()
    }

    /// Returns the number of bytes to which a file may grow, at least 1.
    pub fn capacity(&self, file: usize) -> u64
        requires { file < length self.now.files }
        ensures { slice_get (capacities_in self.now) file ≡ Some result }
    {
        let (_, place) = self.files.get_index(file).unwrap();
        place.capacity
    }

    /// Returns the number of home blocks of a file: its capacity divided by 4,096, rounded up.
    pub fn pages(&self, file: usize) -> u32
        requires { file < length self.now.files }
        ensures { result ≡ pages (slice_index (capacities_in self.now) file) }
    {
        let (_, place) = self.files.get_index(file).unwrap();
        pages_of(place.capacity) as u32
    }

    /// Returns the first home block of a file. The home blocks of a file are consecutive, and the files are consecutive
    /// in the table's order.
    pub fn first_home(&self, file: usize) -> u32
        requires { file < length self.now.files }
        ensures { result ≡ first_home_of self.now file }
    {
        let (_, place) = self.files.get_index(file).unwrap();
        place.first_home
    }

    /// Returns the number of blocks of the volume, at most 2^32 - 1.
    pub fn block_count(&self) -> u32
        ensures value { result ≡ blocks_of self.now }
        ensures fits { Fits self.now }
    {
        self.blocks
    }

    /// Returns the block that contains this table.
    pub fn to_block(&self) -> [u8; 4096]
        ensures { result ≡ super_text self.now }
    {
        let mut block = BlockWriter::new();
        block.push(&self.layout().magic());
        block.push_u32(self.file_count() as u32);
        block.push_u32(self.slots());
        block.push_u32(self.block_count());
        block.skip(12);
        for file in 0..self.file_count() {
            push_entry(
                &mut block,
                self.name(file),
                self.capacity(file),
                self.first_home(file),
            );
        }
        block.finish()
    }
}

/// Returns the super block of a volume in the layout of this number, with these files and `slots` record slots in each
/// journal. Fails with `BadShape` if they break the rules of `block_count_as`, before it allocates memory. Fails with
/// `OutOfMemory` if memory is refused.
pub fn write_super_as<A: Allocator + Copy>(
    alloc: A,
    layout: u64,
    files: &[FileSpec],
    slots: u64,
) -> Result<[u8; 4096], Refusal>
    ensures ok { IfOk result (λ block. (v : SuperValue) × IsAsked layout (asked_by files.now) slots v
        × IsSuper v block) }
    ensures refused { IfErr result (RefusesTable layout (asked_by files.now) slots) }
{
    Ok(Super::new(alloc, layout, files, slots)?.to_block())
}

/// Returns the super block of a volume in layout 1 with these files and this number of record slots. Each file has its
/// name and its length in bytes. Fails with `BadShape` if they break the rules of `block_count_of`, before it allocates
/// memory. Fails with `OutOfMemory` if memory is refused.
pub fn write_super<A: Allocator + Copy>(
    alloc: A,
    files: &[(&str, u64)],
    slots: u64,
) -> Result<[u8; 4096], Refusal>
    ensures ok { IfOk result (λ block. (v : SuperValue) × IsAsked 1 (asked_by_pairs files.now) slots v
        × IsSuper v block) }
    ensures refused { IfErr result (RefusesTable 1 (asked_by_pairs files.now) slots) }
{
    if files.len() > MAX_FILES {
        return Err(Refusal::BadShape);
    }
    let specs = specs_of(files);
    write_super_as(alloc, 1, &specs[..files.len()], slots)
}

/// Returns the number of bytes before the first zero.
fn text_len(field: &[u8]) -> usize
    ensures { result ≡ prefix_len (λ b. not (b == 0)) field.now }
{
    field.iter().take_while(|b| **b != 0).count()
}

/// Returns the name at the beginning of an entry, up to the first zero. It is empty if it isn't text.
fn name_at(entry: &[u8]) -> &str
    requires { 32 ≤ length entry.now }
    ensures { IsName (name_in entry.now) → result.now ≡ name_in entry.now }
{
    let field = &entry[..MAX_NAME];
    str::from_utf8(&field[..text_len(field)]).unwrap_or("")
}

/// Returns the file in an entry, with its capacity as its length. Its name is empty if it isn't text.
fn file_at(entry: &[u8]) -> FileSpec<'_>
    requires { 40 ≤ length entry.now }
    ensures name { IsName (name_in entry.now) → result.name.now ≡ name_in entry.now }
    ensures capacity { result.capacity ≡ number_in 8 (drop 32 entry.now) }
    ensures full { result.length ≡ result.capacity }
{
    let capacity = u64_at(entry, 32);
    FileSpec {
        name: name_at(entry),
        length: capacity,
        capacity,
    }
}

/// Returns the files of `count` entries, in the first places.
fn files_at(entries: &[u8], count: usize) -> [FileSpec<'_>; 64]
    requires few { count ≤ 64 }
    requires there { 48 * count ≤ length entries.now }
    ensures files { AllByRecursion (λ f. IsName f.name) (table_files_in count entries.now)
        → files_asked_for (take count result) ≡ table_files_in count entries.now }
    ensures full { AreFull (take count result) }
{
    let mut files = [FileSpec {
        name: "",
        length: 0,
        capacity: 0,
    }; 64];
    for i in 0..count {
        files[i] = file_at(&entries[48 * i..]);
    }
    files
}

// Rule: damaged
/// Returns the refusal of a block whose table was refused with `refusal`: `Damaged` if the table breaks the rules.
fn damage_of(refusal: Refusal) -> Refusal
    ensures { result ≡ damage refusal }
{
    match refusal {
        Refusal::BadShape => Refusal::Damaged,
        other => other,
    }
}

/// Returns the layout with whose magic a block begins, if there is one.
fn layout_of(block: &[u8; 4096]) -> Option<Layout>
    ensures some { IfSome result (λ layout. take 8 block.now ≡ magic_of layout) }
    ensures none { IfNone result ((layout : Layout) → take 8 block.now ≢ magic_of layout) }
{
    let mut magic = [0; 8];
    magic.copy_from_slice(&block[..8]);
    Layout::from_magic(magic)
}

// Rule: notavolume
/// Returns the table in a super block, in the layout with whose magic it begins. Fails with `NotAVolume` if it begins
/// with no layout's magic, and with `Damaged` if it breaks any other rule of the grammar. It may fail with
/// `OutOfMemory` instead of either.
pub fn read_super<A: Allocator + Copy>(alloc: A, block: &[u8; 4096]) -> Result<Super<A>, Refusal>
    ensures ok { IfOk result (λ v. IsSuper v block.now) }
    ensures refused { IfErr result (RefusesSuper block.now) }
{
    let Some(layout) = layout_of(block) else {
        return Err(Refusal::NotAVolume);
    };
    let count = u32_at(block, 8) as usize;
    if count > MAX_FILES {
        return Err(Refusal::Damaged);
    }
    let files = files_at(&block[32..], count);
    let slots = u64::from(u32_at(block, 12));
    let table = match Super::new(alloc, layout.number(), &files[..count], slots) {
        Ok(table) => table,
        Err(refusal) => return Err(damage_of(refusal)),
    };
    if table.to_block() != *block {
        return Err(Refusal::Damaged);
    }
    Ok(table)
}
