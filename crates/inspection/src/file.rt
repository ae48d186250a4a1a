// A file's entry in the table.
ghost use Rattle.std.specs.Prelude.{◌≡◌, ◌<◌, length, slice_index};
ghost use Rattle.volume_codec.specs.Super.{capacities_in};
ghost use Rattle.inspection.specs.Text.{name_of as name};

use std::alloc::Allocator;
use volume_codec::Super;

/// Returns the name of a file.
pub fn name_of<A: Allocator + Copy>(table: &Super<A>, file: usize) -> &str
    requires { file < length table.now.files }
    ensures { result.now ≡ name table.now file }
{
    table.name(file)
}

/// Returns the number of bytes to which a file may grow.
pub fn capacity_of<A: Allocator + Copy>(table: &Super<A>, file: usize) -> u64
    requires { file < length table.now.files }
    ensures { result ≡ slice_index (capacities_in table.now) file }
{
    table.capacity(file)
}
