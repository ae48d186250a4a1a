// The page and the file of a home block.
ghost use Rattle.std.specs.Prelude.{◌≡◌, ◌<◌, ◌+◌, ℕ, IfSome, Some, length, slice_index};
ghost use Rattle.volume_codec.specs.Super.{SuperValue, pages_of, first_home_of, capacities_in};
ghost use Rattle.inspection.specs.Places.{place_in};

use std::alloc::Allocator;
use volume_codec::Super;

/// A page of a file, both counted from 0.
#[derive(Clone, Copy, Debug, PartialEq, Eq)]
pub struct HomePage {
    pub file: usize,
    pub page: u32,
}

/// Returns the page of a file to which a home block belongs. Returns `None` for a home block before those of the files.
pub fn place_of<A: Allocator + Copy>(table: &Super<A>, home: u32) -> Option<HomePage>
    ensures place { result ≡ place_in table.now home }
    ensures within { IfSome result (λ place. place.file < length table.now.files) }
{
    for file in (0..table.file_count()).rev() {
        let first = table.first_home(file);
        if first <= home {
            return Some(HomePage {
                file,
                page: home - first,
            });
        }
    }
    None
}

/// States that each page of each file is the place of its home block.
pub fn pages_have_places()
    ensures { (v : SuperValue) (i p : ℕ) → i < length v.files → p < pages_of (slice_index (capacities_in v) i)
        → place_in v (first_home_of v i + p) ≡ Some (record { file = i; page = p }) }
{}
