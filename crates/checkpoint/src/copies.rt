// The copy frames that contain the bytes of frozen pages.
ghost use Rattle.std.specs.Prelude.{◌≡◌};
ghost use Rattle.checkpoint.specs.Checkpoint.{is_copied, without_copy_of};
ghost use Rattle.checkpoint.specs.inside.Notes.{without_copies_of};

use frames::Frames;
use page_entry::FilePage;
use std::alloc::Allocator;

/// Whether a copy frame contains the page's bytes.
pub(crate) fn has_copy<A: Allocator + Copy>(frames: &Frames<A>, page: FilePage) -> bool
    ensures { result ≡ is_copied frames.now page }
{
    frames.copy_of(page).is_some()
}

/// Frees the copy frame that contains a page's bytes, if there is one.
pub(crate) fn free_copy<A: Allocator + Copy>(frames: &mut Frames<A>, page: FilePage)
    ensures { frames.new ≡ without_copy_of frames.old page }
{
    let _frames = frames.count();
    if let Some(copy) = frames.copy_of(page) {
        frames.give_copy(copy);
    }
}

/// Frees the copy frames that contain the bytes of these pages.
pub(crate) fn free_copies<A: Allocator + Copy>(frames: &mut Frames<A>, pages: &[FilePage])
    ensures { frames.new ≡ without_copies_of frames.old pages.now }
{
    for page in pages {
        free_copy(frames, *page);
    }
}
