// Guesses of the frames that contain pages.
ghost use Rattle.std.specs.Prelude.{◌<◌};

use page_entry::{FilePage, FrameNumber};
use std::alloc::{AllocError, Allocator, Global};
use std::marker::Model;

// For each page, a guess of the frame that contains it. Several pages share a guess, which is the frame that was filled
// last with one of them. A guess may be wrong, so each caller checks that the frame has the page.
#[derive(Drop)]
pub(crate) struct Guesses<A: Allocator + Copy = Global> {
    // The length is a power of two, and at least 16 for each frame. So few pages share a guess even if all frames are
    // in use.
    frames: Vec<FrameNumber, A>,
}

impl<A: Allocator + Copy> Model for Guesses<A> {
    ghost use Rattle.std.specs.Prelude.{ℕ, List, length, ◌<◌};

    ghost Value = { List ℕ };

    ghost view = { λ g. g.frames.items };

    ghost invariant = { λ g. 0 < length g.frames.items };
}

impl<A: Allocator + Copy> Guesses<A> {
    // Returns guesses for this many frames, with no page in any frame yet. Fails if there is no memory.
    pub(crate) fn new(alloc: A, frames: FrameNumber) -> Result<Self, AllocError> {
        let count = (16 * frames as usize).next_power_of_two();
        Ok(Guesses {
            frames: vec![in alloc; 0; count]?,
        })
    }

    // Returns a guess of the frame that contains a page.
    pub(crate) fn guess(&self, page: FilePage) -> FrameNumber {
        self.frames[place_of_guess(page, self.frames.len())]
    }

    // Records that a page was put into a frame.
    pub(crate) fn put(&mut self, page: FilePage, frame: FrameNumber) {
        let place = place_of_guess(page, self.frames.len());
        self.frames[place] = frame;
    }
}

// Returns the place of a page's guess among `count` guesses. Consecutive pages of a file have different places, and the
// first pages of the files are far apart.
fn place_of_guess(page: FilePage, count: usize) -> usize
    requires { 0 < count }
    ensures { result < count }
{
    let first = (page.file as usize).wrapping_mul(count.wrapping_mul(389) / 1024);
    first.wrapping_add(page.page as usize) & (count - 1)
}
