// The frames in use, ordered by their pages.
ghost use Rattle.std.specs.Prelude.{None, slice_index_or};
ghost use Rattle.std.specs.List.Sorted.{IsPartitionedBy};
ghost use Rattle.frames.specs.Frames.{page_of};
ghost use Rattle.frames.specs.inside.Order.{IsPlaceOf};
ghost use Rattle.frames.specs.inside.Pages.{comes_before};

use crate::pages::Pages;
use chunked_list::ChunkedList;
use page_entry::FilePage;
use std::alloc::Allocator;

/// Returns the place of a page in the order.
pub(crate) fn place_of<A: Allocator + Copy>(
    frames: &Pages<A>,
    order: &ChunkedList<A>,
    page: FilePage,
) -> usize
    requires { IsPartitionedBy (λ frame. comes_before (page_of (slice_index_or frames.now frame None)) page)
        order.now.items }
    ensures { IsPlaceOf frames.now order.now.items page result }
{
    let mut from = 0;
    let mut to = order.len();
    while from < to {
        let middle = from + (to - from) / 2;
        if frames.comes_before(order.get(middle), page) {
            from = middle + 1;
        } else {
            to = middle;
        }
    }
    from
}
