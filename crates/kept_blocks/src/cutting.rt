// Pages that are cut: zeros follow their first bytes.
ghost use Rattle.std.specs.Prelude.{◌≡◌, length, take, replicate, IfOk};
ghost use Rattle.kept_blocks.specs.Blocks.{cut_to};

use page_entry::PAGE;
use std::alloc::{AllocError, Allocator};

// Sets every byte to zero.
fn clear(bytes: &mut [u8])
    ensures { bytes.new ≡ replicate (length bytes.old) 0 }
{
    bytes.fill(0);
}

/// Keeps the first `left` bytes of a page, and sets those after them to zero.
#[tactic(auto, unfolding(volume_codec::specs::Text::zeros))]
pub fn cut_off(page: &mut [u8; 4096], left: u64)
    ensures { page.new ≡ cut_to left page.old }
{
    if left < PAGE {
        clear(&mut page[left as usize..]);
    }
}

/// States that a block has 4,096 bytes. It does nothing at run time; proofs need its contract.
pub fn has_whole_block(block: &[u8; 4096])
    ensures { length block.now ≡ 4096 }
{
    let _bytes: &[u8] = block;
}

/// Returns a copy of a page on the heap: its first `left` bytes, and zeros after them.
pub fn boxed_page<A: Allocator + Copy>(
    alloc: A,
    page: &[u8; 4096],
    left: u64,
) -> Result<Box<[u8; 4096], A>, AllocError>
    ensures { IfOk result (λ block. block.value ≡ cut_to left page.now) }
{
    let mut block = Box::new(alloc, [0; 4096])?;
    block.copy_from_slice(page);
    cut_off(&mut block, left);
    Ok(block)
}
