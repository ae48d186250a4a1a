// The list of home blocks and the buffer of a commit.
ghost use Rattle.std.specs.Prelude.{◌≡◌, ◌≤◌, ◌+◌, ◌*◌, [], length, OnOk, IfOk};
ghost use Rattle.kept_blocks.specs.Blocks.{AreWholeBlocks, homes_in};
ghost use Rattle.log_codec.specs.Log.{log_commit_blocks};
ghost use Rattle.log_commits.specs.Commit.{records_in};
ghost use Rattle.log_pager.specs.Pager.{records_put};

use kept_blocks::Blocks;
use std::alloc::{AllocError, Allocator};

/// Lists the home blocks, and returns the buffer for their commit, which contains their bytes.
pub(crate) fn spell<A: Allocator + Copy>(
    alloc: A,
    blocks: &Blocks<A>,
    homes: &mut Vec<u32, A>,
) -> Result<Vec<u8, A>, AllocError>
    requires none { homes.old.items ≡ [] }
    requires few { length blocks.now ≤ 65535 }
    ensures homes { OnOk result (homes.new.items ≡ homes_in blocks.now) }
    ensures records { IfOk result (λ room. records_in (homes_in blocks.now) room.items ≡ records_put blocks.now) }
    ensures whole { OnOk result (AreWholeBlocks blocks.now) }
    ensures size { IfOk result (λ room. length room.items ≡ 4096 * log_commit_blocks (length blocks.now) + 1) }
{
    homes.reserve_exact(blocks.len())?;
    blocks.list_homes(homes);
    let head = (4 * blocks.len() + 4127) / 4096;
    let mut room = vec![in alloc; 0; 4096 * head]?;
    blocks.list_bytes(&mut room)?;
    room.push(0)?;
    Ok(room)
}
