// The state of a volume between two calls.
ghost use Rattle.std.specs.Prelude.{◌≡◌, ℕ, ◌*◌, List, length};
ghost use Rattle.deferred_disk.specs.Deferred.{deferred};
ghost use Rattle.famsync_core.specs.Held.{unopened};

use crate::volume::OpenVolume;
use deferred_disk::DeferredDisk;
use std::alloc::{Allocator, Global};
use std::marker::Model;

/// The disk of a volume that isn't open yet, or an open volume.
#[derive(Drop)]
pub struct State {
    pub(crate) disk: Option<DeferredDisk<Global>>,
    pub(crate) volume: Option<OpenVolume>,
}

impl Model for State {
    ghost use Rattle.famsync_core.specs.Held.{HeldVolume};

    ghost Value = { HeldVolume };

    ghost view = { λ state. record { disk = state.disk; volume = state.volume } };
}

impl State {
    /// Returns the state of a volume with this many blocks, which have this content. None of them is known yet.
    pub(crate) fn begin(alloc: Global, blocks: u32) -> Self
        ghost content: { List ℕ }
        requires { length content ≡ 4096 * blocks }
        ensures { result ≡ unopened (deferred content blocks) }
    {
        State {
            disk: Some(disk_of(alloc, blocks)),
            volume: None,
        }
    }
}

// Returns a disk with this many blocks, which have this content.
fn disk_of<A: Allocator + Copy>(alloc: A, blocks: u32) -> DeferredDisk<A>
    ghost content: { List ℕ }
    requires { length content ≡ 4096 * blocks }
    ensures { result ≡ deferred content blocks }
{
    DeferredDisk::new(alloc, blocks)
}
