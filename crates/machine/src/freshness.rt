// Checks whether a machine is as it was made.
ghost use Rattle.std.specs.Prelude.{◌≡◌, ◌↔◌, IsTrue};
ghost use Rattle.std.specs.List.{All};
ghost use Rattle.std.specs.FinMap as maps;
ghost use Rattle.machine.specs.inside.Layers.{state_in};
ghost use Rattle.machine.specs.inside.Freshness.{shape_of, LooksFresh};

use crate::Shape;
use crate::layers::Layers;
use device::Device;
use spaces::Spaces;
use std::alloc::Allocator;

impl<D: Device, A: Allocator + Copy> Layers<D, A> {
    // Returns the shape that a machine with these layers would have if it was just made.
    pub(crate) fn shape(&self) -> Shape
        ensures { result ≡ shape_of (state_in self.now) }
    {
        Shape {
            cpus: u64::from(self.shootdown.processors()),
            tlb: self.shootdown.tlb_size() as u64,
            frames: u64::from(self.frames.count()),
            copies: u64::from(self.frames.copy_count()),
        }
    }

    // Whether each layer is as it was made, and space 0 is the only space.
    pub(crate) fn look_fresh(&self) -> bool
        ensures { IsTrue result ↔ LooksFresh (state_in self.now) }
    {
        self.shootdown.is_fresh()
            && is_first_alone(&self.spaces)
            && self.frames.is_unused()
            && self.checkpoint.is_fresh()
            && self.write_outs.is_fresh()
            && self.marks == 0
            && !self.resized
    }
}

// Whether space 0 is the only space.
fn is_first_alone<A: Allocator + Copy>(spaces: &Spaces<A>) -> bool
    ensures { IsTrue result ↔ All (λ pcid. pcid ≡ 0) (maps.keys spaces.now.map) }
{
    for pcid in spaces.pcids() {
        if pcid != 0 {
            return false;
        }
    }
    true
}
