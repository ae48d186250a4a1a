// The handle by which a C program refers to a session.
ghost use Rattle.std.specs.Prelude.{◌≡◌};
ghost use Rattle.std.specs.Box.Ownership.{box_owns};
ghost use Rattle.std.specs.contracts.impls.GlobalAllocator.TheImpl.{ghosts as global};
ghost use Rattle.famsync_core.specs.declared.state.State.{State};
ghost use Rattle.famsync_core.specs.contracts.state.State.{the_row as state_row};

use crate::state::State;
use std::alloc::Global;
use std::marker::Model;

/// The address of a state on the heap. The owner of the handle owns the state.
#[repr(C)]
pub struct Handle {
    at: *mut u8,
    alloc: Global,
    ghost state: { State },
}

impl Model for Handle {
    ghost also_owns = { λ handle. box_owns (global.dealloc_token handle.alloc) state_row handle.at handle.state };
}

impl Handle {
    /// Returns the state.
    pub(crate) fn into_box(self) -> Box<State>
        ensures { result.value ≡ self.state }
    {
        let Handle { at, alloc } = self;
        unsafe { Box::from_raw(alloc, at as *mut State) }
    }
}
