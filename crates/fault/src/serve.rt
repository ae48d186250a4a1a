// The place of a fault, and how it is served.
ghost use Rattle.std.specs.Prelude.{◌≡◌, ◌+◌, ◌≤◌, true, false, length, is_err, Some, IsSome, IfOk, IfErr, OnErr};
ghost use Rattle.std.specs.List.{All};
ghost use Rattle.spaces.specs.Spaces.{entry_at, place_at, with_entry};
ghost use Rattle.spaces.specs.Changes.{Grows};
ghost use Rattle.checkpoint.specs.Backing.{AreBacked};
ghost use Rattle.fault.specs.Fault.{place_of_fault, is_in_memory, may_be_writable, fixed_entry as entry_fixed};
ghost use Rattle.fault.specs.Fixing.{ReadsOnce, FixRefused, FixDone, reads_home};

use crate::PageFault;
use crate::bring::frame_for;
use crate::plan::page_at;
use checkpoint::Checkpoint;
use device::Device;
use frames::Frames;
use mappings::Place;
use page_entry::{ADDRESS_END, Entry, FrameNumber, PAGE, Pcid, Refusal};
use spaces::Spaces;
use std::alloc::Allocator;

/// Returns the place of a fault at an address of a space. Fails with `Einval` past the user addresses, with
/// `SegvMapErr` if nothing is mapped there, and with `SegvAccErr` for a store without the right to write.
pub fn place<A: Allocator + Copy>(
    spaces: &Spaces<A>,
    pcid: Pcid,
    va: u64,
    write: bool,
) -> Result<Place, Refusal>
    ensures { result ≡ place_of_fault spaces.now.map pcid va write }
{
    if va >= ADDRESS_END {
        return Err(Refusal::Einval);
    }
    let Some(place) = spaces.place(pcid, va / PAGE) else {
        return Err(Refusal::SegvMapErr);
    };
    if write && !place.rights.may_write() {
        return Err(Refusal::SegvAccErr);
    }
    Ok(place)
}

// Returns the entry that serves a fault. An entry that already allows the access is unchanged.
fn fixed_entry(entry: Entry, frame: FrameNumber, can_write: bool, write: bool) -> Entry
    ensures { result ≡ Some (entry_fixed entry frame can_write write) }
{
    if !entry.present() {
        return Entry::absent()
            .with_present(true)
            .with_frame(frame)
            .with_writable(can_write);
    }
    if !write || entry.writable() {
        return entry;
    }
    entry.with_writable(can_write)
}

// Whether the entry of a page may be writable: its mapping allows writing, and the mapped page isn't held.
fn can_write<A: Allocator + Copy>(
    frames: &Frames<A>,
    checkpoint: &Checkpoint<A>,
    place: Place,
) -> bool
    ensures { result ≡ may_be_writable frames.now checkpoint.now place }
{
    place.rights.may_write() && !checkpoint.is_held(frames, page_at(place))
}

// Sets the entry of the page so that it serves the fault.
fn map_page<A: Allocator + Copy>(
    spaces: &mut Spaces<A>,
    fault: PageFault,
    frame: FrameNumber,
    can_write: bool,
)
    requires { IsSome (place_at spaces.old.map fault.pcid fault.page) }
    ensures { spaces.new ≡ record spaces.old {
      map = with_entry spaces.old.map fault.pcid fault.page
          (Some (entry_fixed (entry_at spaces.old.map fault.pcid fault.page) frame can_write fault.write));
    } }
{
    let entry = spaces.entry(fault.pcid, fault.page);
    spaces.set_entry(
        fault.pcid,
        fault.page,
        fixed_entry(entry, frame, can_write, fault.write),
    );
}

/// Serves a fault at a mapped page. If the page isn't in memory, one read of its home block brings it there. Its entry
/// then allows the access. The call allocates no memory.
///
/// Fails with:
///
/// * `SegvAccErr` if a store goes to a place that doesn't allow writing.
/// * `BusAdrErr` if the page begins at or past the file's end.
/// * `Held` if a store goes to a held page and no copy frame is free.
/// * `NoFrame` if the page isn't in memory and no frame is free.
/// * `Device` if the page isn't in memory and the machine is broken, or the read fails.
///
/// After a failure the spaces and frames are unchanged.
pub fn fix<D: Device, A: Allocator + Copy>(
    spaces: &mut Spaces<A>,
    frames: &mut Frames<A>,
    checkpoint: &Checkpoint<A>,
    device: &mut D,
    fault: PageFault,
) -> Result<(), Refusal>
    requires mapped { place_at spaces.old.map fault.pcid fault.page ≡ Some fault.place }
    requires home { fault.home + 4096 ≤ length (D.seen device.old) }
    requires backed { AreBacked frames.old checkpoint.now spaces.old.map }
    requires frozen { All (λ page. is_in_memory frames.old page ≡ true) checkpoint.now.frozen }

    ensures done { IfOk result (λ _. FixDone (D.is_honest device.old) (D.seen device.old)
        spaces.old.map frames.old checkpoint.now fault spaces.new.map frames.new) }
    ensures refused { IfErr result (FixRefused frames.old checkpoint.now fault) }
    ensures unchanged { OnErr result ((spaces.new ≡ spaces.old) × (frames.new ≡ frames.old)) }
    ensures prepared { spaces.new.prepared ≡ spaces.old.prepared }

    // The device is asked for at most one read, and only if the page isn't in memory.
    ensures untouched { reads_home frames.old checkpoint.now fault ≡ false → device.new ≡ device.old }
    ensures device { reads_home frames.old checkpoint.now fault ≡ true
        → ReadsOnce D.seen D.may_leave D.is_honest D.moment D.left_since D.calls_made D.faults_met
        (is_err result) device.old device.new }

    ensures backed { AreBacked frames.new checkpoint.now spaces.new.map }
    ensures grows { Grows spaces.old.map spaces.new.map }
{
    let frame = frame_for(frames, checkpoint, device, fault)?;
    let writable = can_write(frames, checkpoint, fault.place);
    map_page(spaces, fault, frame, writable);
    Ok(())
}
