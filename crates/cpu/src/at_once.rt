// Loads and stores of many bytes of a page at once.
ghost use Rattle.std.specs.Prelude.{◌≡◌, true, false, length, None, IfSome, IsSome};
ghost use Rattle.frames.specs.Frames.{frame_at};
ghost use Rattle.spaces.specs.Spaces.{Spaces};
ghost use Rattle.cpu.specs.Access.{hardware, IsReachable};
ghost use Rattle.cpu.specs.AtOnce.{frame_cached, count_at_once, stored_at_once, loaded_at_once};

use crate::translation::served;
use frames::Frames;
use page_entry::{ADDRESS_END, FrameNumber, PAGE, ProcessorNumber};
use shootdown::Shootdown;
use std::alloc::Allocator;

// Returns the frame that a processor's accesses at an address reach through a cached entry.
fn frame_cached<A: Allocator + Copy>(
    shootdown: &Shootdown<A>,
    p: ProcessorNumber,
    va: u64,
    write: bool,
) -> Option<FrameNumber>
    ensures frame { result ≡ frame_cached shootdown.now p va write }
{
    if shootdown.admit(p).is_err() || va >= ADDRESS_END {
        return None;
    }
    served(shootdown.cached(p, va / PAGE), write)
}

/// Returns up to `count` bytes from an address of a processor's current space, up to the end of its page. They are the
/// bytes that successive loads of up to eight bytes would return, and nothing changes. Returns no byte if the processor
/// caches no entry of the page.
pub fn load_run<'f, A: Allocator + Copy>(
    shootdown: &Shootdown<A>,
    frames: &'f Frames<A>,
    p: ProcessorNumber,
    va: u64,
    count: usize,
) -> &'f [u8]
    requires { (spaces : Spaces) × IsReachable (hardware shootdown.now spaces frames.now) }
    ensures loaded { result.now ≡ loaded_at_once (frame_cached shootdown.now p va false) frames.now va count }
    ensures count { length result.now ≡ count_at_once (frame_cached shootdown.now p va false) va count }
{
    let Some(frame) = frame_cached(shootdown, p, va, false) else {
        return &[];
    };
    let at = (va % PAGE) as usize;
    let count = count.min(4096 - at);
    &frames.bytes(frame)[at..at + count]
}

/// Writes bytes to an address of a processor's current space, up to the end of its page. Returns the number of bytes
/// that were written. The effect is that of successive stores of up to eight bytes. Writes nothing if the processor
/// caches no entry of the page that is writable and dirty.
pub fn store_run<A: Allocator + Copy>(
    shootdown: &Shootdown<A>,
    frames: &mut Frames<A>,
    p: ProcessorNumber,
    va: u64,
    bytes: &[u8],
) -> usize
    requires { (spaces : Spaces) × IsReachable (hardware shootdown.now spaces frames.old) }
    ensures count { result ≡ count_at_once (frame_cached shootdown.now p va true) va (length bytes.now) }
    ensures stored { frames.new ≡ stored_at_once (frame_cached shootdown.now p va true) frames.old va bytes.now }
{
    let Some(frame) = frame_cached(shootdown, p, va, true) else {
        return 0;
    };
    let at = (va % PAGE) as usize;
    let count = bytes.len().min(4096 - at);
    frames.write(frame, at, &bytes[..count]);
    count
}
