// The functions that a C program calls, as famsync_core.h declares them.
ghost use Rattle.std.specs.Prelude.{◌≡◌, ℕ, ◌*◌, List, length};

use crate::codes::{ARGUMENT, NO_MEMORY, OK};
use crate::handle::Handle;
use crate::state::State;
use crate::told::number_of;
use std::alloc::Global;

#[unsafe(no_mangle)]
pub extern "C" fn famsync_core_begin(alloc: Global, blocks: u32, at: &mut *mut u8) -> i32
    ghost content: { List ℕ }
    requires { length content ≡ 4096 * blocks }
{
    if blocks == 0 {
        return ARGUMENT;
    }
    match Box::new(alloc, State::begin(alloc, blocks)) {
        Ok(state) => {
            *at = Box::into_raw(state) as *mut u8;
            OK
        }
        Err(_) => NO_MEMORY,
    }
}

#[unsafe(no_mangle)]
pub extern "C" fn famsync_core_supply(
    handle: Handle,
    block: u32,
    bytes: &[u8],
    at: &mut *mut u8,
) -> i32 {
    let mut state = handle.into_box();
    let answer = state.supply(block, bytes);
    *at = Box::into_raw(state) as *mut u8;
    answer
}

#[unsafe(no_mangle)]
pub extern "C" fn famsync_core_is_known(handle: Handle, block: u32, at: &mut *mut u8) -> i32 {
    let state = handle.into_box();
    let answer = i32::from(state.is_known(block));
    *at = Box::into_raw(state) as *mut u8;
    answer
}

#[unsafe(no_mangle)]
pub extern "C" fn famsync_core_open(
    alloc: Global,
    handle: Handle,
    pages: u32,
    wanted: &mut u32,
    at: &mut *mut u8,
) -> i32 {
    let mut state = handle.into_box();
    let answer = state.open(alloc, pages, wanted);
    *at = Box::into_raw(state) as *mut u8;
    answer
}

#[unsafe(no_mangle)]
pub extern "C" fn famsync_core_files(handle: Handle, at: &mut *mut u8) -> i64 {
    let state = handle.into_box();
    let answer = state.files();
    *at = Box::into_raw(state) as *mut u8;
    answer
}

#[unsafe(no_mangle)]
pub extern "C" fn famsync_core_frames(handle: Handle, at: &mut *mut u8) -> i64 {
    let state = handle.into_box();
    let answer = state.frames();
    *at = Box::into_raw(state) as *mut u8;
    answer
}

#[unsafe(no_mangle)]
pub extern "C" fn famsync_core_head(handle: Handle, at: &mut *mut u8) -> i64 {
    let state = handle.into_box();
    let answer = state.head();
    *at = Box::into_raw(state) as *mut u8;
    answer
}

#[unsafe(no_mangle)]
pub extern "C" fn famsync_core_shares_syncs(handle: Handle, at: &mut *mut u8) -> i32 {
    let state = handle.into_box();
    let answer = state.shares_syncs();
    *at = Box::into_raw(state) as *mut u8;
    answer
}

#[unsafe(no_mangle)]
pub extern "C" fn famsync_core_file(
    handle: Handle,
    file: u32,
    length: &mut u64,
    pages: &mut u64,
    at: &mut *mut u8,
) -> i32 {
    let state = handle.into_box();
    let answer = state.file(file, length, pages);
    *at = Box::into_raw(state) as *mut u8;
    answer
}

#[unsafe(no_mangle)]
pub extern "C" fn famsync_core_file_name(
    handle: Handle,
    file: u32,
    name: &mut [u8],
    at: &mut *mut u8,
) -> i64 {
    let state = handle.into_box();
    let answer = state.file_name(file, name);
    *at = Box::into_raw(state) as *mut u8;
    answer
}

#[unsafe(no_mangle)]
pub extern "C" fn famsync_core_read(
    handle: Handle,
    file: u32,
    page: u64,
    bytes: &mut [u8],
    wanted: &mut u32,
    at: &mut *mut u8,
) -> i32 {
    let mut state = handle.into_box();
    let answer = state.read(file, page, bytes, wanted);
    *at = Box::into_raw(state) as *mut u8;
    answer
}

#[unsafe(no_mangle)]
pub extern "C" fn famsync_core_write(
    handle: Handle,
    file: u32,
    page: u64,
    bytes: &[u8],
    at: &mut *mut u8,
) -> i32 {
    let mut state = handle.into_box();
    let answer = state.write(file, page, bytes);
    *at = Box::into_raw(state) as *mut u8;
    answer
}

#[unsafe(no_mangle)]
pub extern "C" fn famsync_core_staged(handle: Handle, at: &mut *mut u8) -> i64 {
    let state = handle.into_box();
    let answer = state.staged();
    *at = Box::into_raw(state) as *mut u8;
    answer
}

#[unsafe(no_mangle)]
pub extern "C" fn famsync_core_is_staged(
    handle: Handle,
    file: u32,
    page: u64,
    at: &mut *mut u8,
) -> i32 {
    let state = handle.into_box();
    let answer = state.is_staged(file, page);
    *at = Box::into_raw(state) as *mut u8;
    answer
}

#[unsafe(no_mangle)]
pub extern "C" fn famsync_core_commit(
    handle: Handle,
    mark: &mut u32,
    wanted: &mut u32,
    at: &mut *mut u8,
) -> i32 {
    let mut state = handle.into_box();
    let answer = state.commit(mark, wanted);
    *at = Box::into_raw(state) as *mut u8;
    answer
}

#[unsafe(no_mangle)]
pub extern "C" fn famsync_core_acknowledged(handle: Handle, at: &mut *mut u8) -> i64 {
    let state = handle.into_box();
    let answer = state.acknowledged();
    *at = Box::into_raw(state) as *mut u8;
    answer
}

#[unsafe(no_mangle)]
pub extern "C" fn famsync_core_write_out(
    handle: Handle,
    most: u32,
    wanted: &mut u32,
    at: &mut *mut u8,
) -> i32 {
    let mut state = handle.into_box();
    let answer = state.write_out(most, wanted);
    *at = Box::into_raw(state) as *mut u8;
    answer
}

#[unsafe(no_mangle)]
pub extern "C" fn famsync_core_unwritten(handle: Handle, at: &mut *mut u8) -> i64 {
    let state = handle.into_box();
    let answer = state.unwritten();
    *at = Box::into_raw(state) as *mut u8;
    answer
}

#[unsafe(no_mangle)]
pub extern "C" fn famsync_core_log(
    handle: Handle,
    blocks: &mut u64,
    used: &mut u64,
    commits: &mut u64,
    at: &mut *mut u8,
) -> i32 {
    let state = handle.into_box();
    let answer = state.log(blocks, used, commits);
    *at = Box::into_raw(state) as *mut u8;
    answer
}

#[unsafe(no_mangle)]
pub extern "C" fn famsync_core_set_length(
    handle: Handle,
    file: u32,
    length: u64,
    wanted: &mut u32,
    at: &mut *mut u8,
) -> i32 {
    let mut state = handle.into_box();
    let answer = state.set_length(file, length, wanted);
    *at = Box::into_raw(state) as *mut u8;
    answer
}

#[unsafe(no_mangle)]
pub extern "C" fn famsync_core_waiting(handle: Handle, at: &mut *mut u8) -> i64 {
    let state = handle.into_box();
    let answer = number_of(state.waiting() as u64);
    *at = Box::into_raw(state) as *mut u8;
    answer
}

#[unsafe(no_mangle)]
pub extern "C" fn famsync_core_call(
    handle: Handle,
    index: u32,
    kind: &mut u32,
    offset: &mut u64,
    bytes: &mut *const u8,
    length: &mut u64,
    at: &mut *mut u8,
) -> i32 {
    let state = handle.into_box();
    let answer = state.call(index, kind, offset, bytes, length);
    *at = Box::into_raw(state) as *mut u8;
    answer
}

#[unsafe(no_mangle)]
pub extern "C" fn famsync_core_carried_out(handle: Handle, count: u32, at: &mut *mut u8) -> i32 {
    let mut state = handle.into_box();
    let answer = state.carried_out(count);
    *at = Box::into_raw(state) as *mut u8;
    answer
}

#[unsafe(no_mangle)]
pub extern "C" fn famsync_core_forget(handle: Handle, block: u32, at: &mut *mut u8) -> i32 {
    let mut state = handle.into_box();
    let answer = state.forget(block);
    *at = Box::into_raw(state) as *mut u8;
    answer
}

#[unsafe(no_mangle)]
pub extern "C" fn famsync_core_close(handle: Handle) {
    let _state = handle.into_box();
}
