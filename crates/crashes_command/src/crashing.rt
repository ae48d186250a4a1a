// What a crash within each device call of a script leaves.
use crate::json::{json_end, json_row};
use crate::page::{begin_page, end_page, reply_on_page, row_on_page};
use crate::printed::Printed;
use crate::text::{text_end, text_reply, text_row};
use command_line::{Form, Scripted};
use commands::{Failure, NotBooted, read_script, refused_to_run, show_log};
use crash_states::{Call, CrashFault, LogPlaces, Places, Row, VolumePlaces};
use crash_table::{CrashedRun, LogTrial, Rows, Trial, Twin};
use device::{Device, MemDisk};
use log_volume::{LogSuper, read_log_super};
use machine::{Reply, Shape};
use page_entry::{PAGE, Refusal};
use scripts::Script;
use std::alloc::{AllocError, Allocator};
use std::fs::File;
use std::io;
use std::rt::Files;
use volume_codec::{Super, read_super};
use volume_files::{
    Access, Refused, SyncNote, first_block, has_log, not_opened, open_disk, place, refused_to_open,
    refused_to_read, unreadable,
};

/// Prints what a crash within each device call of a script leaves of the volume in a file. The script is run on copies
/// of the volume in memory, once for each crash state. For each state, the mark is printed whose files an opening
/// finds. The file is only read. The script is read whole before the disk is opened.
pub fn crashes<'a, R: Files<File = File> + AllocGlobal, A: Allocator + Copy, W: io::Write>(
    rt: &R,
    alloc: A,
    asked: Scripted<'a>,
    form: Form,
    out: &mut W,
    note: &mut SyncNote,
) -> Result<(), Failure<'a>> {
    let path = asked.disk;
    let steps = read_script(rt, alloc, asked.script)?;
    let place = place(rt, path)?;
    let mut disk = open_disk(rt, path, &place, Access::Read, asked.trust, note)?;
    let places = match read_places(alloc, &mut disk) {
        Ok(places) => places,
        Err(cause) => return Err(Failure::File(not_opened(path, cause))),
    };
    let Some(image) = read_image(alloc, &mut disk)? else {
        return Err(Failure::File(unreadable(path, Refusal::Device)));
    };
    match print_crashes(alloc, asked.script, &steps, &image, &places, form, out)? {
        Ok(()) => Ok(()),
        Err(refusal) => {
            let cause = match &places {
                VolumePlaces::Journals(_) => {
                    refused_to_run(alloc, refusal, &mut disk, steps.shape)
                }
                VolumePlaces::Log(_) => refused_by_log(alloc, refusal, &image, steps.shape),
            };
            Err(cause.of_file(path))
        }
    }
}

// Returns why no machine of this shape can run on the volume with a log that has these bytes.
fn refused_by_log<'a, A: Allocator + Copy>(
    alloc: A,
    refusal: Refusal,
    image: &[u8],
    shape: Shape,
) -> NotBooted<'a> {
    let Ok(copy) = copy_of(alloc, image) else {
        return NotBooted::Disk(Refused {
            refusal: Refusal::OutOfMemory,
            cause: None,
        });
    };
    match show_log(alloc, copy) {
        Ok(mut shown) => refused_to_run(alloc, refusal, &mut shown, shape),
        Err((cause, _)) => cause,
    }
}

// A disk in memory with these bytes.
fn copy_of<A: Allocator + Copy>(alloc: A, image: &[u8]) -> Result<MemDisk<A>, AllocError> {
    MemDisk::from_bytes(alloc, Vec::from_slice(alloc, image)?)
}

// Prints what the crashes of a run of these steps leave of a volume with these bytes. If the run can't begin, returns
// the cause.
fn print_crashes<'a, A: Allocator + Copy, W: io::Write>(
    alloc: A,
    script: &'a str,
    steps: &Script<A>,
    image: &[u8],
    places: &VolumePlaces<A>,
    form: Form,
    out: &mut W,
) -> Result<Result<(), Refusal>, Failure<'a>> {
    match places {
        VolumePlaces::Journals(_) => match Trial::new(alloc, image, steps.shape, &steps.steps) {
            Ok(trial) => ended(script, print_trial(alloc, &trial, places, form, out)),
            Err(fault) => not_begun(script, fault),
        },
        VolumePlaces::Log(_) => {
            let twin = match Twin::new(alloc, image) {
                Ok(twin) => twin,
                Err(fault) => return not_begun(script, fault),
            };
            match LogTrial::new(alloc, &twin, steps.shape, &steps.steps) {
                Ok(trial) => ended(script, print_trial(alloc, &trial, places, form, out)),
                Err(fault) => not_begun(script, fault),
            }
        }
    }
}

// Why a run doesn't begin.
fn not_begun(script: &str, fault: CrashFault) -> Result<Result<(), Refusal>, Failure<'_>> {
    match fault {
        CrashFault::Refused(refusal) => Ok(Err(refusal)),
        fault => Err(failure_of(script, fault)),
    }
}

// How the printing of a run ended.
fn ended(
    script: &str,
    printed: io::Result<Result<(), CrashFault>>,
) -> Result<Result<(), Refusal>, Failure<'_>> {
    match printed {
        Ok(Ok(())) => Ok(Ok(())),
        Ok(Err(fault)) => Err(failure_of(script, fault)),
        Err(fault) => Err(Failure::Output(fault)),
    }
}

// Prints what the crashes of a run leave.
fn print_trial<T: CrashedRun<A>, A: Allocator + Copy, W: io::Write>(
    alloc: A,
    trial: &T,
    places: &VolumePlaces<A>,
    form: Form,
    out: &mut W,
) -> io::Result<Result<(), CrashFault>> {
    match Rows::new(alloc, trial) {
        Ok(mut rows) => print_rows(alloc, trial, places, &mut rows, form, out),
        Err(fault) => Ok(Err(fault)),
    }
}

fn failure_of(script: &str, fault: CrashFault) -> Failure<'_> {
    match fault {
        CrashFault::Memory(cause) => Failure::Memory(cause),
        CrashFault::Refused(cause) => Failure::Crashes {
            path: script,
            cause,
        },
        CrashFault::Otherwise => Failure::Otherwise { path: script },
    }
}

// The most bytes that are read at once.
const PIECE: u64 = 1 << 20;

// Returns all bytes of a device, or `None` if they can't be read.
fn read_image<D: Device, A: Allocator + Copy>(
    alloc: A,
    disk: &mut D,
) -> Result<Option<Vec<u8, A>>, AllocError> {
    let len = disk.len();
    let mut image = vec![in alloc; 0; len as usize]?;
    for piece in 0..len.div_ceil(PIECE) {
        if !read_piece(disk, PIECE.saturating_mul(piece), &mut image) {
            return Ok(None);
        }
    }
    Ok(Some(image))
}

// Reads a piece of a device into the same part of its image, and returns whether it could be read.
fn read_piece<D: Device>(disk: &mut D, at: u64, image: &mut [u8]) -> bool {
    let from = image.len().min(at as usize);
    let count = (image.len() - from).min(PIECE as usize);
    read_part(disk, at, &mut image[from..from + count])
}

// Reads a part of a device, and returns whether it exists and could be read.
fn read_part<D: Device>(disk: &mut D, at: u64, part: &mut [u8]) -> bool {
    match at.checked_add(part.len() as u64) {
        Some(end) if end <= disk.len() => disk.read(at, part).is_ok(),
        _ => false,
    }
}

// Returns where the parts of the volume on a device are.
fn read_places<'a, D: Device, A: Allocator + Copy>(
    alloc: A,
    disk: &mut D,
) -> Result<VolumePlaces<A>, Refused<'a>> {
    match has_log(disk) {
        Ok(true) => match read_log_table(alloc, disk) {
            Ok(table) => Ok(VolumePlaces::Log(LogPlaces { table })),
            Err(refusal) => Err(refused_to_read(alloc, refusal, disk)),
        },
        Ok(false) => match read_table(alloc, disk) {
            Ok(table) => Ok(VolumePlaces::Journals(Places { table })),
            Err(refusal) => Err(refused_to_open(alloc, refusal, disk)),
        },
        Err(refusal) => Err(refused_to_open(alloc, refusal, disk)),
    }
}

// The table of the super block of a device.
fn read_table<D: Device, A: Allocator + Copy>(alloc: A, disk: &mut D) -> Result<Super<A>, Refusal> {
    match first_block(disk) {
        Some(block) => read_super(alloc, &block),
        None if disk.len() < PAGE => Err(Refusal::NotAVolume),
        None => Err(Refusal::Device),
    }
}

// The table of the super block of a device that has a log.
fn read_log_table<D: Device, A: Allocator + Copy>(
    alloc: A,
    disk: &mut D,
) -> Result<LogSuper<A>, Refusal> {
    match first_block(disk) {
        Some(block) => read_log_super(alloc, &block),
        None => Err(Refusal::Device),
    }
}

// Prints the rows, each after the replies that came before its call.
fn print_rows<T: CrashedRun<A>, A: Allocator + Copy, W: io::Write>(
    alloc: A,
    trial: &T,
    places: &VolumePlaces<A>,
    rows: &mut Rows<'_, T, A>,
    form: Form,
    out: &mut W,
) -> io::Result<Result<(), CrashFault>> {
    if form == Form::Html {
        begin_page(out)?;
    }
    let mut printed = Printed {
        calls: trial.calls().len() as u64,
        states: 0,
    };
    let mut shown = 0;
    for _ in 0..u64::MAX {
        let row = match rows.next() {
            Ok(Some(row)) => row,
            Ok(None) => break,
            Err(fault) => return Ok(Err(fault)),
        };
        let before = trial.replies_before(row.number);
        let replies = between(trial.replies(), shown, before);
        shown = before;
        let call = call_of(trial.calls(), row.number);
        print_row(alloc, places, call, replies, &row, form, out)?;
        printed.states = printed.states.saturating_add(row.found.len() as u64);
    }
    match form {
        Form::Text => text_end(printed, out)?,
        Form::Json => json_end(printed, out)?,
        Form::Html => end_page(printed, out)?,
    }
    Ok(Ok(()))
}

// The replies from `from` up to but not including `to`.
fn between(replies: &[Reply], from: usize, to: usize) -> &[Reply] {
    replies.get(from..to).unwrap_or(&[])
}

// The call of this number, counted from 1. At the end of the run there is none.
fn call_of<A: Allocator + Copy>(calls: &[Call<A>], number: u64) -> Option<&Call<A>> {
    calls.get((number as usize).checked_sub(1)?)
}

fn print_row<A: Allocator + Copy, W: io::Write>(
    alloc: A,
    places: &VolumePlaces<A>,
    call: Option<&Call<A>>,
    replies: &[Reply],
    row: &Row<A>,
    form: Form,
    out: &mut W,
) -> io::Result<()> {
    match form {
        Form::Text => {
            for reply in replies {
                text_reply(reply, out)?;
            }
            text_row(alloc, places, call, row, out)
        }
        Form::Json => json_row(places, call, replies, row, out),
        Form::Html => {
            for reply in replies {
                reply_on_page(reply, out)?;
            }
            row_on_page(alloc, places, call, row, out)
        }
    }
}
