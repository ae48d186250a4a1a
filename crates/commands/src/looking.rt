// Prints the contents and the files of the volume in a file, which is only read. Code that runs once the disk is open
// is generic over devices, since this costs the prover less than a concrete device.
ghost use Rattle.std.specs.Prelude.{◌≡◌, ◌≤◌, length, IfOk};
ghost use Rattle.log_volume.specs.Super.{log_of};
ghost use Rattle.log_recovery.specs.Reading.{IsFoundLog};
ghost use Rattle.commands.specs.inside.Health.{health_status};

use crate::print::print_value;
use command_line::{Look, Sight};
use device::Device;
use inspection::{
    Found, Health, damage_value, examine, examine_log, found_value, health_value, inspect,
    log_found_value, write_file_lines, write_found, write_log_found,
};
use page_entry::Refusal;
use std::alloc::{Allocator, Global};
use std::fs::File;
use std::io;
use std::rt::Files;
use volume_files::{
    Access, FileFailure, Refused, SyncNote, dump, not_listed, not_read, open_disk, place,
    refused_to_read,
};
use volume_reading::{LoggedVolume, read_log_volume};

/// Prints what `look` asks for about a volume, and returns the exit status: 0, or 0, 1 or 3 for a volume's health. If a
/// sync failed, `note` contains the message about it.
pub fn look<'a, R: Files<File = File> + AllocGlobal, A: Allocator + Copy, W: io::Write>(
    rt: &R,
    alloc: A,
    look: Look<'a>,
    out: &mut W,
    note: &mut SyncNote,
) -> Result<u8, FileFailure<'a>>
    ensures { IfOk result (λ status. status ≤ 3) }
{
    let place = place(rt, look.disk)?;
    let disk = open_disk(rt, look.disk, &place, Access::Read, look.trust, note)?;
    print_sight(rt.alloc(), alloc, look, disk, out)
}

// Prints what `look` asks for about the volume of a device, and returns the exit status.
fn print_sight<'a, D, A, W>(
    global: Global,
    alloc: A,
    look: Look<'a>,
    mut disk: D,
    out: &mut W,
) -> Result<u8, FileFailure<'a>>
where
    D: Device + Drop,
    A: Allocator + Copy,
    W: io::Write,
    ensures { IfOk result (λ status. status ≤ 3) }
{
    match look.sight {
        Sight::Health => check_disk(global, alloc, look, &mut disk, out),
        Sight::Bytes => {
            print_bytes(global, alloc, look, &mut disk, out)?;
            Ok(0)
        }
        Sight::Files => {
            if look.json {
                print_lines(global, alloc, look.disk, &mut disk, out)?;
            } else {
                dump(alloc, look.disk, &mut disk, out)?;
            }
            Ok(0)
        }
    }
}

// Prints the contents of the volume of a device, with journals or with a log.
fn print_bytes<'a, D: Device, A: Allocator + Copy, W: io::Write>(
    global: Global,
    alloc: A,
    look: Look<'a>,
    disk: &mut D,
    out: &mut W,
) -> Result<(), FileFailure<'a>> {
    match inspect(alloc, disk) {
        Ok(found) => print_found(global, look.json, &found, out),
        Err(Refusal::NotAVolume) => match read_log_volume(alloc, disk) {
            Ok(found) => print_log_found(global, look.json, &found, out),
            Err(refusal) => Err(not_read(alloc, look.disk, refusal, disk)),
        },
        Err(refusal) => Err(not_read(alloc, look.disk, refusal, disk)),
    }
}

fn print_found<'a, A: Allocator + Copy, W: io::Write>(
    global: Global,
    json: bool,
    found: &Found<A>,
    out: &mut W,
) -> Result<(), FileFailure<'a>>
    requires { length found.now.lengths.items ≡ length found.now.table.files }
{
    if json {
        let value = found_value(global, found)?;
        return print_value(global, &value, out);
    }
    write_found(found, out)?;
    Ok(())
}

fn print_log_found<'a, A: Allocator + Copy, W: io::Write>(
    global: Global,
    json: bool,
    found: &LoggedVolume<A>,
    out: &mut W,
) -> Result<(), FileFailure<'a>>
    requires count { length found.now.lengths.items ≡ length found.now.table.files }
    requires log { IsFoundLog (log_of found.now.table) found.now.log }
{
    if json {
        let value = log_found_value(global, found)?;
        return print_value(global, &value, out);
    }
    write_log_found(found, out)?;
    Ok(())
}

// Prints the health of the volume of a device, and returns the exit status.
fn check_disk<'a, D: Device, A: Allocator + Copy, W: io::Write>(
    global: Global,
    alloc: A,
    look: Look<'a>,
    disk: &mut D,
    out: &mut W,
) -> Result<u8, FileFailure<'a>>
    ensures { IfOk result (λ status. status ≤ 3) }
{
    match health_of(alloc, disk) {
        Ok(health) => tell_health(global, look.json, health, out),
        Err(Refusal::Damaged) => {
            let cause = refused_to_read(alloc, Refusal::Damaged, disk);
            print_damage(global, look.json, &cause, out)?;
            Ok(3)
        }
        Err(refusal) => Err(not_read(alloc, look.disk, refusal, disk)),
    }
}

// Returns the health of the volume of a device, with journals or with a log.
fn health_of<D: Device, A: Allocator + Copy>(alloc: A, disk: &mut D) -> Result<Health, Refusal> {
    match examine(alloc, disk) {
        Ok(health) => Ok(health),
        Err(Refusal::NotAVolume) => examine_log(alloc, disk),
        Err(refusal) => Err(refusal),
    }
}

// Prints the health of a volume that isn't damaged, and returns the exit status.
fn tell_health<'a, W: io::Write>(
    global: Global,
    json: bool,
    health: Health,
    out: &mut W,
) -> Result<u8, FileFailure<'a>>
    ensures status { IfOk result (λ status. status ≡ health_status health) }
    ensures small { IfOk result (λ status. status ≤ 3) }
{
    print_health(global, json, health, out)?;
    Ok(status_of(health))
}

fn status_of(health: Health) -> u8
    ensures status { result ≡ health_status health }
    ensures small { result ≤ 3 }
{
    match health {
        Health::Clean => 0,
        Health::NeedsOpening => 1,
    }
}

fn print_health<'a, W: io::Write>(
    global: Global,
    json: bool,
    health: Health,
    out: &mut W,
) -> Result<(), FileFailure<'a>> {
    if json {
        let value = health_value(global, health)?;
        return print_value(global, &value, out);
    }
    writeln!(out, "{health}")?;
    Ok(())
}

// Prints that a volume is damaged, and why.
fn print_damage<'a, W: io::Write>(
    global: Global,
    json: bool,
    refused: &Refused<'_>,
    out: &mut W,
) -> Result<(), FileFailure<'a>> {
    if json {
        let cause = match &refused.cause {
            Some(cause) => format!(in global; "{cause}")?,
            None => String::new(global),
        };
        let value = damage_value(global, cause.as_str())?;
        return print_value(global, &value, out);
    }
    writeln!(out, "{refused}")?;
    Ok(())
}

// Prints the files of the volume of a device as lines of JSON.
fn print_lines<'a, D, A, W>(
    global: Global,
    alloc: A,
    path: &'a str,
    disk: &mut D,
    out: &mut W,
) -> Result<(), FileFailure<'a>>
where
    D: Device,
    A: Allocator + Copy,
    W: io::Write,
{
    match write_file_lines(global, alloc, disk, out) {
        Ok(Ok(())) => Ok(()),
        Ok(Err(fault)) => Err(not_listed(path, fault)),
        Err(refusal) => Err(not_read(alloc, path, refusal, disk)),
    }
}
