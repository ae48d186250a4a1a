// Making a volume, migrating one, and copying a file out of one. Each prints how much it made.
ghost use Rattle.std.specs.Prelude.{◌≡◌, ℕ, Some, IsOkAnd};

use crate::print::print_count;
use crate::progress::Progress;
use command_line::{Logged, Make, Migration, NewLayout, Seal};
use log_codec::Sealing;
use std::alloc::Allocator;
use std::fs::File;
use std::io;
use std::io::IsTerminal;
use std::rt::Files;
use volume_files::{
    ExportPlan, FileFailure, LogPlan, MigrationPlan, NewVolume, Plan, SyncNote, draw_key,
};

/// Makes what is requested: a volume, a volume from another one, or a copy of one of its files. Prints the number of
/// its blocks or bytes.
///
/// If a sync failed, `note` contains the message about it. If `err` is a terminal, it shows how much of a copy is
/// written.
pub fn make<'a, R, A, W, E>(
    rt: &R,
    alloc: A,
    asked: Make<'a, A>,
    out: &mut W,
    err: &mut E,
    note: &mut SyncNote,
) -> Result<(), FileFailure<'a>>
where
    R: Files<File = File> + AllocGlobal,
    A: Allocator + Copy,
    W: io::Write,
    E: io::Write + IsTerminal,
{
    let global = rt.alloc();
    match asked {
        Make::Volume {
            layout,
            disk,
            slots,
            files,
            preallocate,
            json,
        } => {
            let plan = Plan {
                layout,
                files: &files,
                slots,
                preallocate,
            };
            let blocks = volume_files::format(rt, alloc, disk, plan)?;
            print_count(global, json, "formatted", blocks, "blocks", out)
        }
        Make::Logged(asked) => {
            let blocks = logged(rt, alloc, &asked)?;
            print_count(global, asked.json, "formatted", blocks, "blocks", out)
        }
        Make::Migration(asked) => {
            let plan = migration(&asked, new_volume(rt, asked.layout)?);
            let mut progress = Progress::new(err, "migrating");
            let made = volume_files::migrate(rt, alloc, plan, asked.trust, note, &mut progress);
            progress.clear();
            print_count(global, asked.json, "migrated", made?, "blocks", out)
        }
        Make::Copy(asked) => {
            let plan = ExportPlan {
                disk: asked.disk,
                file: asked.file,
                out: asked.out,
            };
            let mut progress = Progress::new(err, "exporting");
            let made = volume_files::export(rt, alloc, plan, asked.trust, note, &mut progress);
            progress.clear();
            print_count(global, asked.json, "exported", made?, "bytes", out)
        }
    }
}

// Makes a volume with a log, and returns the number of its blocks.
fn logged<'a, R, A>(rt: &R, alloc: A, asked: &Logged<'a, A>) -> Result<u64, FileFailure<'a>>
where
    R: Files<File = File> + AllocGlobal,
    A: Allocator + Copy,
{
    let plan = LogPlan {
        sealing: sealing(rt, asked.seal)?,
        files: &asked.files,
        ring: asked.log,
        replace: asked.replace,
        preallocate: asked.preallocate,
    };
    volume_files::format_log(rt, alloc, asked.disk, plan)
}

// Returns how a volume with a log seals its commits. A missing key is drawn at random.
fn sealing<'a, R: Files<File = File>>(rt: &R, seal: Seal) -> Result<Sealing, FileFailure<'a>>
    ensures byte { seal ≡ Seal.Byte → IsOkAnd result (λ sealing. sealing ≡ Sealing.ByByte) }
    ensures given { (key : ℕ) → seal ≡ Seal.Digest (Some key)
        → IsOkAnd result (λ sealing. sealing ≡ Sealing.ByDigest key) }
{
    match seal {
        Seal::Byte => Ok(Sealing::ByByte),
        Seal::Digest(Some(key)) => Ok(Sealing::ByDigest(key)),
        Seal::Digest(None) => {
            let key = draw_key(rt)?;
            Ok(Sealing::ByDigest(key))
        }
    }
}

// Returns what a new volume has besides its files. A missing key is drawn at random.
fn new_volume<'a, R: Files<File = File>>(
    rt: &R,
    layout: NewLayout,
) -> Result<NewVolume, FileFailure<'a>>
    ensures journals { (number slots : ℕ) → layout ≡ NewLayout.Journals number slots
        → IsOkAnd result (λ new. new ≡ NewVolume.Journals number slots) }
    ensures byte { (blocks : ℕ) → layout ≡ NewLayout.Log Seal.Byte blocks
        → IsOkAnd result (λ new. new ≡ NewVolume.Log Sealing.ByByte blocks) }
    ensures given { (key blocks : ℕ) → layout ≡ NewLayout.Log (Seal.Digest (Some key)) blocks
        → IsOkAnd result (λ new. new ≡ NewVolume.Log (Sealing.ByDigest key) blocks) }
{
    match layout {
        NewLayout::Journals { layout, slots } => Ok(NewVolume::Journals { layout, slots }),
        NewLayout::Log { seal, blocks } => match sealing(rt, seal) {
            Ok(sealing) => Ok(NewVolume::Log {
                sealing,
                ring: blocks,
            }),
            Err(failure) => Err(failure),
        },
    }
}

// Returns the plan of a migration: its source and its target.
fn migration<'a>(asked: &Migration<'a>, volume: NewVolume) -> MigrationPlan<'a>
    ensures old { result.old ≡ asked.now.old }
    ensures new { result.new ≡ asked.now.new }
    ensures volume { result.volume ≡ volume }
    ensures preallocate { result.preallocate ≡ asked.now.preallocate }
{
    MigrationPlan {
        old: asked.old,
        new: asked.new,
        volume,
        preallocate: asked.preallocate,
    }
}
