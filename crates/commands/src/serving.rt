// A session on the volume in a file. Requests are read from the input, and answered on the output.
ghost use Rattle.std.specs.Prelude.{◌++◌, ◌∷◌, [], codes, OnOk};
ghost use Rattle.std.specs.Fmt.{decimal};
ghost use Rattle.std.specs.Io.KnownBytes.{Appends};
ghost use Rattle.std.specs.List.{flat_map};
ghost use Rattle.session.specs.Ranges.{MakesStepsThat};
ghost use Rattle.commands.specs.inside.Greeting.{file_text, greeting_text, ListsAndAnswers};

use crate::failure::Failure;
use crate::log::show_log;
use crate::shape::{NotBooted, refused_to_run};
use device::Device;
use machine::Shape;
use scripts::ScriptFault;
use session::{FileLine, Line, Session, SessionFault, read_line, read_shape, serve_on, start};
use std::alloc::{Allocator, Global};
use std::fs::File;
use std::io;
use std::io::{BufRead, BufReader};
use std::rt::Files;
use volume_files::{SyncNote, has_log, open_to_write, place};

/// The name of the input in messages about its first line.
const INPUT: &str = "-";

/// Reads the shape of a machine, opens the volume in the file `path`, and answers one request on each line until the
/// input ends. The first line, which contains the shape, is read before the disk is opened. `note` receives the note on
/// syncs that failed.
pub fn serve<'a, R: Files<File = File> + Input + AllocGlobal, A: Allocator + Copy, W: io::Write>(
    rt: &R,
    alloc: A,
    path: &'a str,
    trust: bool,
    out: &mut W,
    note: &mut SyncNote,
) -> Result<(), Failure<'a>> {
    let mut input = match BufReader::new(alloc, rt.reader()) {
        Ok(input) => input,
        Err(cause) => return Err(Failure::Input(cause)),
    };
    let shape = first_line(rt, alloc, &mut input)?;
    let place = place(rt, path)?;
    let disk = open_to_write(rt, path, &place, trust, note)?;
    let requests = Requests {
        global: rt.alloc(),
        alloc,
        shape,
        input: &mut input,
        out,
    };
    let (served, disk) = requests.serve(disk);
    *note = disk.into_file().into_note();
    match served {
        Ok(served) => outcome(path, served),
        Err(cause) => Err(cause.of_file(path)),
    }
}

/// The end of a session.
struct Served {
    /// Whether the session answered all requests of the input.
    ended: Result<(), SessionFault>,
    /// Whether a reply reported that the device failed.
    has_failed: bool,
}

/// The parts of a session besides the device of its volume.
#[derive(Drop)]
struct Requests<'i, A, I, W> {
    global: Global,
    alloc: A,
    shape: Shape,
    input: &'i mut I,
    out: &'i mut W,
}

impl<A: Allocator + Copy, I: BufRead, W: io::Write> Requests<'_, A, I, W> {
    // Answers the requests on the volume of a device, with journals or with a log. Returns the device.
    fn serve<'a, D: Device>(self, mut device: D) -> (Result<Served, NotBooted<'a>>, D) {
        match has_log(&mut device) {
            Ok(false) => self.serve_disk(device),
            Ok(true) => self.serve_log(device),
            Err(refusal) => {
                let cause = refused_to_run(self.alloc, refusal, &mut device, self.shape);
                (Err(cause), device)
            }
        }
    }

    // Answers the requests on the volume with a log of a device. Returns the device.
    fn serve_log<'a, D: Device>(self, device: D) -> (Result<Served, NotBooted<'a>>, D) {
        match show_log(self.alloc, device) {
            Ok(disk) => {
                let (served, disk) = self.serve_disk(disk);
                (served, disk.into_device())
            }
            Err((cause, device)) => (Err(cause), device),
        }
    }

    // Answers the requests on the volume with journals of a device. Returns the device.
    fn serve_disk<'a, D: Device>(self, device: D) -> (Result<Served, NotBooted<'a>>, D) {
        let Requests {
            global,
            alloc,
            shape,
            input,
            out,
        } = self;
        match start(alloc, device, shape) {
            Ok(mut session) => {
                let ended = serve_session(global, alloc, &mut session, input, out);
                let has_failed = session.notes().has_failed;
                (Ok(Served { ended, has_failed }), session.into_device())
            }
            Err((refusal, mut device)) => {
                let cause = refused_to_run(alloc, refusal, &mut device, shape);
                (Err(cause), device)
            }
        }
    }
}

// Reads the shape from the first line.
fn first_line<'a, R, A, I>(rt: &R, alloc: A, input: &mut I) -> Result<Shape, Failure<'a>>
where
    R: AllocGlobal,
    A: Allocator + Copy,
    I: BufRead,
{
    let mut line = Vec::new(alloc);
    let found = match read_line(input, &mut line) {
        Ok(found) => found,
        Err(cause) => return Err(Failure::Input(cause)),
    };
    if found == Line::Long {
        return Err(Failure::Script {
            path: INPUT,
            cause: ScriptFault::NotAnObject,
        });
    }
    match read_shape(rt.alloc(), &line) {
        Ok(shape) => Ok(shape),
        Err(ScriptFault::Memory(cause)) => Err(Failure::Memory(cause)),
        Err(cause) => Err(Failure::Script { path: INPUT, cause }),
    }
}

// Lists the files, and answers the requests. On success nothing else was written to the output.
fn serve_session<D, A, I, W>(
    global: Global,
    alloc: A,
    session: &mut Session<D, A>,
    input: &mut I,
    out: &mut W,
) -> Result<(), SessionFault>
where
    D: Device,
    A: Allocator + Copy,
    I: BufRead,
    W: io::Write,
    ensures { OnOk result (MakesStepsThat D.Device session.old.machine session.old.notes
        (ListsAndAnswers session.old.files.lines.items session.old.notes (I.remaining input.old) (I.remaining input.new)
        (W.contents out.old) (W.contents out.new)) session.new.machine session.new.notes) }
{
    match greet(&session.files().lines, out) {
        Ok(()) => serve_on(global, alloc, session, input, out),
        Err(cause) => Err(SessionFault::Output(cause)),
    }
}

// Prints a line with the number of files, and a line with the name and the length of each file.
fn greet<A: Allocator + Copy, W: io::Write>(files: &[FileLine<A>], out: &mut W) -> io::Result<()>
    ensures { OnOk result (Appends (W.contents out.old) (W.contents out.new) (greeting_text files.now)) }
{
    write_count(files.len(), out)?;
    write_files(files, out)?;
    out.flush()
}

fn write_count<W: io::Write>(count: usize, out: &mut W) -> io::Result<()>
    ensures { OnOk result (Appends (W.contents out.old) (W.contents out.new)
        (codes "ready " ++ decimal count ++ 10 ∷ [])) }
{
    writeln!(out, "ready {count}")
}

fn write_files<A: Allocator + Copy, W: io::Write>(
    files: &[FileLine<A>],
    out: &mut W,
) -> io::Result<()>
    ensures { OnOk result (Appends (W.contents out.old) (W.contents out.new) (flat_map file_text files.now)) }
{
    for file in files {
        write_file(file, out)?;
    }
    Ok(())
}

fn write_file<A: Allocator + Copy, W: io::Write>(file: &FileLine<A>, out: &mut W) -> io::Result<()>
    ensures { OnOk result (Appends (W.contents out.old) (W.contents out.new) (file_text file.now)) }
{
    writeln!(out, "{} {}", file.name, file.length)
}

// Returns the outcome of a session. It is an error if the session ended before its input, or a reply reported that the
// device failed.
fn outcome(path: &str, served: Served) -> Result<(), Failure<'_>> {
    let Served { ended, has_failed } = served;
    match ended {
        Ok(()) if has_failed => Err(Failure::Session { path }),
        Ok(()) => Ok(()),
        Err(SessionFault::Input(cause)) => Err(Failure::Input(cause)),
        Err(SessionFault::Output(cause)) => Err(Failure::Output(cause)),
        Err(SessionFault::Memory(cause)) => Err(Failure::Memory(cause)),
    }
}
