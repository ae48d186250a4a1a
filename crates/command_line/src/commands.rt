// The commands, with their options, their words and their help.
use clap::{Arg, ArgAction, Command};
use std::alloc::{AllocError, Global};

// An option of a command.
#[derive(Clone, Copy)]
enum Choice {
    Layout,
    Log,
    Key,
    NewLayout,
    Replace,
    Preallocate,
    Trust,
    Json,
    JsonLines,
    Html,
}

// A command. `usage` is its usage text, if that isn't derived from the rest. `words` are required, and `optional` words
// may be left out. `last` is a word that may be repeated after them. Each word has its name and its help.
#[derive(Clone, Copy)]
struct Shape {
    name: &'static str,
    about: &'static str,
    usage: Option<&'static str>,
    options: &'static [Choice],
    words: &'static [(&'static str, &'static str)],
    optional: &'static [(&'static str, &'static str)],
    last: Option<(&'static str, &'static str)>,
}

const DISK: (&str, &str) = ("DISK", "The volume's file");

const SCRIPT: (&str, &str) = ("SCRIPT", "The script's file, which contains a JSON object");

// The defaults of a command's fields.
const PLAIN: Shape = Shape {
    name: "",
    about: "",
    usage: None,
    options: &[],
    words: &[],
    optional: &[],
    last: None,
};

const COMMANDS: &[Shape] = &[
    Shape {
        name: "format",
        about: "Makes the volume DISK; all bytes of its files are 0",
        usage: Some(
            "famsync format [OPTIONS] <DISK> <FILE>...\n       famsync format [OPTIONS] <DISK> <SLOTS> <FILE>...",
        ),
        options: &[
            Choice::Layout,
            Choice::Log,
            Choice::Key,
            Choice::Replace,
            Choice::Preallocate,
            Choice::Json,
        ],
        words: &[(
            "DISK",
            "The volume's file, which is made; with SLOTS or --replace, an old file is replaced",
        )],
        optional: &[(
            "SLOTS",
            "Only in layouts 1 to 4: the number of record slots of each journal, which limits the blocks of a commit; 1 to 1020, in layout 3 at least 2, in layout 4 2 to 65535",
        )],
        last: Some((
            "FILE",
            "A file of the volume: NAME=LENGTH in bytes, or in layouts 3 to 6 also NAME=LENGTH/CAPACITY",
        )),
    },
    Shape {
        name: "migrate",
        about: "Makes the volume NEW, or replaces it, with the files of the volume OLD; these files can grow",
        usage: Some(
            "famsync migrate [OPTIONS] <OLD> <NEW>\n       famsync migrate [OPTIONS] <OLD> <NEW> <SLOTS>",
        ),
        options: &[
            Choice::NewLayout,
            Choice::Log,
            Choice::Key,
            Choice::Preallocate,
            Choice::Trust,
            Choice::Json,
        ],
        words: &[
            (
                "OLD",
                "The old volume's file; the command opens this volume",
            ),
            ("NEW", "The new volume's file, which is made or replaced"),
        ],
        optional: &[(
            "SLOTS",
            "Only in layouts 3 and 4: the number of record slots of each new journal, 2 to 1020, in layout 4 up to 65535",
        )],
        ..PLAIN
    },
    Shape {
        name: "run",
        about: "Executes a script's steps on a volume, and prints the reply to each step",
        options: &[Choice::Trust],
        words: &[DISK, SCRIPT],
        ..PLAIN
    },
    Shape {
        name: "threads",
        about: "Executes a script's programs on a volume, one thread for each processor, and prints a trace of all steps",
        options: &[Choice::Trust],
        words: &[
            DISK,
            (
                "SCRIPT",
                "The file of the script with the programs, which contains a JSON object",
            ),
        ],
        ..PLAIN
    },
    Shape {
        name: "serve",
        about: "Answers requests on a volume; the first line of the input describes a machine, and each further line is a request",
        options: &[Choice::Trust],
        words: &[DISK],
        ..PLAIN
    },
    Shape {
        name: "replay",
        about: "Repeats a trace's steps on a copy of a volume, and prints whether the replies are the same",
        options: &[Choice::Trust],
        words: &[DISK, ("TRACE", "The trace's file")],
        ..PLAIN
    },
    Shape {
        name: "dump",
        about: "Prints a volume's files as an opening would find them; doesn't change the volume",
        options: &[Choice::Trust, Choice::Json],
        words: &[DISK],
        ..PLAIN
    },
    Shape {
        name: "info",
        about: "Prints a volume's layout, files, and journals or log, and what an opening would do",
        options: &[Choice::Trust, Choice::Json],
        words: &[DISK],
        ..PLAIN
    },
    Shape {
        name: "check",
        about: "Prints whether a volume is clean (status 0), needs opening (status 1) or is damaged (status 3)",
        options: &[Choice::Trust, Choice::Json],
        words: &[DISK],
        ..PLAIN
    },
    Shape {
        name: "export",
        about: "Copies a file of a volume, as an opening would find it, to the file OUT; doesn't change the volume",
        options: &[Choice::Trust, Choice::Json],
        words: &[
            DISK,
            ("FILE", "The file's name in the volume"),
            ("OUT", "The copy, which is made or replaced"),
        ],
        ..PLAIN
    },
    Shape {
        name: "crashes",
        about: "Prints which commits survive a crash within each device call of a script, on a copy of a volume",
        options: &[Choice::Trust, Choice::JsonLines, Choice::Html],
        words: &[DISK, SCRIPT],
        ..PLAIN
    },
];

/// Returns the program with its commands. Fails if memory can't be allocated.
pub fn program<'a>(alloc: Global) -> Result<Command<'a>, AllocError> {
    let mut program = Command::new(alloc, "famsync")
        .version("0.3.0")
        .about(
            "Commits all stores to a volume's files at once: a crash leaves all of a commit, or nothing",
        )
        .subcommand_required(true);
    for shape in COMMANDS {
        program = with(program, command_of(alloc, shape))?;
    }
    Ok(program)
}

// A command with one more subcommand.
fn with<'a>(
    command: Command<'a>,
    below: Result<Command<'a>, AllocError>,
) -> Result<Command<'a>, AllocError> {
    command.subcommand(below?)
}

fn command_of<'a>(alloc: Global, shape: &Shape) -> Result<Command<'a>, AllocError> {
    let command = with_usage(
        Command::new(alloc, shape.name).about(shape.about),
        shape.usage,
    );
    let command = with_options(alloc, command, shape.options)?;
    let command = with_words(alloc, command, shape.words, true)?;
    let command = with_words(alloc, command, shape.optional, false)?;
    match shape.last {
        Some((name, help)) => command.arg(
            word(alloc, name, help, false)
                .action(ArgAction::Append)
                .num_args(1..),
        ),
        None => Ok(command),
    }
}

fn with_usage<'a>(command: Command<'a>, usage: Option<&'static str>) -> Command<'a> {
    match usage {
        Some(usage) => command.override_usage(usage),
        None => command,
    }
}

fn with_options<'a>(
    alloc: Global,
    mut command: Command<'a>,
    options: &[Choice],
) -> Result<Command<'a>, AllocError> {
    for &choice in options {
        command = with_option(alloc, command, choice)?;
    }
    Ok(command)
}

fn with_option<'a>(
    alloc: Global,
    command: Command<'a>,
    choice: Choice,
) -> Result<Command<'a>, AllocError> {
    match choice {
        Choice::Layout => command.arg(layout(
            alloc,
            "The volume's layout. 1: one journal. 2: two journals. 3: two journals; files can grow. 4: four journals; files can grow; larger commits. 5: a log, in which a byte seals each commit; files can grow. 6: a log, in which a digest seals each commit; files can grow [default: 5, with SLOTS 1]",
        )),
        Choice::Log => command.arg(value(
            alloc,
            "log",
            "BLOCKS",
            "In layouts 5 and 6: the number of the log's blocks, 4 to 16777216 [default: 16384]",
        )),
        Choice::Key => command.arg(value(
            alloc,
            "key",
            "KEY",
            "In layout 6: the key of the digests, 16 hexadecimal digits [default: drawn at random]",
        )),
        Choice::NewLayout => command.arg(layout(
            alloc,
            "The new volume's layout: 3 or 4, but not below OLD's layout; or 5 or 6 [default: 5, with SLOTS 3]",
        )),
        Choice::Replace => command.arg(flag(
            alloc,
            "replace",
            "In layouts 5 and 6: replace DISK even if it isn't empty",
        )),
        Choice::Preallocate => command.arg(flag(
            alloc,
            "preallocate",
            "Write all blocks of the file, so that a lack of disk space is found now",
        )),
        Choice::Trust => command.arg(flag(
            alloc,
            "trust",
            "Open the volume even if its suspect flag is set, because a sync failed",
        )),
        Choice::Json => command.arg(flag(alloc, "json", "Print output and errors as JSON")),
        Choice::JsonLines => command.arg(flag(
            alloc,
            "json",
            "Print output and errors as JSON, one object per line",
        )),
        Choice::Html => {
            command.arg(flag(alloc, "html", "Print an HTML page").conflicts_with("json")?)
        }
    }
}

fn with_words<'a>(
    alloc: Global,
    mut command: Command<'a>,
    words: &[(&'static str, &'static str)],
    required: bool,
) -> Result<Command<'a>, AllocError> {
    for &(name, help) in words {
        command = command.arg(word(alloc, name, help, required))?;
    }
    Ok(command)
}

fn layout<'a>(alloc: Global, help: &'a str) -> Arg<'a> {
    value(alloc, "layout", "LAYOUT", help)
}

fn value<'a>(alloc: Global, name: &'a str, value: &'a str, help: &'a str) -> Arg<'a> {
    Arg::new(alloc, name)
        .long(name)
        .value_name(value)
        .help(help)
}

fn flag<'a>(alloc: Global, name: &'a str, help: &'a str) -> Arg<'a> {
    Arg::new(alloc, name)
        .long(name)
        .action(ArgAction::SetTrue)
        .help(help)
}

fn word<'a>(alloc: Global, name: &'a str, help: &'a str, required: bool) -> Arg<'a> {
    Arg::new(alloc, name).required(required).help(help)
}
