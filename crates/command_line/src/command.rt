// Reads the command line.
ghost use Rattle.std.specs.Prelude.{◌≡◌, ◌↔◌, ◌<◌, IsTrue};
ghost use Rattle.volume_codec.specs.Layout.{number_of, lengths_blocks};
ghost use Rattle.command_line.specs.Logs.{seal_in};
ghost use Rattle.volume_codec.specs.declared.layout.Layout.{Layout as AnyLayout};

use crate::commands::program;
use crate::job::{
    Export, Form, Job, Logged, Look, Make, Migration, NewLayout, Scripted, Seal, Sight,
};
use crate::word_fault::WordFault;
use crate::words::{decimal, file_spec, key};
use clap::error::ErrorKind;
use clap::{ArgMatches, Error};
use std::alloc::{AllocError, Allocator, Global};
use std::convert::AsStr;
use volume_codec::{FileSpec, Layout};

/// The default layout of a new volume, if the words have no number of record slots.
const LAYOUT: u64 = 5;

/// The default number of a log's blocks: 64 MiB.
const LOG_BLOCKS: u64 = 16_384;

/// Returns the job that the words of a command line ask for. The first word is the program's name. Fails with a
/// `WordFault` if the words are refused, or memory can't be allocated.
pub fn read_words<'a, A: Allocator + Copy, S: AsStr>(
    global: Global,
    alloc: A,
    words: &'a [S],
) -> Result<Job<'a, A>, WordFault<'a>> {
    match program(global)?.try_get_matches_from(words) {
        Ok(matches) => job_of(alloc, &matches),
        Err(error) => no_job(global, &error),
    }
}

fn job_of<'a, A: Allocator + Copy>(
    alloc: A,
    matches: &ArgMatches<'a>,
) -> Result<Job<'a, A>, WordFault<'a>> {
    let Some((name, words)) = matches.subcommand() else {
        return Ok(Job::Look(Look {
            sight: Sight::Files,
            disk: "",
            trust: false,
            json: false,
        }));
    };
    match name {
        "format" => format_job(alloc, words),
        "migrate" => migrate_job(words),
        "export" => Ok(export_job(words)),
        "run" => Ok(Job::Run(scripted(words, "SCRIPT"))),
        "threads" => Ok(Job::Threads(scripted(words, "SCRIPT"))),
        "replay" => Ok(Job::Replay(scripted(words, "TRACE"))),
        "serve" => Ok(serve_job(words)),
        "crashes" => Ok(Job::Crashes(scripted(words, "SCRIPT"), form_of(words))),
        _ => Ok(look_job(name, words)),
    }
}

// A volume, and the script or trace to run on it. `script` is the name of that word.
fn scripted<'a>(words: &ArgMatches<'a>, script: &str) -> Scripted<'a> {
    Scripted {
        disk: text(words, "DISK"),
        script: text(words, script),
        trust: words.get_flag("trust"),
    }
}

fn serve_job<'a, A: Allocator + Copy>(words: &ArgMatches<'a>) -> Job<'a, A> {
    Job::Serve {
        disk: text(words, "DISK"),
        trust: words.get_flag("trust"),
    }
}

fn export_job<'a, A: Allocator + Copy>(words: &ArgMatches<'a>) -> Job<'a, A> {
    Job::Make(Make::Copy(Export {
        disk: text(words, "DISK"),
        file: text(words, "FILE"),
        out: text(words, "OUT"),
        trust: words.get_flag("trust"),
        json: words.get_flag("json"),
    }))
}

fn look_job<'a, A: Allocator + Copy>(name: &str, words: &ArgMatches<'a>) -> Job<'a, A> {
    Job::Look(Look {
        sight: sight_of(name),
        disk: text(words, "DISK"),
        trust: words.get_flag("trust"),
        json: words.get_flag("json"),
    })
}

// The view that the command of this name prints.
fn sight_of(name: &str) -> Sight {
    match name {
        "info" => Sight::Bytes,
        "check" => Sight::Health,
        _ => Sight::Files,
    }
}

// Whether files may grow in the layout of this number. Then a file may have a capacity larger than its length.
fn may_grow(layout: u64) -> bool
    ensures { IsTrue result ↔ (l : AnyLayout) × (number_of l ≡ layout) × (0 < lengths_blocks l) }
{
    match Layout::from_number(layout) {
        Some(layout) => layout.lengths_blocks() > 0,
        None => false,
    }
}

// How the layout of this number seals commits, if it has a log.
fn log_layout(layout: u64, key: Option<u64>) -> Option<Seal>
    ensures { result ≡ seal_in layout key }
{
    match layout {
        5 => Some(Seal::Byte),
        6 => Some(Seal::Digest(key)),
        _ => None,
    }
}

fn format_job<'a, A: Allocator + Copy>(
    alloc: A,
    words: &ArgMatches<'a>,
) -> Result<Job<'a, A>, WordFault<'a>> {
    let layout = layout_of(words, if has_slots(words) { 1 } else { LAYOUT })?;
    let key = key_of(words, layout)?;
    match log_layout(layout, key) {
        Some(seal) => log_job(alloc, words, seal),
        None => journals_job(alloc, words, layout),
    }
}

// Whether the word SLOTS is a number of record slots. A word with `=` is the first file.
fn has_slots(words: &ArgMatches<'_>) -> bool {
    match words.get_str("SLOTS") {
        Some(word) => !word.contains('='),
        None => false,
    }
}

// A volume with journals.
fn journals_job<'a, A: Allocator + Copy>(
    alloc: A,
    words: &ArgMatches<'a>,
    layout: u64,
) -> Result<Job<'a, A>, WordFault<'a>> {
    no_log(words, layout)?;
    let Some(slots) = words.get_str("SLOTS") else {
        return Err(WordFault::Missing("<SLOTS> <FILE>..."));
    };
    let slots = slots_of(slots)?;
    let mut files = Vec::new(alloc);
    more_files(words, may_grow(layout), &mut files)?;
    Ok(Job::Make(Make::Volume {
        layout,
        disk: text(words, "DISK"),
        slots,
        files: some_files(files)?,
        preallocate: words.get_flag("preallocate"),
        json: words.get_flag("json"),
    }))
}

// A volume with a log. It has no SLOTS, so that word is its first file.
fn log_job<'a, A: Allocator + Copy>(
    alloc: A,
    words: &ArgMatches<'a>,
    seal: Seal,
) -> Result<Job<'a, A>, WordFault<'a>> {
    let log = log_blocks(words)?;
    let mut files = Vec::new(alloc);
    if let Some(first) = words.get_str("SLOTS") {
        files.push(file_of(first, true)?)?;
    }
    more_files(words, true, &mut files)?;
    Ok(Job::Make(Make::Logged(Logged {
        seal,
        disk: text(words, "DISK"),
        log,
        files: some_files(files)?,
        replace: words.get_flag("replace"),
        preallocate: words.get_flag("preallocate"),
        json: words.get_flag("json"),
    })))
}

// Appends the files that the words FILE describe.
fn more_files<'a, A: Allocator + Copy>(
    words: &ArgMatches<'a>,
    grows: bool,
    files: &mut Vec<FileSpec<'a>, A>,
) -> Result<(), WordFault<'a>> {
    for word in words.get_strs("FILE").unwrap_or(&[]) {
        files.push(file_of(word, grows)?)?;
    }
    Ok(())
}

fn file_of<'a>(word: &'a str, grows: bool) -> Result<FileSpec<'a>, WordFault<'a>> {
    file_spec(word, grows).ok_or(WordFault::FileSpec(word))
}

// Refuses an empty list of files.
fn some_files<'a, A: Allocator + Copy>(
    files: Vec<FileSpec<'a>, A>,
) -> Result<Vec<FileSpec<'a>, A>, WordFault<'a>> {
    if files.is_empty() {
        return Err(WordFault::Missing("<FILE>..."));
    }
    Ok(files)
}

// The number of blocks of a log.
fn log_blocks<'a>(words: &ArgMatches<'a>) -> Result<u64, WordFault<'a>> {
    match words.get_str("log") {
        Some(word) => decimal(word).ok_or(WordFault::Blocks(word)),
        None => Ok(LOG_BLOCKS),
    }
}

// The key for a log's digests, if the words contain one. Only layout 6 has a key.
fn key_of<'a>(words: &ArgMatches<'a>, layout: u64) -> Result<Option<u64>, WordFault<'a>> {
    let Some(word) = words.get_str("key") else {
        return Ok(None);
    };
    if !matches!(log_layout(layout, None), Some(Seal::Digest(_))) {
        return Err(WordFault::OtherLayout {
            option: "--key",
            layouts: "layout 6",
            found: layout,
        });
    }
    match key(word) {
        Some(key) => Ok(Some(key)),
        None => Err(WordFault::Key(word)),
    }
}

fn migrate_job<'a, A: Allocator + Copy>(
    words: &ArgMatches<'a>,
) -> Result<Job<'a, A>, WordFault<'a>> {
    let default = if words.contains_id("SLOTS") {
        3
    } else {
        LAYOUT
    };
    let layout = layout_of(words, default)?;
    let key = key_of(words, layout)?;
    let layout = match log_layout(layout, key) {
        Some(seal) => new_log(words, layout, seal)?,
        None => new_journals(words, layout)?,
    };
    Ok(Job::Make(Make::Migration(Migration {
        old: text(words, "OLD"),
        new: text(words, "NEW"),
        layout,
        preallocate: words.get_flag("preallocate"),
        trust: words.get_flag("trust"),
        json: words.get_flag("json"),
    })))
}

// The log of a volume that is made from another. It has no record slots, so SLOTS is refused.
fn new_log<'a>(
    words: &ArgMatches<'a>,
    layout: u64,
    seal: Seal,
) -> Result<NewLayout, WordFault<'a>> {
    if words.contains_id("SLOTS") {
        return Err(WordFault::OtherLayout {
            option: "SLOTS",
            layouts: "layouts 3 and 4",
            found: layout,
        });
    }
    let blocks = log_blocks(words)?;
    Ok(NewLayout::Log { seal, blocks })
}

// The journals of a volume that is made from another.
fn new_journals<'a>(words: &ArgMatches<'a>, layout: u64) -> Result<NewLayout, WordFault<'a>> {
    no_log(words, layout)?;
    let Some(slots) = words.get_str("SLOTS") else {
        return Err(WordFault::Missing("<SLOTS>"));
    };
    let slots = slots_of(slots)?;
    Ok(NewLayout::Journals { layout, slots })
}

// Refuses `--log` in a layout without a log.
fn no_log<'a>(words: &ArgMatches<'a>, layout: u64) -> Result<(), WordFault<'a>> {
    if words.contains_id("log") {
        return Err(WordFault::OtherLayout {
            option: "--log",
            layouts: "layouts 5 and 6",
            found: layout,
        });
    }
    Ok(())
}

// The number of a new volume's layout.
fn layout_of<'a>(words: &ArgMatches<'a>, default: u64) -> Result<u64, WordFault<'a>> {
    match words.get_str("layout") {
        Some(word) => decimal(word).ok_or(WordFault::Layout(word)),
        None => Ok(default),
    }
}

// The record slots of each journal of a new volume.
fn slots_of(slots: &str) -> Result<u64, WordFault<'_>> {
    decimal(slots).ok_or(WordFault::Slots(slots))
}

// How the crashes of a script are printed.
fn form_of(words: &ArgMatches<'_>) -> Form {
    if words.get_flag("json") {
        Form::Json
    } else if words.get_flag("html") {
        Form::Html
    } else {
        Form::Text
    }
}

// The value of a required argument.
fn text<'a>(words: &ArgMatches<'a>, name: &str) -> &'a str {
    words.get_str(name).unwrap_or("")
}

// The parser reports help and the version as errors, but they are jobs.
fn no_job<'a, A: Allocator + Copy>(
    global: Global,
    error: &Error,
) -> Result<Job<'a, A>, WordFault<'a>> {
    match error.kind() {
        ErrorKind::OutOfMemory => Err(WordFault::Memory(AllocError)),
        ErrorKind::DisplayHelp | ErrorKind::DisplayVersion => Ok(Job::Show(error.to_string(
            global,
        )?)),
        _ => Err(WordFault::CommandLine(first_paragraph(global, error)?)),
    }
}

// The text of an error before its hints and its usage, as one line.
fn first_paragraph(alloc: Global, error: &Error) -> Result<String, AllocError> {
    let text = error.to_string(alloc)?;
    let text = text.as_str();
    let text = text.strip_prefix("error: ").unwrap_or(text);
    let mut line = String::new(alloc);
    for word in text.split("\n\n").next().unwrap_or("").split_whitespace() {
        if !line.is_empty() {
            line.push(' ')?;
        }
        line.push_str(word)?;
    }
    Ok(line)
}
