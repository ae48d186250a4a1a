// The job that a command line asks for.

use std::alloc::Allocator;
use volume_codec::FileSpec;

/// The job that the words of a command line ask for.
#[derive(Drop)]
pub enum Job<'a, A: Allocator + Copy> {
    /// Make a volume, or copy a file out of one, and print how much was made.
    Make(Make<'a, A>),
    /// Print a view of a volume.
    Look(Look<'a>),
    /// Run a script on a volume.
    Run(Scripted<'a>),
    /// Run a script's programs in threads on a volume.
    Threads(Scripted<'a>),
    /// Run a trace again on a copy of a volume.
    Replay(Scripted<'a>),
    /// Print what a crash within each device call of a script leaves.
    Crashes(Scripted<'a>, Form),
    /// Answer requests on a volume. With `trust`, the volume may be marked as suspect.
    Serve { disk: &'a str, trust: bool },
    /// Print this text: help, or the version.
    Show(String),
}

/// What to make. `json` asks for output in JSON.
#[derive(Drop)]
pub enum Make<'a, A: Allocator + Copy> {
    /// A volume in the layout `layout`, with these files. `preallocate` asks to allocate all its blocks on the disk at
    /// once.
    Volume {
        layout: u64,
        disk: &'a str,
        slots: u64,
        files: Vec<FileSpec<'a>, A>,
        preallocate: bool,
        json: bool,
    },
    /// A volume with a log.
    Logged(Logged<'a, A>),
    /// A volume whose files can grow, made from another volume.
    Migration(Migration<'a>),
    /// A copy of a file of a volume.
    Copy(Export<'a>),
}

/// How a volume with a log seals its commits: by a byte in layout 5, and by a digest in layout 6. `Digest` contains the
/// key. If it is `None`, the key is drawn at random.
#[derive(Clone, Copy, Debug, PartialEq, Eq)]
pub enum Seal {
    Byte,
    Digest(Option<u64>),
}

/// A volume with a log to make. `disk` is the path of its file, and `log` the number of its log's blocks. With
/// `replace`, it replaces a file that isn't empty. `preallocate` asks to allocate all its blocks on the disk at once,
/// and `json` for output in JSON.
#[derive(Drop)]
pub struct Logged<'a, A: Allocator + Copy> {
    pub seal: Seal,
    pub disk: &'a str,
    pub log: u64,
    pub files: Vec<FileSpec<'a>, A>,
    pub replace: bool,
    pub preallocate: bool,
    pub json: bool,
}

/// A volume, and a script or a trace to run on it. `disk` and `script` are the paths of their files. With `trust`, the
/// volume may be marked as suspect.
#[derive(Clone, Copy)]
pub struct Scripted<'a> {
    pub disk: &'a str,
    pub script: &'a str,
    pub trust: bool,
}

/// A view of a volume.
#[derive(Clone, Copy, PartialEq, Eq)]
pub enum Sight {
    /// Its files.
    Files,
    /// What can be read off its bytes: its shape, its files, its journals, and what opening would do.
    Bytes,
    /// Whether it is clean, needs opening, or is damaged.
    Health,
}

/// A volume to print a view of. `disk` is the path of its file. With `trust`, it may be marked as suspect. `json` asks
/// for output in JSON.
#[derive(Clone, Copy)]
pub struct Look<'a> {
    pub sight: Sight,
    pub disk: &'a str,
    pub trust: bool,
    pub json: bool,
}

/// A file to copy out of a volume. `disk` is the path of the volume's file, `file` is the file's name in the volume,
/// and `out` is the path of the copy. With `trust`, the volume may be marked as suspect. `json` asks for output in
/// JSON.
#[derive(Clone, Copy)]
pub struct Export<'a> {
    pub disk: &'a str,
    pub file: &'a str,
    pub out: &'a str,
    pub trust: bool,
    pub json: bool,
}

/// What a new volume has besides its files. It has journals with `slots` record slots each, or a log of `blocks`
/// blocks.
#[derive(Clone, Copy, Debug, PartialEq, Eq)]
pub enum NewLayout {
    Journals { layout: u64, slots: u64 },
    Log { seal: Seal, blocks: u64 },
}

/// A new volume to make from an old one. `old` and `new` are the paths of their files. `preallocate` asks to allocate
/// all blocks of the new volume on the disk at once. With `trust`, the old volume may be marked as suspect. `json` asks
/// for output in JSON.
#[derive(Clone, Copy)]
pub struct Migration<'a> {
    pub old: &'a str,
    pub new: &'a str,
    pub layout: NewLayout,
    pub preallocate: bool,
    pub trust: bool,
    pub json: bool,
}

/// How a table of crashes is printed.
#[derive(Clone, Copy, Debug, PartialEq, Eq)]
pub enum Form {
    /// A line for each call and for each reply.
    Text,
    /// One JSON object per line.
    Json,
    /// An HTML page.
    Html,
}
