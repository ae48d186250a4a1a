//! Volumes in real files. The crate finds, locks, marks, makes, opens, prints and migrates them, and copies files out
//! of them.
#![tactic(auto)]

mod cause;
mod copying;
mod disk;
mod exporting;
mod failure;
mod listing;
mod log_magic;
mod logged;
mod making;
mod marker;
mod migrating;
mod suspect_flag;
mod sync_note;
mod target;
mod thread_disk;
mod volume_file;
mod watched_file;

pub use cause::{Cause, Refused, first_block, refused_to_open, refused_to_read};
pub use copying::{CopyFault, copy_file};
pub use disk::{
    VolumeDisk, dump, not_listed, not_opened, not_opened_on_copy, not_read, open_disk,
    open_to_write, read_file, refused_on_copy, unreadable,
};
pub use exporting::{ExportPlan, export};
pub use failure::FileFailure;
pub use log_magic::has_log;
pub use logged::{LogPlan, draw_key, format_log};
pub use making::{Plan, format};
pub use marker::{Marker, Noted};
pub use migrating::{MigrationPlan, NewVolume, migrate};
pub use suspect_flag::SuspectFlag;
pub use sync_note::SyncNote;
pub use thread_disk::{Reminder, ThreadDisk, for_threads};
pub use volume_file::{Access, place};
pub use watched_file::{WatchedFile, Watcher};
