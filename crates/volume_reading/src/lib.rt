//! Reads the files of a volume, as recovery would leave them, with journals or with a log. The volume is only read.
#![tactic(auto)]

mod any_listing;
mod any_volume;
mod files;
mod form;
mod found;
mod listing;
mod log_pages;
mod logged;
mod pages;
mod reading;
mod recovered;
mod used;

pub use any_listing::list_any;
pub use any_volume::AnyVolume;
pub use form::{Form, ListFault, WriteFault};
pub use found::FoundFiles;
pub use listing::{list_files, list_found};
pub use log_pages::read_page;
pub use logged::{LoggedVolume, read_log_volume};
pub use pages::copy_pages;
pub use recovered::Recovered;
pub use used::used_blocks;
