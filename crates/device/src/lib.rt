//! Disks of fixed length: what their calls read and write, and what a crash at any moment may leave. There are disks in
//! memory, which can crash, disks whose calls can fail, and disks over real files.
#![tactic(auto)]

mod block_file;
mod borrowed;
mod count;
mod device;
mod doing;
mod failing;
mod fault;
mod file;
mod log;
mod memory;
mod memory_file;
mod overlay;

pub use block_file::BlockFile;
pub use count::raise;
pub use device::Device;
pub use doing::{copy_block, make_durable, write_at};
pub use failing::FailingDisk;
pub use fault::DeviceFault;
pub use file::FileDisk;
pub use log::{Logged, put};
pub use memory::MemDisk;
pub use overlay::OverlayDisk;
