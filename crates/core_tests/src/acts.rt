// Acts of processors, and their replies.
use machine::{Act, FewBytes, MsyncFlags, Reply, Step};
use mappings::Rights;
use page_entry::ProcessorNumber;
use service::Entry;

// A request to commit all stores.
pub const MSYNC: Act = Act::Msync {
    va: 0,
    len: 0,
    flags: MsyncFlags::SYNC,
};

// Maps the four pages of file 0 in space 1.
pub const MAP: Act = Act::Map {
    space: 1,
    va: 4096,
    len: 16_384,
    file: 0,
    offset: 0,
    prot: Rights::ReadWrite,
    access: Rights::ReadWrite,
};

// Makes space 1 current.
pub const SWITCH: Act = Act::Switch {
    space: 1,
    keep: false,
};

// Returns the entry of a processor's act.
pub fn entry(p: ProcessorNumber, act: Act, reply: Reply) -> Entry {
    Entry {
        step: Step { p, act },
        reply,
    }
}

// Returns the reply to a load that reads this byte.
pub fn loaded(byte: u8) -> Option<Reply> {
    Some(Reply::Bytes(FewBytes::new(&[byte])?))
}
