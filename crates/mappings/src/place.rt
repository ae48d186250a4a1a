// What a page of an address space maps.
ghost use Rattle.std.specs.Prelude.{◌≡◌, Some};
ghost use Rattle.mappings.specs.Places.{may_write, allows, follows};

use page_entry::{FileNumber, PageIndex};

/// The rights of a mapping (`PROT_READ`, `PROT_READ | PROT_WRITE`) or a file description (`O_RDONLY`, `O_RDWR`).
/// Writing alone counts as both.
#[derive(Clone, Copy, Debug, PartialEq, Eq)]
pub enum Rights {
    Read,
    ReadWrite,
}

impl Rights {
    /// Whether the rights allow writing.
    pub fn may_write(self) -> bool
        ensures { result ≡ may_write self }
    {
        match self {
            Rights::Read => false,
            Rights::ReadWrite => true,
        }
    }

    /// Whether a file that was opened with this access may be mapped with the rights.
    pub fn allows(self, rights: Rights) -> bool
        ensures { result ≡ allows self rights }
    {
        self.may_write() || !rights.may_write()
    }
}

/// The file page that a page maps, the rights of its mapping, and the access of the file description that it was mapped
/// with.
#[derive(Clone, Copy, Debug, PartialEq, Eq)]
pub struct Place {
    pub file: FileNumber,
    pub page: PageIndex,
    pub rights: Rights,
    pub access: Rights,
}

impl Place {
    // Whether this place comes right after the other in one file, with the same rights and access.
    pub(crate) fn follows(self, before: Place) -> bool
        ensures { result ≡ follows (Some before) (Some self) }
    {
        before.file == self.file
            && u64::from(before.page) + 1 == u64::from(self.page)
            && before.rights == self.rights
            && before.access == self.access
    }
}
