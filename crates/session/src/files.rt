// The files of a volume, as a session lists them, and the order in which their pages are reclaimed.
ghost use Rattle.std.specs.Prelude.{◌≡◌, ◌-◌, ◌^◌, min, slice_get, IfOk};
ghost use Rattle.session.specs.Files.{AreFiles, pages_in, pages_of_line, page_after};

use device::Device;
use page_entry::{FileNumber, FilePage};
use recovery::Volume;
use std::alloc::{AllocError, Allocator};

/// The name of a file, its length in bytes, and the number of its pages.
#[derive(Drop)]
pub struct FileLine<A: Allocator + Copy> {
    pub name: String<A>,
    pub length: u64,
    pub pages: u32,
}

/// The files of a volume, in the order of their numbers, and the page to be reclaimed next.
#[derive(Drop)]
pub struct Files<A: Allocator + Copy> {
    pub lines: Vec<FileLine<A>, A>,
    next: FilePage,
}

impl<A: Allocator + Copy> Files<A> {
    /// Returns the files of a volume. The first page of the first file is to be reclaimed first.
    pub fn of<D: Device>(alloc: A, volume: &Volume<D, A>) -> Result<Self, AllocError>
        ensures files { IfOk result (λ files. AreFiles volume.now.table volume.now.lengths files.lines.items) }
        ensures first { IfOk result (λ files. files.next ≡ record { file = 0; page = 0 }) }
    {
        let mut lines = Vec::new(alloc);
        for file in 0..volume.file_count() {
            lines.push(FileLine {
                name: String::from_str(alloc, volume.name(file))?,
                length: volume.length(file),
                pages: volume.table().pages(file),
            })?;
        }
        Ok(Files {
            lines,
            next: FilePage { file: 0, page: 0 },
        })
    }

    /// Returns the total number of pages that the files may have, at most 2 ^ 64 - 1.
    pub fn pages(&self) -> u64
        ensures { result ≡ min (pages_in self.now.lines.items) (2 ^ 64 - 1) }
    {
        let mut pages = 0u64;
        for line in &self.lines {
            pages = pages.saturating_add(u64::from(line.pages));
        }
        pages
    }

    /// Returns the page to be reclaimed next, and turns to the page after it. The last page is followed by the first.
    pub fn turn(&mut self) -> FilePage
        ensures page { result ≡ self.old.next }
        ensures next { self.new.next ≡ page_after self.old.lines.items self.old.next }
        ensures lines { self.new.lines ≡ self.old.lines }
    {
        let now = self.next;
        self.next = self.after(now);
        now
    }

    // Returns the page after a page.
    fn after(&self, now: FilePage) -> FilePage
        ensures { result ≡ page_after self.now.lines.items now }
    {
        if now.page < self.last_page(now.file) {
            return FilePage {
                file: now.file,
                page: now.page + 1,
            };
        }
        if usize::from(now.file) + 1 < self.lines.len() {
            return FilePage {
                file: now.file.saturating_add(1),
                page: 0,
            };
        }
        FilePage { file: 0, page: 0 }
    }

    // Returns the number of the last page of a file, or 0 if it has none.
    fn last_page(&self, file: FileNumber) -> u32
        ensures { result ≡ pages_of_line (slice_get self.now.lines.items file) - 1 }
    {
        match self.lines.get(usize::from(file)) {
            Some(line) => line.pages.saturating_sub(1),
            None => 0,
        }
    }
}
