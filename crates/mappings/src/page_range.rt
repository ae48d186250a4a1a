// Ranges of pages, and the ranges of bytes in calls.
ghost use Rattle.std.specs.Prelude.{◌≡◌};
ghost use Rattle.mappings.specs.Judgement.{is_user_range, is_mappable, range_of_bytes, mapped_pages_of};

use page_entry::{PAGE, PageIndex, PageNumber, Refusal};

/// The greatest number of pages of one mapping.
pub const MAX_PAGES: u64 = 65_536;

/// The end of the user addresses, 2^47 (Intel SDM volume 3, canonical addresses), in pages.
const END_PAGE: u64 = 1 << 35;

/// One more than the greatest file page.
const END_FILE_PAGE: u64 = 1 << 32;

/// `count` pages from `first` on.
#[derive(Clone, Copy, Debug, PartialEq, Eq)]
pub struct PageRange {
    pub first: PageNumber,
    pub count: u64,
}

impl PageRange {
    // Rule: rounded length
    /// Returns the pages of the `len` bytes from `va` on, rounded up to whole pages.
    ///
    /// Fails with `Einval` if `va` isn't a multiple of 4,096, `len` is 0, or the pages aren't within bytes 4,096 to
    /// 2^47.
    pub fn of_bytes(va: u64, len: u64) -> Result<PageRange, Refusal>
        ensures { result ≡ range_of_bytes va len }
    {
        let range = PageRange {
            first: va / PAGE,
            count: len.div_ceil(PAGE),
        };
        if va % PAGE == 0 && range.is_user() {
            Ok(range)
        } else {
            Err(Refusal::Einval)
        }
    }

    /// Whether the range has pages, and all of them are within bytes 4,096 to 2^47.
    pub fn is_user(self) -> bool
        ensures { result ≡ is_user_range self }
    {
        0 < self.first
            && 0 < self.count
            && self.first <= END_PAGE
            && self.count <= END_PAGE - self.first
    }

    /// Whether the range may be mapped from this file page on: at most 65,536 user pages, on file pages below 2^32.
    pub fn is_mappable(self, page: u64) -> bool
        ensures { result ≡ is_mappable self page }
    {
        self.is_user()
            && self.count <= MAX_PAGES
            && page < END_FILE_PAGE
            && self.count <= END_FILE_PAGE - page
    }
}

/// Returns the pages of a mapping of the `len` bytes from `va` on, and the file page of the first. The mapping begins
/// at byte `offset` of the file.
///
/// Fails with:
///
/// - `Einval` if `va` or `offset` isn't a multiple of 4,096, or `len` is 0.
/// - `Einval` if the pages aren't within bytes 4,096 to 2^47, or are more than 65,536.
/// - `Einval` if a file page is beyond 2^32 - 1.
pub fn mapped_pages(va: u64, len: u64, offset: u64) -> Result<(PageRange, PageIndex), Refusal>
    ensures { result ≡ mapped_pages_of va len offset }
{
    let range = PageRange::of_bytes(va, len)?;
    if offset % PAGE == 0 && range.is_mappable(offset / PAGE) {
        Ok((range, (offset / PAGE) as PageIndex))
    } else {
        Err(Refusal::Einval)
    }
}
