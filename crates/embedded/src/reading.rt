// Why a request wasn't carried out.
ghost use Rattle.std.specs.Prelude.{◌≡◌, ℕ, ◌^◌, ◌≤◌, IfSome, IfNone, Option, Some};
ghost use Rattle.embedded.specs.Reading.{pager_refusal, ReportsWanted};

use page_entry::Refusal;

/// Why a page wasn't read, a length wasn't set, or a volume wasn't opened.
#[derive(Clone, Copy, PartialEq, Eq, Debug)]
pub enum Unread {
    /// The request needs this block. Once the host has supplied it, the request can be made again.
    Wanted(u32),
    /// The pager refused the request, or its opening was refused.
    Refused(Refusal),
}

impl Unread {
    /// Returns why a pager refused a request. `wanted` is the block that its disk lacked in its last call, if there is
    /// one.
    pub fn of(why: Refusal, wanted: Option<u32>) -> Unread
        ensures refusal { pager_refusal result ≡ why }
        ensures wanted { (disk : Option ℕ) → IfSome wanted (λ block. disk ≡ Some block)
            → IfNone wanted ((block : ℕ) → disk ≡ Some block → 2 ^ 32 ≤ block) → ReportsWanted disk result }
    {
        match (why, wanted) {
            (Refusal::Device, Some(block)) => Unread::Wanted(block),
            (_, _) => Unread::Refused(why),
        }
    }
}

/// Returns the number of a block, or `None` if it has more than 32 bits.
pub fn block_number(wanted: Option<usize>) -> Option<u32>
    ensures some { IfSome result (λ block. wanted ≡ Some block) }
    ensures none { IfNone result ((block : ℕ) → wanted ≡ Some block → 2 ^ 32 ≤ block) }
{
    match wanted {
        Some(block) => match u32::try_from(block) {
            Ok(block) => Some(block),
            Err(_) => None,
        },
        None => None,
    }
}
