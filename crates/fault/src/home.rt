// Reading a page from its home block.
ghost use Rattle.std.specs.Prelude.{◌≡◌, ◌+◌, ◌≤◌, length, replicate, IfOk, is_err};
ghost use Rattle.frames.specs.Frames.{IsPage};
ghost use Rattle.fault.specs.Fixing.{cut_to_length, IsReadFrom, ReadsOnce};

use device::{Device, DeviceFault};
use page_entry::{PAGE, PageIndex};

// A page of zeros.
fn blank_page() -> [u8; 4096]
    ensures { length result ≡ 4096 }
{
    [0; 4096]
}

// Makes every byte zero.
fn clear(bytes: &mut [u8])
    ensures { bytes.new ≡ replicate (length bytes.old) 0 }
{
    bytes.fill(0);
}

// Rule: zeros past the end
// Sets all bytes of a file's page from the file's end on to zero. `len` is the file's length in bytes.
fn clear_past_end(page: &mut [u8; 4096], len: u64, index: PageIndex)
    ensures cut { page.new ≡ cut_to_length len index page.old }
    ensures page { IsPage page.old }
{
    let left = len.saturating_sub(PAGE * u64::from(index));
    if left < PAGE {
        clear(&mut page[left as usize..]);
    }
}

/// Reads a page of a file of `len` bytes, whose home block begins at `home` on the device. The bytes past the file's
/// end are zero.
pub(crate) fn read_page<D: Device>(
    device: &mut D,
    home: u64,
    len: u64,
    index: PageIndex,
) -> Result<[u8; 4096], DeviceFault>
    requires { home + 4096 ≤ length (D.seen device.old) }
    ensures page { IfOk result (IsReadFrom (D.is_honest device.old) (D.seen device.old) home len index) }
    ensures device { ReadsOnce D.seen D.may_leave D.is_honest D.moment D.left_since D.calls_made D.faults_met
        (is_err result) device.old device.new }
{
    let mut page = blank_page();
    device.read(home, &mut page)?;
    clear_past_end(&mut page, len, index);
    Ok(page)
}
