// Work on a device that another value owns.
ghost use Rattle.std.specs.Prelude.{◌≡◌, length};

use device::Device;

/// Works on a device between two calls of the store that owns it. For example, the host of a `DeferredDisk` supplies
/// blocks and makes the calls that the disk recorded. The length of the device doesn't change.
pub trait Tender<D: Device> {
    /// The relation of the tender and the device before the work to the device and the tender after it.
    ghost tends: { Self → D → D → Self → Type 0 };

    /// Works on the device.
    fn tend(&mut self, device: &mut D)
        ensures tends { tends self.old device.old device.new self.new }
        ensures len { length (D.seen device.new) ≡ length (D.seen device.old) };
}
