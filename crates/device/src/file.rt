// A device file that reads: its bytes, with its numbers.
ghost use Rattle.std.specs.Prelude.{length};
ghost use Rattle.rules.specs.Device.{Device};
ghost use Rattle.device.specs.Reader.{Reads};

use rules::device::DeviceHeader;

#[derive(Clone, Copy)]
pub struct DeviceFile<'a> {
    pub bytes: &'a [u8],
    pub header: DeviceHeader,
    // they read as a device; clauses say what holds of any device that they read as
    ghost reads: { ∥ ((D : Device) × Reads bytes.now header D) ∥₁ },
}
