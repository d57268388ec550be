//! Which register stands where on the device page.
ghost use Rattle.std.specs.Prelude.{◌≡◌, slice_get};
ghost use Rattle.private_machine.specs.DevicePage.{device_register as register_of};

use base_words::DeviceRegister;

/// In the order of their offsets 0, 4, .. 48 (hexadecimal).
static REGISTERS: [DeviceRegister; 19] = [
    DeviceRegister::Console,
    DeviceRegister::Halt,
    DeviceRegister::Input,
    DeviceRegister::Queued,
    DeviceRegister::Number,
    DeviceRegister::Vcpus,
    DeviceRegister::Call,
    DeviceRegister::Answered,
    DeviceRegister::DiskBlock,
    DeviceRegister::DiskPage,
    DeviceRegister::DiskCommand,
    DeviceRegister::DiskStatus,
    DeviceRegister::SendPage,
    DeviceRegister::SendLength,
    DeviceRegister::Send,
    DeviceRegister::Armed,
    DeviceRegister::PacketLength,
    DeviceRegister::PacketSender,
    DeviceRegister::PacketTaken,
];

/// What stands at a place of the page.
fn register_at(map: &[DeviceRegister; 19], place: u32) -> Option<DeviceRegister>
    ensures { result ≡ slice_get map.now place }
{
    map.get(place as usize).copied()
}

/// The register at an offset of the device page.
pub fn device_register(offset: u32) -> Option<DeviceRegister>
    ensures { result ≡ register_of offset }
{
    if offset % 4 == 0 {
        register_at(&REGISTERS, offset / 4)
    } else {
        None
    }
}
