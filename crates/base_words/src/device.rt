//! The device page's registers.

/// A register of the device page, in the order of the offsets 0, 4, .. 48 (hexadecimal).
#[derive(Clone, Copy, Debug, PartialEq, Eq)]
pub enum DeviceRegister {
    /// A store puts its low byte on the console.
    Console,
    /// A store halts the virtual processor that makes it.
    Halt,
    /// A load takes the first byte of input that waits.
    Input,
    /// How many bytes of input wait.
    Queued,
    /// The number of the virtual processor that loads it.
    Number,
    /// How many virtual processors the guest has.
    Vcpus,
    /// A store interrupts the virtual processors whose bits are on.
    Call,
    /// A store ends this virtual processor's interrupt by another.
    Answered,
    /// The block of this virtual processor's disk commands.
    DiskBlock,
    /// The page of this virtual processor's disk commands.
    DiskPage,
    /// A store carries out a disk command.
    DiskCommand,
    /// What became of this virtual processor's last disk command.
    DiskStatus,
    /// The page of this virtual processor's sends.
    SendPage,
    /// How many bytes this virtual processor sends.
    SendLength,
    /// A store sends to the guest of the number that is stored.
    Send,
    /// The page that is armed for a packet.
    Armed,
    /// How many bytes the last packet had.
    PacketLength,
    /// Which guest sent the last packet.
    PacketSender,
    /// A store ends the interrupt by a packet.
    PacketTaken,
}

/// What a virtual processor has set for its disk commands and its sends, and what became of its last disk command.
#[derive(Clone, Copy, Debug, PartialEq, Eq)]
pub struct Transfer {
    /// The block and the page of a disk command.
    pub block: u32,
    pub page: u32,
    /// 0 where the last disk command was carried out, else why it wasn't.
    pub status: u32,
    /// The page of a send, and how many of its bytes go.
    pub send_page: u32,
    pub send_length: u32,
}
