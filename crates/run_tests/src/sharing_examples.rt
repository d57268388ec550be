//! The examples in which guests share blocks and pages: the texts and the words are those of their files in the folder `examples`.
use run_cases::Part;

pub(crate) const SHARED_DISK_DESCRIPTION: &str =
    "# Two guests with one disk of one block, which their cell keeps in a frame: both read it there, until guest 1 stores to its page. Guest 0
# prints its page after that. One processor runs them in turn; the machine has one frame for the block and four for the guests' pages.
[machine]
nodes = 1
frames = 5
processors = [0]
cache = 1

[[guest]]
image = \"examples/shared_disk/guest0.elf\"
pages = 2
vcpus = 1
node = 0
disk = \"examples/shared_disk/disk.img\"

[[guest]]
image = \"examples/shared_disk/guest1.elf\"
pages = 2
vcpus = 1
node = 0
disk = \"examples/shared_disk/disk.img\"

[[work]]
act = \"run\"
processor = 0
guest = 0
vcpu = 0
steps = 8

[[work]]
act = \"run\"
processor = 0
guest = 1
vcpu = 0
steps = 100

[[work]]
act = \"run\"
processor = 0
guest = 0
vcpu = 0
steps = 100
";

pub(crate) const WHOLE_PACKETS_DESCRIPTION: &str =
    "# Guest 0 sends a whole page to guest 1, which is at home in the same cell: guest 1 gets the page's frame, and no bytes are copied. Then
# guest 0 stores to the page, and guest 1 prints it as it was sent. One processor runs them in turn; besides the guests' four frames the
# machine has one, which guest 0 takes with the send, so that its store finds a frame for the page.
[machine]
nodes = 1
frames = 5
processors = [0]

[[guest]]
image = \"examples/whole_packets/guest0.elf\"
pages = 2
vcpus = 1
node = 0

[[guest]]
image = \"examples/whole_packets/guest1.elf\"
pages = 2
vcpus = 1
node = 0

[[work]]
act = \"run\"
processor = 0
guest = 1
vcpu = 0
steps = 4

[[work]]
act = \"run\"
processor = 0
guest = 0
vcpu = 0
steps = 12

[[work]]
act = \"run\"
processor = 0
guest = 1
vcpu = 0
steps = 3

[[work]]
act = \"run\"
processor = 0
guest = 0
vcpu = 0
steps = 100

[[work]]
act = \"run\"
processor = 0
guest = 1
vcpu = 0
steps = 100
";

/// Reads a block and prints its text.
pub(crate) const READS_THE_BLOCK: &[Part<'static>] = &[(
    0,
    &[
        0x3C10CFFF, 0x3610F000, 0x3C0AC000, 0x354A1000, 0xAE000020, 0x24080001, 0xAE080024,
        0xAE080028, 0x91490000, 0x11200003, 0x254A0001, 0x1000FFFC, 0xAE090000, 0xAE000004,
    ],
)];

/// Reads the block and changes its letters.
pub(crate) const CHANGES_THE_BLOCK: &[Part<'static>] = &[(
    0,
    &[
        0x3C10CFFF, 0x3610F000, 0x3C0AC000, 0x354A1000, 0xAE000020, 0x24080001, 0xAE080024,
        0xAE080028, 0x91490000, 0x11200006, 0x39290020, 0xA1490000, 0x91490000, 0xAE090000,
        0x1000FFF9, 0x254A0001, 0xAE000004,
    ],
)];

/// Sends a whole page, and writes to it.
pub(crate) const SENDS_THE_PAGE: &[Part<'static>] = &[(
    0,
    &[
        0x3C10CFFF, 0x3610F000, 0x3C0AC000, 0x354A1000, 0x3C097365, 0x35296E74, 0xAD490000,
        0x24080001, 0xAE080030, 0x24091000, 0xAE090034, 0xAE080038, 0x3C096B65, 0x35297074,
        0xAD490000, 0x25480004, 0x91490000, 0x254A0001, 0x1548FFFD, 0xAE090000, 0xAE000004,
    ],
)];

/// Prints the first word of the page that comes.
pub(crate) const PRINTS_THE_PAGE: &[Part<'static>] = &[(
    0,
    &[
        0x3C10CFFF, 0x3610F000, 0x24080001, 0xAE08003C, 0x8E090040, 0x1120FFFE, 0x00000000,
        0x3C0AC000, 0x354A1000, 0x25480004, 0x91490000, 0x254A0001, 0x1548FFFD, 0xAE090000,
        0xAE000004,
    ],
)];
