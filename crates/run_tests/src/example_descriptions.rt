//! The descriptions of the folder `examples`: the texts are those of its files.
pub(crate) const LOANS_DESCRIPTION: &str =
    "# One guest of six pages at home in a cell of four frames; the other cell lends it two.
[machine]
nodes = 2
frames = 4
processors = [0]

[[cell]]
nodes = [0]

[[cell]]
nodes = [1]
lend = 2

[[guest]]
image = \"examples/loans/guest.elf\"
pages = 6
vcpus = 1
node = 0

[[work]]
act = \"run\"
processor = 0
guest = 0
vcpu = 0
steps = 100
";

pub(crate) const HELLO_DESCRIPTION: &str = "# One guest of one page, which prints a text.
[machine]
nodes = 1
frames = 1
processors = [0]

[[guest]]
image = \"examples/hello/guest.elf\"
pages = 1
vcpus = 1
node = 0

[[work]]
act = \"run\"
processor = 0
guest = 0
vcpu = 0
steps = 100
";

pub(crate) const TIMER_DESCRIPTION: &str =
    "# One guest, which waits for five interrupts of its timer.
[machine]
nodes = 1
frames = 1
processors = [0]

[[guest]]
image = \"examples/timer/guest.elf\"
pages = 1
vcpus = 1
node = 0

[[work]]
act = \"run\"
processor = 0
guest = 0
vcpu = 0
steps = 1000
";

pub(crate) const KERNEL_DESCRIPTION: &str = "# One guest, a kernel with a user program: seven pages.
[machine]
nodes = 1
frames = 8
processors = [0]

[[guest]]
image = \"examples/kernel/guest.elf\"
pages = 7
vcpus = 1
node = 0

[[work]]
act = \"run\"
processor = 0
guest = 0
vcpu = 0
steps = 1000
";

pub(crate) const REGISTERS_DESCRIPTION: &str =
    "# One guest of profile 2, a kernel with a user program: seven pages.
[machine]
nodes = 1
frames = 8
processors = [0]

[[guest]]
image = \"examples/registers/guest.elf\"
pages = 7
vcpus = 1
node = 0
profile = 2

[[work]]
act = \"run\"
processor = 0
guest = 0
vcpu = 0
steps = 1000
";

pub(crate) const DISK_DESCRIPTION: &str =
    "# One guest with a disk of one block. The block begins with the bytes of disk.img, and zeros follow.
[machine]
nodes = 1
frames = 4
processors = [0]

[[guest]]
image = \"examples/disk/guest.elf\"
pages = 4
vcpus = 1
node = 0
disk = \"examples/disk/disk.img\"

[[work]]
act = \"run\"
processor = 0
guest = 0
vcpu = 0
steps = 1000
";

pub(crate) const INPUT_DESCRIPTION: &str =
    "# One guest and what is typed: it comes in order of `at`, and where `at` is the same in the order of this file.
[machine]
nodes = 1
frames = 1
processors = [0]

[[guest]]
image = \"examples/input/guest.elf\"
pages = 1
vcpus = 1
node = 0

[[work]]
act = \"run\"
processor = 0
guest = 0
vcpu = 0
steps = 1000

[[input]]
guest = 0
at = 100
text = \"never\"

[[input]]
guest = 0
at = 50
text = \"disco \"

[[input]]
guest = 0
at = 100
text = \" stops.\"
";

pub(crate) const TWO_GUESTS_DESCRIPTION: &str = "# Two guests, each run by a processor of its own.
[machine]
nodes = 1
frames = 4
processors = [0, 0]

[[guest]]
image = \"examples/two_guests/guest0.elf\"
pages = 1
vcpus = 1
node = 0

[[guest]]
image = \"examples/two_guests/guest1.elf\"
pages = 2
vcpus = 1
node = 0

[[work]]
act = \"run\"
processor = 0
guest = 0
vcpu = 0
steps = 1000

[[work]]
act = \"run\"
processor = 1
guest = 1
vcpu = 0
steps = 1000
";

pub(crate) const PACKETS_DESCRIPTION: &str =
    "# Two guests that send a word to each other. One processor runs them in turn.
[machine]
nodes = 1
frames = 4
processors = [0]

[[guest]]
image = \"examples/packets/guest0.elf\"
pages = 2
vcpus = 1
node = 0

[[guest]]
image = \"examples/packets/guest1.elf\"
pages = 2
vcpus = 1
node = 0

[[work]]
act = \"run\"
processor = 0
guest = 1
vcpu = 0
steps = 10

[[work]]
act = \"run\"
processor = 0
guest = 0
vcpu = 0
steps = 19

[[work]]
act = \"run\"
processor = 0
guest = 1
vcpu = 0
steps = 100

[[work]]
act = \"run\"
processor = 0
guest = 0
vcpu = 0
steps = 100
";

pub(crate) const MIGRATE_DESCRIPTION: &str =
    "# A guest of two pages, of which page 1 is moved to the other node and back while the guest counts on it.
[machine]
nodes = 2
frames = 4
processors = [0]

[[guest]]
image = \"examples/migrate/guest.elf\"
pages = 2
vcpus = 1
node = 0

# it lies there: skipped
[[work]]
act = \"move\"
processor = 0
guest = 0
page = 1
kind = \"migrate\"
node = 0

[[work]]
act = \"run\"
processor = 0
guest = 0
vcpu = 0
steps = 26

[[work]]
act = \"move\"
processor = 0
guest = 0
page = 1
kind = \"migrate\"
node = 1

[[work]]
act = \"run\"
processor = 0
guest = 0
vcpu = 0
steps = 21

[[work]]
act = \"move\"
processor = 0
guest = 0
page = 1
kind = \"migrate\"
node = 0

[[work]]
act = \"run\"
processor = 0
guest = 0
vcpu = 0
steps = 100

# the guest has halted: skipped
[[work]]
act = \"move\"
processor = 0
guest = 0
page = 1
kind = \"migrate\"
node = 1
";

pub(crate) const REPLICATE_DESCRIPTION: &str =
    "# A guest of two pages on node 0, which runs on processors of three other nodes, on one after the other, in whatever order. After three
# misses each of them gets a replica of page 1, which it only reads; the store at the end lets all replicas go.
[machine]
nodes = 4
frames = 4
processors = [1, 2, 3]

[policy]
replicate = 3

[[guest]]
image = \"examples/replicate/guest.elf\"
pages = 2
vcpus = 1
node = 0

[[work]]
act = \"run\"
processor = 0
guest = 0
vcpu = 0
steps = 37

[[work]]
act = \"run\"
processor = 1
guest = 0
vcpu = 0
steps = 32

[[work]]
act = \"run\"
processor = 2
guest = 0
vcpu = 0
steps = 36
";
