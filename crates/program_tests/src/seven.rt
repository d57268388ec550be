//! What comes of a run of what is made from 7.
use crate::telling::must;
use std::alloc::Global;
use std::process::Abort;

/// The report of what is made from 7, but for the sums.
pub(crate) const SEVEN: &str = "guest 0 console 37
CCCCCDCCBEJPOKMMNLAGNBBAENHHEAABGOFEI
end budget
guest 1 console 37
DDDDDDEMPJELIBMGIKGGDJCMDMFCCBJEILAKN
end budget
guest 2 console 37
JFOCEMGNGCLEMFLKDJCBLECFCHKPIMCGDPOGF
end budget
guest 3 console 37
KEOICMGJDGAICMAKOPJDDHCPHBLCHOKIHCNAK
end budget
";

/// The lines of a report that are no sums, whole or not.
pub(crate) fn without_sums(rt: &impl Abort, alloc: Global, report: &str) -> String {
    let mut kept = String::new(alloc);
    for line in report.split_inclusive('\n') {
        if !line.starts_with("sums") {
            must(rt, kept.push_str(line));
        }
    }
    kept
}
