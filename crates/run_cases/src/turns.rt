//! Guests of one image on several processors, under gates that see and delay turns.
use crate::files::{held, words_of};
use base_words::Bytes;
use outside_io::{CallList, FileList, Gate, GatePoint, MemShelf, MemSink};
use std::alloc::{AllocError, Global};
use std::sync::atomic::{AtomicU64, Ordering};

/// Two virtual processors each add 1 a thousand times to the word at C0001000, by LL and SC. The last one to finish prints Y where
/// the word is 2000 then, and else N. Both halt.
const COUNTS: [u32; 30] = [
    0x3C10_CFFF,
    0x3610_F000,
    0x3C08_C000,
    0x3508_1000,
    0x2409_03E8,
    0xC10A_0000,
    0x254A_0001,
    0xE10A_0000,
    0x1140_FFFC,
    0x0000_0000,
    0x2529_FFFF,
    0x1520_FFF9,
    0x0000_0000,
    0xC10B_0020,
    0x256C_0001,
    0x0180_6821,
    0xE10C_0020,
    0x1180_FFFB,
    0x0000_0000,
    0x240E_0002,
    0x15AE_0008,
    0x0000_0000,
    0x8D0A_0000,
    0x240F_004E,
    0x240E_07D0,
    0x154E_0002,
    0x0000_0000,
    0x240F_0059,
    0xAE0F_0000,
    0xAE00_0004,
];

/// The places of ADDIU 14, 0, 2 and of ADDIU 14, 0, 7D0.
const LAST: usize = 19;

const SUM: usize = 24;

/// ADDIU 14, 0, 0.
const ADDIU: u32 = 0x240E_0000;

/// The program for so many virtual processors.
pub fn counts(alloc: Global, vcpus: u8) -> Result<Bytes, AllocError> {
    let mut bytes = Vec::new(alloc);
    for (place, word) in COUNTS.iter().enumerate() {
        let word = match place {
            LAST => ADDIU + u32::from(vcpus),
            SUM => ADDIU + 1000 * u32::from(vcpus),
            _ => *word,
        };
        bytes.extend_from_slice(&word.to_be_bytes())?;
    }
    Ok(Bytes::from_vec(bytes))
}

/// A machine of one node with so many frames and processors.
fn machine_text(alloc: Global, frames: u32, processors: u8) -> Result<String, AllocError> {
    let mut text = format!(in alloc; "[machine]\nnodes = 1\nframes = {frames}\nprocessors = [0")?;
    for _ in 1..processors {
        text.push_str(", 0")?;
    }
    text.push_str("]\n")?;
    Ok(text)
}

/// A raw guest of so many pages and virtual processors.
fn guest_text(alloc: Global, pages: u8, vcpus: u8) -> Result<String, AllocError> {
    format!(in alloc;
        "[[guest]]\nimage = \"a.raw\"\nform = \"raw\"\npages = {pages}\nvcpus = {vcpus}\nnode = 0\n"
    )
}

/// An item of the plan.
fn run_text(
    alloc: Global,
    processor: u8,
    guest: u8,
    vcpu: u8,
    steps: u32,
) -> Result<String, AllocError> {
    format!(in alloc;
        "[[work]]\nact = \"run\"\nprocessor = {processor}\nguest = {guest}\nvcpu = {vcpu}\nsteps = {steps}\n"
    )
}

/// So many guests, of so many virtual processors each, which lie one after the other on so many processors, over and over.
pub fn crowd(
    alloc: Global,
    guests: u8,
    vcpus: u8,
    processors: u8,
    pages: u8,
    steps: u32,
) -> Result<String, AllocError> {
    let frames = u32::from(guests) * u32::from(pages);
    let mut text = machine_text(alloc, frames, processors)?;
    for _ in 0..guests {
        text.push_str(guest_text(alloc, pages, vcpus)?.as_str())?;
    }
    for guest in 0..guests {
        for vcpu in 0..vcpus {
            let place = guest.wrapping_mul(vcpus).wrapping_add(vcpu);
            let processor = place.checked_rem(processors).unwrap_or(0);
            text.push_str(run_text(alloc, processor, guest, vcpu, steps)?.as_str())?;
        }
    }
    Ok(text)
}

/// A call of a description: its words, its files and its output.
#[derive(Drop)]
pub struct Call {
    pub words: Vec<String>,
    pub shelf: MemShelf,
    pub sink: MemSink,
}

/// The call of a description whose guests all have this image and may have this disk.
pub fn call_of(alloc: Global, text: &str, image: Bytes, disk: Bytes) -> Result<Call, AllocError> {
    let mut files = FileList::new(alloc);
    files.push(held(alloc, "m", text.as_bytes().to_vec(alloc)?)?)?;
    files.push(held(alloc, "a.raw", image.into_vec())?)?;
    files.push(held(alloc, "d.img", disk.into_vec())?)?;
    Ok(Call {
        words: words_of(alloc, &["--machine", "m"])?,
        shelf: MemShelf::new(alloc, files, CallList::new(alloc)),
        sink: MemSink::new(alloc, CallList::new(alloc)),
    })
}

/// Delays turns, each by another measure, which is made of the schedule's number, the processor and the turn.
#[derive(Drop)]
pub struct Delaying {
    schedule: u64,
    waste: AtomicU64,
}

impl Delaying {
    /// The gate of a schedule.
    pub fn new(schedule: u64) -> Self {
        Delaying {
            schedule,
            waste: AtomicU64::new(0),
        }
    }
}

impl Gate for Delaying {
    fn pass(&self, at: GatePoint) {
        let mixed = self
            .schedule
            .wrapping_add(1)
            .wrapping_mul(0x9E37_79B9_7F4A_7C15)
            .wrapping_add(u64::from(at.processor.0).wrapping_mul(0xC2B2_AE3D_27D4_EB4F))
            .wrapping_add(at.turn.wrapping_mul(0x1656_67B1_9E37_79F9));
        for _ in 0..mixed >> 58 {
            self.waste.load(Ordering::Relaxed);
        }
    }

    fn is_free(&self) -> bool {
        false
    }
}
