//! Loads and stores on the frame that they reach.
ghost use Rattle.std.specs.Prelude.{◌≡◌, ◌<◌, ◌%◌, Some, None};
ghost use Rattle.base_words.specs.Instruction.{register as register_of, with_register, advanced};
ghost use Rattle.base_words.specs.Merging.{load_unit as load_unit_of, store_unit as store_unit_of, loaded_value as value_of, stored_word as word_of};
ghost use Rattle.private_machine.specs.Links.{word_offset, is_linked};
ghost use Rattle.private_machine.specs.HardwareStep.{word_through};
ghost use Rattle.private_machine.specs.DirectAccess.{line_at as line_of, stored_at, stored_if_linked, link_of, linking};
ghost use Rattle.private_machine.specs.Serving.{Backs, BacksAlone};
ghost use Rattle.hw_cpu.specs.Steps.{place_of};

use crate::Bus;
use crate::reaching::Reached;
use base_words::{LoadKind, Register, Regs, StoreKind};
use mips_alu::{advance, loaded_value, read, stored_word, write};

/// The offset in its page of the word around an address.
#[inline(always)]
fn offset_of(address: u32) -> u32
    ensures offset { result ≡ word_offset (address % 4096) }
    ensures within { result < 4096 }
    ensures aligned { result % 4 ≡ 0 }
{
    let offset = address % 4096;
    offset - offset % 4
}

/// The word around an address.
#[inline(always)]
pub fn word_at<B: Bus>(bus: &B, at: Reached, address: u32) -> u32
    requires { Backs (B.held bus.now) at.page.0 at.frame.0 }
    ensures { result ≡ word_through (B.held bus.now).pages (place_of at) address }
{
    bus.read(at.page, at.frame, offset_of(address))
}

/// The line of the guest's memory at an address.
#[inline(always)]
fn line_at(at: Reached, address: u32) -> u32
    requires { at.page.0 < 0xFFFF }
    ensures { result ≡ line_of (place_of at) address }
{
    at.page.0 * 128 + address % 4096 / 32
}

/// Another word around an address, after which no other virtual processor links its line.
#[inline(always)]
fn store_at<B: Bus>(bus: &mut B, at: Reached, address: u32, word: u32)
    requires { BacksAlone (B.held bus.old) at.page.0 at.frame.0 }
    ensures names { B.names bus.new ≡ B.names bus.old }
    ensures site { B.site bus.new ≡ B.site bus.old }
    ensures held { B.held bus.new ≡ stored_at (B.site bus.old).stepping (place_of at) address word (B.held bus.old) }
{
    let line = line_at(at, address);
    bus.write(at.page, at.frame, offset_of(address), word);
    bus.stored(line);
}

/// A load, which is passed.
#[inline(always)]
pub fn load<B: Bus>(
    regs: &mut Regs,
    bus: &B,
    at: Reached,
    kind: LoadKind,
    address: u32,
    target: Register,
)
    requires backed { Backs (B.held bus.now) at.page.0 at.frame.0 }
    requires aligned { address % load_unit_of kind ≡ 0 }
    ensures { regs.new ≡ with_register (advanced regs.old) target (value_of kind (word_through (B.held bus.now).pages (place_of at) address) (register_of (advanced regs.old) target) (address % 4)) }
{
    let word = word_at(bus, at, address);
    advance(regs);
    let value = loaded_value(kind, word, read(regs, target), address % 4);
    write(regs, target, value);
}

/// A store.
#[inline(always)]
pub fn store<B: Bus>(bus: &mut B, at: Reached, kind: StoreKind, address: u32, value: u32)
    requires backed { Backs (B.held bus.old) at.page.0 at.frame.0 }
    requires alone { BacksAlone (B.held bus.old) at.page.0 at.frame.0 }
    requires aligned { address % store_unit_of kind ≡ 0 }
    ensures names { B.names bus.new ≡ B.names bus.old }
    ensures site { B.site bus.new ≡ B.site bus.old }
    ensures held { B.held bus.new ≡ stored_at (B.site bus.old).stepping (place_of at) address (word_of kind (word_through (B.held bus.old).pages (place_of at) address) value (address % 4)) (B.held bus.old) }
{
    let word = stored_word(kind, word_at(bus, at, address), value, address % 4);
    store_at(bus, at, address, word);
}

/// A linked load, which is passed.
#[inline(always)]
pub fn load_linked<B: Bus>(
    regs: &mut Regs,
    bus: &mut B,
    at: Reached,
    address: u32,
    target: Register,
)
    requires { Backs (B.held bus.old) at.page.0 at.frame.0 }
    ensures names { B.names bus.new ≡ B.names bus.old }
    ensures site { B.site bus.new ≡ B.site bus.old }
    ensures regs { regs.new ≡ with_register (advanced regs.old) target (word_through (B.held bus.old).pages (place_of at) address) }
    ensures held { B.held bus.new ≡ linking (B.site bus.old).stepping (Some (line_of (place_of at) address)) (B.held bus.old) }
{
    let word = word_at(bus, at, address);
    advance(regs);
    write(regs, target, word);
    bus.set_link(Some(line_at(at, address)));
}

/// Whether a line is linked.
fn is_line(link: Option<u32>, line: u32) -> bool
    ensures { result ≡ is_linked link line }
{
    match link {
        Some(linked) => linked == line,
        None => false,
    }
}

/// A conditional store, which is passed, and whether it was made.
#[inline(always)]
pub fn store_conditional<B: Bus>(
    regs: &mut Regs,
    bus: &mut B,
    at: Reached,
    address: u32,
    value: u32,
    target: Register,
) -> bool
    requires backed { Backs (B.held bus.old) at.page.0 at.frame.0 }
    requires alone { BacksAlone (B.held bus.old) at.page.0 at.frame.0 }
    ensures names { B.names bus.new ≡ B.names bus.old }
    ensures site { B.site bus.new ≡ B.site bus.old }
    ensures made { result ≡ is_linked (link_of (B.site bus.old).stepping (B.held bus.old)) (line_of (place_of at) address) }
    ensures stored { stored_if_linked result (B.site bus.old).stepping (place_of at) (advanced regs.old) address value target (B.held bus.old) ≡ record { registers = regs.new; held = B.held bus.new } }
{
    let linked = is_line(bus.link(), line_at(at, address));
    if linked {
        store_at(bus, at, address, value);
    }
    advance(regs);
    write(regs, target, u32::from(linked));
    bus.set_link(None);
    linked
}
