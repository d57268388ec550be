//! Loads and stores, wherever their addresses lead.
ghost use Rattle.std.specs.Prelude.{◌≡◌, ◌*◌, ◌%◌, ◌^◌, ◌<◌, length, true, Ok};
ghost use Rattle.base_words.specs.declared.effect.Request.TheVariants as asks;
ghost use Rattle.base_words.specs.declared.place.Place.TheVariants.{Memory};
ghost use Rattle.base_words.specs.Instruction.{advanced};
ghost use Rattle.base_words.specs.Merging.{load_unit as load_unit_of, store_unit as store_unit_of};
ghost use Rattle.private_machine.specs.PrivateMachine.{vcpu as vcpu_at};
ghost use Rattle.private_machine.specs.Links.{line_of as line_of_offset};
ghost use Rattle.private_machine.specs.Access.{loaded, stored, conditional_store};
ghost use Rattle.flat_machine.specs.FlatView.{machine_of, IsSound};
ghost use Rattle.flat_machine.specs.Attempts.{Attempts, requested};
ghost use Rattle.flat_machine.specs.Windows.{Keeps};
ghost use Rattle.flat_machine.specs.declared.window.Change.TheVariants as changes;

use crate::machine::Machine;
use crate::window::Change;
use base_words::{Exception, LoadKind, Place, Register, StoreKind, Use, VcpuId};
use mips_alu::{load_unit, loaded_value, read, store_unit, stored_word};

/// The line of 32 bytes in which an offset of memory lies.
#[inline]
pub fn line_of(offset: u64) -> u32
    requires { offset < 2 ^ 36 }
    ensures { result ≡ line_of_offset offset }
{
    (offset / 32) as u32
}

impl Machine {
    /// A load from memory.
    #[inline]
    fn load_word(&mut self, vcpu: VcpuId, kind: LoadKind, offset: u64, target: Register)
        requires sound { IsSound self.old }
        requires there { vcpu.0 < length (machine_of self.old).vcpus }
        requires within { offset < 4096 * self.old.pages }
        requires aligned { offset % 4 % load_unit_of kind ≡ 0 }
        ensures sound { IsSound self.new }
        ensures ready { self.new.ready ≡ self.old.ready }
        ensures loaded { loaded (machine_of self.old) vcpu.0 (advanced (vcpu_at (machine_of self.old) vcpu.0).registers) kind target (Ok (Memory offset)) ≡ Ok (machine_of self.new) }
    {
        let word = self.word_around(offset);
        let old = read(&self.vcpu(vcpu).registers, target);
        let value = loaded_value(kind, word, old, (offset % 4) as u32);
        self.put(vcpu, target, value);
    }

    /// A load, and what it changed.
    #[inline]
    pub fn load(
        &mut self,
        vcpu: VcpuId,
        kind: LoadKind,
        address: u32,
        target: Register,
    ) -> Result<Change, Exception>
        requires sound { IsSound self.old }
        requires there { vcpu.0 < length (machine_of self.old).vcpus }
        ensures sound { IsSound self.new }
        ensures ready { self.new.ready ≡ self.old.ready }
        ensures attempts { Attempts (requested (machine_of self.old) vcpu.0 (asks.Load kind address target)) (machine_of self.old) (machine_of self.new) result }
        ensures keeps { result ≡ Ok changes.Memory → Keeps (machine_of self.old) vcpu.0 (machine_of self.new) }
    {
        let place = self
            .vcpu(vcpu)
            .place(self.pages, load_unit(kind), Use::Load, address);
        match place {
            Ok(Place::Memory(offset)) => {
                self.load_word(vcpu, kind, offset, target);
                Ok(Change::Memory)
            }
            Ok(Place::Device(offset)) => match kind {
                LoadKind::Word => {
                    self.load_device(vcpu, offset, target)?;
                    Ok(Change::Machine)
                }
                _ => Err(Exception::BusError(Use::Load)),
            },
            Err(exception) => Err(exception),
        }
    }

    /// A store to memory.
    #[inline]
    fn store_word(&mut self, vcpu: VcpuId, kind: StoreKind, offset: u64, value: u32)
        requires sound { IsSound self.old }
        requires there { vcpu.0 < length (machine_of self.old).vcpus }
        requires within { offset < 4096 * self.old.pages }
        requires physical { offset < 2 ^ 36 }
        requires aligned { offset % 4 % store_unit_of kind ≡ 0 }
        ensures sound { IsSound self.new }
        ensures ready { self.new.ready ≡ self.old.ready }
        ensures stored { stored (machine_of self.old) vcpu.0 (advanced (vcpu_at (machine_of self.old) vcpu.0).registers) kind value (Ok (Memory offset)) ≡ Ok (machine_of self.new) }
    {
        let word = stored_word(kind, self.word_around(offset), value, (offset % 4) as u32);
        self.write(vcpu, offset, line_of(offset), word);
        self.pass(vcpu);
    }

    /// A store, and what it changed.
    #[inline]
    pub fn store(
        &mut self,
        vcpu: VcpuId,
        kind: StoreKind,
        address: u32,
        value: u32,
    ) -> Result<Change, Exception>
        requires sound { IsSound self.old }
        requires there { vcpu.0 < length (machine_of self.old).vcpus }
        requires ready { self.old.ready ≡ true }
        ensures sound { IsSound self.new }
        ensures attempts { Attempts (requested (machine_of self.old) vcpu.0 (asks.Store kind address value)) (machine_of self.old) (machine_of self.new) result }
        ensures keeps { result ≡ Ok changes.Memory → Keeps (machine_of self.old) vcpu.0 (machine_of self.new) }
        ensures ready { result ≡ Ok changes.Memory → self.new.ready ≡ true }
    {
        let place = self
            .vcpu(vcpu)
            .place(self.pages, store_unit(kind), Use::Store, address);
        match place {
            Ok(Place::Memory(offset)) => {
                self.store_word(vcpu, kind, offset, value);
                Ok(Change::Memory)
            }
            Ok(Place::Device(offset)) => match kind {
                StoreKind::Word => {
                    self.store_device(vcpu, offset, value)?;
                    Ok(Change::Machine)
                }
                _ => Err(Exception::BusError(Use::Store)),
            },
            Err(exception) => Err(exception),
        }
    }

    /// A linked load.
    pub fn load_linked(
        &mut self,
        vcpu: VcpuId,
        address: u32,
        target: Register,
    ) -> Result<(), Exception>
        requires sound { IsSound self.old }
        requires there { vcpu.0 < length (machine_of self.old).vcpus }
        ensures sound { IsSound self.new }
        ensures ready { self.new.ready ≡ self.old.ready }
        ensures attempts { Attempts (requested (machine_of self.old) vcpu.0 (asks.LoadLinked address target)) (machine_of self.old) (machine_of self.new) result }
    {
        match self.vcpu(vcpu).place(self.pages, 4, Use::Load, address) {
            Ok(Place::Memory(offset)) => {
                let word = self.word_around(offset);
                self.put_linked(vcpu, target, word, line_of(offset));
                Ok(())
            }
            Ok(Place::Device(_)) => Err(Exception::BusError(Use::Load)),
            Err(exception) => Err(exception),
        }
    }

    /// A conditional store to memory, which is made where its line is linked.
    fn store_if_linked(&mut self, vcpu: VcpuId, offset: u64, value: u32, target: Register)
        requires sound { IsSound self.old }
        requires there { vcpu.0 < length (machine_of self.old).vcpus }
        requires within { offset < 4096 * self.old.pages }
        requires physical { offset < 2 ^ 36 }
        requires aligned { offset % 4 % 4 ≡ 0 }
        ensures sound { IsSound self.new }
        ensures ready { self.new.ready ≡ self.old.ready }
        ensures stored { conditional_store (machine_of self.old) vcpu.0 (advanced (vcpu_at (machine_of self.old) vcpu.0).registers) target value (Ok (Memory offset)) ≡ Ok (machine_of self.new) }
    {
        let line = line_of(offset);
        if self.vcpu(vcpu).links(line) {
            self.write(vcpu, offset, line, value);
            self.put_unlinked(vcpu, target, 1);
        } else {
            self.put_unlinked(vcpu, target, 0);
        }
    }

    /// A conditional store.
    pub fn store_conditional(
        &mut self,
        vcpu: VcpuId,
        address: u32,
        value: u32,
        target: Register,
    ) -> Result<(), Exception>
        requires sound { IsSound self.old }
        requires there { vcpu.0 < length (machine_of self.old).vcpus }
        ensures sound { IsSound self.new }
        ensures ready { self.new.ready ≡ self.old.ready }
        ensures attempts { Attempts (requested (machine_of self.old) vcpu.0 (asks.StoreConditional address value target)) (machine_of self.old) (machine_of self.new) result }
    {
        match self.vcpu(vcpu).place(self.pages, 4, Use::Store, address) {
            Ok(Place::Memory(offset)) => {
                self.store_if_linked(vcpu, offset, value, target);
                Ok(())
            }
            Ok(Place::Device(_)) => Err(Exception::BusError(Use::Store)),
            Err(exception) => Err(exception),
        }
    }
}
