//! The moves that pages need before their bytes change.
ghost use Rattle.std.specs.Prelude.{◌≡◌, ◌<◌, ◌≤◌, ◌+◌, Some, None};
ghost use Rattle.base_words.specs.declared.moves.By.{By};
ghost use Rattle.base_words.specs.declared.moves.By.TheVariants.{Step};
ghost use Rattle.base_words.specs.declared.moves.MoveKind.TheVariants.{Collapse};
ghost use Rattle.private_machine.specs.DeviceAct.{StoresTo};
ghost use Rattle.isolation_law.specs.MoveRows.{Asks, Begins};
ghost use Rattle.isolation_law.specs.Phases.{GoesOn};
ghost use Rattle.isolation_law.specs.StepAct.{at_hand};
ghost use Rattle.guest_course.specs.CourseView.{state_of};
ghost use Rattle.guest_course.specs.CourseRules.{IsSound};
ghost use Rattle.guest_course.specs.EmulateCalls.{LeavesAct};
ghost use Rattle.guest_course.specs.Hurdles.{NeedsMove};
ghost use Rattle.guest_course.specs.MoveCalls.{home_wish};
ghost use Rattle.guest_course.specs.Packets.{SamePackets};
ghost use Rattle.guest_course.specs.RefillCalls.{StaysNeeding, StaysLosing};
ghost use Rattle.guest_course.specs.StepCalls.{MayStep};
ghost use Rattle.guest_course.specs.Tasks.{read_page};

use crate::course::Course;
use base_words::{MoveKind, Ppn, ProcId, VcpuId};
use guest_devs::DevAct;
use isolation_law::{goes_on_alive, read_only_stores, row_keeps};
use pmap_table::Change;

impl Course {
    /// Begins the move that a page needs before its bytes change, which somebody may ask for. A break takes a spare.
    pub(crate) fn begin_asked(&mut self, page: Ppn, kind: MoveKind)
        requires sound { IsSound self.old }
        requires goes_on { GoesOn (state_of self.old) }
        requires needs { NeedsMove (state_of self.old) page.0 kind }
        requires asked { (by : By) × Asks (state_of self.old) by (home_wish (state_of self.old) page.0 kind) None }
        requires room { 0 < self.old.pmap.room }
        ensures sound { IsSound self.new }
        ensures begins { (by : By) → Asks (state_of self.old) by (home_wish (state_of self.old) page.0 kind) None → Begins (state_of self.old) page.0 kind (state_of self.old).around.home by (state_of self.new) }
        ensures goes_on { GoesOn (state_of self.new) }
        ensures print_room { self.new.devs.print_room ≡ self.old.devs.print_room }
        ensures send_room { self.new.devs.send_room ≡ self.old.devs.send_room }
        ensures room { self.old.pmap.room ≤ self.new.pmap.room + 1 }
        ensures cells { self.new.sent_from ≡ self.old.sent_from }
        ensures skips { self.new.skips ≡ self.old.skips }
        ensures packets { SamePackets self.old self.new }
    {
        row_keeps();
        goes_on_alive();
        if self.pmap.is_shared(page) {
            let spare = self.pmap.take_spare();
            self.open(page, Change::Break(spare), None);
        } else {
            self.open(page, Change::Collapse, None);
        }
    }

    /// Begins the move that the store at hand needs of its page. A break takes a spare.
    pub fn begin_needed(&mut self, processor: ProcId, vcpu: VcpuId, page: Ppn, kind: MoveKind)
        requires sound { IsSound self.old }
        requires may { MayStep (state_of self.old) processor.0 vcpu.0 }
        requires needs { StaysNeeding (state_of self.old) processor.0 vcpu.0 page.0 kind (state_of self.old) }
        requires room { 0 < self.old.pmap.room }
        ensures sound { IsSound self.new }
        ensures begins { Begins (state_of self.old) page.0 kind (state_of self.old).around.home (Step processor) (state_of self.new) }
        ensures stores { at_hand (state_of self.old) vcpu.0 ≡ StoresTo page.0 }
        ensures goes_on { GoesOn (state_of self.new) }
        ensures print_room { self.new.devs.print_room ≡ self.old.devs.print_room }
        ensures send_room { self.new.devs.send_room ≡ self.old.devs.send_room }
        ensures room { self.old.pmap.room ≤ self.new.pmap.room + 1 }
        ensures cells { self.new.sent_from ≡ self.old.sent_from }
        ensures skips { self.new.skips ≡ self.old.skips }
        ensures packets { SamePackets self.old self.new }
    {
        read_only_stores();
        self.begin_asked(page, kind);
    }

    /// Begins to collapse a page that the step at hand reached by a frame of a failed cell.
    pub fn begin_lost(&mut self, processor: ProcId, vcpu: VcpuId, page: Ppn)
        requires sound { IsSound self.old }
        requires may { MayStep (state_of self.old) processor.0 vcpu.0 }
        requires loses { StaysLosing (state_of self.old) processor.0 vcpu.0 page.0 (state_of self.old) }
        requires room { 0 < self.old.pmap.room }
        ensures sound { IsSound self.new }
        ensures begins { Begins (state_of self.old) page.0 Collapse (state_of self.old).around.home (Step processor) (state_of self.new) }
        ensures goes_on { GoesOn (state_of self.new) }
        ensures print_room { self.new.devs.print_room ≡ self.old.devs.print_room }
        ensures send_room { self.new.devs.send_room ≡ self.old.devs.send_room }
        ensures room { self.old.pmap.room ≤ self.new.pmap.room + 1 }
        ensures cells { self.new.sent_from ≡ self.old.sent_from }
        ensures skips { self.new.skips ≡ self.old.skips }
        ensures packets { SamePackets self.old self.new }
    {
        let home = self.around.home;
        self.begin(page, Change::Collapse, home);
    }

    /// Begins the move that a disk read needs of the page into which its block comes, where the read was left as an act. A break takes
    /// a spare.
    pub fn begin_for_read(
        &mut self,
        processor: ProcId,
        vcpu: VcpuId,
        act: DevAct,
        page: Ppn,
        kind: MoveKind,
    )
        requires sound { IsSound self.old }
        requires left { LeavesAct (state_of self.old) processor.0 vcpu.0 act (state_of self.old) }
        requires reads { read_page (state_of self.old) vcpu.0 act ≡ Some page.0 }
        requires needs { NeedsMove (state_of self.old) page.0 kind }
        requires room { 0 < self.old.pmap.room }
        ensures sound { IsSound self.new }
        ensures begins { Begins (state_of self.old) page.0 kind (state_of self.old).around.home (Step processor) (state_of self.new) }
        ensures goes_on { GoesOn (state_of self.new) }
        ensures print_room { self.new.devs.print_room ≡ self.old.devs.print_room }
        ensures send_room { self.new.devs.send_room ≡ self.old.devs.send_room }
        ensures room { self.old.pmap.room ≤ self.new.pmap.room + 1 }
        ensures cells { self.new.sent_from ≡ self.old.sent_from }
        ensures skips { self.new.skips ≡ self.old.skips }
        ensures packets { SamePackets self.old self.new }
    {
        self.begin_asked(page, kind);
    }
}
