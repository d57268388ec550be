//! Packets that are thrown away, since their cell has failed.
ghost use Rattle.std.specs.Prelude.{◌≡◌, ◌<◌, IfSome, IfNone, OnOk, OnErr, None, length};
ghost use Rattle.std.specs.Vec.{vec_len, vec_capacity};
ghost use Rattle.isolation_law.specs.PacketRows.{Discards};
ghost use Rattle.isolation_law.specs.Phases.{GoesOn};
ghost use Rattle.guest_course.specs.CourseView.{state_of};
ghost use Rattle.guest_course.specs.CourseRules.{IsSound};
ghost use Rattle.guest_course.specs.ReceivingCalls.{HandIsLost, HandLives, UsesPlace};

use crate::course::Course;
use crate::receiving::got;
use base_words::CellId;
use isolation_law::row_keeps;
use std::alloc::{AllocError, Global};

impl Course {
    /// The cell of the packet in hand, where it has failed.
    pub fn lost_packet(&self) -> Option<CellId>
        requires { IsSound self.now }
        ensures some { IfSome result (λ cell. (lost : HandIsLost (state_of self.now)) × (cell.0 ≡ lost.packet.cell)) }
        ensures none { IfNone result (HandLives (state_of self.now)) }
    {
        let Some(packet) = &self.hand else {
            return None;
        };
        if self.is_dead(packet.cell) {
            Some(packet.cell)
        } else {
            None
        }
    }

    /// Throws the packet in hand away, whose cell has failed. For want of memory nothing has changed.
    pub fn discard(&mut self, alloc: Global) -> Result<(), AllocError>
        requires sound { IsSound self.old }
        requires goes_on { GoesOn (state_of self.old) }
        requires lost { HandIsLost (state_of self.old) }
        requires place { vec_len self.old.discarded < vec_capacity self.old.discarded }
        ensures sound { IsSound self.new }
        ensures discards { OnOk result (Discards (state_of self.old) (length self.old.discarded.items) (state_of self.new)) }
        ensures unchanged { OnErr result (self.new ≡ self.old) }
        ensures goes_on { GoesOn (state_of self.new) }
        ensures free { OnOk result (self.new.hand ≡ None) }
        ensures same { self.new ≡ record self.old { hand = self.new.hand; discarded = self.new.discarded } }
        ensures place_room { UsesPlace self.old.discarded self.new.discarded }
    {
        row_keeps();
        let Some(packet) = &self.hand else {
            unreachable!();
        };
        let packet = got(alloc, packet)?;
        self.hand = None;
        self.discarded.push_reserved(packet);
        Ok(())
    }
}
