//! What the tests of instructions begin with, and how they look at one.
ghost use Rattle.std.specs.Prelude.{◌≡◌, ◌<◌};

use crate::telling::same;
use base_words::{Exception, Instr, Register, Regs, Request};
use mips_alu::execute;
use std::process::Abort;

/// The address of the instruction, of its delay slot, and of what follows both.
pub const HERE: u32 = 0x0040_0100;

pub const NEXT: u32 = 0x0040_0104;

pub const AFTER: u32 = 0x0040_0108;

/// An instruction's answer, and the registers that it leaves.
pub type Outcome = (Result<Request, Exception>, Regs);

/// A general register by its number.
pub fn r(number: u32) -> Register
    requires { number < 32 }
    ensures { result ≡ number }
{
    Register::new(number)
}

/// Two words in registers 1 and 2, and no delay slot.
pub fn holding(first: u32, second: u32) -> Regs {
    let mut regs = Regs {
        general: [0x5A5A_5A5A; 32],
        hi: 0x1111_1111,
        lo: 0x2222_2222,
        pc: HERE,
        slot: None,
    };
    regs.general[1] = first;
    regs.general[2] = second;
    regs
}

/// What an instruction does.
pub fn outcome(instr: Instr, before: Regs) -> Outcome {
    let mut after = before;
    let answer = execute(&instr, &mut after);
    (answer, after)
}

/// What an instruction does is what is wanted.
pub fn gives(rt: &impl Abort, instr: Instr, before: Regs, want: Outcome) {
    same(rt, &outcome(instr, before), &want, &instr);
}

/// The instruction is done, and the next one follows.
pub fn passes(before: Regs) -> Outcome {
    let mut after = before;
    after.pc = NEXT;
    (Ok(Request::Nothing), after)
}

/// The registers with a new value in one of them.
pub fn with_register(before: Regs, register: usize, value: u32) -> Regs
    requires { register < 32 }
{
    let mut after = before;
    after.general[register] = value;
    after
}

/// The instruction is done: a register has a new value, and the next instruction follows.
pub fn computes(before: Regs, register: usize, value: u32) -> Outcome
    requires { register < 32 }
{
    passes(with_register(before, register, value))
}

/// The instruction in the delay slot follows, and then a target.
pub fn leads(before: Regs, target: u32) -> Outcome {
    let mut after = before;
    after.pc = NEXT;
    after.slot = Some(target);
    (Ok(Request::Nothing), after)
}

/// The delay slot is passed over.
pub fn skips(before: Regs) -> Outcome {
    let mut after = before;
    after.pc = AFTER;
    (Ok(Request::Nothing), after)
}

/// Something is asked, and the registers wait for the answer.
pub fn asks(before: Regs, request: Request) -> Outcome {
    (Ok(request), before)
}

/// An exception is raised, and the registers stay.
pub fn raises(before: Regs, exception: Exception) -> Outcome {
    (Err(exception), before)
}
