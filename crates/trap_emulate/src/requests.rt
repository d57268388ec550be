//! What an instruction asks, before it is answered.
ghost use Rattle.std.specs.Prelude.{◌≡◌, ◌≢◌, ◌<◌, ◌%◌, IsSome, Some};
ghost use Rattle.base_words.specs.Instruction.{effect};
ghost use Rattle.base_words.specs.OpcodeMap.{decoded};
ghost use Rattle.private_machine.specs.Reaching.{wanted};
ghost use Rattle.trap_emulate.specs.Requests.{asked_of, AsksSomething, wanted_of};

use base_words::{Exception, Regs, Request, Use};
use mips_alu::{execute, load_unit, store_unit};
use mips_isa::decode;

/// An access of memory: what for, of which its address has to be a multiple, and the address.
#[derive(Clone, Copy, Debug, PartialEq, Eq)]
pub struct Access {
    pub purpose: Use,
    pub unit: u32,
    pub address: u32,
}

/// What an instruction asks of memory or of coprocessor 0, or the exception that it raises. The registers stay as they are.
#[inline]
pub fn asked(registers: &mut Regs, word: u32) -> Result<Request, Exception>
    requires { AsksSomething (effect (decoded word) registers.old) }
    ensures same { registers.new ≡ registers.old }
    ensures asked { asked_of registers.old result ≡ effect (decoded word) registers.old }
{
    execute(&decode(word), registers)
}

/// The access of a request that has one.
#[inline]
pub fn access_of(request: &Request) -> Access
    requires { IsSome (wanted request.now) }
    ensures access { wanted request.now ≡ Some (wanted_of result) }
    ensures some { 0 < result.unit }
    ensures divides { 4 % result.unit ≡ 0 }
{
    match *request {
        Request::Load { kind, address, .. } => Access {
            purpose: Use::Load,
            unit: load_unit(kind),
            address,
        },
        Request::Store { kind, address, .. } => Access {
            purpose: Use::Store,
            unit: store_unit(kind),
            address,
        },
        Request::LoadLinked { address, .. } => Access {
            purpose: Use::Load,
            unit: 4,
            address,
        },
        Request::StoreConditional { address, .. } => Access {
            purpose: Use::Store,
            unit: 4,
            address,
        },
        Request::Nothing
        | Request::ReadCp0 { .. }
        | Request::WriteCp0 { .. }
        | Request::System(_) => unreachable!(),
    }
}
