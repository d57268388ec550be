//! The fields of an instruction word.
ghost use Rattle.std.specs.Prelude.{◌≡◌, ◌<◌, ◌^◌, ◌/◌, ◌%◌};
ghost use Rattle.base_words.specs.Fields.{rs as rs_of, rt as rt_of, rd as rd_of, sa as sa_of, immediate as immediate_of, jump_index as jump_index_of, system_code as system_code_of, trap_code as trap_code_of};

use base_words::{JumpIndex, Register, ShiftAmount, SystemCode, TrapCode};

/// Bits 25 to 21.
#[inline(always)]
pub fn rs(word: u32) -> Register
    ensures { result ≡ rs_of word }
{
    Register::new(word >> 21 & 31)
}

/// Bits 20 to 16.
#[inline(always)]
pub fn rt(word: u32) -> Register
    ensures { result ≡ rt_of word }
{
    Register::new(word >> 16 & 31)
}

/// Bits 15 to 11.
#[inline(always)]
pub fn rd(word: u32) -> Register
    ensures { result ≡ rd_of word }
{
    Register::new(word >> 11 & 31)
}

/// Bits 10 to 6.
#[inline(always)]
pub fn sa(word: u32) -> ShiftAmount
    ensures { result ≡ sa_of word }
{
    ShiftAmount::new(word >> 6 & 31)
}

/// Bits 15 to 0.
#[inline(always)]
pub fn immediate(word: u32) -> u16
    ensures { result ≡ immediate_of word }
{
    (word & 0xFFFF) as u16
}

/// Bits 25 to 0.
#[inline(always)]
pub fn jump_index(word: u32) -> JumpIndex
    ensures { result ≡ jump_index_of word }
{
    JumpIndex::new(word & 0x03FF_FFFF)
}

/// Bits 25 to 6.
#[inline(always)]
pub fn system_code(word: u32) -> SystemCode
    ensures { result ≡ system_code_of word }
{
    SystemCode::new(word >> 6 & 0xF_FFFF)
}

/// Bits 15 to 6.
#[inline(always)]
pub fn trap_code(word: u32) -> TrapCode
    ensures { result ≡ trap_code_of word }
{
    TrapCode::new(word >> 6 & 0x3FF)
}
