//! Tests of the words below all, of instructions and what they compute, of coprocessor 0, and of both kinds of TLB.
#![tactic(auto)]

#[cfg(test)]
mod base_words_values;
#[cfg(test)]
mod guest_tlb_entries;
#[cfg(test)]
mod hw_tlb_halves;
#[cfg(test)]
mod mips_alu_arithmetic;
#[cfg(test)]
mod mips_alu_branches;
#[cfg(test)]
mod mips_alu_delay_slots;
#[cfg(test)]
mod mips_alu_memory;
#[cfg(test)]
mod mips_alu_rig;
#[cfg(test)]
mod mips_alu_traps;
#[cfg(test)]
mod mips_cp0_registers;
#[cfg(test)]
mod mips_isa_words;
#[cfg(test)]
mod mips_retire_results;
#[cfg(test)]
mod telling;
