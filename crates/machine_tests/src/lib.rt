//! Tests of the private machine and its devices, of traps, and of what the monitor keeps of a guest.
#![tactic(auto)]

#[cfg(test)]
mod cell_depend_uses;
#[cfg(test)]
mod cow_disk_blocks;
#[cfg(test)]
mod event_journal_runs;
#[cfg(test)]
mod flat_machine_devices;
#[cfg(test)]
mod flat_machine_events;
#[cfg(test)]
mod flat_machine_guests;
#[cfg(test)]
mod guest_devs_registers;
#[cfg(test)]
mod l2_tlb_entries;
#[cfg(test)]
mod page_policy_choices;
#[cfg(test)]
mod pmap_table_pages;
#[cfg(test)]
mod telling;
#[cfg(test)]
mod trap_emulate_faults;
#[cfg(test)]
mod trap_emulate_rig;
#[cfg(test)]
mod trap_emulate_stand_in;
#[cfg(test)]
mod trap_emulate_steps;
