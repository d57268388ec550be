//! Tests of the runs of descriptions: what is refused, disks, pages that move, cells that fail, and the printed text.
#![tactic(auto)]

#[cfg(test)]
mod cases;
#[cfg(test)]
mod descriptions;
#[cfg(test)]
mod failing;
#[cfg(test)]
mod moves;
#[cfg(test)]
mod policy;
#[cfg(test)]
mod profiles;
#[cfg(test)]
mod record;
#[cfg(test)]
mod refusals;
#[cfg(test)]
mod run_report_texts;
#[cfg(test)]
mod telling;
