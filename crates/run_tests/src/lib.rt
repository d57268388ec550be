//! Tests of whole runs of several guests or callers, from the words and the files to the output and the record.
#![tactic(auto)]

#[cfg(test)]
mod example_descriptions;
#[cfg(test)]
mod example_images;
#[cfg(test)]
mod examples;
#[cfg(test)]
mod journals;
#[cfg(test)]
mod litmus_files;
#[cfg(test)]
mod parallel;
#[cfg(test)]
mod record;
#[cfg(test)]
mod sharing_examples;
#[cfg(test)]
mod telling;
