//! Worked examples: tables of command lines over files in memory, each with the status and the outputs that it must
//! give. This crate is tests alone.
#![tactic(auto)]

#[cfg(test)]
mod bench_rows;
#[cfg(test)]
mod certificates;
#[cfg(test)]
mod checking;
#[cfg(test)]
mod cut_files;
#[cfg(test)]
mod gates;
#[cfg(test)]
mod generated;
#[cfg(test)]
mod harness;
#[cfg(test)]
mod judgements;
#[cfg(test)]
mod large;
#[cfg(test)]
mod live_rows;
#[cfg(test)]
mod measures;
#[cfg(test)]
mod outside;
#[cfg(test)]
mod reading;
#[cfg(test)]
mod refused_calls;
#[cfg(test)]
mod runs;
#[cfg(test)]
mod stress;
#[cfg(test)]
mod trace_rows;
