//! Counts the records of a CSV file: the bare loop that the bench measures the auditor against.
#![tactic(auto)]

use anyhow::{Result, anyhow};
use csv::{ByteRecord, ReaderBuilder};
use std::alloc::Global;
use std::{env, fs};

// How many records the bytes have.
fn record_count(alloc: Global, bytes: &[u8]) -> Result<u64> {
    let mut reader = ReaderBuilder::new()
        .has_headers(false)
        .flexible(true)
        .from_reader(alloc, bytes);
    let mut row = ByteRecord::new(alloc);
    for count in 0..u64::MAX {
        match reader.read_byte_record(&mut row) {
            Ok(true) => {}
            Ok(false) => return Ok(count),
            Err(_) => break,
        }
    }
    Err(anyhow!("the records can't be read"))
}

fn main(rt: HostRuntime) -> Result<()> {
    let Some(name) = env::args(&rt)?.nth(1) else {
        return Err(anyhow!("usage: record_count FILE"));
    };
    let bytes = fs::read(&rt, name.as_str())?;
    let count = record_count(rt.alloc(), &bytes)?;
    println!(rt; "{count}")?;
    Ok(())
}
