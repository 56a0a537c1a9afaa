//! Generated histories: what is written of them, and what their reports say.

use crate::harness::{Row, run_row, run_table, written_by};
use std::test::Fail;

// Worked by another program, by the rule in words.
const TWELVE: &str = "client,op,key,value,start,finish
1,w,k2,v1,10,18
2,w,k0,v2,20,35
3,w,k2,v3,30,52
4,w,k0,v4,40,69
5,r,k2,v3,50,86
6,w,k0,v6,60,63
7,w,k1,v7,70,80
0,r,k2,v3,80,97
1,w,k0,v9,90,114
2,r,k2,v3,100,131
3,w,k2,v11,110,148
4,w,k0,v12,120,125
";

const ONE: &str = "client,op,key,value,start,finish
1,w,k0,v1,10,18
";

const GREATEST_SEED: &str = "client,op,key,value,start,finish
1,w,k3,v1,10,18
2,w,k3,v2,20,35
3,w,k4,v3,30,52
4,w,k0,v4,40,69
";

const LINE_OF_ONE: &str =
    "total keys 1 operations 1 skipped 0 duplicate 0 unmatched 0 infinite 0 atomic 1 two 1 worst 0\n";

#[test]
fn histories_are_written(rt: HostRuntime) -> Result<(), Fail> {
    run_table(
        &rt,
        &[
            Row::words("one operation", &["gen", "1", "1", "1"], ONE),
            Row::words("twelve", &["gen", "7", "12", "3"], TWELVE),
            Row::words(
                "leading zeros",
                &["gen", "007", "00000000000000000012", "03"],
                TWELVE,
            ),
            Row::words(
                "the greatest seed",
                &["gen", "18446744073709551615", "4", "5"],
                GREATEST_SEED,
            ),
        ],
    )?;
    Ok(())
}

#[test]
fn histories_are_judged(rt: HostRuntime) -> Result<(), Fail> {
    run_table(
        &rt,
        &[
            Row::words("one operation", &["trial", "1", "1", "1"], LINE_OF_ONE),
            Row::words(
                "one key",
                &["trial", "7", "2000", "1"],
                "total keys 1 operations 2000 skipped 0 duplicate 0 unmatched 0 infinite 0 atomic 1 two 1 worst 0\n",
            ),
            Row::words(
                "fifty keys",
                &["trial", "7", "200000", "50"],
                "total keys 50 operations 200000 skipped 0 duplicate 0 unmatched 0 infinite 0 atomic 17 two 34 worst 8349\n",
            ),
            Row::words(
                "eight workers",
                &["--workers", "8", "trial", "7", "200000", "50"],
                "total keys 50 operations 200000 skipped 0 duplicate 0 unmatched 0 infinite 0 atomic 17 two 34 worst 8349\n",
            ),
        ],
    )?;
    Ok(())
}

#[test]
fn a_large_key_is_judged(rt: HostRuntime) -> Result<(), Fail> {
    run_row(
        &rt,
        &Row::words(
            "one key of 200,000 operations",
            &["trial", "7", "200000", "1"],
            "total keys 1 operations 200000 skipped 0 duplicate 0 unmatched 0 infinite 0 atomic 1 two 1 worst 0\n",
        ),
    )?;
    Ok(())
}

#[test]
fn a_million_operations_are_judged(rt: HostRuntime) -> Result<(), Fail> {
    run_table(
        &rt,
        &[
            Row::words(
                "two keys",
                &["trial", "7", "1000000", "2"],
                "total keys 2 operations 1000000 skipped 0 duplicate 0 unmatched 0 infinite 0 atomic 1 two 2 worst 292\n",
            ),
            Row::words(
                "many keys",
                &["trial", "7", "1000000", "50000"],
                "total keys 50000 operations 1000000 skipped 0 duplicate 0 unmatched 0 infinite 0 atomic 36309 two 43768 worst 8297705\n",
            ),
        ],
    )?;
    Ok(())
}

// A row whose output fails at this call, and what it gained before.
fn with_out<'a>(
    shows: &'a str,
    words: &'a [&'a str],
    out_fails: &'a [u32],
    out: &'a str,
) -> Row<'a> {
    Row {
        out_fails,
        status: 7,
        err: "write failed\n",
        ..Row::words(shows, words, out)
    }
}

#[test]
fn failed_writes_are_told(rt: HostRuntime) -> Result<(), Fail> {
    run_table(
        &rt,
        &[
            with_out("no history is written", &["gen", "1", "1", "1"], &[1], ""),
            with_out("it is not flushed", &["gen", "1", "1", "1"], &[2], ONE),
            with_out("no line is written", &["trial", "1", "1", "1"], &[1], ""),
            with_out(
                "it is not flushed",
                &["trial", "1", "1", "1"],
                &[2],
                LINE_OF_ONE,
            ),
            Row {
                out_fails: &[3],
                shelf_fails: &[1],
                ..Row::words("no other call is made", &["gen", "1", "1", "1"], ONE)
            },
        ],
    )?;
    Ok(())
}

// The number of the key that a line is on.
fn key_of(line: &str) -> Option<u32> {
    let (name, _) = line.strip_prefix("key k")?.split_once(' ')?;
    name.parse().ok()
}

#[test]
fn keys_are_as_fresh_as_their_numbers_say(rt: HostRuntime) -> Result<(), Fail> {
    let generated = Row::words("fifty keys", &["gen", "7", "20000", "50"], "");
    let (history, _) = written_by(&rt, &generated)?;
    let (report, _) = written_by(&rt, &Row::audit("their report", &history, ""))?;
    let mut lines = str::from_utf8(&report)?.lines();
    for _key in 0..50 {
        let Some(line) = lines.next() else {
            panic!(rt; "fewer lines than keys")
        };
        let Some(key) = key_of(line) else {
            panic!(rt; "{line}")
        };
        match key % 3 {
            0 => assert!(rt; line.ends_with(" delta 0 two yes"), "{line}"),
            1 => assert!(rt; line.ends_with(" two yes"), "{line}"),
            _ => {}
        }
    }
    Ok(())
}

// An audit with a certificate by so many workers.
fn certify_by<'a>(history: &'a [u8], words: &'a [&'a str]) -> Row<'a> {
    Row {
        words,
        ..Row::certify("a certificate", history, "", b"")
    }
}

#[test]
fn eight_workers_write_the_same(rt: HostRuntime) -> Result<(), Fail> {
    let generated = Row::words("fifty keys", &["gen", "7", "200000", "50"], "");
    let (history, _) = written_by(&rt, &generated)?;
    let one = certify_by(&history, &["audit", "h", "--cert", "c"]);
    let eight = certify_by(&history, &["audit", "h", "--cert", "c", "--workers", "8"]);
    let (report, cert) = written_by(&rt, &one)?;
    let (report_of_eight, cert_of_eight) = written_by(&rt, &eight)?;
    assert!(rt; report == report_of_eight, "the report");
    assert!(rt; cert == cert_of_eight, "the certificate");
    run_row(&rt, &Row::check("it is good", &history, &cert, 0, "good\n"))?;
    Ok(())
}
