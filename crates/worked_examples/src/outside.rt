//! Words that are refused, files that are not there or too long, calls of the outside that fail or give less than was
//! asked for, and the gate.

use crate::gates::CountingGate;
use crate::harness::{Row, audit_past, run_row, run_shortly, run_table};
use std::test::Fail;

pub const HISTORY: &[u8] = b"client,op,key,value,start,finish\n0,w,x,a,1,3\n1,r,x,a,4,6\n";

pub const REPORT: &str =
    "key x operations 2 delta 0 two yes\ntotal keys 1 operations 2 skipped 0 duplicate 0 unmatched 0 infinite 0 atomic 1 two 1 worst 0\n";

pub const CERT: &[u8] = b"stale-cert 1\nkey 1\ndelta 0\norder 0 1 2\ntwo yes\norder 0 1 2\nend\n";

// A row with other words.
fn with_words<'a>(shows: &'a str, words: &'a [&'a str]) -> Row<'a> {
    Row {
        words,
        ..Row::refused(shows, HISTORY, 2, "words refused\n")
    }
}

#[test]
fn other_words_are_refused(rt: HostRuntime) -> Result<(), Fail> {
    run_table(
        &rt,
        &[
            with_words("no word at all", &[]),
            with_words("no file", &["audit"]),
            with_words("an empty name", &["audit", ""]),
            with_words("a word too many", &["audit", "h", "h"]),
            with_words("another mode", &["judge", "h"]),
            with_words("no operation", &["gen", "1", "0", "1"]),
            with_words("two numbers", &["gen", "1", "1"]),
            with_words(
                "a seed of 65 bits",
                &["gen", "18446744073709551616", "1", "1"],
            ),
            with_words("too many operations", &["gen", "1", "1000001", "1"]),
            with_words("too many keys", &["gen", "1", "1", "100001"]),
            with_words(
                "too many digits",
                &["gen", "000000000000000000001", "1", "1"],
            ),
            with_words(
                "a generator with workers",
                &["gen", "1", "1", "1", "--workers", "2"],
            ),
            with_words(
                "a trial with an output",
                &["trial", "7", "2000", "1", "--cert", "c"],
            ),
            with_words(
                "a trial with no worker",
                &["trial", "1", "1", "1", "--workers", "0"],
            ),
            with_words(
                "and with too many",
                &["trial", "1", "1", "1", "--workers", "65"],
            ),
            with_words("a run of the store", &["bench", "h", "j"]),
            with_words("no worker", &["audit", "h", "--workers", "0"]),
            with_words("too many workers", &["audit", "h", "--workers", "65"]),
            with_words("a sign in a number", &["audit", "h", "--workers=+2"]),
            with_words("an option with no value", &["audit", "h", "--cert"]),
            with_words(
                "an option that is shortened",
                &["audit", "h", "--work", "2"],
            ),
            with_words("an unknown option", &["audit", "h", "--seed", "2"]),
            with_words("the history as output", &["audit", "h", "--cert", "h"]),
            with_words("an empty name of an output", &["audit", "h", "--cert="]),
            with_words(
                "a name that is taken for an option",
                &["audit", "h", "--cert", "-c"],
            ),
            with_words(
                "an option that comes twice",
                &["audit", "h", "--workers", "2", "--workers", "2"],
            ),
            with_words(
                "another option that comes twice",
                &["audit", "h", "--cert", "c", "--cert=d"],
            ),
            with_words("a check of one file", &["check", "h"]),
            with_words("a check of a file by itself", &["check", "h", "h"]),
            with_words("a check of three files", &["check", "h", "c", "d"]),
            with_words(
                "a check with workers",
                &["check", "h", "c", "--workers", "2"],
            ),
            with_words(
                "a check with an output",
                &["check", "h", "c", "--cert", "d"],
            ),
            with_words("help", &["--help"]),
        ],
    )?;
    Ok(())
}

// A row with other words that are taken, and the file that is there afterwards.
fn taken<'a>(shows: &'a str, words: &'a [&'a str], after: (&'a str, Option<&'a [u8]>)) -> Row<'a> {
    Row {
        words,
        after,
        ..Row::audit(shows, HISTORY, REPORT)
    }
}

#[test]
fn options_stand_anywhere(rt: HostRuntime) -> Result<(), Fail> {
    run_table(
        &rt,
        &[
            taken(
                "the most workers",
                &["audit", "--workers", "64", "h"],
                ("c", None),
            ),
            taken(
                "a number with zeros",
                &["audit", "h", "--workers=002"],
                ("c", None),
            ),
            taken(
                "options first",
                &["--cert", "c", "audit", "h"],
                ("c", Some(CERT)),
            ),
            taken(
                "a name that begins as an option",
                &["audit", "h", "--cert=-c"],
                ("-c", Some(CERT)),
            ),
            taken(
                "the end of options",
                &["audit", "--cert=c", "--", "h"],
                ("c", Some(CERT)),
            ),
        ],
    )?;
    Ok(())
}

#[test]
fn a_missing_file_is_named(rt: HostRuntime) -> Result<(), Fail> {
    run_table(
        &rt,
        &[
            Row {
                words: &["audit", "nosuch"],
                ..Row::refused("no file of this name", HISTORY, 5, "missing: nosuch\n")
            },
            Row {
                words: &["audit", "no such\\"],
                ..Row::refused(
                    "the name is escaped",
                    HISTORY,
                    5,
                    "missing: no\\x20such\\x5c\n",
                )
            },
        ],
    )?;
    Ok(())
}

// A row whose shelf fails at these calls.
fn with_shelf<'a>(shows: &'a str, shelf_fails: &'a [u32]) -> Row<'a> {
    Row {
        shelf_fails,
        ..Row::refused(shows, HISTORY, 6, "read failed\n")
    }
}

#[test]
fn failed_reads_are_told(rt: HostRuntime) -> Result<(), Fail> {
    run_table(
        &rt,
        &[
            with_shelf("the file is not opened", &[1]),
            with_shelf("the first read fails", &[2]),
            with_shelf("the read at the end fails", &[3]),
            Row {
                shelf_fails: &[4],
                ..Row::audit("no fourth call is made", HISTORY, REPORT)
            },
        ],
    )?;
    Ok(())
}

#[test]
fn failed_writes_are_told(rt: HostRuntime) -> Result<(), Fail> {
    run_table(
        &rt,
        &[
            Row {
                out_fails: &[1],
                ..Row::refused("the report is not written", HISTORY, 7, "write failed\n")
            },
            Row {
                out_fails: &[2],
                status: 7,
                err: "write failed\n",
                ..Row::audit("the report is not flushed", HISTORY, REPORT)
            },
            Row {
                out_fails: &[1],
                err_fails: &[1],
                ..Row::refused("both outputs fail", HISTORY, 7, "")
            },
            Row {
                words: &["audit"],
                err_fails: &[1],
                ..Row::refused("the line on refused words is not written", HISTORY, 2, "")
            },
        ],
    )?;
    Ok(())
}

// An audit that writes a certificate, where some calls fail, and the file `c` afterwards.
fn certify_failing<'a>(
    shows: &'a str,
    (shelf_fails, out_fails): (&'a [u32], &'a [u32]),
    (status, out, err): (u8, &'a str, &'a str),
    after: Option<&'a [u8]>,
) -> Row<'a> {
    Row {
        shelf_fails,
        out_fails,
        status,
        err,
        after: ("c", after),
        ..Row::certify(shows, HISTORY, out, CERT)
    }
}

const READ_FAILED: (u8, &str, &str) = (6, "", "read failed\n");

const WRITE_FAILED: (u8, &str, &str) = (7, "", "write failed\n");

#[test]
fn failed_calls_leave_a_part_of_the_certificate(rt: HostRuntime) -> Result<(), Fail> {
    run_table(
        &rt,
        &[
            certify_failing("the history is not opened", (&[1], &[]), READ_FAILED, None),
            certify_failing("the first read fails", (&[2], &[]), READ_FAILED, None),
            certify_failing("the read at the end fails", (&[3], &[]), READ_FAILED, None),
            certify_failing(
                "the certificate is not created",
                (&[4], &[]),
                WRITE_FAILED,
                None,
            ),
            certify_failing(
                "it is not written",
                (&[5], &[]),
                WRITE_FAILED,
                Some(b"".as_slice()),
            ),
            certify_failing("it is not finished", (&[6], &[]), WRITE_FAILED, Some(CERT)),
            certify_failing(
                "no seventh call is made",
                (&[7], &[]),
                (0, REPORT, ""),
                Some(CERT),
            ),
            certify_failing(
                "the report is not written",
                (&[], &[1]),
                WRITE_FAILED,
                Some(CERT),
            ),
            certify_failing(
                "the report is not flushed",
                (&[], &[2]),
                (7, REPORT, "write failed\n"),
                Some(CERT),
            ),
            certify_failing(
                "no third call is made",
                (&[], &[3]),
                (0, REPORT, ""),
                Some(CERT),
            ),
            Row {
                err_fails: &[1],
                ..certify_failing("the line is not written", (&[4], &[]), (7, "", ""), None)
            },
        ],
    )?;
    Ok(())
}

#[test]
fn an_older_certificate_is_replaced(rt: HostRuntime) -> Result<(), Fail> {
    let old = [b'x'; 200];
    let cert = Some(old.as_slice());
    run_table(
        &rt,
        &[
            Row {
                cert,
                ..Row::certify("a longer one", HISTORY, REPORT, CERT)
            },
            Row {
                cert,
                ..certify_failing("it is not emptied", (&[4], &[]), WRITE_FAILED, cert)
            },
            Row {
                cert,
                ..certify_failing(
                    "it is emptied",
                    (&[5], &[]),
                    WRITE_FAILED,
                    Some(b"".as_slice()),
                )
            },
            Row {
                cert,
                ..certify_failing(
                    "it stays where a read fails",
                    (&[3], &[]),
                    READ_FAILED,
                    cert,
                )
            },
            Row {
                cert,
                words: &["audit", "nosuch", "--cert", "c"],
                ..certify_failing(
                    "it stays where there is no history",
                    (&[], &[]),
                    (5, "", "missing: nosuch\n"),
                    cert,
                )
            },
        ],
    )?;
    Ok(())
}

#[test]
fn short_reads_are_put_together(rt: HostRuntime) -> Result<(), Fail> {
    let row = Row::audit("a few bytes a call", HISTORY, REPORT);
    run_shortly(&rt, &row, 1)?;
    run_shortly(&rt, &row, 7)?;
    run_shortly(
        &rt,
        &Row::certify("with a certificate", HISTORY, REPORT, CERT),
        1,
    )?;
    // The history has 57 bytes: opened by call 1, read by calls 2 to 58, and its end is call 59.
    run_shortly(&rt, &with_shelf("a read amid the file fails", &[30]), 1)?;
    run_shortly(&rt, &with_shelf("the read at the end fails", &[59]), 1)?;
    let after_the_end = Row {
        shelf_fails: &[60],
        ..row
    };
    run_shortly(&rt, &after_the_end, 1)?;
    Ok(())
}

// Wherever an allocation is refused, what was entered is left.
#[test]
fn the_gate_is_passed_round_each_key(rt: HostRuntime) -> Result<(), Fail> {
    let gate = CountingGate::new();
    let history = b"client,op,key,value,start,finish\n0,w,x,a,1,3\n0,w,y,a,4,6\n0,r,z,a,7,9\n";
    let status = audit_past(&rt, history, &gate)?;
    let entered = gate.entered();
    assert_eq!(rt; gate.astray(), 0);
    assert_eq!(rt; gate.left(), entered);
    assert!(rt; status == 10 || (status == 0 && entered == 3));
    Ok(())
}

#[test]
fn a_file_above_the_limit_is_named(rt: HostRuntime) -> Result<(), Fail> {
    let mut history = Vec::from_slice(rt.alloc(), b"client,op,key,value,start,finish\n")?;
    history.resize(67_108_865, b'\n')?;
    run_row(
        &rt,
        &Row::refused("one byte above the limit", &history, 8, "too long: h\n"),
    )?;
    history.truncate(67_108_864);
    run_row(
        &rt,
        &Row::audit(
            "a file of the greatest length",
            &history,
            "total keys 0 operations 0 skipped 0 duplicate 0 unmatched 0 infinite 0 atomic 0 two 0 worst none\n",
        ),
    )?;
    Ok(())
}
