//! Certificates that are checked: good ones, those that show nothing, those that are none, and the files they are in.

use crate::harness::{Row, run_row, run_table};
use std::alloc::{AllocError, Global};
use std::process::Abort;
use std::test::Fail;
use std::thread::Threads;

// A read three ticks stale, and its certificate line by line.
pub const STALE: &[u8] =
    b"client,op,key,value,start,finish\n0,w,x,a,1,2\n0,w,x,b,3,4\n1,r,x,a,7,9\n";

pub const STALE_CERT: &[&str] = &[
    "stale-cert 1\n",
    "key 1\n",
    "delta 3\n",
    "order 0 1 3 2\n",
    "pair 1 2 2 3\n",
    "two yes\n",
    "order 0 1 2 3\n",
    "end\n",
];

// Three writes and a read of the first, and its certificate line by line.
const STUCK: &[u8] =
    b"client,op,key,value,start,finish\n0,w,x,a,1,2\n0,w,x,b,3,4\n0,w,x,c,5,6\n1,r,x,a,9,10\n";

const STUCK_CERT: &[&str] = &[
    "stale-cert 1\n",
    "key 1\n",
    "delta 5\n",
    "order 0 1 4 2 3\n",
    "pair 1 2 2 4\n",
    "two no\n",
    "stuck 3 2 1 0\n",
    "try 3 1 hard 1 2\n",
    "try 2 hard 2 3\n",
    "try 1 hard 1 3\n",
    "try 0 hard 0 3\n",
    "end\n",
];

// A key with a value written twice, a key that is judged, and their certificate line by line.
const TWO_KEYS: &[u8] =
    b"client,op,key,value,start,finish\n0,w,x,a,1,2\n0,w,x,a,3,4\n0,w,y,b,5,6\n";

const TWO_KEYS_CERT: &[&str] = &[
    "stale-cert 1\n",
    "key 1\n",
    "duplicate 2\n",
    "key 2\n",
    "delta 0\n",
    "order 0 3\n",
    "two yes\n",
    "order 0 3\n",
    "end\n",
];

// A certificate with lines changed, each told by its number and what stands in its place, and the answer.
#[derive(Clone, Copy)]
struct Change<'a> {
    shows: &'a str,
    lines: &'a [(usize, &'a str)],
    status: u8,
    answer: &'a str,
}

impl<'a> Change<'a> {
    // The certificate reads, and shows not all of its verdicts.
    fn bad(shows: &'a str, lines: &'a [(usize, &'a str)], answer: &'a str) -> Change<'a> {
        Change {
            shows,
            lines,
            status: 1,
            answer,
        }
    }

    // The certificate is none.
    fn faulty(shows: &'a str, lines: &'a [(usize, &'a str)], answer: &'a str) -> Change<'a> {
        Change {
            shows,
            lines,
            status: 4,
            answer,
        }
    }
}

// Adds what stands in a line's place.
fn push_line(
    text: &mut Vec<u8>,
    number: usize,
    line: &str,
    changes: &[(usize, &str)],
) -> Result<(), AllocError> {
    for change in changes {
        if change.0 == number {
            return text.extend_from_slice(change.1.as_bytes());
        }
    }
    text.extend_from_slice(line.as_bytes())
}

// The text of lines, with changes.
fn changed_text(
    alloc: Global,
    lines: &[&str],
    changes: &[(usize, &str)],
) -> Result<Vec<u8>, AllocError> {
    let mut text = Vec::new(alloc);
    for (line, number) in lines.iter().zip(1..usize::MAX) {
        push_line(&mut text, number, line, changes)?;
    }
    Ok(text)
}

// Checks a certificate with each of the changes.
fn run_changes<R: Threads + Sync + Abort + AllocGlobal>(
    rt: &R,
    history: &[u8],
    lines: &[&str],
    changes: &[Change],
) -> Result<(), AllocError> {
    for change in changes {
        let text = changed_text(rt.alloc(), lines, change.lines)?;
        run_row(
            rt,
            &Row::check(change.shows, history, &text, change.status, change.answer),
        )?;
    }
    Ok(())
}

#[test]
fn certificates_with_a_line_changed_show_nothing(rt: HostRuntime) -> Result<(), Fail> {
    run_changes(
        &rt,
        STALE,
        STALE_CERT,
        &[
            Change {
                shows: "no line changed",
                lines: &[],
                status: 0,
                answer: "good\n",
            },
            Change::bad(
                "a record is missing",
                &[(4, "order 0 1 2\n")],
                "bad key 1 rule 2 record 3\n",
            ),
            Change::bad(
                "an entry that is no operation",
                &[(4, "order 0 1 3 2 4294967295\n")],
                "bad key 1 rule 2 record 4294967295\n",
            ),
            Change::bad(
                "a write before an earlier one",
                &[(4, "order 0 2 1 3\n")],
                "bad key 1 rule 3 record 1\n",
            ),
            Change::bad(
                "a write that ended before the stale read began",
                &[(3, "delta 0\n")],
                "bad key 1 rule 3 record 2\n",
            ),
            Change::bad(
                "starts of writes are not moved",
                &[(3, "delta 5\n"), (4, "order 0 2 3 1\n")],
                "bad key 1 rule 3 record 1\n",
            ),
            Change::bad(
                "a read after the next write",
                &[(4, "order 0 1 2 3\n")],
                "bad key 1 rule 4 record 3\n",
            ),
            Change::bad(
                "the greatest delta",
                &[(3, "delta 18446744073709551615\n")],
                "bad key 1 rule 5 record 1\n",
            ),
            Change::bad("no pair", &[(5, "")], "bad key 1 rule 5 record 0\n"),
            Change::bad(
                "a fourth record of another value than the first",
                &[(5, "pair 1 2 2 2\n")],
                "bad key 1 rule 5 record 1\n",
            ),
            Change::bad(
                "a record is missing in the second order",
                &[(7, "order 0 1 2\n")],
                "bad key 1 rule 6 record 3\n",
            ),
            Change::bad(
                "a write before an earlier one in the second order",
                &[(7, "order 0 2 1 3\n")],
                "bad key 1 rule 7 record 1\n",
            ),
        ],
    )?;
    Ok(())
}

#[test]
fn texts_that_are_no_certificates_are_refused(rt: HostRuntime) -> Result<(), Fail> {
    run_changes(
        &rt,
        STALE,
        STALE_CERT,
        &[
            Change::faulty(
                "a number with a leading zero, and one that is none",
                &[(2, "key 01\n"), (3, "delta x\n")],
                "certificate line 2: number\n",
            ),
            Change::faulty(
                "a delta that is no number",
                &[(3, "delta x\n")],
                "certificate line 3: number\n",
            ),
            Change::faulty(
                "a delta with a leading zero",
                &[(3, "delta 03\n")],
                "certificate line 3: number\n",
            ),
            Change::faulty(
                "a delta above the greatest",
                &[(3, "delta 18446744073709551616\n")],
                "certificate line 3: number\n",
            ),
            Change::faulty(
                "a record above the greatest",
                &[(4, "order 0 1 3 4294967296\n")],
                "certificate line 4: number\n",
            ),
            Change::faulty(
                "two blanks",
                &[(6, "two  yes\n")],
                "certificate line 6: line\n",
            ),
            Change::faulty(
                "carriage returns",
                &[
                    (1, "stale-cert 1\r\n"),
                    (2, "key 1\r\n"),
                    (3, "delta 3\r\n"),
                ],
                "certificate line 1: line\n",
            ),
            Change::faulty("a line left out", &[(3, "")], "certificate line 3: line\n"),
            Change::faulty(
                "a word too many before its number is looked at",
                &[(2, "key 01 1\n")],
                "certificate line 2: line\n",
            ),
            Change::faulty(
                "a word too few",
                &[(5, "pair 1 2 2\n")],
                "certificate line 5: line\n",
            ),
            Change::faulty(
                "cut in a line",
                &[(4, "order 0 1"), (5, ""), (6, ""), (7, ""), (8, "")],
                "certificate line 4: line\n",
            ),
            Change::faulty(
                "a last line with no end",
                &[(8, "end")],
                "certificate line 8: line\n",
            ),
            Change::faulty("no last line", &[(8, "")], "certificate line 8: line\n"),
            Change::faulty(
                "a byte after the last line",
                &[(8, "end\nx")],
                "certificate line 9: line\n",
            ),
            Change::faulty(
                "a part of another key",
                &[(2, "key 2\n")],
                "certificate line 2: key\n",
            ),
            Change::faulty(
                "a part for more keys than there are",
                &[(8, "key 2\nduplicate 1\nend\n")],
                "certificate line 8: key\n",
            ),
            Change::faulty(
                "no part of the key",
                &[(2, ""), (3, ""), (4, ""), (5, ""), (6, ""), (7, "")],
                "certificate: key 1 absent\n",
            ),
        ],
    )?;
    Ok(())
}

#[test]
fn refutations_with_a_line_changed_show_nothing(rt: HostRuntime) -> Result<(), Fail> {
    run_changes(
        &rt,
        STUCK,
        STUCK_CERT,
        &[
            Change::bad(
                "a member twice",
                &[(7, "stuck 3 2 1 1\n")],
                "bad key 1 rule 9 record 1\n",
            ),
            Change::bad(
                "a member that is a read",
                &[(7, "stuck 3 2 4 0\n")],
                "bad key 1 rule 9 record 4\n",
            ),
            Change::bad(
                "no member",
                &[(7, "stuck\n")],
                "bad key 1 rule 9 record 0\n",
            ),
            Change::bad("a try left out", &[(9, "")], "bad key 1 rule 9 record 0\n"),
            Change::bad(
                "all tries left out",
                &[(8, ""), (9, ""), (10, ""), (11, "")],
                "bad key 1 rule 9 record 0\n",
            ),
            Change::bad(
                "a write that didn't end before the other began",
                &[(8, "try 3 hard 3 2\n")],
                "bad key 1 rule 9 record 3\n",
            ),
            Change::bad(
                "a chain that begins with another member",
                &[(8, "try 1 3 hard 1 2\n")],
                "bad key 1 rule 9 record 3\n",
            ),
            Change::bad(
                "two reads of one write",
                &[(9, "try 2 soft 2 4 4\n")],
                "bad key 1 rule 9 record 2\n",
            ),
            Change::bad(
                "an order with a read after two other writes",
                &[
                    (6, "two yes\n"),
                    (7, "order 0 1 2 3 4\n"),
                    (8, ""),
                    (9, ""),
                    (10, ""),
                    (11, ""),
                ],
                "bad key 1 rule 8 record 4\n",
            ),
            Change::faulty(
                "a try with no chain",
                &[(11, "try hard 0 3\n")],
                "certificate line 11: line\n",
            ),
            Change::faulty(
                "a word in a chain",
                &[(11, "try 0 soft hard 0 3\n")],
                "certificate line 11: number\n",
            ),
        ],
    )?;
    Ok(())
}

#[test]
fn the_first_key_that_is_not_shown_is_named(rt: HostRuntime) -> Result<(), Fail> {
    run_changes(
        &rt,
        TWO_KEYS,
        TWO_KEYS_CERT,
        &[
            Change::bad(
                "the second key",
                &[(6, "order 0\n")],
                "bad key 2 rule 2 record 3\n",
            ),
            Change::bad(
                "another record",
                &[(3, "duplicate 1\n")],
                "bad key 1 rule 1 record 2\n",
            ),
            Change::bad(
                "another fault",
                &[(3, "infinite 1\n")],
                "bad key 1 rule 1 record 2\n",
            ),
            Change::bad(
                "a fault of a key that has none",
                &[(5, "unmatched 3\n"), (6, ""), (7, ""), (8, "")],
                "bad key 2 rule 1 record 3\n",
            ),
            Change::bad(
                "both keys",
                &[(3, "duplicate 1\n"), (6, "order 0\n")],
                "bad key 1 rule 1 record 2\n",
            ),
            Change::faulty(
                "no part of the second key",
                &[(4, ""), (5, ""), (6, ""), (7, ""), (8, "")],
                "certificate: key 2 absent\n",
            ),
        ],
    )?;
    run_row(
        &rt,
        &Row::check(
            "a read before its write is of another record",
            b"client,op,key,value,start,finish\n0,r,x,a,1,2\n1,w,x,a,3,4\n",
            b"stale-cert 1\nkey 1\ninfinite 2\nend\n",
            1,
            "bad key 1 rule 1 record 1\n",
        ),
    )?;
    Ok(())
}

const GOOD: &[u8] =
    b"stale-cert 1\nkey 1\ndelta 3\norder 0 1 3 2\npair 1 2 2 3\ntwo yes\norder 0 1 2 3\nend\n";

const BAD: &[u8] =
    b"stale-cert 1\nkey 1\ndelta 3\norder 0 1 2\npair 1 2 2 3\ntwo yes\norder 0 1 2 3\nend\n";

// A check of the good certificate by other words, that is refused with this status and line.
fn by_words<'a>(shows: &'a str, words: &'a [&'a str], status: u8, err: &'a str) -> Row<'a> {
    Row {
        words,
        ..Row::check(shows, STALE, GOOD, status, err)
    }
}

#[test]
fn the_history_comes_before_the_certificate(rt: HostRuntime) -> Result<(), Fail> {
    run_table(
        &rt,
        &[
            by_words(
                "no history",
                &["check", "nosuch", "c"],
                5,
                "missing: nosuch\n",
            ),
            by_words(
                "no certificate",
                &["check", "h", "nosuch"],
                5,
                "missing: nosuch\n",
            ),
            by_words(
                "neither",
                &["check", "nosuch", "none"],
                5,
                "missing: nosuch\n",
            ),
            Row {
                history: b"",
                ..by_words(
                    "no certificate of a faulty history",
                    &["check", "h", "nosuch"],
                    3,
                    "history: no header\n",
                )
            },
            Row::check("a faulty history", b"", GOOD, 3, "history: no header\n"),
            Row::check("both faulty", b"", b"", 3, "history: no header\n"),
            Row::check(
                "an empty certificate",
                STALE,
                b"",
                4,
                "certificate line 1: line\n",
            ),
            Row {
                cert: Some(b"".as_slice()),
                after: ("c", Some(b"".as_slice())),
                ..by_words(
                    "no history of a faulty certificate",
                    &["check", "nosuch", "c"],
                    5,
                    "missing: nosuch\n",
                )
            },
        ],
    )?;
    Ok(())
}

// A check that is written to an output that fails.
fn to_output<'a>(shows: &'a str, cert: &'a [u8], out_fails: &'a [u32], out: &'a str) -> Row<'a> {
    Row {
        out_fails,
        out,
        ..Row::check(shows, STALE, cert, 7, "write failed\n")
    }
}

#[test]
fn failed_calls_of_a_check_are_told(rt: HostRuntime) -> Result<(), Fail> {
    for call in 1..7 {
        let fails = [call];
        run_row(
            &rt,
            &Row {
                shelf_fails: &fails,
                ..Row::check("each call of the shelf", STALE, GOOD, 6, "read failed\n")
            },
        )?;
    }
    run_table(
        &rt,
        &[
            Row {
                shelf_fails: &[7],
                ..Row::check("no seventh call is made", STALE, GOOD, 0, "good\n")
            },
            to_output("good is not written", GOOD, &[1], ""),
            to_output("good is not flushed", GOOD, &[2], "good\n"),
            to_output("bad is not written", BAD, &[1], ""),
            to_output(
                "bad is not flushed",
                BAD,
                &[2],
                "bad key 1 rule 2 record 3\n",
            ),
            Row {
                err_fails: &[1],
                err: "",
                ..Row::check(
                    "the line on the certificate is not written",
                    STALE,
                    b"",
                    4,
                    "",
                )
            },
        ],
    )?;
    Ok(())
}

#[test]
fn certificates_above_the_limit_are_named(rt: HostRuntime) -> Result<(), Fail> {
    let mut cert = vec![in rt.alloc(); b'\n'; 268_435_457]?;
    run_row(
        &rt,
        &Row::check("one byte above the limit", STALE, &cert, 8, "too long: c\n"),
    )?;
    run_row(
        &rt,
        &Row::check("of a faulty history", b"", &cert, 3, "history: no header\n"),
    )?;
    cert.truncate(268_435_456);
    run_row(
        &rt,
        &Row::check(
            "of the greatest length",
            STALE,
            &cert,
            4,
            "certificate line 1: line\n",
        ),
    )?;
    Ok(())
}

#[test]
fn histories_above_the_limit_come_first(rt: HostRuntime) -> Result<(), Fail> {
    let history = vec![in rt.alloc(); b'\n'; 67_108_865]?;
    run_table(
        &rt,
        &[
            Row::check("a faulty certificate", &history, b"", 8, "too long: h\n"),
            Row {
                words: &["check", "h", "nosuch"],
                ..Row::check("no certificate", &history, b"", 8, "too long: h\n")
            },
        ],
    )?;
    Ok(())
}
