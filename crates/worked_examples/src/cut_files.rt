//! Files that end too early: a history of two lines and the certificate of a stale read, cut at each of their bytes.

use crate::checking::{STALE, STALE_CERT};
use crate::harness::{Row, run_row};
use crate::outside::{HISTORY, REPORT};
use std::alloc::AllocError;
use std::process::Abort;
use std::test::Fail;
use std::thread::Threads;

// The answer to each cut that is longer than those before it in a table, and no longer than this.
#[derive(Clone, Copy)]
struct Cut<'a> {
    longest: usize,
    status: u8,
    answer: &'a str,
}

impl<'a> Cut<'a> {
    // A history that is refused with this line.
    fn no_history(longest: usize, answer: &'a str) -> Cut<'a> {
        Cut {
            longest,
            status: 3,
            answer,
        }
    }

    // A history with this report.
    fn history(longest: usize, answer: &'a str) -> Cut<'a> {
        Cut {
            longest,
            status: 0,
            answer,
        }
    }

    // A certificate that is refused with this line.
    fn no_cert(longest: usize, answer: &'a str) -> Cut<'a> {
        Cut {
            longest,
            status: 4,
            answer,
        }
    }
}

// The answer to a cut of this length.
fn answer_to<'a>(table: &[Cut<'a>], length: usize) -> Option<Cut<'a>> {
    table.iter().find(|cut| length <= cut.longest).copied()
}

// Audits each cut of a history.
fn audit_cuts<R: Threads + Sync + Abort + AllocGlobal>(
    rt: &R,
    history: &[u8],
    table: &[Cut],
) -> Result<(), AllocError> {
    for length in 0..=history.len() {
        let Some(cut) = answer_to(table, length) else {
            panic!(rt; "no answer to {length} bytes")
        };
        let shows = format!(in rt.alloc(); "a history of {length} bytes")?;
        let part = &history[..length];
        let row = match cut.status {
            0 => Row::audit(&shows, part, cut.answer),
            status => Row::refused(&shows, part, status, cut.answer),
        };
        run_row(rt, &row)?;
    }
    Ok(())
}

// Checks each cut of a certificate.
fn check_cuts<R: Threads + Sync + Abort + AllocGlobal>(
    rt: &R,
    history: &[u8],
    cert: &[u8],
    table: &[Cut],
) -> Result<(), AllocError> {
    for length in 0..=cert.len() {
        let Some(cut) = answer_to(table, length) else {
            panic!(rt; "no answer to {length} bytes")
        };
        let shows = format!(in rt.alloc(); "a certificate of {length} bytes")?;
        let part = &cert[..length];
        run_row(
            rt,
            &Row::check(&shows, history, part, cut.status, cut.answer),
        )?;
    }
    Ok(())
}

// The report of so few words: no key, and one key with one operation.
const NO_KEY: &str =
    "total keys 0 operations 0 skipped 0 duplicate 0 unmatched 0 infinite 0 atomic 0 two 0 worst none\n";

const ONE_WRITE: &str =
    "key x operations 1 delta 0 two yes\ntotal keys 1 operations 1 skipped 0 duplicate 0 unmatched 0 infinite 0 atomic 1 two 1 worst 0\n";

const ONE_SKIPPED: &str =
    "key x operations 1 delta 0 two yes\ntotal keys 1 operations 1 skipped 1 duplicate 0 unmatched 0 infinite 0 atomic 1 two 1 worst 0\n";

// Of the 57 bytes the header takes 33, the write 12 and the read 12, each with its line feed. The column that is cut
// is the first that isn't there. A record is refused until its fifth comma; with nothing behind that the write is
// open, and the read is skipped.
#[test]
fn a_history_is_cut_at_each_byte(rt: HostRuntime) -> Result<(), Fail> {
    audit_cuts(
        &rt,
        HISTORY,
        &[
            Cut::no_history(0, "history: no header\n"),
            Cut::no_history(5, "history: column client\n"),
            Cut::no_history(8, "history: column op\n"),
            Cut::no_history(12, "history: column key\n"),
            Cut::no_history(18, "history: column value\n"),
            Cut::no_history(24, "history: column start\n"),
            Cut::no_history(31, "history: column finish\n"),
            Cut::history(33, NO_KEY),
            Cut::no_history(42, "history record 1: fields\n"),
            Cut::history(45, ONE_WRITE),
            Cut::no_history(54, "history record 2: fields\n"),
            Cut::history(55, ONE_SKIPPED),
            Cut::history(57, REPORT),
        ],
    )?;
    Ok(())
}

// The lines take 13, 6, 8, 14, 13, 8, 14 and 4 bytes. The line that is cut is the first that isn't ended by a line
// feed.
#[test]
fn a_certificate_is_cut_at_each_byte(rt: HostRuntime) -> Result<(), Fail> {
    let mut cert = Vec::new(rt.alloc());
    for line in STALE_CERT {
        cert.extend_from_slice(line.as_bytes())?;
    }
    check_cuts(
        &rt,
        STALE,
        &cert,
        &[
            Cut::no_cert(12, "certificate line 1: line\n"),
            Cut::no_cert(18, "certificate line 2: line\n"),
            Cut::no_cert(26, "certificate line 3: line\n"),
            Cut::no_cert(40, "certificate line 4: line\n"),
            Cut::no_cert(53, "certificate line 5: line\n"),
            Cut::no_cert(61, "certificate line 6: line\n"),
            Cut::no_cert(75, "certificate line 7: line\n"),
            Cut::no_cert(79, "certificate line 8: line\n"),
            Cut {
                longest: 80,
                status: 0,
                answer: "good\n",
            },
        ],
    )?;
    Ok(())
}
