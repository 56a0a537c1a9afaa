//! All commands of the auditor: a bench, which runs the store and audits the history of its calls, and beside it those
//! of `audit_commands`.
#![tactic(auto)]

ghost use Rattle.std.specs.Prelude.{◌≡◌, [], None, IfSome};
ghost use Rattle.audit_words.specs.Benches.{bench_of};
ghost use Rattle.audit_commands.specs.Ends.{outside};
ghost use Rattle.bench_commands.specs.Ends.{EndsBench};
ghost use Rattle.bench_commands.specs.Offline.{EndsOffline};

mod bench;
mod recording;
mod refusal;
mod status;
mod texts;

use crate::bench::perform;
use crate::refusal::answer;
use audit_commands::{refuse_for_memory, run_offline};
use audit_ports::{Gate, Shelf, Sink, ThreadCrew};
use audit_words::{Word, bench_of};
use bench_run::BenchJob;
use stale_model::Memory;
pub use status::BenchStatus;
use std::alloc::Global;
use std::sync::Wait;
use std::thread::Threads;

/// Does what the words of a command line ask for, and gives the number of the status to end with.
///
/// - `bench HISTORY JOURNAL [options]`: a store of some replicas and clients runs in threads, by the plan of its seed.
///   The calls of its clients are written to HISTORY, the journals of its replicas to JOURNAL, and then the report on
///   the history to `out`. The options and their limits are those of [`bench_of`](audit_words::bench_of).
/// - All other words, as [`run_offline`](audit_commands::run_offline) does them.
///
/// The crew runs the replicas, one job for each, and must hold no job; it holds none afterwards, and is left alone
/// where the words ask for no bench. The shelf must not be writing a file. All texts are made before the first output:
/// HISTORY, what it held is lost, then JOURNAL likewise, and then `out`. The gate is passed round each call of a
/// client, or round each judgement of the other commands. After a refusal one line is written to `err`, which says why.
///
/// # Statuses of a bench
/// - 0: done. The two files are one run of the plan: each ticket in them was drawn once, from 1 to their number, and no
///   read's value is invented. No line of the report says `duplicate`, `unmatched` or `infinite`.
/// - 7: a write failed. HISTORY is as it was, or a part of its text, and nothing else has changed; or HISTORY is whole,
///   and JOURNAL as it was or a part of its text; or both are whole. Then `out` gained a part of the report, from
///   nothing to all.
/// - 9: the crew refused the replica that the line names. No client made a call.
/// - 10: want of memory. The crew refused no replica: it is as it was, or it started each of them.
///
/// After 9 and 10 no file has changed, and `out` is as it was. The store may wait for its threads: nothing says that
/// this returns, which replies come first, or that a read is fresh.
pub fn run<R: Threads + Wait + Copy + Send + Sync + 'static, S: Shelf, O: Sink, E: Sink, G: Gate>(
    rt: &R,
    alloc: Global,
    words: &[Word],
    shelf: &mut S,
    out: &mut O,
    err: &mut E,
    crew: &mut ThreadCrew<BenchJob<R>, R>,
    gate: &G,
) -> u8
    requires writing { (S.shown shelf.old).writing ≡ None }
    requires none { crew.old.jobs ≡ [] }
    ensures joined { crew.new.jobs ≡ [] }
    ensures bench { IfSome (bench_of words.now) (λ b. EndsBench b
        (outside (S.shown shelf.old) (O.shown out.old) (E.shown err.old))
        (outside (S.shown shelf.new) (O.shown out.new) (E.shown err.new)) crew.old crew.new result) }
    ensures offline { bench_of words.now ≡ None → EndsOffline words.now
        (outside (S.shown shelf.old) (O.shown out.old) (E.shown err.old))
        (outside (S.shown shelf.new) (O.shown out.new) (E.shown err.new)) result }
    ensures alone { bench_of words.now ≡ None → crew.new ≡ crew.old }
{
    match bench_of(alloc, words) {
        Ok(Some(bench)) => {
            let performed = perform(rt, alloc, &bench, shelf, out, crew, gate);
            answer(performed, err).number()
        }
        Ok(None) => run_offline(rt, alloc, words, shelf, out, err, gate),
        Err(Memory) => refuse_for_memory(err),
    }
}
