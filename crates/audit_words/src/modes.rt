//! The modes, and what each asks for.

ghost use Rattle.std.specs.Prelude.{◌≡◌, IfOk, IfSome};
ghost use Rattle.clap.specs.Words.{found_of, rows_of};
ghost use Rattle.audit_words.specs.Limits.{IsMeasure, IsWithin, IsWorkload};
ghost use Rattle.audit_words.specs.Tasks.{audit_of, judge_of, check_of, workload_of, gen_of, trial_of, trace_of, plain_task_by, task_in};

use crate::files::{are_two_names, is_name};
use crate::line::{gives_only, gives_settings_only, value_in, values_in};
use crate::number::{number_within, workers_of};
use crate::settings::settings_of;
use crate::{Measure, Task, Workload};
use clap::ArgMatches;
use stale_model::{Bytes, Memory};
use std::alloc::Global;

// `audit FILE [--cert OUT] [--workers N]`
fn audit_of(alloc: Global, matches: &ArgMatches) -> Result<Option<Task>, Memory>
    ensures task { IfOk result (λ task. task ≡ audit_of (rows_of (found_of matches.now))) }
    ensures within { IfOk result (λ task. IfSome task IsWithin) }
{
    let Some([file]) = values_in(matches, "args") else {
        return Ok(None);
    };
    let Some(workers) = workers_of(value_in(matches, "workers")) else {
        return Ok(None);
    };
    let cert = match value_in(matches, "cert") {
        None if is_name(file) => None,
        Some(cert) if are_two_names(file, cert) => Some(Bytes::of(alloc, cert.as_bytes())?),
        _ => return Ok(None),
    };
    let file = Bytes::of(alloc, file.as_bytes())?;
    let measure = Measure::Audit { cert, workers };
    Ok(Some(Task::Judge { file, measure }))
}

// `two FILE`, `sides FILE` or `live FILE`, by the measure
fn judge_of(alloc: Global, matches: &ArgMatches, measure: Measure) -> Result<Option<Task>, Memory>
    requires { IsMeasure measure }
    ensures task { IfOk result (λ task. task ≡ judge_of measure (rows_of (found_of matches.now))) }
    ensures within { IfOk result (λ task. IfSome task IsWithin) }
{
    let Some([file]) = values_in(matches, "args") else {
        return Ok(None);
    };
    if !is_name(file) {
        return Ok(None);
    }
    let file = Bytes::of(alloc, file.as_bytes())?;
    Ok(Some(Task::Judge { file, measure }))
}

// `check FILE CERT`
fn check_of(alloc: Global, matches: &ArgMatches) -> Result<Option<Task>, Memory>
    ensures task { IfOk result (λ task. task ≡ check_of (rows_of (found_of matches.now))) }
    ensures within { IfOk result (λ task. IfSome task IsWithin) }
{
    let Some([file, cert]) = values_in(matches, "args") else {
        return Ok(None);
    };
    if !are_two_names(file, cert) {
        return Ok(None);
    }
    let file = Bytes::of(alloc, file.as_bytes())?;
    let cert = Bytes::of(alloc, cert.as_bytes())?;
    Ok(Some(Task::Check { file, cert }))
}

// The settings of a generated history: a seed, a number of operations and one of keys.
fn workload_of(matches: &ArgMatches) -> Option<Workload>
    ensures value { result ≡ workload_of (rows_of (found_of matches.now)) }
    ensures within { IfSome result IsWorkload }
{
    let Some([seed, ops, keys]) = values_in(matches, "args") else {
        return None;
    };
    let seed = number_within(seed, 0, u64::MAX)?;
    let ops = number_within(ops, 1, 1_000_000)? as u32;
    let keys = number_within(keys, 1, 100_000)? as u32;
    Some(Workload { seed, ops, keys })
}

// `gen SEED OPS KEYS`
fn gen_of(matches: &ArgMatches) -> Option<Task>
    ensures task { result ≡ gen_of (rows_of (found_of matches.now)) }
    ensures within { IfSome result IsWithin }
{
    let workload = workload_of(matches)?;
    Some(Task::Gen(workload))
}

// `trial SEED OPS KEYS [--workers N]`
fn trial_of(matches: &ArgMatches) -> Option<Task>
    ensures task { result ≡ trial_of (rows_of (found_of matches.now)) }
    ensures within { IfSome result IsWithin }
{
    let workload = workload_of(matches)?;
    let workers = workers_of(value_in(matches, "workers"))?;
    Some(Task::Trial { workload, workers })
}

// `trace HISTORY JOURNAL [options]`
fn trace_of(alloc: Global, matches: &ArgMatches) -> Result<Option<Task>, Memory>
    ensures task { IfOk result (λ task. task ≡ trace_of (rows_of (found_of matches.now))) }
    ensures within { IfOk result (λ task. IfSome task IsWithin) }
{
    let Some([history, journal]) = values_in(matches, "args") else {
        return Ok(None);
    };
    let Some(settings) = settings_of(matches) else {
        return Ok(None);
    };
    if !are_two_names(history, journal) {
        return Ok(None);
    }
    let history = Bytes::of(alloc, history.as_bytes())?;
    let journal = Bytes::of(alloc, journal.as_bytes())?;
    Ok(Some(Task::Trace {
        history,
        journal,
        settings,
    }))
}

// What the matches ask for, by a mode that takes no option.
fn plain_task_in(alloc: Global, mode: &str, matches: &ArgMatches) -> Result<Option<Task>, Memory>
    ensures task { IfOk result (λ task. task ≡ plain_task_by mode.now (rows_of (found_of matches.now))) }
    ensures within { IfOk result (λ task. IfSome task IsWithin) }
{
    match mode {
        "two" => judge_of(alloc, matches, Measure::Two),
        "sides" => judge_of(alloc, matches, Measure::Sides),
        "live" => judge_of(alloc, matches, Measure::Live),
        "check" => check_of(alloc, matches),
        "gen" => Ok(gen_of(matches)),
        _ => Ok(None),
    }
}

/// What the matches ask for, by the mode.
pub(crate) fn task_in(alloc: Global, matches: &ArgMatches) -> Result<Option<Task>, Memory>
    ensures task { IfOk result (λ task. task ≡ task_in (rows_of (found_of matches.now))) }
    ensures within { IfOk result (λ task. IfSome task IsWithin) }
{
    match value_in(matches, "mode") {
        Some("audit") if gives_only(matches, &["cert", "workers"]) => audit_of(alloc, matches),
        Some("trial") if gives_only(matches, &["workers"]) => Ok(trial_of(matches)),
        Some("trace") if gives_settings_only(matches) => trace_of(alloc, matches),
        Some(mode) if gives_only(matches, &[]) => plain_task_in(alloc, mode, matches),
        _ => Ok(None),
    }
}
