//! The settings of a run of the store, and what the options say of them.

ghost use Rattle.std.specs.Prelude.{◌≡◌, ◌≤◌, IfSome};
ghost use Rattle.clap.specs.Words.{found_of, rows_of};
ghost use Rattle.stale_model.specs.Settings.{AreSettings};
ghost use Rattle.audit_words.specs.Settings.{are_possible, option_of, settings_in, settings_of};

use crate::line::value_in;
use crate::number::number_or;
use clap::ArgMatches;
use stale_model::Settings;

// The greatest number of calls of all clients together.
const MOST_CALLS: u64 = 100_000;

// The number of an option, from `least` to `most`; `default` where it is not given.
fn option_of(matches: &ArgMatches, name: &str, default: u64, least: u64, most: u64) -> Option<u64>
    requires from { least ≤ default }
    requires to { default ≤ most }
    ensures value { result ≡ option_of (rows_of (found_of matches.now)) name.now default least most }
    ensures within { IfSome result (λ number. (least ≤ number) × (number ≤ most)) }
{
    number_or(value_in(matches, name), default, least, most)
}

// The settings that the options say, each number within limits of its own.
fn settings_in(matches: &ArgMatches) -> Option<Settings>
    ensures { result ≡ settings_in (rows_of (found_of matches.now)) }
{
    let clients = option_of(matches, "clients", 2, 1, 32)? as u32;
    let replicas = option_of(matches, "replicas", 3, 1, 7)? as u32;
    let calls = option_of(matches, "calls", 100, 1, MOST_CALLS)? as u32;
    let keys = option_of(matches, "keys", 4, 1, 1_000)? as u32;
    let read_quorum = option_of(matches, "read-quorum", 1, 1, 7)? as u32;
    let write_quorum = option_of(matches, "write-quorum", 1, 1, 7)? as u32;
    let writes = option_of(matches, "writes", 50, 0, 100)? as u32;
    let seed = option_of(matches, "seed", 1, 0, u64::MAX)?;
    let shards = option_of(matches, "shards", 1, 1, 16)? as u32;
    Some(Settings {
        clients,
        replicas,
        calls,
        keys,
        read_quorum,
        write_quorum,
        writes,
        seed,
        shards,
    })
}

// Whether all clients together make few enough calls, and no quorum is above the number of replicas.
fn are_possible(settings: &Settings) -> bool
    ensures { result ≡ are_possible settings.now }
{
    u64::from(settings.clients) * u64::from(settings.calls) <= MOST_CALLS
        && settings.read_quorum <= settings.replicas
        && settings.write_quorum <= settings.replicas
}

/// The settings that the options say, within all their limits.
pub(crate) fn settings_of(matches: &ArgMatches) -> Option<Settings>
    ensures value { result ≡ settings_of (rows_of (found_of matches.now)) }
    ensures within { IfSome result AreSettings }
{
    let settings = settings_in(matches)?;
    if are_possible(&settings) {
        Some(settings)
    } else {
        None
    }
}
