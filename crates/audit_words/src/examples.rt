//! Command lines worked by hand, as theorems: what the words ask for. The words of a line stand between blanks.

ghost use Rattle.std.specs.Prelude.{◌≡◌, ◌∷◌, [], Some, None, codes};
ghost use Rattle.audit_words.specs.declared.Task.TheVariants.{Judge, Check, Gen, Trial};
ghost use Rattle.audit_words.specs.declared.Measure.TheVariants.{Two, Sides, Live};
ghost use Rattle.audit_words.specs.Benches.{bench_of};
ghost use Rattle.audit_words.specs.Tasks.{task_of};
ghost use Rattle.audit_words.specs.Examples.{asked_by, audit, default_settings, run, run_asked_by, settings, trace};
ghost use Rattle.audit_words.specs.Examples.{workload};

/// A file, and nothing else.
pub fn modes_alone()
    ensures audit { asked_by (codes "audit h") ≡ Some (audit (codes "h") None 1) }
    ensures two { asked_by (codes "two h") ≡ Some (Judge (codes "h") Two) }
    ensures sides { asked_by (codes "sides h") ≡ Some (Judge (codes "h") Sides) }
    ensures live { asked_by (codes "live h") ≡ Some (Judge (codes "h") Live) }
    ensures check { asked_by (codes "check h c") ≡ Some (Check (codes "h") (codes "c")) }
    ensures long_name { asked_by (codes "audit examples/session-store.csv")
        ≡ Some (audit (codes "examples/session-store.csv") None 1) }
{}

/// Options stand before the mode, between the words and after them.
pub fn options_anywhere()
    ensures after { asked_by (codes "audit h --cert c --workers 8")
        ≡ Some (audit (codes "h") (Some (codes "c")) 8) }
    ensures between { asked_by (codes "audit --workers 8 h --cert c")
        ≡ Some (audit (codes "h") (Some (codes "c")) 8) }
    ensures before { asked_by (codes "--cert c --workers=8 audit h")
        ≡ Some (audit (codes "h") (Some (codes "c")) 8) }
{}

/// A mode has to be there, and be one of the eight.
pub fn wrong_modes()
    ensures no_word { task_of [] ≡ None }
    ensures empty { task_of ([] ∷ codes "h" ∷ []) ≡ None }
    ensures other { asked_by (codes "judge h") ≡ None }
    ensures longer { asked_by (codes "audits h") ≡ None }
    ensures capital { asked_by (codes "Audit h") ≡ None }
    ensures file_first { asked_by (codes "h audit") ≡ None }
{}

/// A run of the store is no task, and no other mode is a run.
pub fn runs_and_other_modes()
    ensures bench { asked_by (codes "bench h j") ≡ None }
    ensures audit { run_asked_by (codes "audit h") ≡ None }
    ensures check { run_asked_by (codes "check h j") ≡ None }
    ensures capital { run_asked_by (codes "Bench h j") ≡ None }
    ensures no_mode { run_asked_by (codes "h j") ≡ None }
{}

/// `audit`, `two`, `sides` and `live` have one file, and `check` and `trace` have two.
pub fn wrong_counts_of_files()
    ensures audit_none { asked_by (codes "audit") ≡ None }
    ensures audit_two { asked_by (codes "audit h g") ≡ None }
    ensures measure_none { asked_by (codes "two") ≡ None }
    ensures two_two { asked_by (codes "two h g") ≡ None }
    ensures sides_two { asked_by (codes "sides h g") ≡ None }
    ensures live_none { asked_by (codes "live") ≡ None }
    ensures live_two { asked_by (codes "live h g") ≡ None }
    ensures check_one { asked_by (codes "check h") ≡ None }
    ensures check_three { asked_by (codes "check h c d") ≡ None }
    ensures trace_one { asked_by (codes "trace h") ≡ None }
    ensures trace_three { asked_by (codes "trace h j k") ≡ None }
{}

/// A generated history has a seed, a number of operations and one of keys.
pub fn generated_histories()
    ensures generate { asked_by (codes "gen 7 20000 50") ≡ Some (Gen (workload 7 20000 50)) }
    ensures trial { asked_by (codes "trial 7 20000 50") ≡ Some (Trial (workload 7 20000 50) 1) }
    ensures workers { asked_by (codes "trial 7 20000 50 --workers 8")
        ≡ Some (Trial (workload 7 20000 50) 8) }
    ensures least { asked_by (codes "gen 0 1 1") ≡ Some (Gen (workload 0 1 1)) }
    ensures most { asked_by (codes "gen 18446744073709551615 1000000 100000")
        ≡ Some (Gen (workload 18446744073709551615 1000000 100000)) }
    ensures zeros { asked_by (codes "gen 00000000000000000007 020 01")
        ≡ Some (Gen (workload 7 20 1)) }
{}

/// And its numbers are within their limits.
pub fn wrong_generated_histories()
    ensures seed_above { asked_by (codes "gen 18446744073709551616 1 1") ≡ None }
    ensures too_many_digits { asked_by (codes "gen 000000000000000000001 1 1") ≡ None }
    ensures no_operation { asked_by (codes "gen 1 0 1") ≡ None }
    ensures operations_above { asked_by (codes "gen 1 1000001 1") ≡ None }
    ensures no_key { asked_by (codes "gen 1 1 0") ≡ None }
    ensures keys_above { asked_by (codes "gen 1 1 100001") ≡ None }
    ensures no_number { asked_by (codes "gen one 1 1") ≡ None }
    ensures two_words { asked_by (codes "gen 1 1") ≡ None }
    ensures four_words { asked_by (codes "gen 1 1 1 1") ≡ None }
    ensures gen_workers { asked_by (codes "gen 1 1 1 --workers 2") ≡ None }
    ensures no_worker { asked_by (codes "trial 1 1 1 --workers 0") ≡ None }
    ensures workers_above { asked_by (codes "trial 1 1 1 --workers 65") ≡ None }
    ensures trial_cert { asked_by (codes "trial 7 2000 1 --cert c") ≡ None }
{}

/// No file's name is empty, and no two are the same.
pub fn wrong_files()
    ensures audit_empty { task_of (codes "audit" ∷ [] ∷ []) ≡ None }
    ensures two_empty { task_of (codes "two" ∷ [] ∷ []) ≡ None }
    ensures sides_empty { task_of (codes "sides" ∷ [] ∷ []) ≡ None }
    ensures live_empty { task_of (codes "live" ∷ [] ∷ []) ≡ None }
    ensures check_empty { task_of (codes "check" ∷ codes "h" ∷ [] ∷ []) ≡ None }
    ensures cert_empty { asked_by (codes "audit h --cert=") ≡ None }
    ensures cert_empty_word { task_of (codes "audit" ∷ codes "h" ∷ codes "--cert" ∷ [] ∷ [])
        ≡ None }
    ensures audit_same { asked_by (codes "audit h --cert h") ≡ None }
    ensures check_same { asked_by (codes "check h h") ≡ None }
    ensures trace_empty { task_of (codes "trace" ∷ codes "h" ∷ [] ∷ []) ≡ None }
    ensures trace_same { asked_by (codes "trace h h") ≡ None }
{}

/// Names as they stand: a path by another way, a blank, a minus sign alone, bytes that are no ASCII.
pub fn names_of_files()
    ensures same_by_another_path { asked_by (codes "check h ./h")
        ≡ Some (Check (codes "h") (codes "./h")) }
    ensures blank { task_of (codes "audit" ∷ codes "h 1" ∷ [])
        ≡ Some (audit (codes "h 1") None 1) }
    ensures minus_sign { asked_by (codes "audit -") ≡ Some (audit (codes "-") None 1) }
    ensures no_ascii { task_of (codes "audit" ∷ (195 ∷ 169 ∷ []) ∷ [])
        ≡ Some (audit (195 ∷ 169 ∷ []) None 1) }
    ensures mode_as_name { asked_by (codes "audit audit") ≡ Some (audit (codes "audit") None 1) }
{}

/// A number of workers has 1 to 20 digits and is 1 to 64.
pub fn numbers_of_workers()
    ensures zeros { asked_by (codes "audit h --workers 007") ≡ Some (audit (codes "h") None 7) }
    ensures most { asked_by (codes "audit h --workers 64") ≡ Some (audit (codes "h") None 64) }
    ensures most_digits { asked_by (codes "audit h --workers 00000000000000000064")
        ≡ Some (audit (codes "h") None 64) }
{}

/// And no other texts are numbers of workers.
pub fn wrong_numbers_of_workers()
    ensures zero { asked_by (codes "audit h --workers 0") ≡ None }
    ensures above { asked_by (codes "audit h --workers 65") ≡ None }
    ensures too_many_digits { asked_by (codes "audit h --workers 000000000000000000001") ≡ None }
    ensures greatest { asked_by (codes "audit h --workers 99999999999999999999") ≡ None }
    ensures signed { asked_by (codes "audit h --workers +2") ≡ None }
    ensures below { asked_by (codes "audit h --workers=-1") ≡ None }
    ensures letter { asked_by (codes "audit h --workers 2x") ≡ None }
    ensures empty { asked_by (codes "audit h --workers=") ≡ None }
{}

/// Options that are wrong: twice, not those of the mode, unknown, shortened, without a value.
pub fn wrong_options()
    ensures cert_twice { asked_by (codes "audit h --cert c --cert d") ≡ None }
    ensures workers_twice { asked_by (codes "audit h --workers 2 --workers 2") ≡ None }
    ensures check_workers { asked_by (codes "check h c --workers 2") ≡ None }
    ensures check_cert { asked_by (codes "check h c --cert d") ≡ None }
    ensures two_workers { asked_by (codes "two h --workers 2") ≡ None }
    ensures sides_cert { asked_by (codes "sides h --cert c") ≡ None }
    ensures live_workers { asked_by (codes "live h --workers 2") ≡ None }
    ensures live_cert { asked_by (codes "live h --cert c") ≡ None }
    ensures trace_workers { asked_by (codes "trace h j --workers 2") ≡ None }
    ensures trace_cert { asked_by (codes "trace h j --cert c") ≡ None }
    ensures audit_seed { asked_by (codes "audit h --seed 1") ≡ None }
    ensures unknown { asked_by (codes "audit h --colour 1") ≡ None }
    ensures shortened { asked_by (codes "audit h --work 2") ≡ None }
    ensures one_letter { asked_by (codes "audit h -c c") ≡ None }
    ensures no_value { asked_by (codes "audit h --cert") ≡ None }
    ensures option_as_value { asked_by (codes "audit h --cert --workers 2") ≡ None }
{}

/// Asking for help is wrong, wherever it stands.
pub fn help()
    ensures long { asked_by (codes "--help") ≡ None }
    ensures short { asked_by (codes "audit h -h") ≡ None }
    ensures after_file { asked_by (codes "audit h --help") ≡ None }
    ensures mode { asked_by (codes "help") ≡ None }
{}

/// A value after a blank does not begin with a minus sign; one after `=` may, and may hold `=`.
pub fn values_of_options()
    ensures minus_after_blank { asked_by (codes "audit h --cert -c") ≡ None }
    ensures minus_after_equals { asked_by (codes "audit h --cert=-c")
        ≡ Some (audit (codes "h") (Some (codes "-c")) 1) }
    ensures equals { asked_by (codes "audit h --cert=a=b")
        ≡ Some (audit (codes "h") (Some (codes "a=b")) 1) }
    ensures minus_alone { asked_by (codes "audit h --cert -")
        ≡ Some (audit (codes "h") (Some (codes "-")) 1) }
{}

/// After `--` each word is one of the mode's.
pub fn after_the_options()
    ensures as_file { asked_by (codes "audit -- --cert")
        ≡ Some (audit (codes "--cert") None 1) }
    ensures between { asked_by (codes "check h -- c") ≡ Some (Check (codes "h") (codes "c")) }
    ensures twice { asked_by (codes "audit -- --") ≡ Some (audit (codes "--") None 1) }
    ensures no_option { asked_by (codes "audit h -- --workers 2") ≡ None }
{}

/// The settings of a run where the words say none of them, some, or all.
pub fn settings_of_runs()
    ensures none { run_asked_by (codes "bench h j") ≡ Some (run default_settings 1) }
    ensures some { run_asked_by (codes "--seed=9 bench h --workers 8 j --keys 007")
        ≡ Some (run (record default_settings { seed = 9; keys = 7 }) 8) }
    ensures all { run_asked_by (codes "bench h j --clients 5 --replicas 6 --calls 20 --keys 3 --read-quorum 2 --write-quorum 4 --writes 30 --seed 9 --shards 7 --workers 8")
        ≡ Some (run (settings 5 6 20 3 2 4 30 9 7) 8) }
{}

/// The least and the greatest settings.
pub fn limits_of_runs()
    ensures least { run_asked_by (codes "bench h j --clients 1 --replicas 1 --calls 1 --keys 1 --read-quorum 1 --write-quorum 1 --writes 0 --seed 0 --shards 1 --workers 1")
        ≡ Some (run (settings 1 1 1 1 1 1 0 0 1) 1) }
    ensures most { run_asked_by (codes "bench h j --clients 32 --replicas 7 --calls 3125 --keys 1000 --read-quorum 7 --write-quorum 7 --writes 100 --seed 18446744073709551615 --shards 16 --workers 64")
        ≡ Some (run (settings 32 7 3125 1000 7 7 100 18446744073709551615 16) 64) }
    ensures most_calls { run_asked_by (codes "bench h j --clients 1 --calls 100000")
        ≡ Some (run (record default_settings { clients = 1; calls = 100000 }) 1) }
    ensures quorums { run_asked_by (codes "bench h j --read-quorum 3 --write-quorum 3")
        ≡ Some (run (record default_settings { read_quorum = 3; write_quorum = 3 }) 1) }
{}

/// No number of a run is below its limits.
pub fn runs_below_their_limits()
    ensures clients { run_asked_by (codes "bench h j --clients 0") ≡ None }
    ensures replicas { run_asked_by (codes "bench h j --replicas 0") ≡ None }
    ensures calls { run_asked_by (codes "bench h j --calls 0") ≡ None }
    ensures keys { run_asked_by (codes "bench h j --keys 0") ≡ None }
    ensures read_quorum { run_asked_by (codes "bench h j --read-quorum 0") ≡ None }
    ensures write_quorum { run_asked_by (codes "bench h j --write-quorum 0") ≡ None }
    ensures shards { run_asked_by (codes "bench h j --shards 0") ≡ None }
    ensures workers { run_asked_by (codes "bench h j --workers 0") ≡ None }
{}

/// And none is above them.
pub fn runs_above_their_limits()
    ensures clients { run_asked_by (codes "bench h j --clients 33") ≡ None }
    ensures replicas { run_asked_by (codes "bench h j --replicas 8") ≡ None }
    ensures keys { run_asked_by (codes "bench h j --keys 1001") ≡ None }
    ensures writes { run_asked_by (codes "bench h j --writes 101") ≡ None }
    ensures seed { run_asked_by (codes "bench h j --seed 18446744073709551616") ≡ None }
    ensures shards { run_asked_by (codes "bench h j --shards 17") ≡ None }
    ensures workers { run_asked_by (codes "bench h j --workers 65") ≡ None }
{}

/// The files of a run: its settings where the words say none, some and all of them.
pub fn settings_of_traces()
    ensures none { asked_by (codes "trace h j") ≡ Some (trace default_settings) }
    ensures some { asked_by (codes "trace --keys=1 h --replicas 1 j --calls 2")
        ≡ Some (trace (settings 2 1 2 1 1 1 50 1 1)) }
    ensures all { asked_by (codes "trace h j --clients 4 --replicas 5 --calls 6 --keys 7 --read-quorum 2 --write-quorum 3 --writes 8 --seed 9 --shards 10")
        ≡ Some (trace (settings 4 5 6 7 2 3 8 9 10)) }
{}

/// And settings that are none.
pub fn wrong_traces()
    ensures no_client { asked_by (codes "trace h j --clients 0") ≡ None }
    ensures replicas_above { asked_by (codes "trace h j --replicas 8") ≡ None }
    ensures calls_of_all { asked_by (codes "trace h j --clients 32 --calls 3126") ≡ None }
    ensures read_quorum { asked_by (codes "trace h j --read-quorum 4") ≡ None }
    ensures no_number { asked_by (codes "trace h j --seed one") ≡ None }
    ensures run { run_asked_by (codes "trace h j") ≡ None }
{}

/// All clients together make at most 100,000 calls, and no quorum is above the number of replicas.
pub fn runs_that_are_not_possible()
    ensures calls_of_one { run_asked_by (codes "bench h j --clients 1 --calls 100001") ≡ None }
    ensures calls_of_two { run_asked_by (codes "bench h j --calls 50001") ≡ None }
    ensures calls_of_all { run_asked_by (codes "bench h j --clients 32 --calls 3126") ≡ None }
    ensures read_quorum { run_asked_by (codes "bench h j --read-quorum 4") ≡ None }
    ensures write_quorum { run_asked_by (codes "bench h j --write-quorum 4") ≡ None }
    ensures one_replica { run_asked_by (codes "bench h j --replicas 1 --write-quorum 2") ≡ None }
{}

/// Words that are wrong for a run: its files, and options that are not its own, come twice or are no numbers.
pub fn wrong_runs()
    ensures no_file { run_asked_by (codes "bench") ≡ None }
    ensures one_file { run_asked_by (codes "bench h") ≡ None }
    ensures same_file { run_asked_by (codes "bench h h") ≡ None }
    ensures three_files { run_asked_by (codes "bench h j k") ≡ None }
    ensures empty_file { bench_of (codes "bench" ∷ codes "h" ∷ [] ∷ []) ≡ None }
    ensures cert { run_asked_by (codes "bench h j --cert c") ≡ None }
    ensures twice { run_asked_by (codes "bench h j --seed 1 --seed 1") ≡ None }
    ensures no_number { run_asked_by (codes "bench h j --seed one") ≡ None }
    ensures too_many_digits { run_asked_by (codes "bench h j --seed 000000000000000000001") ≡ None }
    ensures shortened { run_asked_by (codes "bench h j --write 1") ≡ None }
{}
