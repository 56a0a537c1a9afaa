//! That a task or a run comes where memory is ample, which no contract says.
use super::*;
use stale_model::Settings;
use std::test::Fail;

// The words between the blanks of a line.
fn words_of(alloc: Global, line: &str) -> Result<Vec<Word>, Fail> {
    let mut words = Vec::new(alloc);
    for word in line.split(' ') {
        words.push(Word::of(alloc, word)?)?;
    }
    Ok(words)
}

#[test]
fn gives_tasks(rt: HostRuntime) -> Result<(), Fail> {
    let words = words_of(rt.alloc(), "--workers 007 audit h --cert=-c")?;
    let Some(Task::Judge { file, measure }) = task_of(rt.alloc(), &words)? else {
        return Err(Fail::new("no audit"));
    };
    assert_eq!(rt; file.as_slice(), b"h".as_slice());
    let Measure::Audit { cert, workers } = measure else {
        return Err(Fail::new("another measure"));
    };
    let Some(cert) = cert else {
        return Err(Fail::new("no certificate"));
    };
    assert_eq!(rt; cert.as_slice(), b"-c".as_slice());
    assert_eq!(rt; workers, 7);
    let words = words_of(rt.alloc(), "sides -- s")?;
    let Some(Task::Judge { file, measure }) = task_of(rt.alloc(), &words)? else {
        return Err(Fail::new("no sides"));
    };
    assert_eq!(rt; file.as_slice(), b"s".as_slice());
    assert!(rt; matches!(&measure, Measure::Sides));
    let words = words_of(rt.alloc(), "check h -- c")?;
    let Some(Task::Check { file, cert }) = task_of(rt.alloc(), &words)? else {
        return Err(Fail::new("no such task"));
    };
    assert_eq!(rt; file.as_slice(), b"h".as_slice());
    assert_eq!(rt; cert.as_slice(), b"c".as_slice());
    let words = words_of(rt.alloc(), "trial 7 20 3 --workers 2")?;
    let Some(Task::Trial { workload, workers }) = task_of(rt.alloc(), &words)? else {
        return Err(Fail::new("no trial"));
    };
    let wanted = Workload {
        seed: 7,
        ops: 20,
        keys: 3,
    };
    assert!(rt; workload == wanted && workers == 2);
    let words = words_of(rt.alloc(), "audit h --workers 0")?;
    assert!(rt; task_of(rt.alloc(), &words)?.is_none());
    Ok(())
}

#[test]
fn gives_runs(rt: HostRuntime) -> Result<(), Fail> {
    let words = words_of(rt.alloc(), "bench h j --seed 9 --write-quorum=3")?;
    let Some(bench) = bench_of(rt.alloc(), &words)? else {
        return Err(Fail::new("no run"));
    };
    let wanted = Settings {
        clients: 2,
        replicas: 3,
        calls: 100,
        keys: 4,
        read_quorum: 1,
        write_quorum: 3,
        writes: 50,
        seed: 9,
        shards: 1,
    };
    assert_eq!(rt; bench.history.as_slice(), b"h".as_slice());
    assert_eq!(rt; bench.journal.as_slice(), b"j".as_slice());
    assert!(rt; bench.settings == wanted && bench.workers == 1);
    let words = words_of(rt.alloc(), "bench h j --write-quorum 4")?;
    assert!(rt; bench_of(rt.alloc(), &words)?.is_none());
    Ok(())
}
