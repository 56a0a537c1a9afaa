ghost use Rattle.std.specs.Prelude.{◌-◌, ◌^◌, ◌<◌, length};

use super::*;
use stale_model::{End, Four, Judgement, TwoPart};
use std::test::Fail;

// A read three ticks stale: two writes one after the other, and a read of the first.
const STALE: &[u8] =
    b"stale-cert 1\nkey 1\ndelta 3\norder 0 1 3 2\npair 1 2 2 3\ntwo yes\norder 0 1 2 3\nend\n";

#[test]
fn writes_a_certificate(rt: HostRuntime) -> Result<(), Fail> {
    let order = List::from_vec(Vec::from_array(rt.alloc(), [0, 1, 3, 2])?);
    let two = List::from_vec(Vec::from_array(rt.alloc(), [0, 1, 2, 3])?);
    let verdict = Verdict::Judged(Judgement {
        delta: 3,
        order,
        four: Some(Four {
            p: 1,
            q: 2,
            q2: 2,
            p2: 3,
        }),
        two: TwoPart::Yes(two),
    });
    let text = write_cert(rt.alloc(), &[verdict])?;
    assert_eq!(rt; text.as_slice(), STALE);
    Ok(())
}

#[test]
fn reads_a_certificate(rt: HostRuntime) -> Result<(), Fail> {
    let verdicts = read_cert(rt.alloc(), 1, STALE)?;
    let [Verdict::Judged(judgement)] = verdicts.as_slice() else {
        panic!(rt; "not one judgement");
    };
    assert_eq!(rt; judgement.delta, 3);
    assert_eq!(rt; judgement.order.as_slice(), [0, 1, 3, 2].as_slice());
    assert_eq!(rt;
        judgement.four,
        Some(Four {
            p: 1,
            q: 2,
            q2: 2,
            p2: 3
        })
    );
    match &judgement.two {
        TwoPart::Yes(order) => assert_eq!(rt; order.as_slice(), [0, 1, 2, 3].as_slice()),
        TwoPart::No(_) => panic!(rt; "a refutation"),
    }
    Ok(())
}

#[test]
fn reads_a_refutation(rt: HostRuntime) -> Result<(), Fail> {
    let text =
        b"stale-cert 1\nkey 1\ndelta 5\norder 0 1 4 2 3\npair 1 2 2 4\ntwo no\nstuck 3 2 1 0\ntry 3 1 hard 1 2\ntry 2 hard 2 3\ntry 1 hard 1 3\ntry 0 hard 0 3\nend\n";
    let verdicts = read_cert(rt.alloc(), 1, text.as_slice())?;
    let [Verdict::Judged(judgement)] = verdicts.as_slice() else {
        panic!(rt; "not one judgement");
    };
    let TwoPart::No(refutation) = &judgement.two else {
        panic!(rt; "no refutation");
    };
    assert_eq!(rt; refutation.stuck.as_slice(), [3, 2, 1, 0].as_slice());
    let tries = refutation.tries.as_slice();
    assert_eq!(rt; tries.len(), 4);
    assert_eq!(rt; tries[0].chain.as_slice(), [3, 1].as_slice());
    assert_eq!(rt; tries[0].end, End::Hard { p: 1, u: 2 });
    Ok(())
}

// The fault of a text as a certificate of one key.
fn fault_of(alloc: Global, text: &[u8]) -> Option<CertFault>
    requires { length text.now < 2 ^ 32 - 1 }
{
    read_cert(alloc, 1, text).err()
}

#[test]
fn finds_the_fault_of_a_changed_line(rt: HostRuntime) -> Result<(), Fail> {
    let zero =
        b"stale-cert 1\nkey 01\ndelta 3\norder 0 1 3 2\npair 1 2 2 3\ntwo yes\norder 0 1 2 3\nend\n";
    assert_eq!(rt;
        fault_of(rt.alloc(), zero.as_slice()),
        Some(CertFault::Number { line: 2 })
    );
    let word =
        b"stale-cert 1\nkey 1\ndelta x\norder 0 1 3 2\npair 1 2 2 3\ntwo yes\norder 0 1 2 3\nend\n";
    assert_eq!(rt;
        fault_of(rt.alloc(), word.as_slice()),
        Some(CertFault::Number { line: 3 })
    );
    let blanks =
        b"stale-cert 1\nkey 1\ndelta 3\norder 0 1 3 2\npair 1 2 2 3\ntwo  yes\norder 0 1 2 3\nend\n";
    assert_eq!(rt;
        fault_of(rt.alloc(), blanks.as_slice()),
        Some(CertFault::Line { line: 6 })
    );
    let returns =
        b"stale-cert 1\r\nkey 1\r\ndelta 3\r\norder 0 1 3 2\r\npair 1 2 2 3\r\ntwo yes\r\norder 0 1 2 3\r\nend\r\n";
    assert_eq!(rt;
        fault_of(rt.alloc(), returns.as_slice()),
        Some(CertFault::Line { line: 1 })
    );
    let no_delta =
        b"stale-cert 1\nkey 1\norder 0 1 3 2\npair 1 2 2 3\ntwo yes\norder 0 1 2 3\nend\n";
    assert_eq!(rt;
        fault_of(rt.alloc(), no_delta.as_slice()),
        Some(CertFault::Line { line: 3 })
    );
    Ok(())
}

#[test]
fn finds_the_fault_of_a_changed_try(rt: HostRuntime) -> Result<(), Fail> {
    let no_chain =
        b"stale-cert 1\nkey 1\ndelta 5\norder 0 1 4 2 3\npair 1 2 2 4\ntwo no\nstuck 3 2 1 0\ntry 3 1 hard 1 2\ntry 2 hard 2 3\ntry 1 hard 1 3\ntry hard 0 3\nend\n";
    assert_eq!(rt;
        fault_of(rt.alloc(), no_chain.as_slice()),
        Some(CertFault::Line { line: 11 })
    );
    let soft_chain =
        b"stale-cert 1\nkey 1\ndelta 5\norder 0 1 4 2 3\npair 1 2 2 4\ntwo no\nstuck 3 2 1 0\ntry 3 1 hard 1 2\ntry 2 hard 2 3\ntry 1 hard 1 3\ntry 0 soft hard 0 3\nend\n";
    assert_eq!(rt;
        fault_of(rt.alloc(), soft_chain.as_slice()),
        Some(CertFault::Number { line: 11 })
    );
    Ok(())
}
