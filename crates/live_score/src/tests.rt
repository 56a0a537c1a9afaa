//! What some operations are answered, and the score and the number of waiting reads after each, worked by hand.
ghost use Rattle.std.specs.Prelude.{◌≡◌, ◌≤◌, length, All};
ghost use Rattle.stale_model.specs.Operations.{latest_finish};

use crate::{Fed, Live};
use stale_model::{Kind, Memory, Op};
use std::alloc::Global;
use std::test::Fail;

// Feeds up to nine operations, numbered in the order of feeding.
#[derive(Drop)]
struct Feeder {
    live: Live,
    fed: u32,
    tick: u64,
    ghost places: { live.places ≡ 9 },
    ghost values: { live.values ≡ 9 },
    ghost count: { length live.fed ≤ fed },
    ghost behind: { All (λ a. (a.rec ≤ fed) × (latest_finish a ≤ tick)) live.fed },
}

// What an operation was answered, and the score and the number of waiting reads after it.
#[derive(Clone, Copy, Debug, PartialEq, Eq)]
struct After {
    answer: Fed,
    score: Option<u64>,
    waiting: u32,
}

impl Feeder {
    fn new(alloc: Global) -> Result<Feeder, Memory> {
        let live = Live::prepare(alloc, 9, 9)?;
        Ok(Feeder {
            live,
            fed: 0,
            tick: 0,
        })
    }

    // Feeds an operation; none where it may not be fed.
    fn feed(&mut self, kind: Kind, value: u32, start: u64, finish: u64) -> Option<After> {
        if self.fed >= 9 || value > 9 || start == 0 || start > finish {
            return None;
        }
        if finish < self.tick || finish > 99 {
            return None;
        }
        let rec = self.fed + 1;
        let op = Op {
            rec,
            client: 0,
            kind,
            value,
            start,
            finish,
            slack: 0,
        };
        let answer = self.live.feed(&op);
        self.fed = rec;
        self.tick = finish;
        Some(After {
            answer,
            score: self.live.score(),
            waiting: self.live.waiting(),
        })
    }
}

// A counted operation, with this score after it and so many waiting reads.
fn counted(score: u64, waiting: u32) -> Option<After> {
    Some(After {
        answer: Fed::Counted,
        score: Some(score),
        waiting,
    })
}

// A waiting read, after which so many wait; the score is 0.
fn waits(waiting: u32) -> Option<After> {
    Some(After {
        answer: Fed::Waiting,
        score: Some(0),
        waiting,
    })
}

// A second write of what this record wrote; the score is 0.
fn duplicate(rec: u32, waiting: u32) -> Option<After> {
    Some(After {
        answer: Fed::Duplicate { rec },
        score: Some(0),
        waiting,
    })
}

#[test]
fn a_stale_read_raises_the_score(rt: HostRuntime) -> Result<(), Fail> {
    let Ok(mut feeder) = Feeder::new(rt.alloc()) else {
        panic!(rt; "memory")
    };
    assert_eq!(rt; feeder.feed(Kind::Write, 1, 1, 2), counted(0, 0));
    assert_eq!(rt; feeder.feed(Kind::Write, 2, 3, 4), counted(0, 0));
    assert_eq!(rt; feeder.feed(Kind::Read, 1, 7, 9), counted(3, 0));
    Ok(())
}

#[test]
fn reads_count_from_their_write_on(rt: HostRuntime) -> Result<(), Fail> {
    let Ok(mut feeder) = Feeder::new(rt.alloc()) else {
        panic!(rt; "memory")
    };
    assert_eq!(rt; feeder.feed(Kind::Read, 1, 2, 3), waits(1));
    assert_eq!(rt; feeder.feed(Kind::Read, 2, 4, 5), waits(2));
    assert_eq!(rt; feeder.feed(Kind::Read, 1, 6, 7), waits(3));
    assert_eq!(rt; feeder.feed(Kind::Write, 1, 1, 10), counted(0, 1));
    assert_eq!(rt; feeder.feed(Kind::Write, 2, 1, 10), counted(1, 0));
    Ok(())
}

#[test]
fn an_early_read_leaves_no_score(rt: HostRuntime) -> Result<(), Fail> {
    let Ok(mut feeder) = Feeder::new(rt.alloc()) else {
        panic!(rt; "memory")
    };
    let none = Some(After {
        answer: Fed::Counted,
        score: None,
        waiting: 0,
    });
    assert_eq!(rt; feeder.feed(Kind::Read, 1, 1, 2), waits(1));
    assert_eq!(rt; feeder.feed(Kind::Write, 1, 3, 4), none);
    assert_eq!(rt; feeder.feed(Kind::Read, 1, 5, 6), none);
    Ok(())
}

#[test]
fn a_second_write_changes_nothing(rt: HostRuntime) -> Result<(), Fail> {
    let Ok(mut feeder) = Feeder::new(rt.alloc()) else {
        panic!(rt; "memory")
    };
    assert_eq!(rt; feeder.feed(Kind::Write, 1, 1, 2), counted(0, 0));
    assert_eq!(rt; feeder.feed(Kind::Write, 0, 3, 4), duplicate(0, 0));
    assert_eq!(rt; feeder.feed(Kind::Read, 2, 5, 6), waits(1));
    assert_eq!(rt; feeder.feed(Kind::Write, 1, 7, 8), duplicate(1, 1));
    assert_eq!(rt; feeder.feed(Kind::Write, 2, 1, 9), counted(0, 0));
    Ok(())
}
