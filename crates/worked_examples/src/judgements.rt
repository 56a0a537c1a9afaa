//! The orders, the pair and the refutation of each judged key.

use audit_workers::judge_key;
use history_csv::read_history;
use stale_model::{End, Four, Try, TwoPart, Verdict};
use std::alloc::AllocError;
use std::process::Abort;
use std::test::Fail;

// One cluster tried as the last one: the writes of its chain, and the end.
#[derive(Clone, Copy)]
struct Tried<'a> {
    chain: &'a [u32],
    end: End,
}

// What is said of 2-atomicity: the records of an order, or the writes that are stuck and what was tried of each.
#[derive(Clone, Copy)]
enum TwoRow<'a> {
    Yes(&'a [u32]),
    No {
        stuck: &'a [u32],
        tries: &'a [Tried<'a>],
    },
}

// A history of one key, and the judgement of it.
#[derive(Clone, Copy)]
struct Judged<'a> {
    shows: &'a str,
    history: &'a [u8],
    delta: u64,
    order: &'a [u32],
    four: Option<Four>,
    two: TwoRow<'a>,
}

fn is_tried(tries: &[Try], rows: &[Tried]) -> bool {
    tries.len() == rows.len()
        && tries.iter().zip(rows).all(|(tried, row)| tried.chain.as_slice() == row.chain
            && tried.end == row.end)
}

fn is_two(two: &TwoPart, row: &TwoRow) -> bool {
    match (two, row) {
        (TwoPart::Yes(order), TwoRow::Yes(records)) => order.as_slice() == *records,
        (TwoPart::No(refutation), TwoRow::No { stuck, tries }) => {
            refutation.stuck.as_slice() == *stuck && is_tried(refutation.tries.as_slice(), tries)
        }
        _ => false,
    }
}

fn judge_row<R: Abort + AllocGlobal>(rt: &R, row: &Judged) -> Result<(), AllocError> {
    let shows = row.shows;
    let Ok(history) = read_history(rt.alloc(), row.history) else {
        return Err(AllocError);
    };
    let keys = history.keys.as_slice();
    assert!(rt; keys.len() == 1, "{shows}: keys");
    let Ok(verdict) = judge_key(rt.alloc(), &keys[0]) else {
        return Err(AllocError);
    };
    let Verdict::Judged(judgement) = verdict else {
        panic!(rt; "{shows}: not judged");
    };
    let delta = judgement.delta;
    assert!(rt; delta == row.delta, "{shows}: delta {delta}");
    assert!(rt; judgement.order.as_slice() == row.order, "{shows}: order");
    assert!(rt; judgement.four == row.four, "{shows}: pair");
    assert!(rt; is_two(&judgement.two, &row.two), "{shows}: two");
    Ok(())
}

#[test]
fn judgements_have_their_orders_pair_and_refutation(rt: HostRuntime) -> Result<(), Fail> {
    let rows = [
        Judged {
            shows: "a write and a read of it",
            history: b"client,op,key,value,start,finish\n0,w,x,a,1,3\n1,r,x,a,4,6\n",
            delta: 0,
            order: &[0, 1, 2],
            four: None,
            two: TwoRow::Yes(&[0, 1, 2]),
        },
        Judged {
            shows: "a read three ticks stale",
            history: b"client,op,key,value,start,finish\n0,w,x,a,1,2\n0,w,x,b,3,4\n1,r,x,a,7,9\n",
            delta: 3,
            order: &[0, 1, 3, 2],
            four: Some(Four {
                p: 1,
                q: 2,
                q2: 2,
                p2: 3,
            }),
            two: TwoRow::Yes(&[0, 1, 2, 3]),
        },
        Judged {
            shows: "three writes and a read of the first",
            history: b"client,op,key,value,start,finish\n0,w,x,a,1,2\n0,w,x,b,3,4\n0,w,x,c,5,6\n1,r,x,a,9,10\n",
            delta: 5,
            order: &[0, 1, 4, 2, 3],
            four: Some(Four {
                p: 1,
                q: 2,
                q2: 2,
                p2: 4,
            }),
            two: TwoRow::No {
                stuck: &[3, 2, 1, 0],
                tries: &[
                    Tried {
                        chain: &[3, 1],
                        end: End::Hard { p: 1, u: 2 },
                    },
                    Tried {
                        chain: &[2],
                        end: End::Hard { p: 2, u: 3 },
                    },
                    Tried {
                        chain: &[1],
                        end: End::Hard { p: 1, u: 3 },
                    },
                    Tried {
                        chain: &[0],
                        end: End::Hard { p: 0, u: 3 },
                    },
                ],
            },
        },
        Judged {
            shows: "equal ticks are concurrent",
            history: b"client,op,key,value,start,finish\n0,w,x,a,1,2\n1,w,x,b,2,3\n2,r,x,a,3,4\n",
            delta: 0,
            order: &[0, 2, 1, 3],
            four: None,
            two: TwoRow::Yes(&[0, 1, 3, 2]),
        },
        Judged {
            shows: "a backward zone before a forward one that begins with it",
            history: b"client,op,key,value,start,finish\n0,w,x,a,1,2\n1,w,x,b,2,3\n2,r,x,a,4,5\n",
            delta: 0,
            order: &[0, 2, 1, 3],
            four: None,
            two: TwoRow::Yes(&[0, 2, 1, 3]),
        },
        Judged {
            shows: "a backward zone inside a forward one",
            history: b"client,op,key,value,start,finish\n0,w,x,a,1,10\n1,w,x,b,1,10\n2,r,x,a,2,3\n2,r,x,b,4,5\n2,r,x,a,6,7\n",
            delta: 1,
            order: &[0, 2, 4, 1, 3, 5],
            four: Some(Four {
                p: 3,
                q: 4,
                q2: 4,
                p2: 5,
            }),
            two: TwoRow::Yes(&[0, 1, 3, 2, 4, 5]),
        },
        Judged {
            shows: "a read of the initial value",
            history: b"client,op,key,value,start,finish\n0,r,x,,1,2\n1,w,x,a,3,4\n0,r,x,,6,7\n",
            delta: 2,
            order: &[0, 1, 3, 2],
            four: Some(Four {
                p: 0,
                q: 2,
                q2: 2,
                p2: 3,
            }),
            two: TwoRow::Yes(&[0, 1, 2, 3]),
        },
        Judged {
            shows: "an open write, and a skipped read",
            history: b"client,op,key,value,start,finish\n0,w,x,a,1,\n1,r,x,,5,6\n2,r,x,a,7,8\n3,r,x,a,9,\n",
            delta: 0,
            order: &[0, 2, 1, 3],
            four: None,
            two: TwoRow::Yes(&[0, 2, 1, 3]),
        },
        Judged {
            shows: "three concurrent writes and two stale reads",
            history: b"client,op,key,value,start,finish\n0,w,x,z,1,8\n1,w,x,y,2,9\n2,w,x,q,3,10\n3,r,x,y,12,13\n4,r,x,z,12,13\n",
            delta: 3,
            order: &[0, 3, 1, 5, 2, 4],
            four: Some(Four {
                p: 1,
                q: 4,
                q2: 2,
                p2: 5,
            }),
            two: TwoRow::Yes(&[0, 3, 1, 2, 4, 5]),
        },
        Judged {
            shows: "the same with a later third write",
            history: b"client,op,key,value,start,finish\n0,w,x,z,1,8\n1,w,x,y,2,9\n2,w,x,q,10,11\n3,r,x,y,12,13\n4,r,x,z,12,13\n",
            delta: 3,
            order: &[0, 1, 5, 2, 4, 3],
            four: Some(Four {
                p: 1,
                q: 4,
                q2: 2,
                p2: 5,
            }),
            two: TwoRow::No {
                stuck: &[3, 2, 1, 0],
                tries: &[
                    Tried {
                        chain: &[3],
                        end: End::Soft { p: 3, q: 5, q2: 4 },
                    },
                    Tried {
                        chain: &[2],
                        end: End::Hard { p: 2, u: 3 },
                    },
                    Tried {
                        chain: &[1],
                        end: End::Hard { p: 1, u: 3 },
                    },
                    Tried {
                        chain: &[0],
                        end: End::Hard { p: 0, u: 3 },
                    },
                ],
            },
        },
        Judged {
            shows: "slack of a write",
            history: b"client,op,key,value,start,finish,slack\n0,w,x,a,1,2,0\n0,w,x,b,3,4,2\n1,r,x,a,7,9,\n",
            delta: 0,
            order: &[0, 2, 1, 3],
            four: None,
            two: TwoRow::Yes(&[0, 2, 1, 3]),
        },
        Judged {
            shows: "slack of a read",
            history: b"client,op,key,value,start,finish,slack\n0,w,x,a,1,2,\n0,w,x,b,3,4,\n1,r,x,a,7,9,2\n",
            delta: 1,
            order: &[0, 1, 3, 2],
            four: Some(Four {
                p: 1,
                q: 2,
                q2: 2,
                p2: 3,
            }),
            two: TwoRow::Yes(&[0, 1, 2, 3]),
        },
        Judged {
            shows: "slack of a read and of its write",
            history: b"client,op,key,value,start,finish,slack\n0,r,x,a,1,2,1\n1,w,x,a,3,4,1\n",
            delta: 0,
            order: &[0, 2, 1],
            four: None,
            two: TwoRow::Yes(&[0, 2, 1]),
        },
    ];
    for row in &rows {
        judge_row(&rt, row)?;
    }
    Ok(())
}
