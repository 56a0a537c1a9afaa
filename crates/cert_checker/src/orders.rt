//! Orders of all operations: each once, precedence, and what reads return.
ghost use Rattle.std.specs.Prelude.{◌≡◌, ◌<◌, ◌≤◌, IfOk, IsTrue, ◌↔◌, length};
ghost use Rattle.stale_model.specs.Operations.{operations, records_of, latest_finish};
ghost use Rattle.stale_model.specs.Valid.{IsValidKey};
ghost use Rattle.stale_model.specs.Faults.{IsMatchedKey};
ghost use Rattle.stale_model.specs.Orders.{ListsEachOnce};
ghost use Rattle.cert_checker.specs.OrderFaults.{IsOrderCheck, FindsOrder, order_rule, order_record};
ghost use Rattle.cert_checker.specs.Steps.{IsWalk, FindsUnmarked, IsListed, AreListed, IsAfter, with_op, FindsBackwards, FindsUnreturned};

use crate::Found;
use crate::lists::refill;
use crate::records::Hints;
use stale_model::{KeyOps, Kind, Memory, Op};
use std::alloc::Global;

// What is wrong with a list of records as an order of all operations, with the record that is named.
#[derive(Clone, Copy)]
pub(crate) enum OrderFault {
    // It doesn't list each operation once.
    Listing { rec: u32 },
    // The operation precedes one that stands before it.
    Precedence { rec: u32 },
    // The read returns none of the last k writes before it.
    Returns { rec: u32 },
}

impl OrderFault {
    /// The rule that is broken, where the one on the listing has this number.
    pub(crate) fn rule(&self, listing: u8) -> u8
        requires { listing < 250 }
        ensures { result ≡ order_rule listing self.now }
    {
        match self {
            OrderFault::Listing { .. } => listing,
            OrderFault::Precedence { .. } => listing + 1,
            OrderFault::Returns { .. } => listing + 2,
        }
    }

    /// The record that is named.
    pub(crate) fn record(&self) -> u32
        ensures { result ≡ order_record self.now }
    {
        match self {
            OrderFault::Listing { rec } => *rec,
            OrderFault::Precedence { rec } => *rec,
            OrderFault::Returns { rec } => *rec,
        }
    }
}

// The working lists of the check of an order.
#[derive(Drop)]
pub(crate) struct OrderLists {
    // A mark for each operation of the key.
    marks: Vec<bool>,
    // The operations that the entries name.
    ops: Vec<Op>,
    // For each value how many writes stand up to its own.
    written: Vec<usize>,
}

impl OrderLists {
    /// Empty lists.
    pub(crate) fn new(alloc: Global) -> OrderLists {
        OrderLists {
            marks: Vec::new(alloc),
            ops: Vec::new(alloc),
            written: Vec::new(alloc),
        }
    }
}

// The first entry that is no operation, or stood before. Where there is none, the lists have the operations of the
// entries, and a mark for each operation of the key that is among them.
fn follow(
    marks: &mut Vec<bool>,
    ops: &mut Vec<Op>,
    key: &KeyOps,
    hints: &Hints,
    order: &[u32],
) -> Result<Option<u32>, Memory>
    requires { IsValidKey key.now }
    ensures { IfOk result (IsWalk (operations key.now) order.now ops.new.items marks.new.items) }
{
    let count = key.ops.as_slice().len() + 1;
    refill(marks, count, false)?;
    ops.clear();
    ops.reserve(count).map_err(|_| Memory)?;
    for rec in order {
        match hints.find(key, *rec) {
            Some(found) if !marks[found.place] => {
                marks[found.place] = true;
                ops.push(found.op).map_err(|_| Memory)?;
            }
            _ => return Ok(Some(*rec)),
        }
    }
    Ok(None)
}

// The least record whose operation has no mark.
fn first_unmarked(key: &KeyOps, marks: &[bool]) -> Option<u32>
    requires { length marks.now ≡ length (operations key.now) }
    ensures { FindsUnmarked (operations key.now) marks.now result }
{
    if !marks[0] {
        return Some(0);
    }
    for (place, op) in key.ops.as_slice().iter().enumerate() {
        if !marks[place + 1] {
            return Some(op.rec);
        }
    }
    None
}

// The record that is named where `order` doesn't have each operation once. Where it has, `ops` has them in its order.
fn listing(
    lists: &mut OrderLists,
    key: &KeyOps,
    hints: &Hints,
    order: &[u32],
) -> Result<Option<u32>, Memory>
    requires { IsValidKey key.now }
    ensures { IfOk result (IsListed (operations key.now) order.now lists.new.ops.items) }
{
    match follow(&mut lists.marks, &mut lists.ops, key, hints, order)? {
        Some(rec) => Ok(Some(rec)),
        None => Ok(first_unmarked(key, lists.marks.as_slice())),
    }
}

// The greatest earliest starts so far, of reads and of writes; 0 where there is none.
#[derive(Clone, Copy)]
struct Latest {
    read: u64,
    write: u64,
}

impl Latest {
    // Whether an operation that finishes at `finish` precedes one of those so far at d.
    fn is_after(&self, d: u64, finish: u64) -> bool
        ensures { IsTrue result ↔ IsAfter self.now d finish }
    {
        self.read.saturating_sub(finish) > d || self.write > finish
    }

    // One more operation.
    fn add(&mut self, op: &Op)
        ensures { self.new ≡ with_op self.old op.now }
    {
        let start = op.earliest_start();
        match op.kind {
            Kind::Read => self.read = self.read.max(start),
            Kind::Write => self.write = self.write.max(start),
        }
    }
}

// The record of the first operation that precedes at d one that stands before it.
fn first_backwards(d: u64, key: &KeyOps, listed: &[Op]) -> Option<u32>
    requires valid { IsValidKey key.now }
    requires listed { AreListed (operations key.now) (records_of listed.now) listed.now }
    ensures { FindsBackwards (operations key.now) d (records_of listed.now) result }
{
    let mut latest = Latest { read: 0, write: 0 };
    for op in listed {
        if latest.is_after(d, op.latest_finish()) {
            return Some(op.rec);
        }
        latest.add(op);
    }
    None
}

// The record of the first read that returns none of the last k writes before it. For each value it keeps how many
// writes stand up to its own.
fn first_unreturned(
    written: &mut Vec<usize>,
    k: u32,
    key: &KeyOps,
    listed: &[Op],
) -> Result<Option<u32>, Memory>
    requires valid { IsValidKey key.now }
    requires matched { IsMatchedKey (operations key.now) }
    requires listed { AreListed (operations key.now) (records_of listed.now) listed.now }
    requires each_once { ListsEachOnce (records_of (operations key.now)) (records_of listed.now) }
    ensures { IfOk result (FindsUnreturned (operations key.now) k (records_of listed.now)) }
{
    let slots = key.values.as_slice().len() + 1;
    refill(written, slots, 0)?;
    let mut writes = 0usize;
    for op in listed {
        let value = op.value as usize;
        match op.kind {
            Kind::Write => {
                writes += 1;
                written[value] = writes;
            }
            Kind::Read => {
                if written[value] == 0 || writes - written[value] >= k as usize {
                    return Ok(Some(op.rec));
                }
            }
        }
    }
    Ok(None)
}

/// The fault of a list of records as an order at d in which reads return one of the last k writes.
pub(crate) fn order_fault(
    lists: &mut OrderLists,
    d: u64,
    k: u32,
    key: &KeyOps,
    hints: &Hints,
    order: &[u32],
) -> Result<Option<OrderFault>, Memory>
    requires valid { IsValidKey key.now }
    requires matched { IsMatchedKey (operations key.now) }
    ensures { IfOk result (IsOrderCheck (operations key.now) d k order.now) }
{
    if let Some(rec) = listing(lists, key, hints, order)? {
        return Ok(Some(OrderFault::Listing { rec }));
    }
    let ops = lists.ops.as_slice();
    if let Some(rec) = first_backwards(d, key, ops) {
        return Ok(Some(OrderFault::Precedence { rec }));
    }
    match first_unreturned(&mut lists.written, k, key, ops)? {
        Some(rec) => Ok(Some(OrderFault::Returns { rec })),
        None => Ok(None),
    }
}

/// Whether a list of records is an order of all operations at d in which each read returns one of the last k writes,
/// for k from 1. Else the first of these rules that is broken, with the record that is named: 2, it lists each
/// operation once (the first entry that is no operation or stood before, else the least record missing); 3, it extends
/// precedence (the first entry that precedes an earlier one); 4, its reads return one of the last k writes (the first
/// that doesn't). For a valid key that is neither duplicate nor unmatched. The error says that memory ran out.
pub fn check_order(
    alloc: Global,
    d: u64,
    k: u32,
    key: &KeyOps,
    order: &[u32],
) -> Result<Found, Memory>
    requires some { 1 ≤ k }
    requires valid { IsValidKey key.now }
    requires matched { IsMatchedKey (operations key.now) }
    ensures { IfOk result (FindsOrder (operations key.now) d k order.now) }
{
    let hints = Hints::of(alloc, key)?;
    let mut lists = OrderLists::new(alloc);
    match order_fault(&mut lists, d, k, key, &hints, order)? {
        None => Ok(Found::Good),
        Some(fault) => Ok(Found::Bad {
            rule: fault.rule(2),
            rec: fault.record(),
        }),
    }
}
