//! Refutations of 2-atomicity: members that are writes, and a try for each.
ghost use Rattle.std.specs.Prelude.{◌≡◌, ◌+◌, ◌^◌, ◌<◌, ◌≤◌, ◌↔◌, All, IfOk, OnOk, IsTrue, length};
ghost use Rattle.stale_model.specs.Operations.{operations, latest_finish};
ghost use Rattle.stale_model.specs.Valid.{IsValidKey};
ghost use Rattle.stale_model.specs.Faults.{IsMatchedKey};
ghost use Rattle.cert_checker.specs.RefutationFaults.{IsRefutationCheck, FindsRefutation};
ghost use Rattle.cert_checker.specs.RefutationSteps.{with_op, AreSpansOf, FindsWritten, FindsMembers, AreMembers, case_ops, case_stuck, IsCase, FindsMember, FindsEnd, PrecedesUnmarked, AreReadsApart, AfterWalk, FindsUnplaced, TellsHard, TellsSoft, TellsEnd, TellsTry, FindsFailed};

use crate::Found;
use crate::lists::refill;
use crate::records::{Hints, precedes};
use stale_model::{End, INITIAL_WRITE, KeyOps, Kind, Memory, Op, Refutation, Try};
use std::alloc::Global;

// When the operations of one value finish and its reads start.
#[derive(Clone, Copy)]
struct Span {
    // The least latest finish of the operations; the greatest tick where there is none.
    finish: u64,
    // The greatest earliest start of the reads; 0 where there is none.
    start: u64,
}

impl Span {
    // One more operation.
    fn with(&self, op: &Op) -> Span
        requires { latest_finish op.now < 2 ^ 64 }
        ensures { result ≡ with_op self.now op.now }
    {
        let finish = self.finish.min(op.latest_finish());
        let start = match op.kind {
            Kind::Read => self.start.max(op.earliest_start()),
            Kind::Write => self.start,
        };
        Span { finish, start }
    }

    // Whether some operation of this value precedes a read of the next one at d.
    fn forces(&self, d: u64, next: &Span) -> bool
        ensures { IsTrue result ↔ (self.now.finish + d < next.now.start) }
    {
        next.start.saturating_sub(self.finish) > d
    }
}

// The working lists of the check of a refutation.
#[derive(Drop)]
pub(crate) struct RefutationLists {
    // A mark for each value.
    members: Vec<bool>,
    // The span of each value.
    spans: Vec<Span>,
    // For each value the last chain that it was in.
    marks: Vec<usize>,
}

impl RefutationLists {
    /// Empty lists.
    pub(crate) fn new(alloc: Global) -> RefutationLists {
        RefutationLists {
            members: Vec::new(alloc),
            spans: Vec::new(alloc),
            marks: Vec::new(alloc),
        }
    }
}

// Fills the list with the span of each value.
fn fill_spans(spans: &mut Vec<Span>, key: &KeyOps) -> Result<(), Memory>
    requires { IsValidKey key.now }
    ensures spans { OnOk result (AreSpansOf key.now spans.new.items) }
    ensures size { OnOk result (length spans.new.items ≡ length key.now.values + 1) }
{
    let slots = key.values.as_slice().len() + 1;
    let none = Span {
        finish: u64::MAX,
        start: 0,
    };
    refill(spans, slots, none)?;
    spans[0] = none.with(&INITIAL_WRITE);
    for op in key.ops.as_slice() {
        let value = op.value as usize;
        spans[value] = spans[value].with(op);
    }
    Ok(())
}

// The value of the write with this record, if there is one.
fn written_value(key: &KeyOps, hints: &Hints, rec: u32) -> Option<usize>
    requires { IsValidKey key.now }
    ensures { FindsWritten (operations key.now) rec result }
{
    let found = hints.find(key, rec)?;
    match found.op.kind {
        Kind::Write => Some(found.op.value as usize),
        Kind::Read => None,
    }
}

// The first entry of `stuck` that is the record of no write, or stood before. Where there is none, the list has a mark
// for each of their values.
fn first_stranger(
    marks: &mut Vec<bool>,
    key: &KeyOps,
    hints: &Hints,
    stuck: &[u32],
) -> Result<Option<u32>, Memory>
    requires valid { IsValidKey key.now }
    requires matched { IsMatchedKey (operations key.now) }
    ensures { IfOk result (FindsMembers key.now stuck.now marks.new.items) }
{
    let slots = key.values.as_slice().len() + 1;
    refill(marks, slots, false)?;
    for rec in stuck {
        match written_value(key, hints, *rec) {
            Some(value) if !marks[value] => marks[value] = true,
            _ => return Ok(Some(*rec)),
        }
    }
    Ok(None)
}

// Whether two operations are reads of two values.
fn are_reads_apart(a: &Op, b: &Op) -> bool
    ensures { IsTrue result ↔ AreReadsApart a.now b.now }
{
    match (a.kind, b.kind) {
        (Kind::Read, Kind::Read) => a.value != b.value,
        _ => false,
    }
}

// What the tries of a refutation are checked against at d: marks of the members and spans, both by value.
#[derive(Clone, Copy)]
struct Case<'a> {
    d: u64,
    key: &'a KeyOps,
    hints: &'a Hints,
    refutation: &'a Refutation,
    members: &'a [bool],
    spans: &'a [Span],
}

impl Case<'_> {
    // The value of the member with this record, if there is one.
    fn member_value(&self, rec: u32) -> Option<usize>
        requires { IsCase self.now }
        ensures { FindsMember self.now rec result }
    {
        let value = written_value(self.key, self.hints, rec)?;
        if self.members[value] {
            Some(value)
        } else {
            None
        }
    }

    // The last value of a chain, if it is one of members, each once and each forced by the one before it. Its values
    // get this mark, which is greater than those of the chains before.
    fn chain_end(&self, marks: &mut [usize], mark: usize, chain: &[u32]) -> Option<usize>
        requires case { IsCase self.now }
        requires marks_size { length marks.old ≡ length self.now.key.now.values + 1 }
        requires earlier { All (λ m. m < mark) marks.old }
        ensures end { FindsEnd self.now chain.now marks.new mark result }
        ensures marked { All (λ m. m ≤ mark) marks.new }
    {
        let mut last: Option<usize> = None;
        for rec in chain {
            let value = self.member_value(*rec)?;
            if marks[value] == mark {
                return None;
            }
            if let Some(before) = last {
                if !self.spans[before].forces(self.d, &self.spans[value]) {
                    return None;
                }
            }
            marks[value] = mark;
            last = Some(value);
        }
        last
    }

    // Whether a, an operation of this value, precedes b, of a member whose value doesn't have this mark.
    fn precedes_unmarked(&self, marks: &[usize], mark: usize, value: usize, a: &Op, b: &Op) -> bool
        requires members_size { b.now.value < length self.now.members.now }
        requires marks_size { b.now.value < length marks.now }
        requires ends { latest_finish a.now < 2 ^ 64 }
        ensures { IsTrue result ↔ PrecedesUnmarked self.now marks.now mark value a.now b.now }
    {
        let other = b.value as usize;
        a.value as usize == value
            && self.members[other]
            && marks[other] != mark
            && precedes(self.d, a, b)
    }

    // The operation x, if it is of a member whose value doesn't have this mark, and p, of this value, precedes it.
    fn unplaced(&self, marks: &[usize], mark: usize, value: usize, p: u32, x: u32) -> Option<Op>
        requires case { IsCase self.now }
        requires marks_size { length marks.now ≡ length self.now.key.now.values + 1 }
        ensures { AfterWalk self.now marks.now mark value (FindsUnplaced self.now p x result) }
    {
        let a = self.hints.find(self.key, p)?.op;
        let b = self.hints.find(self.key, x)?.op;
        if self.precedes_unmarked(marks, mark, value, &a, &b) {
            Some(b)
        } else {
            None
        }
    }

    // Whether p precedes the write u of a member that the chain doesn't place.
    fn hard_holds(&self, marks: &[usize], mark: usize, value: usize, p: u32, u: u32) -> bool
        requires case { IsCase self.now }
        requires marks_size { length marks.now ≡ length self.now.key.now.values + 1 }
        ensures { AfterWalk self.now marks.now mark value (TellsHard self.now p u result) }
    {
        match self.unplaced(marks, mark, value, p, u) {
            Some(b) => match b.kind {
                Kind::Read => false,
                Kind::Write => true,
            },
            None => false,
        }
    }

    // Whether p precedes the reads q and q2 of two members that the chain doesn't place.
    fn soft_holds(
        &self,
        marks: &[usize],
        mark: usize,
        value: usize,
        p: u32,
        q: u32,
        q2: u32,
    ) -> bool
        requires case { IsCase self.now }
        requires marks_size { length marks.now ≡ length self.now.key.now.values + 1 }
        ensures { AfterWalk self.now marks.now mark value (TellsSoft self.now p q q2 result) }
    {
        let Some(a) = self.unplaced(marks, mark, value, p, q) else {
            return false;
        };
        let Some(b) = self.unplaced(marks, mark, value, p, q2) else {
            return false;
        };
        are_reads_apart(&a, &b)
    }

    // Whether the end of a chain holds, whose values have this mark, and whose last value is this one.
    fn end_holds(&self, marks: &[usize], mark: usize, value: usize, end: &End) -> bool
        requires case { IsCase self.now }
        requires marks_size { length marks.now ≡ length self.now.key.now.values + 1 }
        ensures { AfterWalk self.now marks.now mark value (TellsEnd self.now end.now result) }
    {
        match end {
            End::Hard { p, u } => self.hard_holds(marks, mark, value, *p, *u),
            End::Soft { p, q, q2 } => self.soft_holds(marks, mark, value, *p, *q, *q2),
        }
    }

    // Whether the try of a member holds. The marks are less than this one before, and no greater afterwards.
    fn try_holds(&self, marks: &mut [usize], mark: usize, member: u32, attempt: &Try) -> bool
        requires case { IsCase self.now }
        requires marks_size { length marks.old ≡ length self.now.key.now.values + 1 }
        requires earlier { All (λ m. m < mark) marks.old }
        ensures holds { TellsTry self.now member attempt.now result }
        ensures marked { All (λ m. m ≤ mark) marks.new }
    {
        let chain = attempt.chain.as_slice();
        match chain.first() {
            Some(first) if *first == member => {}
            _ => return false,
        }
        match self.chain_end(marks, mark, chain) {
            Some(value) => self.end_holds(marks, mark, value, &attempt.end),
            None => false,
        }
    }

    // The member of the first try that doesn't hold.
    fn first_failed(&self, marks: &mut Vec<usize>) -> Result<Option<u32>, Memory>
        requires case { IsCase self.now }
        requires as_many { length self.now.refutation.now.tries ≡ length (case_stuck self.now) }
        ensures { IfOk result (FindsFailed (case_ops self.now) self.now.d self.now.refutation.now) }
    {
        let stuck = self.refutation.stuck.as_slice();
        refill(marks, self.members.len(), 0)?;
        for (place, attempt) in self.refutation.tries.as_slice().iter().enumerate() {
            let member = stuck[place];
            if !self.try_holds(marks, place + 1, member, attempt) {
                return Ok(Some(member));
            }
        }
        Ok(None)
    }
}

// The record that is named where there is no stranger among the members, and these are the marks of their values.
fn tries_fault(
    spans: &mut Vec<Span>,
    marks: &mut Vec<usize>,
    d: u64,
    key: &KeyOps,
    hints: &Hints,
    refutation: &Refutation,
    members: &[bool],
) -> Result<Option<u32>, Memory>
    requires valid { IsValidKey key.now }
    requires matched { IsMatchedKey (operations key.now) }
    requires members { AreMembers (operations key.now) refutation.now.stuck members.now }
    requires size { length members.now ≡ length key.now.values + 1 }
    ensures { IfOk result (IsRefutationCheck (operations key.now) d refutation.now) }
{
    let stuck = refutation.stuck.as_slice();
    if stuck.is_empty() || refutation.tries.as_slice().len() != stuck.len() {
        return Ok(Some(0));
    }
    fill_spans(spans, key)?;
    let spans = spans.as_slice();
    let case = Case {
        d,
        key,
        hints,
        refutation,
        members,
        spans,
    };
    case.first_failed(marks)
}

/// The record that is named where the refutation doesn't hold at d.
pub(crate) fn refutation_fault(
    lists: &mut RefutationLists,
    d: u64,
    key: &KeyOps,
    hints: &Hints,
    refutation: &Refutation,
) -> Result<Option<u32>, Memory>
    requires valid { IsValidKey key.now }
    requires matched { IsMatchedKey (operations key.now) }
    ensures { IfOk result (IsRefutationCheck (operations key.now) d refutation.now) }
{
    let stuck = refutation.stuck.as_slice();
    if let Some(rec) = first_stranger(&mut lists.members, key, hints, stuck)? {
        return Ok(Some(rec));
    }
    let members = lists.members.as_slice();
    tries_fault(
        &mut lists.spans,
        &mut lists.marks,
        d,
        key,
        hints,
        refutation,
        members,
    )
}

/// Whether a refutation holds, so that no order of all operations exists in which each read returns one of the last
/// two writes: [`check_refutation_at`] at 0.
///
/// # Errors
/// `Memory` where memory ran out.
pub fn check_refutation(
    alloc: Global,
    key: &KeyOps,
    refutation: &Refutation,
) -> Result<Found, Memory>
    requires valid { IsValidKey key.now }
    requires matched { IsMatchedKey (operations key.now) }
    ensures { IfOk result (FindsRefutation (operations key.now) 0 refutation.now) }
{
    check_refutation_at(alloc, 0, key, refutation)
}

/// Whether a refutation holds where reads are taken to start d ticks earlier, so that at d, and at any fewer ticks, no
/// order of all operations exists in which each read returns one of the last two writes: no member of `stuck` can be
/// the last write. Else rule 9, with the first entry of `stuck` that is the record of no write or stood before, else 0
/// where `stuck` is empty or has not as many tries, else the member of the first try that doesn't hold. For a valid key
/// that is neither duplicate nor unmatched.
///
/// # Errors
/// `Memory` where memory ran out.
pub fn check_refutation_at(
    alloc: Global,
    d: u64,
    key: &KeyOps,
    refutation: &Refutation,
) -> Result<Found, Memory>
    requires valid { IsValidKey key.now }
    requires matched { IsMatchedKey (operations key.now) }
    ensures { IfOk result (FindsRefutation (operations key.now) d refutation.now) }
{
    let hints = Hints::of(alloc, key)?;
    let mut lists = RefutationLists::new(alloc);
    match refutation_fault(&mut lists, d, key, &hints, refutation)? {
        None => Ok(Found::Good),
        Some(rec) => Ok(Found::Bad { rule: 9, rec }),
    }
}
