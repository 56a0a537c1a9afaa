//! The verdicts of keys, rule by rule.
ghost use Rattle.std.specs.Prelude.{◌≡◌, IfOk, IsTrue, ◌↔◌, length};
ghost use Rattle.stale_model.specs.Operations.{operations};
ghost use Rattle.stale_model.specs.Valid.{IsValidKey, IsValidHistory};
ghost use Rattle.stale_model.specs.Faults.{IsMatchedKey, IsClearKey};
ghost use Rattle.stale_model.specs.Shown.{FourShow};
ghost use Rattle.cert_checker.specs.KeyFaults.{key_rule, key_record, named_record, record_of_four, IsKeyCheck, FindsKey, FindsAll};
ghost use Rattle.cert_checker.specs.KeySteps.{named_state, FindsKindIn, IsTwoCheck};

use crate::faults::{State, state_of};
use crate::four::four_hold;
use crate::orders::{OrderFault, OrderLists, order_fault};
use crate::records::Hints;
use crate::refutations::{RefutationLists, refutation_fault};
use crate::{Checked, Found};
use stale_model::{Four, History, Judgement, KeyOps, Memory, TwoPart, Verdict};
use std::alloc::Global;

// What is wrong with that which shows whether a key is 2-atomic.
#[derive(Clone, Copy)]
pub(crate) enum TwoFault {
    // The order in which each read returns one of the last two writes.
    Order(OrderFault),
    // The refutation, and the record that is named.
    Refutation { rec: u32 },
}

// What is wrong with a verdict.
#[derive(Clone, Copy)]
pub(crate) enum KeyFault {
    // The key's fault, or that it has none, with the record that is named.
    Kind { rec: u32 },
    // The order at delta.
    First(OrderFault),
    // The four records, by their first.
    Four { rec: u32 },
    // What shows whether it is 2-atomic.
    Two(TwoFault),
}

impl KeyFault {
    // The rule that is broken.
    fn rule(&self) -> u8
        ensures { result ≡ key_rule self.now }
    {
        match self {
            KeyFault::Kind { .. } => 1,
            KeyFault::First(fault) => fault.rule(2),
            KeyFault::Four { .. } => 5,
            KeyFault::Two(TwoFault::Order(fault)) => fault.rule(6),
            KeyFault::Two(TwoFault::Refutation { .. }) => 9,
        }
    }

    // The record that is named.
    fn record(&self) -> u32
        ensures { result ≡ key_record self.now }
    {
        match self {
            KeyFault::Kind { rec } => *rec,
            KeyFault::First(fault) => fault.record(),
            KeyFault::Four { rec } => *rec,
            KeyFault::Two(TwoFault::Order(fault)) => fault.record(),
            KeyFault::Two(TwoFault::Refutation { rec }) => *rec,
        }
    }
}

// The record that a verdict names, if it names one.
fn named_record(verdict: &Verdict) -> Option<u32>
    ensures { result ≡ named_record verdict.now }
{
    match verdict {
        Verdict::Duplicate { rec } => Some(*rec),
        Verdict::Unmatched { rec } => Some(*rec),
        Verdict::Infinite { rec } => Some(*rec),
        Verdict::Judged(_) => None,
    }
}

// Whether a verdict names this state of its key.
fn names_state(verdict: &Verdict, state: State) -> bool
    ensures { IsTrue result ↔ (named_state verdict.now ≡ state) }
{
    match (verdict, state) {
        (Verdict::Duplicate { rec }, State::Duplicate { rec: least }) => *rec == least,
        (Verdict::Unmatched { rec }, State::Unmatched { rec: least }) => *rec == least,
        (Verdict::Infinite { rec }, State::Early { rec: least }) => *rec == least,
        (Verdict::Judged(_), State::Clear) => true,
        _ => false,
    }
}

// The record that is named where the verdict doesn't name the state of the key: that of the key's fault, else that of
// the verdict.
fn kind_fault(state: State, verdict: &Verdict) -> Option<u32>
    ensures { FindsKindIn state verdict.now result }
{
    if names_state(verdict, state) {
        return None;
    }
    match state {
        State::Duplicate { rec } => Some(rec),
        State::Unmatched { rec } => Some(rec),
        State::Early { rec } => Some(rec),
        State::Clear => named_record(verdict),
    }
}

// Whether the four records are there exactly where delta is above 0, and hold at delta - 1.
fn four_shows(delta: u64, key: &KeyOps, four: &Option<Four>) -> bool
    requires { IsValidKey key.now }
    ensures { IsTrue result ↔ FourShow (operations key.now) delta four.now }
{
    match four {
        None => delta == 0,
        Some(four) => delta > 0 && four_hold(delta - 1, key, four),
    }
}

// The record p of the four; 0 where they aren't there.
fn record_of_four(four: &Option<Four>) -> u32
    ensures { result ≡ record_of_four four.now }
{
    match four {
        None => 0,
        Some(four) => four.p,
    }
}

// The working lists of the check of a verdict, which keep their room from one key to the next.
#[derive(Drop)]
struct Tables {
    // The start of the write of each value.
    starts: Vec<Option<u64>>,
    // Where the operations stand.
    hints: Hints,
    order: OrderLists,
    refutation: RefutationLists,
}

impl Tables {
    // Tables of no key.
    fn new(alloc: Global) -> Tables {
        Tables {
            starts: Vec::new(alloc),
            hints: Hints::new(alloc),
            order: OrderLists::new(alloc),
            refutation: RefutationLists::new(alloc),
        }
    }
}

// The fault of what shows whether a key is 2-atomic.
fn two_fault(tables: &mut Tables, key: &KeyOps, part: &TwoPart) -> Result<Option<TwoFault>, Memory>
    requires valid { IsValidKey key.now }
    requires matched { IsMatchedKey (operations key.now) }
    ensures { IfOk result (IsTwoCheck (operations key.now) part.now) }
{
    match part {
        TwoPart::Yes(order) => {
            let lists = &mut tables.order;
            let fault = order_fault(lists, 0, 2, key, &tables.hints, order.as_slice())?;
            Ok(fault.map(TwoFault::Order))
        }
        TwoPart::No(refutation) => {
            let lists = &mut tables.refutation;
            let rec = refutation_fault(lists, 0, key, &tables.hints, refutation)?;
            Ok(rec.map(|rec| TwoFault::Refutation { rec }))
        }
    }
}

// The fault of a judgement of a key without a fault.
fn judgement_fault(
    tables: &mut Tables,
    key: &KeyOps,
    judgement: &Judgement,
) -> Result<Option<KeyFault>, Memory>
    requires valid { IsValidKey key.now }
    requires clear { IsClearKey (operations key.now) }
    ensures { IfOk result (IsKeyCheck (operations key.now) (Verdict.Judged judgement.now)) }
{
    tables.hints.lead_to(key)?;
    let delta = judgement.delta;
    let order = judgement.order.as_slice();
    if let Some(fault) = order_fault(&mut tables.order, delta, 1, key, &tables.hints, order)? {
        return Ok(Some(KeyFault::First(fault)));
    }
    if !four_shows(delta, key, &judgement.four) {
        let rec = record_of_four(&judgement.four);
        return Ok(Some(KeyFault::Four { rec }));
    }
    match two_fault(tables, key, &judgement.two)? {
        Some(fault) => Ok(Some(KeyFault::Two(fault))),
        None => Ok(None),
    }
}

// The fault of a verdict.
fn key_fault(
    tables: &mut Tables,
    key: &KeyOps,
    verdict: &Verdict,
) -> Result<Option<KeyFault>, Memory>
    requires { IsValidKey key.now }
    ensures { IfOk result (IsKeyCheck (operations key.now) verdict.now) }
{
    let state = state_of(&mut tables.starts, key)?;
    if let Some(rec) = kind_fault(state, verdict) {
        return Ok(Some(KeyFault::Kind { rec }));
    }
    match verdict {
        Verdict::Judged(judgement) => judgement_fault(tables, key, judgement),
        _ => Ok(None),
    }
}

// What is found of a verdict.
fn found_of(tables: &mut Tables, key: &KeyOps, verdict: &Verdict) -> Result<Found, Memory>
    requires { IsValidKey key.now }
    ensures { IfOk result (FindsKey (operations key.now) verdict.now) }
{
    match key_fault(tables, key, verdict)? {
        None => Ok(Found::Good),
        Some(fault) => Ok(Found::Bad {
            rule: fault.rule(),
            rec: fault.record(),
        }),
    }
}

/// Whether a verdict of a valid key is shown by its orders and records. Else the first rule that is broken, with the
/// record that is named: 1, it names the key's fault and its record, or is a judgement of a key without a fault (the
/// record of the key's fault, else that of the verdict); 2 to 4, the order at delta (as `check_order` says); 5, the
/// four records are there exactly where delta is not 0, and hold at delta - 1 (the first of them, or 0); 6 to 8, the
/// order with the last two writes (as `check_order` says of 2 to 4); 9, the refutation (as `check_refutation_at` says).
/// The error says that memory ran out.
pub fn check_key(alloc: Global, key: &KeyOps, verdict: &Verdict) -> Result<Found, Memory>
    requires { IsValidKey key.now }
    ensures { IfOk result (FindsKey (operations key.now) verdict.now) }
{
    let mut tables = Tables::new(alloc);
    found_of(&mut tables, key, verdict)
}

/// Whether each verdict of a valid history is shown. Else the first key, counted from 1, whose verdict isn't, with
/// the rule that is broken and the record that is named, as `check_key` finds them. There are as many verdicts as keys.
/// The error says that memory ran out.
pub fn check_all(alloc: Global, history: &History, verdicts: &[Verdict]) -> Result<Checked, Memory>
    requires valid { IsValidHistory history.now }
    requires as_many { length verdicts.now ≡ length history.now.keys }
    ensures { IfOk result (FindsAll history.now.keys verdicts.now) }
{
    let mut tables = Tables::new(alloc);
    for (place, key) in history.keys.as_slice().iter().enumerate() {
        if let Found::Bad { rule, rec } = found_of(&mut tables, key, &verdicts[place])? {
            return Ok(Checked::Bad {
                key: place as u32 + 1,
                rule,
                rec,
            });
        }
    }
    Ok(Checked::Good)
}
