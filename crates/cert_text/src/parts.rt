//! Which line may follow which, and the verdicts that lines say.
ghost use Rattle.std.specs.Prelude.{◌≡◌, ◌⊎◌, ◌++◌, ◌∷◌, [], Ok, Err, IfOk};
ghost use Rattle.cert_text.specs.Words.{words_of};
ghost use Rattle.cert_text.specs.Parts.{may_stand, judged, with_verdict, at_start, between, after_key, after_delta, after_order, after_pair, after_yes, after_no, after_stuck, advance};
ghost use Rattle.cert_text.specs.Reading.{step, at_end};

use crate::CertFault;
use crate::lines::{CertLine, Keyword, keyword_of, line_of};
use crate::words::{first_word, has_empty_word};
use stale_model::{Four, Judgement, List, Memory, Refutation, Try, TwoPart, Verdict};
use std::alloc::Global;

/// The delta of a key, and what shows it.
#[derive(Drop)]
pub(crate) struct Bound {
    pub(crate) delta: u64,
    pub(crate) order: List<u32>,
    pub(crate) four: Option<Four>,
}

/// What was read of a part, between two lines.
#[derive(Drop)]
pub(crate) enum State {
    /// Nothing.
    Start,
    /// The header, or a whole part.
    Between,
    /// The line of a key.
    Key,
    /// That of its delta.
    Delta(u64),
    /// The order that shows it.
    Ordered(u64, List<u32>),
    /// The pair that excludes a lesser delta.
    Paired(Bound),
    /// `two yes`.
    TwoYes(Bound),
    /// `two no`.
    TwoNo(Bound),
    /// `stuck`, and the tries so far.
    Refuted(Bound, Refutation),
    /// `end`.
    Ended,
}

/// A reading of a certificate, between two lines.
#[derive(Drop)]
pub(crate) struct Reading {
    pub(crate) state: State,
    /// Those of the whole parts.
    pub(crate) verdicts: List<Verdict>,
}

// Whether a line that begins with this keyword may stand here.
fn may_stand(state: &State, keyword: Keyword) -> bool
    ensures { result ≡ may_stand state.now keyword }
{
    match (state, keyword) {
        (State::Start, Keyword::StaleCert) => true,
        (State::Between, Keyword::Key | Keyword::End) => true,
        (
            State::Key,
            Keyword::Duplicate | Keyword::Unmatched | Keyword::Infinite | Keyword::Delta,
        ) => true,
        (State::Delta(_), Keyword::Order) => true,
        (State::Ordered(_, _), Keyword::Pair | Keyword::Two) => true,
        (State::Paired(_), Keyword::Two) => true,
        (State::TwoYes(_), Keyword::Order) => true,
        (State::TwoNo(_), Keyword::Stuck) => true,
        (State::Refuted(_, _), Keyword::Try | Keyword::Key | Keyword::End) => true,
        _ => false,
    }
}

// A verdict behind the others.
fn with_verdict(verdicts: List<Verdict>, verdict: Verdict) -> Result<Reading, CertFault>
    ensures { (result ≡ Err CertFault.Memory) ⊎ (result ≡ Ok (with_verdict verdicts verdict)) }
{
    let mut all = verdicts.into_vec();
    all.push(verdict).map_err(|_| Memory)?;
    Ok(Reading {
        state: State::Between,
        verdicts: List::from_vec(all),
    })
}

// The verdict of a key that was judged.
fn judged(bound: Bound, two: TwoPart) -> Verdict
    ensures { result ≡ judged bound two }
{
    Verdict::Judged(Judgement {
        delta: bound.delta,
        order: bound.order,
        four: bound.four,
        two,
    })
}

// A refutation with one try more.
fn with_try(refutation: Refutation, attempt: Try) -> Result<Refutation, Memory>
    ensures { IfOk result (λ r. r
        ≡ record refutation { tries = refutation.tries ++ attempt ∷ [] }) }
{
    let mut tries = refutation.tries.into_vec();
    tries.push(attempt).map_err(|_| Memory)?;
    Ok(Refutation {
        stuck: refutation.stuck,
        tries: List::from_vec(tries),
    })
}

// At the start.
fn at_start(alloc: Global, line: u32, next: CertLine) -> Result<Reading, CertFault>
    ensures { result ≡ at_start line next }
{
    match next {
        CertLine::Header => Ok(Reading {
            state: State::Between,
            verdicts: List::from_vec(Vec::new(alloc)),
        }),
        _ => Err(CertFault::Line { line }),
    }
}

// Between two parts.
fn between(
    keys: u32,
    line: u32,
    verdicts: List<Verdict>,
    next: CertLine,
) -> Result<Reading, CertFault>
    ensures { result ≡ between keys line verdicts next }
{
    let known = verdicts.as_slice().len();
    let more = known < keys as usize;
    match next {
        CertLine::Key(key) if more && key as usize == known + 1 => Ok(Reading {
            state: State::Key,
            verdicts,
        }),
        CertLine::Key(_) => Err(CertFault::Key { line }),
        CertLine::End if more => Err(CertFault::Absent {
            key: known as u32 + 1,
        }),
        CertLine::End => Ok(Reading {
            state: State::Ended,
            verdicts,
        }),
        _ => Err(CertFault::Line { line }),
    }
}

// After the line of a key.
fn after_key(line: u32, verdicts: List<Verdict>, next: CertLine) -> Result<Reading, CertFault>
    ensures { (result ≡ Err CertFault.Memory) ⊎ (result ≡ after_key line verdicts next) }
{
    match next {
        CertLine::Duplicate(rec) => with_verdict(verdicts, Verdict::Duplicate { rec }),
        CertLine::Unmatched(rec) => with_verdict(verdicts, Verdict::Unmatched { rec }),
        CertLine::Infinite(rec) => with_verdict(verdicts, Verdict::Infinite { rec }),
        CertLine::Delta(delta) => Ok(Reading {
            state: State::Delta(delta),
            verdicts,
        }),
        _ => Err(CertFault::Line { line }),
    }
}

// After delta.
fn after_delta(
    line: u32,
    verdicts: List<Verdict>,
    delta: u64,
    next: CertLine,
) -> Result<Reading, CertFault>
    ensures { result ≡ after_delta line verdicts delta next }
{
    match next {
        CertLine::Order(order) => Ok(Reading {
            state: State::Ordered(delta, order),
            verdicts,
        }),
        _ => Err(CertFault::Line { line }),
    }
}

// After the order that shows delta.
fn after_order(
    line: u32,
    verdicts: List<Verdict>,
    delta: u64,
    order: List<u32>,
    next: CertLine,
) -> Result<Reading, CertFault>
    ensures { result ≡ after_order line verdicts delta order next }
{
    let state = match next {
        CertLine::Pair(four) => State::Paired(Bound {
            delta,
            order,
            four: Some(four),
        }),
        CertLine::TwoYes => State::TwoYes(Bound {
            delta,
            order,
            four: None,
        }),
        CertLine::TwoNo => State::TwoNo(Bound {
            delta,
            order,
            four: None,
        }),
        _ => return Err(CertFault::Line { line }),
    };
    Ok(Reading { state, verdicts })
}

// After the pair.
fn after_pair(
    line: u32,
    verdicts: List<Verdict>,
    bound: Bound,
    next: CertLine,
) -> Result<Reading, CertFault>
    ensures { result ≡ after_pair line verdicts bound next }
{
    let state = match next {
        CertLine::TwoYes => State::TwoYes(bound),
        CertLine::TwoNo => State::TwoNo(bound),
        _ => return Err(CertFault::Line { line }),
    };
    Ok(Reading { state, verdicts })
}

// After `two yes`.
fn after_yes(
    line: u32,
    verdicts: List<Verdict>,
    bound: Bound,
    next: CertLine,
) -> Result<Reading, CertFault>
    ensures { (result ≡ Err CertFault.Memory) ⊎ (result ≡ after_yes line verdicts bound next) }
{
    match next {
        CertLine::Order(order) => with_verdict(verdicts, judged(bound, TwoPart::Yes(order))),
        _ => Err(CertFault::Line { line }),
    }
}

// After `two no`.
fn after_no(
    alloc: Global,
    line: u32,
    verdicts: List<Verdict>,
    bound: Bound,
    next: CertLine,
) -> Result<Reading, CertFault>
    ensures { result ≡ after_no line verdicts bound next }
{
    match next {
        CertLine::Stuck(stuck) => Ok(Reading {
            state: State::Refuted(
                bound,
                Refutation {
                    stuck,
                    tries: List::from_vec(Vec::new(alloc)),
                },
            ),
            verdicts,
        }),
        _ => Err(CertFault::Line { line }),
    }
}

// After `stuck` or a try.
fn after_stuck(
    keys: u32,
    line: u32,
    verdicts: List<Verdict>,
    bound: Bound,
    refutation: Refutation,
    next: CertLine,
) -> Result<Reading, CertFault>
    ensures { (result ≡ Err CertFault.Memory)
        ⊎ (result ≡ after_stuck keys line verdicts bound refutation next) }
{
    match next {
        CertLine::Try(attempt) => {
            let refutation = with_try(refutation, attempt)?;
            Ok(Reading {
                state: State::Refuted(bound, refutation),
                verdicts,
            })
        }
        next => {
            let reading = with_verdict(verdicts, judged(bound, TwoPart::No(refutation)))?;
            between(keys, line, reading.verdicts, next)
        }
    }
}

impl Reading {
    /// Before the first line.
    pub(crate) fn new(alloc: Global) -> Reading
        ensures { result ≡ record { state = State.Start; verdicts = [] } }
    {
        Reading {
            state: State::Start,
            verdicts: List::from_vec(Vec::new(alloc)),
        }
    }

    // Goes past one line.
    fn advance(
        self,
        alloc: Global,
        keys: u32,
        line: u32,
        next: CertLine,
    ) -> Result<Reading, CertFault>
        ensures { (result ≡ Err CertFault.Memory) ⊎ (result ≡ advance keys line self next) }
    {
        let Reading { state, verdicts } = self;
        match state {
            State::Start => at_start(alloc, line, next),
            State::Between => between(keys, line, verdicts, next),
            State::Key => after_key(line, verdicts, next),
            State::Delta(delta) => after_delta(line, verdicts, delta, next),
            State::Ordered(delta, order) => after_order(line, verdicts, delta, order, next),
            State::Paired(bound) => after_pair(line, verdicts, bound, next),
            State::TwoYes(bound) => after_yes(line, verdicts, bound, next),
            State::TwoNo(bound) => after_no(alloc, line, verdicts, bound, next),
            State::Refuted(bound, refutation) => {
                after_stuck(keys, line, verdicts, bound, refutation, next)
            }
            State::Ended => Err(CertFault::Line { line }),
        }
    }

    /// Goes past the line of this number, which has this text.
    pub(crate) fn step(
        self,
        alloc: Global,
        keys: u32,
        line: u32,
        text: &[u8],
    ) -> Result<Reading, CertFault>
        ensures { (result ≡ Err CertFault.Memory)
            ⊎ (result ≡ step keys line self (words_of text.now)) }
    {
        let (first, words) = first_word(text);
        if first.is_empty() || has_empty_word(words) {
            return Err(CertFault::Line { line });
        }
        match keyword_of(first) {
            Some(keyword) if may_stand(&self.state, keyword) => {
                let next = line_of(alloc, line, keyword, words)?;
                self.advance(alloc, keys, line, next)
            }
            _ => Err(CertFault::Line { line }),
        }
    }

    /// The verdicts, where the text ends here: `rest` is what stands after the last line.
    pub(crate) fn end(self, line: u32, rest: &[u8]) -> Result<List<Verdict>, CertFault>
        ensures { result ≡ at_end line self rest.now }
    {
        match self.state {
            State::Ended if rest.is_empty() => Ok(self.verdicts),
            _ => Err(CertFault::Line { line }),
        }
    }
}
