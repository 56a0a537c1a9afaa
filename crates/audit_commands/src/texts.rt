//! What is written of a history, by the measure.

ghost use Rattle.std.specs.Prelude.{◌≡◌, ◌<◌, ◌^◌, IfOk, IfSome, IsTrue, length};
ghost use Rattle.std.specs.List.{list_all};
ghost use Rattle.stale_model.specs.Valid.{IsValidHistory};
ghost use Rattle.cert_text.specs.Certificates.{cert_text, has_chains};
ghost use Rattle.audit_words.specs.Limits.{AreWorkers, IsMeasure};
ghost use Rattle.audit_commands.specs.Audit.{AreAuditTexts, AreTextsOf};

use audit_ports::Gate;
use audit_words::Measure;
use audit_workers::judge_all;
use cert_text::write_cert;
use mode_texts::{live_text, sides_text, two_text};
use stale_model::{Bytes, History, Memory, Verdict};
use staleness_report::report;
use std::alloc::Global;
use std::mem::forget;
use std::thread::Threads;

/// What is written of a history.
#[derive(Drop, Debug)]
pub(crate) struct Texts {
    /// The certificate; empty where no file is named for it.
    pub cert: Bytes,
    /// What the output gains.
    pub output: Bytes,
}

impl Texts {
    // The text for the output, where there is no certificate.
    fn uncertified(alloc: Global, output: Bytes) -> Texts
        ensures { result.output ≡ output }
    {
        Texts {
            cert: Bytes::from_vec(Vec::new(alloc)),
            output,
        }
    }
}

// The certificate of these verdicts, where a file is named for it.
fn cert_of(alloc: Global, verdicts: &[Verdict], cert: &Option<Bytes>) -> Result<Bytes, Memory>
    requires keys { length verdicts.now < 2 ^ 32 }
    requires chains { IsTrue (list_all has_chains verdicts.now) }
    ensures { IfOk result (λ text. IfSome cert.now (λ name. text ≡ cert_text verdicts.now)) }
{
    match cert {
        Some(_) => write_cert(alloc, verdicts),
        None => Ok(Bytes::from_vec(Vec::new(alloc))),
    }
}

// The report on a history, which so many workers judge, and the certificate where a file is named for it.
fn audit_texts<R: Threads + Sync, G: Gate>(
    rt: &R,
    alloc: Global,
    history: &History,
    cert: &Option<Bytes>,
    workers: u32,
    gate: &G,
) -> Result<Texts, Memory>
    requires valid { IsValidHistory history.now }
    requires workers { AreWorkers workers }
    ensures { IfOk result (AreAuditTexts cert.now history.now) }
{
    let verdicts = judge_all(rt, alloc, history, workers, gate)?;
    let output = report(alloc, history, verdicts.as_slice())?;
    let cert = cert_of(alloc, verdicts.as_slice(), cert)?;
    // The process ends after the outputs, so nothing is taken apart.
    forget(verdicts);
    Ok(Texts { cert, output })
}

/// What is written of a history, by the measure.
pub(crate) fn texts_of<R: Threads + Sync, G: Gate>(
    rt: &R,
    alloc: Global,
    history: &History,
    measure: &Measure,
    gate: &G,
) -> Result<Texts, Memory>
    requires valid { IsValidHistory history.now }
    requires within { IsMeasure measure.now }
    ensures { IfOk result (AreTextsOf measure.now history.now) }
{
    match measure {
        Measure::Audit { cert, workers } => audit_texts(rt, alloc, history, cert, *workers, gate),
        Measure::Two => Ok(Texts::uncertified(alloc, two_text(alloc, history)?)),
        Measure::Sides => Ok(Texts::uncertified(alloc, sides_text(alloc, history)?)),
        Measure::Live => Ok(Texts::uncertified(alloc, live_text(alloc, history)?)),
    }
}
