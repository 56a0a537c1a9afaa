//! The certificate in a file.

ghost use Rattle.std.specs.Prelude.{IfOk, IfErr};
ghost use Rattle.audit_commands.specs.Audit.{TakesCert};
ghost use Rattle.audit_commands.specs.Steps.{OnlyReads};
ghost use Rattle.audit_commands.specs.Refusals.{CertReadsAs, CertShows};

use crate::input::take_input;
use crate::refusal::Refusal;
use audit_ports::Shelf;
use cert_text::{CertFault, read_cert};
use stale_model::{List, Verdict};
use std::alloc::Global;

/// The greatest length of a certificate file that is read, in bytes.
const CERT_LIMIT: usize = 268_435_456;

// The verdicts that were read, or the refusal that their fault is.
fn verdicts_of(read: Result<List<Verdict>, CertFault>) -> Result<List<Verdict>, Refusal>
    ensures { CertReadsAs read result }
{
    Ok(read?)
}

/// The verdicts of so many keys in the certificate file of this name. Its bytes are given back at the end.
pub(crate) fn verdicts_in<S: Shelf>(
    alloc: Global,
    shelf: &mut S,
    name: &[u8],
    keys: u32,
) -> Result<List<Verdict>, Refusal>
    ensures keeps { OnlyReads (S.shown shelf.old) (S.shown shelf.new) }
    ensures ok { IfOk result (TakesCert name.now keys (S.shown shelf.old) (S.shown shelf.new)) }
    ensures err { IfErr result (CertShows name.now keys (S.shown shelf.old) (S.shown shelf.new)) }
{
    let bytes = take_input(alloc, shelf, name, CERT_LIMIT)?;
    verdicts_of(read_cert(alloc, keys, &bytes))
}
