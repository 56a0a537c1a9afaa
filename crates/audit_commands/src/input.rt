//! Takes the bytes of input files.

ghost use Rattle.std.specs.Prelude.{◌≡◌, ◌+◌, ◌^◌, ◌<◌, [], OnOk, IsErrOf, vec_len, vec_capacity};
ghost use Rattle.std.specs.Prelude.{IfOk, IfErr};
ghost use Rattle.audit_ports.specs.Shelf.{KeepsCounts, Misses, FailsReading};
ghost use Rattle.audit_commands.specs.Input.{TakesInput, IsTooLong};
ghost use Rattle.audit_commands.specs.Steps.{OnlyReads};
ghost use Rattle.audit_commands.specs.Refusals.{InputShows};

use crate::refusal::{Refusal, name_line};
use audit_ports::{Failed, OpenFault, Shelf};
use std::alloc::{AllocError, Global};

/// How many bytes are read at once.
const PIECE: usize = 65536;

/// Why the bytes of a file were not taken.
#[derive(Clone, Copy, Debug, PartialEq, Eq)]
pub(crate) enum TakeFault {
    Missing,
    Failed,
    TooLong,
    Memory,
}

impl From<OpenFault> for TakeFault {
    ghost use Rattle.std.specs.Prelude.{◌≡◌};
    ghost use Rattle.audit_commands.specs.Steps.{take_fault_of};

    ghost from_gives = { λ fault taken. taken ≡ take_fault_of fault };

    fn from(fault: OpenFault) -> TakeFault {
        match fault {
            OpenFault::Missing => TakeFault::Missing,
            OpenFault::Failed => TakeFault::Failed,
        }
    }
}

impl From<Failed> for TakeFault {
    ghost use Rattle.std.specs.Prelude.{◌≡◌};
    ghost use Rattle.audit_commands.specs.declared.input.TakeFault.{TakeFault};

    ghost from_gives = { λ _ taken. taken ≡ TakeFault.Failed };

    fn from(_failed: Failed) -> TakeFault {
        TakeFault::Failed
    }
}

impl From<AllocError> for TakeFault {
    ghost use Rattle.std.specs.Prelude.{◌≡◌};
    ghost use Rattle.audit_commands.specs.declared.input.TakeFault.{TakeFault};

    ghost from_gives = { λ _ taken. taken ≡ TakeFault.Memory };

    fn from(_error: AllocError) -> TakeFault {
        TakeFault::Memory
    }
}

/// Takes all bytes of a file, if they are not more than the limit. Where the shelf answers each call, the file stays
/// open behind the bytes that were taken. `Memory` comes only where the bytes have no room for another piece.
pub(crate) fn take_file<S: Shelf>(
    shelf: &mut S,
    name: &[u8],
    limit: usize,
    bytes: &mut Vec<u8>,
) -> Result<(), TakeFault>
    requires limit { limit < 2 ^ 32 }
    requires empty { bytes.old.items ≡ [] }
    ensures keeps { OnlyReads (S.shown shelf.old) (S.shown shelf.new) }
    ensures ok { OnOk result (TakesInput limit name.now
        (S.shown shelf.old) (S.shown shelf.new) bytes.new.items) }
    ensures missing { IsErrOf result TakeFault.Missing →
        Misses name.now (S.shown shelf.old) (S.shown shelf.new) }
    ensures failed { IsErrOf result TakeFault.Failed →
        FailsReading (S.shown shelf.old) (S.shown shelf.new) }
    ensures too_long { IsErrOf result TakeFault.TooLong →
        IsTooLong limit name.now (S.shown shelf.old) (S.shown shelf.new) }
    ensures memory { IsErrOf result TakeFault.Memory →
        KeepsCounts (S.shown shelf.old) (S.shown shelf.new) }
    ensures full { IsErrOf result TakeFault.Memory →
        vec_capacity bytes.new < vec_len bytes.new + PIECE }
{
    shelf.open(name)?;
    let mut piece = [0u8; PIECE];
    // Each turn takes a byte at least, so one more turn than the limit has bytes is never passed.
    for turn in 0..limit + 1 {
        let count = shelf.read(&mut piece)?;
        if count == 0 {
            return Ok(());
        }
        bytes.reserve(count)?;
        bytes.extend_from_slice(&piece[..count]).unwrap();
        if bytes.len() > limit {
            return Err(TakeFault::TooLong);
        }
    }
    unreachable!()
}

/// The bytes of the input file of this name, at most so many. The line on a missing file is made first, so that a miss
/// is said whatever memory is left.
pub(crate) fn take_input<S: Shelf>(
    alloc: Global,
    shelf: &mut S,
    name: &[u8],
    limit: usize,
) -> Result<Vec<u8>, Refusal>
    requires { limit < 2 ^ 32 }
    ensures keeps { OnlyReads (S.shown shelf.old) (S.shown shelf.new) }
    ensures ok { IfOk result (λ bytes.
        TakesInput limit name.now (S.shown shelf.old) (S.shown shelf.new) bytes.items) }
    ensures err { IfErr result (InputShows limit name.now (S.shown shelf.old) (S.shown shelf.new)) }
{
    let missing = name_line(alloc, "missing: ", name)?;
    let mut bytes = Vec::new(alloc);
    match take_file(shelf, name, limit, &mut bytes) {
        Ok(()) => Ok(bytes),
        Err(TakeFault::Missing) => Err(Refusal::Missing(missing)),
        Err(TakeFault::Failed) => Err(Refusal::ReadFailed),
        Err(TakeFault::TooLong) => Err(Refusal::TooLong(name_line(alloc, "too long: ", name)?)),
        Err(TakeFault::Memory) => Err(Refusal::Memory),
    }
}
