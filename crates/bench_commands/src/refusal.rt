//! Why a bench is refused, with the line and the status of each refusal.

ghost use Rattle.std.specs.Prelude.{◌≡◌, ◌<◌, IfErr};
ghost use Rattle.bench_commands.specs.Lines.{not_started_line};
ghost use Rattle.bench_commands.specs.Steps.{Answers, HasDigit, IsRefusedBy};

use crate::status::BenchStatus;
use audit_ports::{Failed, Sink};
use bench_run::Stopped;
use command_outputs::say;
use stale_model::Memory;

/// Why a bench was refused.
#[derive(Clone, Copy, Debug, PartialEq, Eq)]
pub(crate) enum BenchRefusal {
    /// The crew refused to start the replica with this number.
    NotStarted { replica: u32 },
    WriteFailed,
    Memory,
}

impl From<Stopped> for BenchRefusal {
    ghost use Rattle.std.specs.Prelude.{◌≡◌};
    ghost use Rattle.bench_commands.specs.declared.refusal.BenchRefusal.{BenchRefusal};

    ghost from_gives = { λ stopped refusal. refusal ≡ BenchRefusal.NotStarted stopped.replica };

    fn from(stopped: Stopped) -> BenchRefusal {
        BenchRefusal::NotStarted {
            replica: stopped.replica,
        }
    }
}

impl From<Failed> for BenchRefusal {
    ghost use Rattle.std.specs.Prelude.{◌≡◌};
    ghost use Rattle.bench_commands.specs.declared.refusal.BenchRefusal.{BenchRefusal};

    ghost from_gives = { λ _ refusal. refusal ≡ BenchRefusal.WriteFailed };

    fn from(_failed: Failed) -> BenchRefusal {
        BenchRefusal::WriteFailed
    }
}

impl From<Memory> for BenchRefusal {
    ghost use Rattle.std.specs.Prelude.{◌≡◌};
    ghost use Rattle.bench_commands.specs.declared.refusal.BenchRefusal.{BenchRefusal};

    ghost from_gives = { λ _ refusal. refusal ≡ BenchRefusal.Memory };

    fn from(_memory: Memory) -> BenchRefusal {
        BenchRefusal::Memory
    }
}

// The line on a replica that was not started. It takes no memory, since the number has one digit.
fn not_started_line(replica: u32) -> [u8; 22]
    requires { replica < 10 }
    ensures { result ≡ not_started_line replica }
{
    let mut line = *b"replica 0 not started\n";
    line[8] = b'0' + replica as u8;
    line
}

// Writes the line of a refusal, and gives its status.
fn refuse<E: Sink>(refusal: BenchRefusal, err: &mut E) -> BenchStatus
    requires { HasDigit refusal }
    ensures { IsRefusedBy refusal result (E.shown err.old) (E.shown err.new) }
{
    match refusal {
        BenchRefusal::NotStarted { replica } => {
            say(err, &not_started_line(replica));
            BenchStatus::NotStarted
        }
        BenchRefusal::WriteFailed => {
            say(err, b"write failed\n");
            BenchStatus::WriteFailed
        }
        BenchRefusal::Memory => {
            say(err, b"out of memory\n");
            BenchStatus::OutOfMemory
        }
    }
}

/// The status of a bench that went like this, after the line of its refusal.
pub(crate) fn answer<E: Sink>(performed: Result<(), BenchRefusal>, err: &mut E) -> BenchStatus
    requires { IfErr performed HasDigit }
    ensures { Answers performed result (E.shown err.old) (E.shown err.new) }
{
    match performed {
        Ok(()) => BenchStatus::Done,
        Err(refusal) => refuse(refusal, err),
    }
}
