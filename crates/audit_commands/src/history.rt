//! The history in a file.

ghost use Rattle.std.specs.Prelude.{IfOk, IfErr};
ghost use Rattle.stale_model.specs.Valid.{IsValidHistory};
ghost use Rattle.audit_commands.specs.Audit.{TakesHistory};
ghost use Rattle.audit_commands.specs.Steps.{OnlyReads};
ghost use Rattle.audit_commands.specs.Refusals.{ReadsAs, HistoryShows};

use crate::input::take_input;
use crate::refusal::Refusal;
use audit_ports::Shelf;
use history_csv::{HistoryFault, read_history};
use stale_model::History;
use std::alloc::Global;

/// The greatest length of a history file, in bytes.
pub(crate) const HISTORY_LIMIT: usize = 67_108_864;

// The history that was read, or the refusal that its fault is.
fn history_of(read: Result<History, HistoryFault>) -> Result<History, Refusal>
    ensures { ReadsAs read result }
{
    Ok(read?)
}

/// The history in the file of this name. Its bytes are given back at the end.
pub(crate) fn history_in<S: Shelf>(
    alloc: Global,
    shelf: &mut S,
    name: &[u8],
) -> Result<History, Refusal>
    ensures keeps { OnlyReads (S.shown shelf.old) (S.shown shelf.new) }
    ensures valid { IfOk result IsValidHistory }
    ensures ok { IfOk result (TakesHistory name.now (S.shown shelf.old) (S.shown shelf.new)) }
    ensures err { IfErr result (HistoryShows name.now (S.shown shelf.old) (S.shown shelf.new)) }
{
    let bytes = take_input(alloc, shelf, name, HISTORY_LIMIT)?;
    history_of(read_history(alloc, &bytes))
}
