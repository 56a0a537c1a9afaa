//! How a command writes: an output whole, a file whole, and a line on the error output.
#![tactic(auto)]

ghost use Rattle.std.specs.Prelude.{◌≡◌, None};
ghost use Rattle.command_outputs.specs.Lines.{SaysLine};
ghost use Rattle.command_outputs.specs.Steps.{Prints, WritesOut};

use audit_ports::{Failed, Shelf, Sink};

/// Writes the whole of an output, and hands it on.
///
/// # Errors
/// `Failed` where a call of the output failed: it gained a part of the text, from nothing to all.
pub fn print<O: Sink>(out: &mut O, text: &[u8]) -> Result<(), Failed>
    ensures { Prints text.now (O.shown out.old) result (O.shown out.new) }
{
    out.write(text)?;
    out.flush()
}

/// Writes the file of this name whole. What it held before is lost.
///
/// # Errors
/// `Failed` where a call of writing failed: the file is as it was, or a part of the text.
pub fn write_file<S: Shelf>(shelf: &mut S, name: &[u8], text: &[u8]) -> Result<(), Failed>
    requires { (S.shown shelf.old).writing ≡ None }
    ensures { WritesOut name.now text.now (S.shown shelf.old) result (S.shown shelf.new) }
{
    shelf.create(name)?;
    shelf.write(text)?;
    shelf.finish()
}

/// Writes a line. A failure changes nothing but the count of the output and how much of the line it has.
pub fn say<E: Sink>(err: &mut E, line: &[u8])
    ensures { SaysLine line.now (E.shown err.old) (E.shown err.new) }
{
    let _ = err.write(line);
}
