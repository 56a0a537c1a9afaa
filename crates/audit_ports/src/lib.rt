//! The outside of the program: files that are read and written, outputs that are written, a gate round each piece of work, and a crew
//! that runs jobs in threads of their own. The first three are traits, with implementations in memory, and the real ones.
#![tactic(auto)]

ghost use Rattle.std.specs.Prelude.{◌≡◌, ℕ, ◌<◌, ◌≤◌, length, None, IsSome};
ghost use Rattle.audit_ports.specs.Shelf.{Shown, Opens, Reads, Creates, WritesPiece, Finishes, Rose};
ghost use Rattle.audit_ports.specs.Sink.{SinkShown, Writes, Flushes};

mod calls;
mod crew;
mod memory;
mod real;
#[cfg(test)]
mod tests;

pub use crew::ThreadCrew;
pub use memory::{MemoryShelf, MemorySink};
pub use real::{RealShelf, RealSink};

/// A call of the outside failed.
#[derive(Clone, Copy, Debug, PartialEq, Eq)]
pub struct Failed;

/// Why a file was not opened.
#[derive(Clone, Copy, Debug, PartialEq, Eq)]
pub enum OpenFault {
    /// There is no file of this name.
    Missing,
    /// The call failed.
    Failed,
}

/// A place with files, of which one can be open for reading, and one can be being written. It counts its failures of reading, its failures of
/// writing and its misses; no count ever falls, and one that rises stands still at 2^64 - 1.
pub trait Shelf {
    /// What is known of it.
    ghost shown: { Self → Shown };

    /// Closes what was open for reading, and opens the file of this name at its first byte. `Missing` raises the count
    /// of misses alone and `Failed` that of failures of reading alone; after both nothing is open.
    fn open(&mut self, name: &[u8]) -> Result<(), OpenFault>
        ensures { Opens name.now (shown self.old) result (shown self.new) };

    /// Reads the next bytes of the open file to the front of `into`, and gives their number, which is 0 at the file's
    /// end alone. `Failed` raises the count of failures of reading alone, and nothing is open after it.
    fn read(&mut self, into: &mut [u8]) -> Result<usize, Failed>
        requires opened { IsSome (shown self.old).reading }
        requires room { 0 < length into.old }
        ensures { Reads into.new (shown self.old) result (shown self.new) };

    /// Closes what was open for reading, and begins to write the file of this name: it is empty, and what it held
    /// before is lost. `Failed` raises the count of failures of writing alone; the file may then be empty, and nothing
    /// is being written.
    fn create(&mut self, name: &[u8]) -> Result<(), Failed>
        requires { (shown self.old).writing ≡ None }
        ensures { Creates name.now (shown self.old) result (shown self.new) };

    /// Appends a piece to the file that is being written. `Failed` raises the count of failures of writing alone, and
    /// then a prefix of the piece may have been appended, and nothing is being written.
    fn write(&mut self, piece: &[u8]) -> Result<(), Failed>
        requires { IsSome (shown self.old).writing }
        ensures { WritesPiece piece.now (shown self.old) result (shown self.new) };

    /// Hands on what was written of the file, and ends its writing. `Failed` raises the count of failures of writing
    /// alone. Both leave the files as they are, and nothing being written.
    fn finish(&mut self) -> Result<(), Failed>
        requires { IsSome (shown self.old).writing }
        ensures { Finishes (shown self.old) result (shown self.new) };
}

/// An output. It counts its failures; the count never falls, and where it rises it stands still at 2^64 - 1. It is
/// pending from a write on, until a flush succeeds.
pub trait Sink {
    /// What is known of it.
    ghost shown: { Self → SinkShown };

    /// Appends a piece, and is pending. `Failed` raises the count, and then a prefix of the piece may have been
    /// appended.
    fn write(&mut self, piece: &[u8]) -> Result<(), Failed>
        ensures { Writes piece.now (shown self.old) result (shown self.new) };

    /// Hands on what was written, and changes none of it; then nothing is pending. `Failed` raises the count, and
    /// leaves it pending where it was.
    fn flush(&mut self) -> Result<(), Failed>
        ensures { Flushes (shown self.old) result (shown self.new) };
}

/// Work for a thread of its own, and what it gives in the end.
pub trait Job: Send + Sized {
    /// What the work gives.
    type Out: Send;

    /// The number of this job.
    ghost number: { Self → ℕ };

    /// What the job asks before it runs.
    ghost can_run: { Self → Type 0 };

    /// What the job's end keeps.
    ghost ends: { Self → Self.Out → Type 0 };

    /// A number that tells the job apart.
    fn mark(&self) -> u32
        ensures { result ≡ number self.now };

    /// Does the work.
    fn run(self) -> Self::Out
        requires { can_run self }
        ensures { ends self result };
}

/// What a worker passes at the beginning and the end of each piece of work. It promises nothing, of other threads
/// neither.
pub trait Gate: Sync {
    /// Called before the work on a piece, by the piece's number.
    fn enter(&self, piece: u32);

    /// Called after the work on a piece, by the piece's number.
    fn leave(&self, piece: u32);
}

/// The gate that lets everyone pass at once.
#[derive(Clone, Copy, Debug, PartialEq, Eq)]
pub struct OpenGate;

impl Gate for OpenGate {
    fn enter(&self, _piece: u32) {}

    fn leave(&self, _piece: u32) {}
}

// One more, as far as the type goes.
fn raise(count: &mut u64)
    ensures rises { Rose count.old count.new }
    ensures keeps { count.old ≤ count.new }
{
    *count = count.saturating_add(1);
}
