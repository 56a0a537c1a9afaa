//! Files and outputs in memory. Exactly the calls that they are told to fail do fail.
ghost use Rattle.std.specs.Prelude.{◌≡◌, ◌⊎◌, ℕ, ◌+◌, ◌-◌, ◌<◌, ◌≤◌, ◌↔◌, true, List, [], ◌∷◌, ◌++◌, length, vec_len, take, drop, min, Some, None, IsSome, position, IfSome, IfNone, IfOk, IsErr, OnOk, OnErr, IsErrOf};
ghost use Rattle.std.specs.Option.{ForSome};
ghost use Rattle.audit_ports.specs.Shelf.{Opens, Reads, Creates, WritesPiece, Finishes, file_at, fresh};
ghost use Rattle.audit_ports.specs.Sink.{Writes, Flushes, fresh_sink};
ghost use Rattle.audit_ports.specs.Calls.{CountsCall, IsFailingCall, no_calls};
ghost use Rattle.audit_ports.specs.Listed.{listed};
ghost use Rattle.audit_ports.specs.MemoryFiles.{HaveDistinctNames, OpensFile, IsOpened, has_name, bytes_at, files_of, with_first_longer};

use crate::calls::Calls;
use crate::{Failed, OpenFault, Shelf, Sink, raise};
use stale_model::{Bytes, List, Memory};
use std::alloc::Global;
use std::marker::Model;

/// The place of the open file among the files, and the place in it.
#[derive(Clone, Copy, Debug)]
struct Opened {
    index: usize,
    place: usize,
}

/// A file that was created: its name, and what was written to it. Contracts see it as the two.
#[derive(Drop, Debug)]
struct Created {
    name: Bytes,
    bytes: Vec<u8>,
}

impl Model for Created {
    ghost use Rattle.std.specs.Prelude.{ℕ, List};

    ghost Value = { List ℕ × List ℕ };

    ghost view = { λ file. (file.name, file.bytes.items) };
}

impl Created {
    fn has_name(&self, name: &[u8]) -> bool
        ensures { result ≡ has_name name.now self.now }
    {
        self.name.as_slice() == name
    }

    fn bytes(&self) -> &[u8]
        ensures { result.now ≡ self.now.1 }
    {
        self.bytes.as_slice()
    }

    // Where memory runs out nothing changes.
    fn append(&mut self, piece: &[u8]) -> Result<(), Memory>
        ensures ok { OnOk result (self.new ≡ (self.old.0, self.old.1 ++ piece.now)) }
        ensures err { OnErr result (self.new ≡ self.old) }
    {
        self.bytes.extend_from_slice(piece).map_err(|_| Memory)
    }
}

/// The files that were created, the last one first, and those that were given. Of two files of one name the first is
/// meant, so that a file that is created stands for the one before it.
#[derive(Drop, Debug)]
struct FileList {
    created: Vec<Created>,
    given: List<(Bytes, Bytes)>,
}

// The place of the first file of this name among those that were given.
fn given_place(files: &[(Bytes, Bytes)], name: &[u8]) -> Option<usize>
    ensures { result ≡ position (has_name name.now) files.now }
{
    files.iter().position(|file| file.0.as_slice() == name)
}

// The place of the first file of this name among those that were created.
fn created_place(files: &[Created], name: &[u8]) -> Option<usize>
    ensures { result ≡ position (has_name name.now) files.now }
{
    files.iter().position(|file| file.has_name(name))
}

impl FileList {
    // The place of the first file of this name.
    #[tactic(auto, using(crate::proofs::Finding::found_in_front, crate::proofs::Finding::found_behind, crate::proofs::Finding::found_nowhere))]
    fn place_of(&self, name: &[u8]) -> Option<usize>
        ensures { result ≡ position (has_name name.now) (listed self.now) }
    {
        match created_place(&self.created, name) {
            Some(index) => Some(index),
            None => {
                let index = given_place(self.given.as_slice(), name)?;
                Some(self.created.len() + index)
            }
        }
    }

    // The bytes of the file at a place.
    fn bytes(&self, index: usize) -> &[u8]
        requires { index < length (listed self.now) }
        ensures { result.now ≡ bytes_at (listed self.now) index }
    {
        let created = self.created.len();
        if index < created {
            self.created[index].bytes()
        } else {
            self.given.as_slice()[index - created].1.as_slice()
        }
    }

    // The file of this name, open at its first byte.
    #[tactic(auto, using(crate::proofs::Finding::file_found, crate::proofs::Finding::no_file))]
    fn open(&self, name: &[u8]) -> Option<Opened>
        ensures none { IfNone result (file_at (files_of (listed self.now)) name.now ≡ None) }
        ensures some { IfSome result (OpensFile (listed self.now) name.now) }
    {
        let index = self.place_of(name)?;
        Some(Opened { index, place: 0 })
    }

    // An empty file of this name, in front of all others. Where memory runs out nothing changes.
    fn create(&mut self, alloc: Global, name: &[u8]) -> Result<(), Memory>
        ensures ok { OnOk result (listed self.new ≡ (name.now, []) ∷ listed self.old) }
        ensures some { OnOk result (0 < vec_len self.new.created) }
        ensures err { OnErr result (listed self.new ≡ listed self.old) }
    {
        let file = Created {
            name: Bytes::of(alloc, name)?,
            bytes: Vec::new(alloc),
        };
        self.created.insert(0, file).map_err(|_| Memory)
    }

    // A piece is appended to the first file, which was created. Where memory runs out nothing changes.
    fn append(&mut self, piece: &[u8]) -> Result<(), Memory>
        requires { 0 < vec_len self.old.created }
        ensures ok { OnOk result (listed self.new ≡ with_first_longer (listed self.old) piece.now) }
        ensures err { OnErr result (listed self.new ≡ listed self.old) }
        ensures some { 0 < vec_len self.new.created }
    {
        self.created[0].append(piece)
    }
}

// Copies the bytes from a place on to the front of a buffer, as many as there are and fit, and at most `cut`.
fn copy_from(bytes: &[u8], place: usize, cut: usize, into: &mut [u8]) -> usize
    requires { place ≤ length bytes.now }
    ensures count { result ≡ min (min (length into.new) cut) (length bytes.now - place) }
    ensures bytes { take result into.new ≡ take result (drop place bytes.now) }
{
    let rest = &bytes[place..];
    let count = into.len().min(cut).min(rest.len());
    into[..count].copy_from_slice(&rest[..count]);
    count
}

/// Files in memory, which can be opened and read, created and written. Exactly the calls whose number it was given
/// fail, and a `create` and a `write` for which no memory is left; what fails leaves the files as they are.
#[derive(Drop, Debug)]
pub struct MemoryShelf {
    alloc: Global,
    files: FileList,
    calls: Calls,
    read_faults: u64,
    write_faults: u64,
    misses: u64,
    opened: Option<Opened>,
    is_writing: bool,
    cut: usize,
    ghost cuts_some: { 1 ≤ cut },
    ghost open_file: { ForSome opened (IsOpened (listed files)) },
    ghost written_file: { is_writing ≡ true → 0 < vec_len files.created },
}

impl MemoryShelf {
    ghost use Rattle.std.specs.Prelude.{◌^◌};
    ghost use Rattle.audit_ports.specs.MemoryShown.{memory_shown, shelf_calls, shelf_files, shelf_cut};

    /// Holds these files, each a name with its bytes. Its calls are numbered from 1 over all methods of `Shelf`, and
    /// those whose number is in `fail` fail. Of two files of one name the second could never be opened. The files are
    /// moved and not copied, which asks for no memory.
    pub fn prepare(
        alloc: Global,
        files: List<(Bytes, Bytes)>,
        fail: List<u32>,
    ) -> Result<MemoryShelf, Memory>
        requires { HaveDistinctNames files }
        ensures shown { IfOk result (λ shelf. memory_shown shelf ≡ fresh (Some (files_of files))) }
        ensures calls { IfOk result (λ shelf. shelf_calls shelf ≡ no_calls fail) }
        ensures cut { IfOk result (λ shelf. shelf_cut shelf ≡ 2 ^ 64 - 1) }
    {
        Ok(MemoryShelf::over(alloc, files, fail, usize::MAX))
    }

    /// As `prepare`, but each `read` gives at most `cut` bytes. `cut` is at least 1, so a read gives at least one byte
    /// where the open file has some left.
    pub fn prepare_cut(
        alloc: Global,
        files: List<(Bytes, Bytes)>,
        fail: List<u32>,
        cut: u32,
    ) -> Result<MemoryShelf, Memory>
        requires distinct { HaveDistinctNames files }
        requires some { 1 ≤ cut }
        ensures shown { IfOk result (λ shelf. memory_shown shelf ≡ fresh (Some (files_of files))) }
        ensures calls { IfOk result (λ shelf. shelf_calls shelf ≡ no_calls fail) }
        ensures cut { IfOk result (λ shelf. shelf_cut shelf ≡ cut) }
    {
        Ok(MemoryShelf::over(alloc, files, fail, cut as usize))
    }

    // A shelf with these files, each of whose reads gives at most `cut` bytes.
    fn over(alloc: Global, files: List<(Bytes, Bytes)>, fail: List<u32>, cut: usize) -> MemoryShelf
        requires { 1 ≤ cut }
        ensures shown { memory_shown result ≡ fresh (Some (files_of files)) }
        ensures calls { shelf_calls result ≡ no_calls fail }
        ensures cut { shelf_cut result ≡ cut }
    {
        MemoryShelf {
            alloc,
            files: FileList {
                created: Vec::new(alloc),
                given: files,
            },
            calls: Calls::none(fail),
            read_faults: 0,
            write_faults: 0,
            misses: 0,
            opened: None,
            is_writing: false,
            cut,
        }
    }

    /// The bytes of the file of this name as they stand, if there is one.
    pub fn file(&self, name: &[u8]) -> Option<&[u8]>
        ensures there { IfSome result (λ bytes.
            file_at (shelf_files self.now) name.now ≡ Some bytes.now) }
        ensures absent { IfNone result (file_at (shelf_files self.now) name.now ≡ None) }
    {
        let opened = self.files.open(name)?;
        Some(self.files.bytes(opened.index))
    }
}

impl Shelf for MemoryShelf {
    ghost use Rattle.std.specs.Prelude.{◌≡◌, ◌<◌, ◌↔◌, min, length, None, IsSome, IsErr, OnErr, IfOk, IsErrOf};
    ghost use Rattle.audit_ports.specs.Shelf.{Opens, Reads, Creates, WritesPiece, Finishes, file_at};
    ghost use Rattle.audit_ports.specs.Calls.{CountsCall, IsFailingCall};
    ghost use Rattle.audit_ports.specs.MemoryShown.{memory_shown, shelf_calls, shelf_files, shelf_cut, bytes_left};

    ghost shown = { memory_shown };

    fn open(&mut self, name: &[u8]) -> Result<(), OpenFault>
        ensures opens { Opens name.now (memory_shown self.old) result (memory_shown self.new) }
        ensures counts { CountsCall (shelf_calls self.old) (shelf_calls self.new) }
        ensures cut { shelf_cut self.new ≡ shelf_cut self.old }
        ensures failed { IsErrOf result OpenFault.Failed ↔ IsFailingCall (shelf_calls self.new) }
        ensures missing { IsErrOf result OpenFault.Missing ↔
            ((¬ (IsFailingCall (shelf_calls self.new))) ×
            (file_at (shelf_files self.old) name.now ≡ None)) }
    {
        self.opened = None;
        if self.calls.count() {
            raise(&mut self.read_faults);
            return Err(OpenFault::Failed);
        }
        self.opened = self.files.open(name);
        if self.opened.is_none() {
            raise(&mut self.misses);
            return Err(OpenFault::Missing);
        }
        Ok(())
    }

    fn read(&mut self, into: &mut [u8]) -> Result<usize, Failed>
        requires opened { IsSome (memory_shown self.old).reading }
        requires room { 0 < length into.old }
        ensures reads { Reads into.new (memory_shown self.old) result (memory_shown self.new) }
        ensures counts { CountsCall (shelf_calls self.old) (shelf_calls self.new) }
        ensures cut { shelf_cut self.new ≡ shelf_cut self.old }
        ensures failed { IsErr result ↔ IsFailingCall (shelf_calls self.new) }
        ensures whole { IfOk result (λ n.
            n ≡ min (min (length into.new) (shelf_cut self.old)) (bytes_left self.old)) }
    {
        let opened = self.opened.take().unwrap();
        if self.calls.count() {
            raise(&mut self.read_faults);
            return Err(Failed);
        }
        let file = self.files.bytes(opened.index);
        let count = copy_from(file, opened.place, self.cut, into);
        self.opened = Some(Opened {
            index: opened.index,
            place: opened.place + count,
        });
        Ok(count)
    }

    fn create(&mut self, name: &[u8]) -> Result<(), Failed>
        requires { (memory_shown self.old).writing ≡ None }
        ensures creates { Creates name.now (memory_shown self.old) result (memory_shown self.new) }
        ensures counts { CountsCall (shelf_calls self.old) (shelf_calls self.new) }
        ensures cut { shelf_cut self.new ≡ shelf_cut self.old }
        ensures failed { IsFailingCall (shelf_calls self.new) → IsErr result }
        ensures refused { OnErr result (shelf_files self.new ≡ shelf_files self.old) }
    {
        self.opened = None;
        if self.calls.count() {
            raise(&mut self.write_faults);
            return Err(Failed);
        }
        match self.files.create(self.alloc, name) {
            Ok(()) => {
                self.is_writing = true;
                Ok(())
            }
            Err(Memory) => {
                raise(&mut self.write_faults);
                Err(Failed)
            }
        }
    }

    fn write(&mut self, piece: &[u8]) -> Result<(), Failed>
        requires { IsSome (memory_shown self.old).writing }
        ensures writes { WritesPiece piece.now (memory_shown self.old) result
            (memory_shown self.new) }
        ensures counts { CountsCall (shelf_calls self.old) (shelf_calls self.new) }
        ensures cut { shelf_cut self.new ≡ shelf_cut self.old }
        ensures failed { IsFailingCall (shelf_calls self.new) → IsErr result }
        ensures refused { OnErr result (shelf_files self.new ≡ shelf_files self.old) }
    {
        if self.calls.count() {
            self.is_writing = false;
            raise(&mut self.write_faults);
            return Err(Failed);
        }
        match self.files.append(piece) {
            Ok(()) => Ok(()),
            Err(Memory) => {
                self.is_writing = false;
                raise(&mut self.write_faults);
                Err(Failed)
            }
        }
    }

    fn finish(&mut self) -> Result<(), Failed>
        requires { IsSome (memory_shown self.old).writing }
        ensures finishes { Finishes (memory_shown self.old) result (memory_shown self.new) }
        ensures counts { CountsCall (shelf_calls self.old) (shelf_calls self.new) }
        ensures cut { shelf_cut self.new ≡ shelf_cut self.old }
        ensures failed { IsErr result ↔ IsFailingCall (shelf_calls self.new) }
    {
        self.is_writing = false;
        if self.calls.count() {
            raise(&mut self.write_faults);
            return Err(Failed);
        }
        Ok(())
    }
}

/// An output in memory. Exactly the calls whose number it was given fail, and a write for which no memory is left.
#[derive(Drop, Debug)]
pub struct MemorySink {
    calls: Calls,
    faults: u64,
    written: Vec<u8>,
    pending: bool,
}

impl MemorySink {
    ghost use Rattle.audit_ports.specs.MemoryShown.{memory_sink_shown, sink_calls, sink_bytes};

    /// Has nothing written. Its calls are numbered from 1 over both methods of `Sink`, and those whose number is in
    /// `fail` fail.
    pub fn prepare(alloc: Global, fail: List<u32>) -> Result<MemorySink, Memory>
        ensures shown { IfOk result (λ sink. memory_sink_shown sink ≡ fresh_sink (Some [])) }
        ensures calls { IfOk result (λ sink. sink_calls sink ≡ no_calls fail) }
    {
        Ok(MemorySink {
            calls: Calls::none(fail),
            faults: 0,
            written: Vec::new(alloc),
            pending: false,
        })
    }

    /// All bytes written so far.
    pub fn written(&self) -> &[u8]
        ensures { result.now ≡ sink_bytes self.now }
    {
        self.written.as_slice()
    }
}

impl Sink for MemorySink {
    ghost use Rattle.std.specs.Prelude.{◌≡◌, ◌⊎◌, ◌<◌, ◌↔◌, length, IsErr, OnErr};
    ghost use Rattle.audit_ports.specs.Sink.{Writes, Flushes};
    ghost use Rattle.audit_ports.specs.Calls.{CountsCall, IsFailingCall};
    ghost use Rattle.audit_ports.specs.MemoryShown.{memory_sink_shown, sink_calls, sink_bytes, sink_room};

    ghost shown = { memory_sink_shown };

    fn write(&mut self, piece: &[u8]) -> Result<(), Failed>
        ensures writes { Writes piece.now (memory_sink_shown self.old) result
            (memory_sink_shown self.new) }
        ensures counts { CountsCall (sink_calls self.old) (sink_calls self.new) }
        ensures failed { IsFailingCall (sink_calls self.new) → IsErr result }
        ensures full { OnErr result (IsFailingCall (sink_calls self.new) ⊎
            (sink_room self.old < length piece.now)) }
        ensures refused { OnErr result (sink_bytes self.new ≡ sink_bytes self.old) }
    {
        self.pending = true;
        if self.calls.count() || self.written.extend_from_slice(piece).is_err() {
            raise(&mut self.faults);
            return Err(Failed);
        }
        Ok(())
    }

    fn flush(&mut self) -> Result<(), Failed>
        ensures flushes { Flushes (memory_sink_shown self.old) result (memory_sink_shown self.new) }
        ensures counts { CountsCall (sink_calls self.old) (sink_calls self.new) }
        ensures failed { IsErr result ↔ IsFailingCall (sink_calls self.new) }
    {
        if self.calls.count() {
            raise(&mut self.faults);
            return Err(Failed);
        }
        self.pending = false;
        Ok(())
    }
}
