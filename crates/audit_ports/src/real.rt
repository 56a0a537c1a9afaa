//! The real files and outputs: a few lines over std's, which tell nothing of what they hold.
ghost use Rattle.std.specs.Prelude.{◌≡◌, ◌≤◌, length, IfOk, IsErr, OnOk, None, IsErrOf, IsUtf8};
ghost use Rattle.std.specs.Io.KnownBytes.{Appends};
ghost use Rattle.audit_ports.specs.Shelf.{fresh};
ghost use Rattle.audit_ports.specs.Sink.{fresh_sink};

use crate::{Failed, OpenFault, Shelf, Sink, raise};
use std::fs::{self, File, Metadata, OpenFile};
use std::io::{ErrorKind, Read, Stderr, Stdout, Write};
use std::os::unix::fs::MetadataExt;
use std::rt::Files;

/// The files of the machine. It tells none of them. It never writes a file that it has opened for reading, by whatever
/// name: to create one is a failure of writing.
#[derive(Drop)]
pub struct RealShelf<R: Files + AllocGlobal + Drop> {
    rt: R,
    file: Option<R::File>,
    name: Vec<u8>,
    place: u64,
    output: Option<R::File>,
    output_name: Vec<u8>,
    // The files that were opened for reading.
    inputs: Vec<Identity>,
    read_faults: u64,
    write_faults: u64,
    misses: u64,
}

/// What tells a file of the machine from every other, whatever its name.
#[derive(Clone, Copy, Debug, PartialEq, Eq)]
struct Identity {
    device: u64,
    node: u64,
}

impl Identity {
    fn of(metadata: &Metadata) -> Identity {
        Identity {
            device: metadata.dev(),
            node: metadata.ino(),
        }
    }
}

impl<R: Files + AllocGlobal + Drop> RealShelf<R> {
    ghost use Rattle.audit_ports.specs.RealShown.{real_shown};

    /// The files that a runtime reaches. None is open, and none is being written.
    pub fn over(rt: R) -> RealShelf<R>
        ensures { real_shown result ≡ fresh None }
    {
        let alloc = rt.alloc();
        RealShelf {
            rt,
            file: None,
            name: Vec::new(alloc),
            place: 0,
            output: None,
            output_name: Vec::new(alloc),
            inputs: Vec::new(alloc),
            read_faults: 0,
            write_faults: 0,
            misses: 0,
        }
    }
}

// A copy of a name, the open file, and which one it is.
fn open_real<R: Files + AllocGlobal>(
    rt: &R,
    name: &[u8],
) -> Result<(Vec<u8>, R::File, Identity), OpenFault>
    ensures name { IfOk result (λ opened. opened.0.items ≡ name.now) }
    ensures no_text { ¬ (IsUtf8 name.now) → IsErrOf result OpenFault.Failed }
{
    let text = std::str::from_utf8(name).map_err(|_| OpenFault::Failed)?;
    let copy = Vec::from_slice(rt.alloc(), name).map_err(|_| OpenFault::Failed)?;
    match File::open(rt, text) {
        Ok(file) => match file.metadata() {
            Ok(metadata) => Ok((copy, file, Identity::of(&metadata))),
            Err(_) => Err(OpenFault::Failed),
        },
        Err(error) if error.kind() == ErrorKind::NotFound => Err(OpenFault::Missing),
        Err(_) => Err(OpenFault::Failed),
    }
}

// Whether there is a file of this name that is one of these.
fn is_among<R: Files>(rt: &R, name: &str, files: &[Identity]) -> bool {
    match fs::metadata(rt, name) {
        Ok(metadata) => files.contains(&Identity::of(&metadata)),
        Err(_) => false,
    }
}

// A copy of a name, and the new empty file, unless it would be one of those that were read.
fn create_real<R: Files + AllocGlobal>(
    rt: &R,
    name: &[u8],
    inputs: &[Identity],
) -> Result<(Vec<u8>, R::File), Failed>
    ensures name { IfOk result (λ created. created.0.items ≡ name.now) }
    ensures no_text { ¬ (IsUtf8 name.now) → IsErr result }
{
    let text = std::str::from_utf8(name).map_err(|_| Failed)?;
    if is_among(rt, text, inputs) {
        return Err(Failed);
    }
    let copy = Vec::from_slice(rt.alloc(), name).map_err(|_| Failed)?;
    let file = File::create(rt, text).map_err(|_| Failed)?;
    Ok((copy, file))
}

/// Reads from a stream. Each error is a failure, an interruption too.
pub(crate) fn read_stream<T: Read>(stream: &mut T, into: &mut [u8]) -> Result<usize, Failed>
    ensures { IfOk result (λ count. count ≤ length into.new) }
{
    stream.read(into).map_err(|_| Failed)
}

impl<R: Files + AllocGlobal + Drop> Shelf for RealShelf<R> {
    ghost use Rattle.std.specs.Prelude.{◌≡◌, None, IsErr, IsErrOf, IsUtf8};
    ghost use Rattle.audit_ports.specs.Shelf.{Opens, Creates};
    ghost use Rattle.audit_ports.specs.RealShown.{real_shown};

    ghost shown = { real_shown };

    fn open(&mut self, name: &[u8]) -> Result<(), OpenFault>
        ensures opens { Opens name.now (real_shown self.old) result (real_shown self.new) }
        ensures no_text { ¬ (IsUtf8 name.now) → IsErrOf result OpenFault.Failed }
    {
        self.file = None;
        match open_real(&self.rt, name) {
            Ok((copy, file, identity)) => {
                if self.inputs.push(identity).is_err() {
                    raise(&mut self.read_faults);
                    return Err(OpenFault::Failed);
                }
                self.name = copy;
                self.place = 0;
                self.file = Some(file);
                Ok(())
            }
            Err(OpenFault::Missing) => {
                raise(&mut self.misses);
                Err(OpenFault::Missing)
            }
            Err(OpenFault::Failed) => {
                raise(&mut self.read_faults);
                Err(OpenFault::Failed)
            }
        }
    }

    fn read(&mut self, into: &mut [u8]) -> Result<usize, Failed> {
        match read_stream(self.file.as_mut().unwrap(), into) {
            Ok(count) => {
                self.place = self.place.saturating_add(count as u64);
                Ok(count)
            }
            Err(Failed) => {
                self.file = None;
                raise(&mut self.read_faults);
                Err(Failed)
            }
        }
    }

    fn create(&mut self, name: &[u8]) -> Result<(), Failed>
        requires { (real_shown self.old).writing ≡ None }
        ensures creates { Creates name.now (real_shown self.old) result (real_shown self.new) }
        ensures no_text { ¬ (IsUtf8 name.now) → IsErr result }
    {
        self.file = None;
        match create_real(&self.rt, name, &self.inputs) {
            Ok((copy, file)) => {
                self.output_name = copy;
                self.output = Some(file);
                Ok(())
            }
            Err(Failed) => {
                raise(&mut self.write_faults);
                Err(Failed)
            }
        }
    }

    fn write(&mut self, piece: &[u8]) -> Result<(), Failed> {
        let written = write_whole(self.output.as_mut().unwrap(), piece);
        if written.is_err() {
            self.output = None;
            raise(&mut self.write_faults);
        }
        written
    }

    fn finish(&mut self) -> Result<(), Failed> {
        let flushed = self.output.as_mut().unwrap().flush();
        self.output = None;
        if flushed.is_err() {
            raise(&mut self.write_faults);
            return Err(Failed);
        }
        Ok(())
    }
}

/// An output of the process. It tells nothing of what was written, but whether that was handed on.
#[derive(Drop)]
pub struct RealSink<W: Write + Drop> {
    stream: W,
    faults: u64,
    pending: bool,
}

impl<W: Write + Drop> RealSink<W> {
    ghost use Rattle.audit_ports.specs.RealShown.{real_sink_shown};

    /// An output that passes all on to a stream.
    pub fn over(stream: W) -> RealSink<W>
        ensures { real_sink_shown result ≡ fresh_sink None }
    {
        RealSink {
            stream,
            faults: 0,
            pending: false,
        }
    }
}

impl RealSink<Stdout> {
    ghost use Rattle.audit_ports.specs.RealShown.{real_sink_shown};

    /// Standard output.
    pub fn output(rt: HostRuntime) -> RealSink<Stdout>
        ensures { real_sink_shown result ≡ fresh_sink None }
    {
        RealSink::over(rt.stdout())
    }
}

impl RealSink<Stderr> {
    ghost use Rattle.audit_ports.specs.RealShown.{real_sink_shown};

    /// Standard error.
    pub fn error(rt: HostRuntime) -> RealSink<Stderr>
        ensures { real_sink_shown result ≡ fresh_sink None }
    {
        RealSink::over(rt.stderr())
    }
}

// Writes a whole piece. A write that takes nothing fails, as one that answers an error.
fn write_whole<W: Write>(stream: &mut W, piece: &[u8]) -> Result<(), Failed>
    ensures { OnOk result (Appends (W.contents stream.old) (W.contents stream.new) piece.now) }
{
    let mut rest = piece;
    while !rest.is_empty() {
        match stream.write(rest) {
            Ok(count) if count > 0 => rest = &rest[count..],
            _ => return Err(Failed),
        }
    }
    Ok(())
}

impl<W: Write + Drop> Sink for RealSink<W> {
    ghost use Rattle.std.specs.Prelude.{None, OnOk};
    ghost use Rattle.std.specs.Io.KnownBytes.{Appends};
    ghost use Rattle.audit_ports.specs.Sink.{Writes};
    ghost use Rattle.audit_ports.specs.RealShown.{real_sink_shown, stream_of};

    ghost shown = { real_sink_shown };

    fn write(&mut self, piece: &[u8]) -> Result<(), Failed>
        ensures writes { Writes piece.now (real_sink_shown self.old) result
            (real_sink_shown self.new) }
        ensures stream { OnOk result (Appends (W.contents (stream_of self.old))
            (W.contents (stream_of self.new)) piece.now) }
    {
        self.pending = true;
        let written = write_whole(&mut self.stream, piece);
        if written.is_err() {
            raise(&mut self.faults);
        }
        written
    }

    fn flush(&mut self) -> Result<(), Failed> {
        if self.stream.flush().is_err() {
            raise(&mut self.faults);
            return Err(Failed);
        }
        self.pending = false;
        Ok(())
    }
}
