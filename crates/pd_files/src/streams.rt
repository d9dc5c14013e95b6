//! A source over a real file: a thin layer over the file's own calls, of which nothing is assumed.
//! A sink over a real file or a standard stream: a thin layer over their own calls, of which nothing
//! is assumed.
//! What a call of a file or stream came to, as a call of an object outside.

ghost use Rattle.std.specs.Prelude.{refl, ◌≡◌, is_ok, Ok, IsErr, MatchResult, if◌then◌else◌};
ghost use Rattle.pd_kinds.specs.Objects.{CountsFault};
ghost use Rattle.pd_image.specs.Calls.{counted};
ghost use Rattle.pd_files.specs.Streams.{std_source_state, unattached_text, std_sink_state, unattached_stream};

use crate::open_files::OpenFiles;
use crate::recorded_file::read_some;
use pd_image::{Access, Failed, Sink, Source, fault};
use std::io::{ErrorKind, Write};
use std::rt::Files;
use std::{io, str};

/// A source whose text is a file's. It tells neither its bytes nor its path.
///
/// It keeps no bytes of its own, so its caller takes them in large pieces.
#[derive(Drop)]
pub struct StdSource<'a, R: Files> {
    files: &'a OpenFiles<'a, R>,
    file: Option<R::File>,
    access: Access,
    /// Up to the end of its type.
    faults: u64,
}

impl<'a, R: Files> StdSource<'a, R> {
    /// A source over one of these files, which isn't attached yet.
    pub fn new(files: &'a OpenFiles<'a, R>) -> StdSource<'a, R>
        ensures { std_source_state result ≡ unattached_text }
    {
        StdSource {
            files,
            file: None,
            access: Access::Unattached,
            faults: 0,
        }
    }
}

impl<'a, R: Files> Source for StdSource<'a, R> {
    ghost state = { std_source_state };

    ghost unnamed = { λ _ _. refl };

    fn attach(&mut self, path: &str) -> Result<(), Failed> {
        self.access = Access::Refused;
        let file = counted_outcome(self.files.open_text(path), &mut self.faults)?;
        self.file = Some(file);
        self.access = Access::Attached;
        Ok(())
    }

    fn take(&mut self, into: &mut [u8]) -> Result<usize, Failed> {
        let taken = match &mut self.file {
            Some(file) => read_some(file, into),
            None => Err(ErrorKind::NotFound.into()),
        };
        counted_outcome(taken, &mut self.faults)
    }
}

/// One of the two standard streams that are written.
#[derive(Clone, Copy)]
enum Stream {
    Out,
    Err,
}

/// A sink that writes to a file, or to the standard stream that it was made for. It tells neither what
/// was written nor its path.
///
/// It keeps no bytes of its own, so its caller puts them in large pieces.
#[derive(Drop)]
pub struct StdSink<'a, R: Files> {
    files: &'a OpenFiles<'a, R>,
    stream: Stream,
    /// The file, where `attach` had a path.
    file: Option<R::File>,
    access: Access,
    /// Up to the end of its type.
    faults: u64,
}

impl<'a, R: Files + Print + Eprint> StdSink<'a, R> {
    /// A sink that isn't attached yet, which without a path is the standard output.
    pub fn out(files: &'a OpenFiles<'a, R>) -> StdSink<'a, R>
        ensures { std_sink_state result ≡ unattached_stream }
    {
        StdSink::of(files, Stream::Out)
    }

    /// A sink that isn't attached yet, which without a path is the standard error. There bytes that
    /// aren't UTF-8 are a fault.
    pub fn err(files: &'a OpenFiles<'a, R>) -> StdSink<'a, R>
        ensures { std_sink_state result ≡ unattached_stream }
    {
        StdSink::of(files, Stream::Err)
    }

    fn of(files: &'a OpenFiles<'a, R>, stream: Stream) -> StdSink<'a, R>
        ensures { std_sink_state result ≡ unattached_stream }
    {
        StdSink {
            files,
            stream,
            file: None,
            access: Access::Unattached,
            faults: 0,
        }
    }
}

impl<'a, R: Files + Print + Eprint> Sink for StdSink<'a, R> {
    ghost state = { std_sink_state };

    ghost unnamed = { λ _ _. refl };

    fn attach(&mut self, path: Option<&str>) -> Result<(), Failed> {
        self.access = Access::Refused;
        if let Some(path) = path {
            let file = counted_outcome(self.files.create_text(path), &mut self.faults)?;
            self.file = Some(file);
        }
        self.access = Access::Attached;
        Ok(())
    }

    fn put(&mut self, bytes: &[u8]) -> Result<(), Failed> {
        let done = match (&mut self.file, self.stream) {
            (Some(file), _) => file.write_all(bytes),
            (None, Stream::Out) => put_out(self.files.rt, bytes),
            (None, Stream::Err) if self.files.is_silent() => Err(ErrorKind::ResourceBusy.into()),
            (None, Stream::Err) => put_err(self.files.rt, bytes),
        };
        counted_outcome(done, &mut self.faults)
    }
}

/// Writes all of the bytes to the standard output.
fn put_out<P: Print>(rt: &P, bytes: &[u8]) -> io::Result<()> {
    let mut out = io::writer(rt);
    out.write_all(bytes)?;
    out.flush()
}

/// Prints the bytes as text to the standard error.
fn put_err<P: Eprint>(rt: &P, bytes: &[u8]) -> io::Result<()> {
    let text = str::from_utf8(bytes).map_err(|_| ErrorKind::InvalidData)?;
    rt.eprint(text)
}

/// Counts what failed.
pub(crate) fn counted_outcome<T: Drop>(
    outcome: io::Result<T>,
    faults: &mut u64,
) -> Result<T, Failed>
    ensures answer { MatchResult result (λ value. outcome ≡ Ok value) (λ _. IsErr outcome) }
    ensures count { faults.new ≡ (if is_ok result then faults.old else counted faults.old) }
    ensures faults { CountsFault result faults.old faults.new }
{
    match outcome {
        Ok(value) => Ok(value),
        Err(_) => Err(fault(faults)),
    }
}
