// Readers and writers of std as sources and sinks.
ghost use Rattle.std.specs.Prelude.{◌≡◌, None};
ghost use Rattle.std.specs.Io.{ReadsAtMost, WritesAtMost};

use flash_io::{Failed, Sink, Source};
use std::io;
use std::io::{ErrorKind, Read, Write};

// One read, tried again where a signal came in between.
fn read_once<F: Read>(file: &mut F, into: &mut [u8]) -> io::Result<usize>
    ensures { ReadsAtMost result into.new }
{
    for _ in 0..u64::MAX {
        match file.read(into) {
            Err(error) if error.kind() == ErrorKind::Interrupted => {}
            answer => return answer,
        }
    }
    Err(io::Error::from(ErrorKind::Interrupted))
}

// One write, tried again where a signal came in between.
fn write_once<W: Write>(writer: &mut W, from: &[u8]) -> io::Result<usize>
    ensures { WritesAtMost result from.now }
{
    for _ in 0..u64::MAX {
        match writer.write(from) {
            Err(error) if error.kind() == ErrorKind::Interrupted => {}
            answer => return answer,
        }
    }
    Err(io::Error::from(ErrorKind::Interrupted))
}

/// A reader as a source. It tells nothing of what is left.
#[derive(Drop)]
pub struct HostSource<F: Read> {
    file: Option<F>,
    faults: u64,
}

impl<F: Read> HostSource<F> {
    /// A source over an open file, or over one that couldn't be opened (None), whose first read
    /// fails.
    pub fn new(file: Option<F>) -> HostSource<F>
        ensures { ⟦<HostSource<F> as Source>⟧.fault_count result ≡ 0 }
    {
        HostSource { file, faults: 0 }
    }
}

impl<F: Read> Source for HostSource<F> {
    ghost left = { λ _. None };

    ghost fault_count = { λ source. source.faults };

    fn read(&mut self, into: &mut [u8]) -> Result<usize, Failed> {
        if let Some(file) = &mut self.file
            && let Ok(count) = read_once(file, into)
        {
            return Ok(count);
        }
        self.faults = self.faults.saturating_add(1);
        Err(Failed)
    }
}

/// A writer as a sink. It tells nothing of what it holds. A write that takes nothing of a piece
/// that isn't empty has failed.
#[derive(Drop)]
pub struct HostSink<W: Write> {
    writer: W,
    faults: u64,
}

impl<W: Write> HostSink<W> {
    /// A sink over a writer.
    pub fn new(writer: W) -> HostSink<W>
        ensures { ⟦<HostSink<W> as Sink>⟧.fault_count result ≡ 0 }
    {
        HostSink { writer, faults: 0 }
    }
}

impl<W: Write> Sink for HostSink<W> {
    ghost contents = { λ _. None };

    ghost fault_count = { λ sink. sink.faults };

    fn write(&mut self, from: &[u8]) -> Result<usize, Failed> {
        if let Ok(count) = write_once(&mut self.writer, from)
            && (count > 0 || from.is_empty())
        {
            return Ok(count);
        }
        self.faults = self.faults.saturating_add(1);
        Err(Failed)
    }
}
