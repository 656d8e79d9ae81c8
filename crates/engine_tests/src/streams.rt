//! Sources and sinks of the runtime, call by call.
use std::alloc::{AllocError, Global};
use std::io::{self, ErrorKind, Read, Write};
use std::process::Abort;
use std::test::Fail;
use tm_io::{Failed, Gate, OpenGate, Sink, Source, StdSink, StdSource, Stop};

const TEXT: &[u8] = b"abcdefg";

/// Six reads into a buffer with that much room, at most 8: the bytes of each, or `!` where it fails, each ended by `|`.
fn reads<S: Source>(alloc: Global, mut source: S, room: usize) -> Result<Vec<u8>, AllocError>
where
    S: Drop,
{
    let mut log = Vec::new(alloc);
    let mut buffer = [0; 8];
    let room = room.min(buffer.len());
    for _ in 0..6 {
        match source.read(&mut buffer[..room]) {
            Ok(n) => log.extend_from_slice(&buffer[..n])?,
            Err(Failed) => log.push(b'!')?,
        }
        log.push(b'|')?;
    }
    Ok(log)
}

const FAULT: usize = 99;

/// Six writes of what is not taken yet: how many bytes each took, or that it fails.
fn writes<K: Sink>(alloc: Global, sink: &mut K) -> Result<Vec<usize>, AllocError> {
    let mut log = Vec::new(alloc);
    let mut rest = TEXT;
    for _ in 0..6 {
        match sink.write(rest) {
            Ok(n) => {
                log.push(n)?;
                rest = &rest[n..];
            }
            Err(Stop::Failed) => log.push(FAULT)?,
            Err(Stop::NoMemory) => log.push(98)?,
        }
    }
    Ok(log)
}

/// A reader and a writer that fail at every call.
#[derive(Drop)]
struct Broken;

impl Read for Broken {
    fn read(&mut self, _buf: &mut [u8]) -> io::Result<usize> {
        Err(ErrorKind::Interrupted.into())
    }
}

impl Write for Broken {
    fn write(&mut self, _buf: &[u8]) -> io::Result<usize> {
        Err(ErrorKind::Interrupted.into())
    }

    fn flush(&mut self) -> io::Result<()> {
        Ok(())
    }
}

/// A writer that takes nothing.
#[derive(Drop)]
struct Stuck;

impl Write for Stuck {
    fn write(&mut self, _buf: &[u8]) -> io::Result<usize> {
        Ok(0)
    }

    fn flush(&mut self) -> io::Result<()> {
        Ok(())
    }
}

/// Six reads of a source give this log. (What owns a log has one way out behind it: how it is let go is proved for each
/// way out.)
fn are_read<S: Source>(
    rt: &impl Abort,
    alloc: Global,
    source: S,
    wanted: &[u8],
) -> Result<(), AllocError>
where
    S: Drop,
{
    let log = reads(alloc, source, 4)?;
    assert!(rt; log.as_slice() == wanted);
    Ok(())
}

/// Six writes to a sink give this log.
fn are_written<K: Sink>(
    rt: &impl Abort,
    alloc: Global,
    sink: &mut K,
    wanted: &[usize],
) -> Result<(), AllocError> {
    let log = writes(alloc, sink)?;
    assert!(rt; log.as_slice() == wanted);
    Ok(())
}

/// What is written to a list stands in it.
fn list_is_written(rt: &impl Abort, alloc: Global) -> Result<(), AllocError> {
    let mut held = Vec::new(alloc);
    are_written(rt, alloc, &mut StdSink::new(&mut held), &[7, 0, 0, 0, 0, 0])?;
    assert!(rt; held.as_slice() == TEXT);
    Ok(())
}

#[test]
fn readers_and_writers(rt: HostRuntime) -> Result<(), Fail> {
    let alloc = rt.alloc();
    are_read(&rt, alloc, StdSource::new(TEXT), b"abcd|efg|||||")?;
    are_read(&rt, alloc, StdSource::new(Broken), b"!|!|!|!|!|!|")?;
    list_is_written(&rt, alloc)?;
    are_written(&rt, alloc, &mut StdSink::new(Broken), &[FAULT; 6])?;
    are_written(&rt, alloc, &mut StdSink::new(Stuck), &[FAULT; 6])?;
    assert!(rt; StdSink::new(Stuck).write(b"") == Ok(0));
    assert!(rt; StdSink::new(io::writer(&rt)).write(b"") == Ok(0));
    OpenGate.began(0, 0);
    OpenGate.ended(0, 0);
    Ok(())
}
