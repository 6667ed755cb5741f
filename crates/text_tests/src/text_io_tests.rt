//! Texts read and written in pieces of any size with calls that fail, std's reader and writer, names and kinds.

use crate::same::{same, same_bytes};
use crate::streams::{sink, source};
use std::alloc::Global;
use std::io;
use std::io::{ErrorKind, Read, Write};
use std::process::Abort;
use std::test::Fail;
use text_io::{
    EventKind, LimitKind, MemorySink, MemorySource, Name, StdSink, StdSource, TextFault, ThrowKind,
    read_all, write_all,
};

// Eight bytes, with line feeds at places 3 and 7.
const TEXT: &[u8] = b"one\ntwo\n";

/// The bytes that a source gives a call, which of its calls fails, the limit in bytes, and why the text isn't read.
type ReadRow = (usize, Option<u64>, u8, Option<TextFault>);

const READS: [ReadRow; 13] = [
    (1, None, 8, None),
    (2, None, 8, None),
    (0, None, 100, None),
    (4096, None, 8, None),
    (1, None, 7, Some(TextFault::TooLong { feeds: 1 })),
    (2, None, 4, Some(TextFault::TooLong { feeds: 1 })),
    (4096, None, 3, Some(TextFault::TooLong { feeds: 0 })),
    (4096, None, 0, Some(TextFault::TooLong { feeds: 0 })),
    (1, Some(3), 8, Some(TextFault::ReadFault)),
    (1, Some(8), 8, Some(TextFault::ReadFault)),
    (1, Some(9), 8, None),
    (2, Some(0), 8, Some(TextFault::ReadFault)),
    (4096, Some(1), 8, Some(TextFault::ReadFault)),
];

fn see_read(rt: &impl Abort, alloc: Global, source: &mut MemorySource, row: ReadRow) {
    let (piece, _, limit, wanted) = row;
    match read_all(alloc, source, usize::from(limit)) {
        Ok(text) => {
            same_bytes(rt, text.as_slice(), TEXT, "the text that is read");
            same(
                rt,
                &(piece, limit, wanted),
                &(piece, limit, None),
                "pieces, limit, fault",
            );
        }
        Err(fault) => {
            same(
                rt,
                &(piece, limit, wanted),
                &(piece, limit, Some(fault)),
                "pieces, limit, fault",
            );
        }
    }
}

#[test]
fn a_text_is_read_whole_or_refused(rt: HostRuntime) -> Result<(), Fail> {
    for row in READS {
        let mut source = source(rt.alloc(), TEXT, row.0, row.1)?;
        see_read(&rt, rt.alloc(), &mut source, row);
    }
    Ok(())
}

/// The room of a sink, the bytes that it takes a call, which of its calls fails, whether the text is written, and how many
/// bytes are taken.
type WriteRow = (usize, usize, Option<u64>, bool, usize);

const WRITES: [WriteRow; 10] = [
    (8, 1, None, true, 8),
    (8, 2, None, true, 8),
    (9, 0, None, true, 8),
    (8, 4096, None, true, 8),
    (5, 2, None, false, 5),
    (0, 4096, None, false, 0),
    (8, 1, Some(2), false, 2),
    (8, 2, Some(0), false, 0),
    (8, 2, Some(1), false, 2),
    (8, 2, Some(4), true, 8),
];

fn see_written(rt: &impl Abort, sink: &mut MemorySink, row: WriteRow) {
    let (room, piece, _, is_whole, taken) = row;
    let answer = write_all(sink, TEXT);
    let wanted = if is_whole {
        Ok(())
    } else {
        Err(TextFault::WriteFault)
    };
    same(
        rt,
        &(room, piece, answer),
        &(room, piece, wanted),
        "room, pieces, answer",
    );
    same(
        rt,
        &(room, piece, sink.taken().len()),
        &(room, piece, taken),
        "room, pieces, bytes taken",
    );
    assert!(rt; TEXT.starts_with(sink.taken()));
}

#[test]
fn a_text_is_written_whole_or_in_part(rt: HostRuntime) -> Result<(), Fail> {
    for row in WRITES {
        let mut sink = sink(rt.alloc(), row.0, row.1, row.2)?;
        see_written(&rt, &mut sink, row);
    }
    Ok(())
}

// A reader of TEXT whose second read is interrupted.
#[derive(Drop)]
struct StumblingReader {
    reads: u8,
}

impl Read for StumblingReader {
    fn read(&mut self, buf: &mut [u8]) -> io::Result<usize> {
        let read = self.reads;
        self.reads = read.saturating_add(1);
        match read {
            0 => (&b"one\n"[..]).read(buf),
            2 => (&b"two\n"[..]).read(buf),
            1 => Err(io::Error::from(ErrorKind::Interrupted)),
            _ => Ok(0),
        }
    }
}

// A writer that fails at first, takes nothing at the second write, and then all.
#[derive(Drop)]
struct StumblingWriter {
    writes: u8,
    held: Vec<u8>,
}

impl Write for StumblingWriter {
    fn write(&mut self, buf: &[u8]) -> io::Result<usize> {
        let write = self.writes;
        self.writes = write.saturating_add(1);
        match write {
            0 => Err(io::Error::from(ErrorKind::BrokenPipe)),
            1 => Ok(0),
            _ => self.held.write(buf),
        }
    }

    fn flush(&mut self) -> io::Result<()> {
        Ok(())
    }
}

fn see_reader(
    rt: &impl Abort,
    alloc: Global,
    source: &mut StdSource<StumblingReader>,
) -> Result<(), Fail> {
    let answer = read_all(alloc, source, 8);
    same(
        rt,
        &answer.err(),
        &Some(TextFault::ReadFault),
        "a read that is interrupted",
    );
    let rest = read_all(alloc, source, 8)?;
    same_bytes(rt, rest.as_slice(), b"two\n".as_slice(), "the rest");
    Ok(())
}

#[test]
fn a_reader_of_std_is_a_source(rt: HostRuntime) -> Result<(), Fail> {
    let mut source = StdSource::new(StumblingReader { reads: 0 });
    see_reader(&rt, rt.alloc(), &mut source)
}

fn see_writer(rt: &impl Abort, writer: &mut StumblingWriter) {
    let mut sink = StdSink::new(writer);
    same(
        rt,
        &write_all(&mut sink, TEXT),
        &Err(TextFault::WriteFault),
        "a write that fails",
    );
    same(
        rt,
        &write_all(&mut sink, TEXT),
        &Err(TextFault::WriteFault),
        "a write that fails",
    );
    same(rt, &write_all(&mut sink, TEXT), &Ok(()), "a write");
}

#[test]
fn a_writer_of_std_is_a_sink(rt: HostRuntime) {
    let mut writer = StumblingWriter {
        writes: 0,
        held: Vec::new(rt.alloc()),
    };
    see_writer(&rt, &mut writer);
    same_bytes(&rt, writer.held.as_slice(), TEXT, "the bytes held");
}

#[test]
fn names_keep_their_bytes(rt: HostRuntime) {
    for text in ["r", "Card_7-b", "a2345678901234567890123456789012"] {
        let word = text.as_bytes();
        match Name::read(word) {
            Some(name) => same_bytes(&rt, name.bytes(), word, text),
            None => assert!(rt; false, "{text}"),
        }
    }
    assert!(rt; Name::read(b"7up").is_none());
}

#[test]
fn kinds_have_their_words(rt: HostRuntime) {
    let limit = LimitKind::ResizeObservers.text();
    let exception = ThrowKind::HierarchyRequestError.text();
    same(&rt, &limit, &"resize-observers", "a limit");
    same(&rt, &exception, &"HierarchyRequestError", "an exception");
    same(&rt, &EventKind::Resize.text(), &"resize", "an event");
}
