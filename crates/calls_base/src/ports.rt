//! Calls of `outer_ports`.
use outer_ports::{
    Joined, MemorySink, MemorySource, ReadSource, Sink, SinkFault, Source, SourceFault, SureSink,
    SureSource, WriteSink, Wrote, read_all, write_all,
};
use rdf_terms::ByteBuf;
use std::alloc::Global;
use std::fs::Files;
use std::process::Abort;
use std::{fs, io};

fn bytes(alloc: Global, rt: &impl Abort, of: &[u8]) -> ByteBuf {
    ByteBuf::from_slice(alloc, of).expect(rt, "memory")
}

// Whether the next bytes that the source gives, up to this many, are these.
fn gives<S: Source>(
    alloc: Global,
    rt: &impl Abort,
    source: &mut S,
    most: usize,
    text: &[u8],
) -> bool {
    let read = read_all(alloc, source, most).expect(rt, "a read");
    read.as_slice() == text
}

fn write_parts<K: Sink>(rt: &impl Abort, sink: &mut K) {
    write_all(sink, b"a link, ").expect(rt, "a write");
    write_all(sink, b"and its text").expect(rt, "a write");
}

fn write_file<R: Abort + Files>(rt: &R) {
    let file = fs::create(rt, "ports").expect(rt, "a file");
    let mut sink = WriteSink::new(file);
    write_parts(rt, &mut sink);
}

fn file_has_parts<R: Abort + Files>(alloc: Global, rt: &R) -> bool {
    let file = fs::open(rt, "ports").expect(rt, "a file");
    let mut source = ReadSource::new(file);
    gives(alloc, rt, &mut source, 8, b"a link, ")
        && gives(alloc, rt, &mut source, 100, b"and its text")
}

#[test]
fn a_file_gives_back_what_was_written(rt: HostRuntime) {
    write_file(&rt);
    assert!(rt; file_has_parts(rt.alloc(), &rt));
}

// The bytes `abcd`, three a call, where the second call fails.
fn failing_source(alloc: Global, rt: &impl Abort) -> MemorySource {
    let mut fail = Vec::new(alloc);
    fail.push(1).expect(rt, "memory");
    MemorySource::new(bytes(alloc, rt, b"abcd"), 3, fail)
}

fn source_fails(alloc: Global, source: &mut MemorySource) -> bool {
    matches!(read_all(alloc, source, 4), Err(SourceFault::Failed))
}

fn fails_at_its_call(alloc: Global, rt: &impl Abort) -> bool {
    let mut source = failing_source(alloc, rt);
    source_fails(alloc, &mut source) && gives(alloc, rt, &mut source, 4, b"d")
}

fn fails_past_its_room(alloc: Global) -> bool {
    let mut sink = MemorySink::new(alloc, 3);
    write_all(&mut sink, b"abcd") == Err(SinkFault::Failed) && sink.content() == b"abc".as_slice()
}

#[test]
fn fails_where_it_was_told_to(rt: HostRuntime) {
    assert!(rt; fails_at_its_call(rt.alloc(), &rt));
    assert!(rt; fails_past_its_room(rt.alloc()));
}

fn stream(alloc: Global, rt: &impl Abort) -> Joined<SureSource, SureSink> {
    let source = SureSource::new(bytes(alloc, rt, b"abcd"));
    let sink = SureSink::new(alloc);
    Joined { source, sink }
}

fn stream_is_read_and_written(alloc: Global, rt: &impl Abort) -> bool {
    let mut stream = stream(alloc, rt);
    let read = read_all(alloc, &mut stream, 100).expect(rt, "a read");
    write_all(&mut stream, read.as_slice()).expect(rt, "a write");
    stream.sink.content() == b"abcd".as_slice()
}

#[test]
fn a_stream_is_read_and_written(rt: HostRuntime) {
    assert!(rt; stream_is_read_and_written(rt.alloc(), &rt));
}

fn memory_sink_takes(alloc: Global) -> bool {
    let mut sink = MemorySink::new(alloc, 3);
    sink.write(b"ab") == Wrote::Took(2) && sink.content() == b"ab".as_slice()
}

fn sure_sink_takes(alloc: Global) -> bool {
    let mut sink = SureSink::new(alloc);
    sink.write(b"abc") == Wrote::Took(3) && sink.content() == b"abc".as_slice()
}

fn joined_sink_takes(alloc: Global, rt: &impl Abort) -> bool {
    let mut stream = stream(alloc, rt);
    stream.write(b"abc") == Wrote::Took(3) && stream.sink.content() == b"abc".as_slice()
}

#[test]
fn a_sink_takes_what_it_has_room_for(rt: HostRuntime) {
    assert!(rt; memory_sink_takes(rt.alloc()));
    assert!(rt; sure_sink_takes(rt.alloc()));
    assert!(rt; joined_sink_takes(rt.alloc(), &rt));
}

// A writer that takes so many bytes a call, counts its flushes, and fails at a flush if told to.
#[derive(Drop)]
struct Writer {
    takes: usize,
    flushes: u64,
    fails: bool,
}

impl io::Write for Writer {
    fn write(&mut self, buf: &[u8]) -> io::Result<usize> {
        Ok(self.takes.min(buf.len()))
    }

    fn flush(&mut self) -> io::Result<()> {
        self.flushes = self.flushes.saturating_add(1);
        if self.fails {
            return Err(io::ErrorKind::BrokenPipe.into());
        }
        Ok(())
    }
}

// Whether a write of three bytes answers this, and flushes so often.
fn answers(takes: usize, fails: bool, wanted: Wrote, flushes: u64) -> bool {
    let mut writer = Writer {
        takes,
        flushes: 0,
        fails,
    };
    WriteSink::new(&mut writer).write(b"abc") == wanted && writer.flushes == flushes
}

#[test]
fn a_write_counts_once_it_is_flushed(rt: HostRuntime) {
    assert!(rt; answers(2, false, Wrote::Took(2), 1));
    assert!(rt; answers(0, false, Wrote::Failed, 0));
    assert!(rt; answers(2, true, Wrote::Failed, 1));
}
