//! Tests of `result_writer`.
use outer_ports::MemorySink;
use rdf_terms::TextBuf;
use result_writer::{ResultFormat, RowWriter, Written};
use std::alloc::Global;
use std::process::Abort;

const TEXT: &[u8] = b"{\"head\":{\"vars\":[\"x\"]},\"results\":{\"bindings\":[\n]}}\n";

fn format(alloc: Global, rt: &impl Abort) -> ResultFormat {
    let name = TextBuf::from_str(alloc, "x").expect(rt, "memory");
    ResultFormat::new(alloc, &[name]).expect(rt, "memory")
}

// The head is written, then nothing waits, and it is closed.
fn closed(alloc: Global, rt: &impl Abort) -> RowWriter<MemorySink> {
    let format = format(alloc, rt);
    let start = format.head(alloc).expect(rt, "memory");
    let mut writer = RowWriter::new(alloc, format, start, MemorySink::new(alloc, 1000));
    assert!(rt; !writer.is_clear());
    assert!(rt; writer.write(alloc).expect(rt, "memory") == Written::Wrote);
    assert!(rt; writer.write(alloc).expect(rt, "memory") == Written::Clear);
    writer.close(alloc, Vec::new(alloc)).expect(rt, "memory");
    writer
}

// The tail is written, and nothing waits.
fn ended(alloc: Global, rt: &impl Abort) -> MemorySink {
    let mut writer = closed(alloc, rt);
    assert!(rt; writer.write(alloc).expect(rt, "memory") == Written::Wrote);
    assert!(rt; writer.is_clear());
    writer.into_sink()
}

fn text_is_whole(alloc: Global, rt: &impl Abort) -> bool {
    ended(alloc, rt).content() == TEXT
}

#[test]
fn writes_all_of_it(rt: HostRuntime) {
    let alloc = rt.alloc();
    assert!(rt; text_is_whole(alloc, &rt));
}
