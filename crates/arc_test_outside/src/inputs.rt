//! Inputs and pieces in memory: bytes in their order, and the end that is told where a chosen call fails.
use arc_bytes::{MemorySink, MemorySource, ReadEnd, StreamSink, StreamSource, read_all, write_all};
use std::process::Abort;
use std::test::Fail;

/// How many bytes an input has, the call of its source that fails, the limit, and how many bytes are read.
type Row = (usize, u64, usize, Result<usize, ReadEnd>);

const FAILED: Result<usize, ReadEnd> = Err(ReadEnd::Failed);

const ROWS: [Row; 9] = [
    (0, 9, 0, Ok(0)),
    (5, 9, 5, Ok(5)),
    (5, 9, 4, Err(ReadEnd::TooLong { limit: 4 })),
    (100_000, 9, 100_000, Ok(100_000)),
    (100_000, 9, 99_999, Err(ReadEnd::TooLong { limit: 99_999 })),
    (5, 0, 5, FAILED),
    (5, 1, 5, FAILED),
    (100_000, 3, 100_000, FAILED),
    (100_000, 0, 0, FAILED),
];

/// Reads each input.
fn check_all(rt: &(impl Abort + AllocGlobal), rows: &[Row]) -> Result<(), Fail> {
    let alloc = rt.alloc();
    for (len, failing, limit, wanted) in rows {
        let bytes = vec![in alloc; b'x'; *len]?;
        let mut source = MemorySource::new(bytes, vec![in alloc; *failing]?);
        let count = read_all(alloc, &mut source, *limit).map(|bytes| bytes.len());
        assert_eq!(rt;
            count,
            *wanted,
            "{len} bytes, limit {limit}, call {failing}"
        );
        let faults = u64::from(*wanted == FAILED);
        assert_eq!(rt; source.faults(), faults, "{len} bytes, call {failing}");
    }
    Ok(())
}

#[test]
fn an_input_ends_at_its_end_its_limit_or_a_fault(rt: HostRuntime) -> Result<(), Fail> {
    check_all(&rt, &ROWS)
}

/// An input of more than one piece.
#[test]
fn bytes_go_through_in_their_order(rt: HostRuntime) -> Result<(), Fail> {
    let alloc = rt.alloc();
    let mut bytes = Vec::new(alloc);
    for n in 0..20_000u32 {
        bytes.push((n % 251) as u8)?;
    }
    let mut source = StreamSource::new(bytes.as_slice());
    let read = read_all(alloc, &mut source, usize::MAX)?;
    assert_eq!(rt; read, bytes);
    let mut sink = MemorySink::new(alloc, Vec::new(alloc));
    sink.reserve(20_000)?;
    assert_eq!(rt; write_all(&mut sink, &read), Ok(()));
    assert_eq!(rt; sink.bytes(), bytes.as_slice());
    let mut out = Vec::new(alloc);
    let mut sink = StreamSink::new(&mut out);
    assert_eq!(rt; write_all(&mut sink, &read), Ok(()));
    assert_eq!(rt; out, bytes);
    Ok(())
}
