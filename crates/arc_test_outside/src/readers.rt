//! A source over a reader: what the reader does in each call is what the source answers in that call.
use arc_bytes::{Failed, ReadEnd, Source, StreamSource, read_all};
use std::io;
use std::io::{ErrorKind, Read};
use std::process::Abort;
use std::test::Fail;

/// What a reader does in one call: it gives so many bytes, or it fails.
type Turn = Result<usize, ErrorKind>;

/// A reader that does these things in its calls, and fails in later ones.
#[derive(Clone, Copy, Drop)]
struct Scripted {
    turns: [Turn; 3],
    call: usize,
}

impl Scripted {
    fn new(turns: [Turn; 3]) -> Scripted {
        Scripted { turns, call: 0 }
    }
}

impl Read for Scripted {
    /// The bytes of the first call are 0, those of the next 1, and so on.
    fn read(&mut self, buf: &mut [u8]) -> io::Result<usize> {
        let call = self.call;
        self.call = call.wrapping_add(1);
        match self.turns.get(call) {
            Some(Ok(most)) => {
                let count = buf.len().min(*most);
                buf[..count].fill(call as u8);
                Ok(count)
            }
            Some(Err(kind)) => Err(io::Error::from(*kind)),
            None => Err(io::Error::from(ErrorKind::Other)),
        }
    }
}

/// What a reader does in three calls, what a source over it answers to three reads of at most four bytes, how many of them
/// failed, and how an input of this reader ends.
type Row = (
    [Turn; 3],
    [Result<usize, Failed>; 3],
    u64,
    Result<&'static [u8], ReadEnd>,
);

const LOST: Turn = Err(ErrorKind::Other);

const BROKEN: Turn = Err(ErrorKind::BrokenPipe);
/// A signal came before a byte did. It is a failure as any other; nothing is read again.
const INTERRUPTED: Turn = Err(ErrorKind::Interrupted);

const FAILED: Result<usize, Failed> = Err(Failed);

const ROWS: [Row; 7] = [
    (
        [Ok(2), Ok(1), Ok(0)],
        [Ok(2), Ok(1), Ok(0)],
        0,
        Ok(&[0, 0, 1]),
    ),
    (
        [Ok(9), Ok(0), Ok(3)],
        [Ok(4), Ok(0), Ok(3)],
        0,
        Ok(&[0, 0, 0, 0, 0, 0, 0, 0, 0]),
    ),
    (
        [LOST, Ok(2), Ok(0)],
        [FAILED, Ok(2), Ok(0)],
        1,
        Err(ReadEnd::Failed),
    ),
    (
        [Ok(2), LOST, Ok(0)],
        [Ok(2), FAILED, Ok(0)],
        1,
        Err(ReadEnd::Failed),
    ),
    (
        [Ok(2), BROKEN, BROKEN],
        [Ok(2), FAILED, FAILED],
        2,
        Err(ReadEnd::Failed),
    ),
    (
        [INTERRUPTED, Ok(2), Ok(0)],
        [FAILED, Ok(2), Ok(0)],
        1,
        Err(ReadEnd::Failed),
    ),
    (
        [Ok(2), INTERRUPTED, Ok(0)],
        [Ok(2), FAILED, Ok(0)],
        1,
        Err(ReadEnd::Failed),
    ),
];

/// Reads three times, and then an input of the same reader from its first call on.
fn check_all(rt: &(impl Abort + AllocGlobal), rows: &[Row]) -> Result<(), Fail> {
    for (turns, answers, faults, end) in rows {
        let mut source = StreamSource::new(Scripted::new(*turns));
        for (call, answer) in answers.iter().enumerate() {
            let mut buf = [9; 4];
            let got = source.read(&mut buf);
            assert_eq!(rt; got, *answer, "{turns:?}, call {call}");
            let given = got.unwrap_or(0);
            for (place, byte) in buf.iter().enumerate() {
                let wanted = if place < given { call as u8 } else { 9 };
                assert_eq!(rt; *byte, wanted, "{turns:?}, call {call}");
            }
        }
        assert_eq!(rt; source.faults(), *faults, "{turns:?}");
        let mut source = StreamSource::new(Scripted::new(*turns));
        match (read_all(rt.alloc(), &mut source, 9), *end) {
            (Ok(bytes), Ok(wanted)) => assert_eq!(rt; bytes.as_slice(), wanted, "{turns:?}"),
            (Err(got), Err(wanted)) => assert_eq!(rt; got, wanted, "{turns:?}"),
            _ => assert!(rt; false, "{turns:?}"),
        }
    }
    Ok(())
}

#[test]
fn a_read_ends_as_the_readers_call_does(rt: HostRuntime) -> Result<(), Fail> {
    check_all(&rt, &ROWS)
}
