//! A sink over a writer: what the writer does in each call is what the sink answers in that call, and what the sink has
//! taken has left the writer's buffer.
use arc_bytes::{Failed, Sink, StreamSink, write_all};
use std::io;
use std::io::{ErrorKind, Write};
use std::process::Abort;
use std::test::Fail;

/// What a writer does with one piece.
#[derive(Clone, Copy, Debug)]
enum Turn {
    /// It takes at most so many bytes, and its buffer is flushed.
    Takes(usize),
    /// It takes at most so many bytes, and the flush fails.
    Keeps(usize, ErrorKind),
    /// It takes nothing, and says so by an error.
    Fails(ErrorKind),
}

use Turn::{Fails, Keeps, Takes};

/// A writer that holds back what it takes until it is flushed, and does these things with its first pieces. It fails
/// with later ones.
#[derive(Clone, Copy, Debug, Drop)]
struct Scripted {
    turns: [Turn; 2],
    pieces: usize,
    flush: Result<(), ErrorKind>,
    waiting: usize,
    out: usize,
}

impl Scripted {
    fn new(turns: [Turn; 2]) -> Scripted {
        Scripted {
            turns,
            pieces: 0,
            flush: Ok(()),
            waiting: 0,
            out: 0,
        }
    }

    /// How many bytes of the next piece are taken at most, and how its flush will end.
    fn turn(&mut self) -> (Result<usize, ErrorKind>, Result<(), ErrorKind>) {
        let piece = self.pieces;
        self.pieces = piece.wrapping_add(1);
        match self.turns.get(piece) {
            Some(Takes(most)) => (Ok(*most), Ok(())),
            Some(Keeps(most, kind)) => (Ok(*most), Err(*kind)),
            Some(Fails(kind)) => (Err(*kind), Ok(())),
            None => (Err(LOST), Ok(())),
        }
    }
}

impl Write for Scripted {
    fn write(&mut self, bytes: &[u8]) -> io::Result<usize> {
        let (takes, flush) = self.turn();
        self.flush = flush;
        match takes {
            Ok(most) => {
                let count = bytes.len().min(most);
                self.waiting = self.waiting.wrapping_add(count);
                Ok(count)
            }
            Err(kind) => Err(io::Error::from(kind)),
        }
    }

    fn flush(&mut self) -> io::Result<()> {
        match self.flush {
            Ok(()) => {
                self.out = self.out.wrapping_add(self.waiting);
                self.waiting = 0;
                Ok(())
            }
            Err(kind) => Err(io::Error::from(kind)),
        }
    }
}

/// What a writer does with two pieces; what a sink over it answers to two writes of five bytes, how many faults it has
/// counted after each, and how many bytes have left the writer's buffer after both. Then how five bytes are written whole
/// to such a writer, and how many have left its buffer.
type Row = (
    [Turn; 2],
    [(Result<usize, Failed>, u64); 2],
    usize,
    (Result<(), Failed>, usize),
);

const LOST: ErrorKind = ErrorKind::Other;
/// A signal came. It is a failure as any other; nothing is written again.
const SIGNAL: ErrorKind = ErrorKind::Interrupted;

const FAILED: Result<usize, Failed> = Err(Failed);

const DONE: Result<(), Failed> = Ok(());

const BROKEN: Result<(), Failed> = Err(Failed);

const ROWS: [Row; 11] = [
    (
        [Takes(9), Takes(9)],
        [(Ok(5), 0), (Ok(5), 0)],
        10,
        (DONE, 5),
    ),
    ([Takes(3), Takes(9)], [(Ok(3), 0), (Ok(5), 0)], 8, (DONE, 5)),
    (
        [Takes(0), Takes(9)],
        [(Ok(0), 1), (Ok(5), 1)],
        5,
        (BROKEN, 0),
    ),
    (
        [Takes(3), Takes(0)],
        [(Ok(3), 0), (Ok(0), 1)],
        3,
        (BROKEN, 3),
    ),
    (
        [Fails(LOST), Takes(9)],
        [(FAILED, 1), (Ok(5), 1)],
        5,
        (BROKEN, 0),
    ),
    (
        [Takes(3), Fails(LOST)],
        [(Ok(3), 0), (FAILED, 1)],
        3,
        (BROKEN, 3),
    ),
    (
        [Fails(SIGNAL), Fails(SIGNAL)],
        [(FAILED, 1), (FAILED, 2)],
        0,
        (BROKEN, 0),
    ),
    // What a failed flush kept leaves the buffer with the next piece.
    (
        [Keeps(9, LOST), Takes(9)],
        [(FAILED, 1), (Ok(5), 1)],
        10,
        (BROKEN, 0),
    ),
    (
        [Takes(3), Keeps(9, LOST)],
        [(Ok(3), 0), (FAILED, 1)],
        3,
        (BROKEN, 3),
    ),
    (
        [Keeps(0, LOST), Takes(9)],
        [(FAILED, 1), (Ok(5), 1)],
        5,
        (BROKEN, 0),
    ),
    (
        [Keeps(9, SIGNAL), Keeps(9, LOST)],
        [(FAILED, 1), (FAILED, 2)],
        0,
        (BROKEN, 0),
    ),
];

/// Writes twice, and then a whole piece over the same writer from its first call on.
fn check_all(rt: &(impl Abort + AllocGlobal), rows: &[Row]) {
    for (turns, answers, out, (end, end_out)) in rows {
        let mut writer = Scripted::new(*turns);
        let mut sink = StreamSink::new(&mut writer);
        for (answer, faults) in answers {
            assert_eq!(rt; sink.write(b"hello"), *answer, "{turns:?}");
            assert_eq!(rt; sink.faults(), *faults, "{turns:?}");
        }
        assert_eq!(rt; writer.out, *out, "{turns:?}");
        let mut writer = Scripted::new(*turns);
        let mut sink = StreamSink::new(&mut writer);
        assert_eq!(rt; write_all(&mut sink, b"hello"), *end, "{turns:?}");
        assert_eq!(rt; writer.out, *end_out, "{turns:?}");
    }
}

#[test]
fn a_write_ends_as_the_writers_calls_do(rt: HostRuntime) {
    check_all(&rt, &ROWS);
}
