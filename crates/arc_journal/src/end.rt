//! How the calls of a journal end badly, and what is wrong with an image.
ghost use Rattle.std.specs.Prelude.{◌≡◌};
ghost use Rattle.arc_journal.specs.Faults.{end_of};

/// How opening a journal ended badly.
#[derive(Clone, Copy, Debug, PartialEq, Eq)]
pub enum JournalEnd {
    /// The disk failed: its count of faults rose.
    Disk,
    /// The bytes are no journal of this node. `place` is that of the first wrong byte of the head, or the length of the
    /// image where its head is cut, or else that of the gate of the first entry that isn't one.
    NotOurs {
        place: u64,
    },
    /// The digest that stands behind an entry's body isn't that of the body. `place` is that of the entry's gate.
    Rotten {
        place: u64,
        stored: [u8; 32],
        computed: [u8; 32],
    },
    /// There was no memory left.
    Memory,
}

impl JournalEnd {
    /// An opening ends with a fault of the bytes.
    pub(crate) fn of(fault: ImageFault) -> JournalEnd
        ensures { result ≡ end_of fault }
    {
        match fault {
            ImageFault::NotOurs { place } => JournalEnd::NotOurs { place },
            ImageFault::Rotten {
                place,
                stored,
                computed,
            } => JournalEnd::Rotten {
                place,
                stored,
                computed,
            },
        }
    }
}

/// What is wrong with the bytes of an image.
#[derive(Clone, Copy)]
pub enum ImageFault {
    /// The bytes are no journal. `place` is that of the first wrong byte of the head, or the length of the image where its
    /// head is cut, or else that of the gate of the first entry that isn't one.
    NotOurs {
        place: u64,
    },
    /// The digest that stands behind an entry's body isn't that of the body. `place` is that of the entry's gate.
    Rotten {
        place: u64,
        stored: [u8; 32],
        computed: [u8; 32],
    },
}

/// How an append ended badly.
#[derive(Clone, Copy, Debug, PartialEq, Eq)]
pub enum AppendEnd {
    /// The disk failed: its count of faults rose. Whether the entry is on the disk is in doubt, and nothing more may be
    /// appended to this journal.
    Disk,
    /// The journal has as many entries as it takes.
    Full { count: u32 },
    /// There was no memory left. The journal is as it was.
    Memory,
}
