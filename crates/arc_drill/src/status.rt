//! How a drill ends.
ghost use Rattle.std.specs.Prelude.{◌≡◌};
ghost use Rattle.arc_drill.specs.Status.{exit_status};

/// How a drill ended. Its number is the exit status of the program.
#[derive(Clone, Copy, Debug, PartialEq, Eq)]
pub enum Status {
    /// The script was read to its end, and every step was done and reported: 0.
    Done,
    /// The source failed; nothing was written: 3.
    SourceFailed,
    /// The sink failed; a prefix of the report, or of the line on a bad script, went out: 4.
    SinkFailed,
    /// There was no memory left; whole lines of the report went out: 5.
    Memory,
    /// The text is no script; one line says where: 6.
    BadScript,
    /// The disk failed while the node was created; nothing was written: 7.
    DiskFailed,
}

impl Status {
    /// The exit status.
    pub fn number(self) -> u8
        ensures { result ≡ exit_status self }
    {
        match self {
            Status::Done => 0,
            Status::SourceFailed => 3,
            Status::SinkFailed => 4,
            Status::Memory => 5,
            Status::BadScript => 6,
            Status::DiskFailed => 7,
        }
    }
}
