//! The statuses with which a call ends.

ghost use Rattle.std.specs.Prelude.{◌≡◌};
ghost use Rattle.oss_top.specs.Statuses.{number_of};

/// How a call ended.
#[derive(Clone, Copy)]
pub enum Status {
    /// The command is done: a check accepted its file, or a program ran to its end, in a replay too.
    Done,
    /// The program ran into a fault.
    Fault,
    /// The words are no command with its operands.
    WordsRefused,
    /// A file is too long, or its text is no program, or no schedule.
    TextRefused,
    /// A file could not be read.
    Unread,
    /// An output could not be written whole.
    Unwritten,
    /// Memory was wanting.
    OutOfMemory,
    /// A schedule was not replayed to the end of its program: a move is not enabled, or one is left behind all of them.
    NotReplayed,
}

impl Status {
    /// The number of the status, from 0 to 7.
    pub fn number(self) -> u8
        ensures { result ≡ number_of self }
    {
        match self {
            Status::Done => 0,
            Status::Fault => 1,
            Status::WordsRefused => 2,
            Status::TextRefused => 3,
            Status::Unread => 4,
            Status::Unwritten => 5,
            Status::OutOfMemory => 6,
            Status::NotReplayed => 7,
        }
    }
}
