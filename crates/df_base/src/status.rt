ghost use Rattle.std.specs.Prelude.{◌≡◌};

/// How a call of the program ended: its exit status.
#[derive(Clone, Copy, PartialEq, Eq)]
pub enum Status {
    /// 0: accepted, or the run ended.
    Done,
    /// 1: an obligation is not proved.
    Unproved,
    /// 2: the words are no command.
    Usage,
    /// 3: the source is refused.
    Refused,
    /// 4: a file was not read.
    Unread,
    /// 5: a text was not written.
    Unwritten,
    /// 6: memory was refused.
    Memory,
    /// 7: the fuel is spent.
    FuelSpent,
    /// 8: the program does not compile.
    NotCompilable,
    /// 9: there is no entry.
    NoMain,
    /// 10: a log is refused.
    BadLog,
}

impl Status {
    ghost use Rattle.df_base.specs.Status.{code_of};

    /// The exit status.
    pub fn code(&self) -> u8
        ensures { result ≡ code_of self.now }
    {
        match self {
            Status::Done => 0,
            Status::Unproved => 1,
            Status::Usage => 2,
            Status::Refused => 3,
            Status::Unread => 4,
            Status::Unwritten => 5,
            Status::Memory => 6,
            Status::FuelSpent => 7,
            Status::NotCompilable => 8,
            Status::NoMain => 9,
            Status::BadLog => 10,
        }
    }
}
