// How a run ended.
ghost use Rattle.std.specs.Prelude.{◌≡◌};

/// How a run ended.
#[derive(Clone, Copy, Debug, PartialEq, Eq)]
pub enum Status {
    /// Every function of the report is exhaustive.
    Clean,
    /// The report has a function that is refused or not exhaustive.
    Found,
    /// The words have none of the forms. Nothing was read or written.
    Words,
    /// The source is refused as a whole, and the refusal was written.
    Refused,
    /// A file could not be begun or read. Nothing was written.
    ReadFault,
    /// The output could not be written to its end. What was written is a front of it.
    WriteFault,
    /// Memory was wanted and refused. Nothing was written.
    NoMemory,
}

impl Status {
    ghost use Rattle.match_top.specs.Statuses.{status_number};

    /// The number with which the program ends, from 0 to 6.
    pub fn number(self) -> u8
        ensures { result ≡ status_number self }
    {
        match self {
            Status::Clean => 0,
            Status::Found => 1,
            Status::Words => 2,
            Status::Refused => 3,
            Status::ReadFault => 4,
            Status::WriteFault => 5,
            Status::NoMemory => 6,
        }
    }
}
