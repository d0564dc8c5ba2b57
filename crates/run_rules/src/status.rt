ghost use Rattle.std.specs.Prelude.{◌≡◌};

/// How the program ends.
#[derive(Clone, Copy, Debug, PartialEq, Eq)]
pub enum Status {
    /// The run ended well.
    Passed,
    /// The words ask for nothing that there is.
    Words,
    /// The testbench is refused.
    Source,
    /// The netlist is refused.
    Netlist,
    /// A signal doesn't link to the nets of the netlist.
    Link,
    /// The run ended by a fault.
    Fault,
    /// A slice's budget of ticks, or a cycle's of turns, was spent.
    Spent,
    /// A file could not be read.
    ReadFault,
    /// The answer could not be written whole.
    WriteFault,
    /// There was too little memory. Nothing is written.
    NoMemory,
    /// A file has more bytes than a file may have.
    TooLong,
}

impl Status {
    ghost use Rattle.run_rules.specs.Statuses.{number_of};

    /// The exit status of the program.
    pub fn number(self) -> u8
        ensures { result ≡ number_of self }
    {
        match self {
            Status::Passed => 0,
            Status::Words => 2,
            Status::Source => 3,
            Status::Netlist => 4,
            Status::Link => 5,
            Status::Fault => 6,
            Status::Spent => 7,
            Status::ReadFault => 8,
            Status::WriteFault => 9,
            Status::NoMemory => 10,
            Status::TooLong => 12,
        }
    }
}
