//! How a run of the service ended.
ghost use Rattle.std.specs.Prelude.{◌≡◌};
ghost use Rattle.apply_service.specs.ExitCodes.{exit_code};

/// How a run of the service ended.
#[derive(Clone, Copy, Debug, PartialEq, Eq, Drop)]
pub enum Status {
    /// The input was read to its end, and every line answered.
    Served,
    /// The words do not meet the command.
    Usage,
    /// The model file is refused.
    ModelRefused,
    /// The data file is refused.
    DataRefused,
    /// A read of the input or of a file failed.
    ReadFault,
    /// A write to the output failed.
    WriteFault,
    /// Memory ran out before anything was written.
    Memory,
    /// The input has more bytes than its limit.
    InputLimit,
}

impl Status {
    /// The number that a program ends with.
    pub fn number(self) -> u8
        ensures value { result ≡ exit_code self }
    {
        match self {
            Status::Served => 0,
            Status::Usage => 1,
            Status::ModelRefused => 2,
            Status::DataRefused => 3,
            Status::ReadFault => 4,
            Status::WriteFault => 5,
            Status::Memory => 6,
            Status::InputLimit => 7,
        }
    }
}
