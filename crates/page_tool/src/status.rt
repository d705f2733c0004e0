ghost use Rattle.std.specs.Prelude.{◌≡◌};
ghost use Rattle.page_tool.specs.Codes.{code_of, status_for};

use crate::stop::CommandStop;

/// How a command ended.
#[derive(Clone, Copy, Debug, PartialEq, Eq)]
pub enum Status {
    /// The command did all of its work.
    Ok,
    /// The files of the directory are no set.
    SetRefused,
    /// The words are those of no command.
    Usage,
    /// The execution met a fault.
    ExecFault,
    /// The input is no data.
    DataRefused,
    /// The folder or the input failed.
    ReadFault,
    /// The output failed.
    WriteFault,
    /// The net failed.
    NetFault,
    /// The spawner failed.
    SpawnFault,
    /// A place for a viewer was refused.
    SeatFault,
    /// No root has the name.
    NoTemplate,
    /// Out of memory.
    Memory,
}

impl Status {
    /// The number that a program ends with.
    pub fn code(self) -> u8
        ensures { result ≡ code_of self }
    {
        match self {
            Status::Ok => 0,
            Status::SetRefused => 1,
            Status::Usage => 2,
            Status::ExecFault => 3,
            Status::DataRefused => 4,
            Status::ReadFault => 5,
            Status::WriteFault => 6,
            Status::NetFault => 7,
            Status::SpawnFault => 8,
            Status::SeatFault => 9,
            Status::NoTemplate => 10,
            Status::Memory => 11,
        }
    }
}

/// The status of a command that stopped.
pub fn status_of(stop: &CommandStop) -> Status
    ensures { result ≡ status_for stop.now }
{
    match stop {
        CommandStop::Set(_) => Status::SetRefused,
        CommandStop::Fault(_) => Status::ExecFault,
        CommandStop::Data(_) => Status::DataRefused,
        CommandStop::Read => Status::ReadFault,
        CommandStop::Write => Status::WriteFault,
        CommandStop::NoTemplate => Status::NoTemplate,
        CommandStop::Memory => Status::Memory,
    }
}
