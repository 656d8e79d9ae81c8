//! How a call of a program ends.

ghost use Rattle.std.specs.Prelude.{◌≡◌};
ghost use Rattle.program_streams.specs.Statuses.{status_number};

/// How a call of a program ends. The numbers are those with which the program ends.
#[derive(Clone, Copy, PartialEq, Eq)]
pub enum Status {
    /// What was read is accepted, and has no alarm.
    NoAlarm = 0,
    /// What was read is accepted, and has alarms.
    Alarms = 1,
    /// What was read is refused.
    Refused = 2,
    /// The words are no command.
    Usage = 3,
    /// A source failed to be read.
    ReadFault = 4,
    /// A sink failed to take the text.
    WriteFault = 5,
    /// Memory ran out.
    NoMemory = 6,
}

impl Status {
    /// The number with which the program ends, from 0 to 6.
    pub fn number(self) -> u8
        ensures { result ≡ status_number self }
    {
        self as u8
    }
}
