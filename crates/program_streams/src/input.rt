//! The bytes of a stream, read to its end or past a limit.

ghost use Rattle.std.specs.Prelude.{◌≡◌, ◌≤◌, ◌<◌, ◌+◌, ◌^◌, [], IfOk, IsErrOf, IsFalse, IsTrue, OnOk, vec_len};
ghost use Rattle.std.specs.Io.KnownBytes.{IsAtEnd, prepend_known};
ghost use Rattle.tm_io.specs.Faults.{Rose};
ghost use Rattle.program_streams.specs.Statuses.{unread_status};
ghost use Rattle.program_streams.specs.Streams.{IsRead};
ghost use Rattle.program_streams.specs.reading.Pieces.{ReadsMore};

use crate::statuses::Status;
use std::alloc::Global;
use tm_io::{Failed, Source};

/// Why the bytes of a stream could not be had.
#[derive(Clone, Copy)]
pub enum InputError {
    /// The stream failed.
    Failed,
    /// Memory ran out.
    NoMemory,
}

/// The status of a program whose stream could not be read.
pub fn unread(error: InputError) -> Status
    ensures { result ≡ unread_status error }
{
    match error {
        InputError::Failed => Status::ReadFault,
        InputError::NoMemory => Status::NoMemory,
    }
}

/// How many bytes a read asks for at most.
const PIECE: usize = 4096;

/// Reads one piece more behind the bytes, up to `most` of them, and says whether the stream has ended.
fn read_piece<S: Source>(
    source: &mut S,
    bytes: &mut Vec<u8>,
    most: usize,
) -> Result<bool, InputError>
    requires { vec_len bytes.old < most }
    ensures read { OnOk result (ReadsMore (S.left source.old) (S.left source.new) bytes.old.items bytes.new.items) }
    ensures end { IfOk result (λ ended. IsTrue ended → IsAtEnd (S.left source.new)) }
    ensures more { IfOk result (λ ended. IsFalse ended → vec_len bytes.old < vec_len bytes.new) }
    ensures most { OnOk result (vec_len bytes.new ≤ most) }
    ensures same { OnOk result (S.faults source.new ≡ S.faults source.old) }
    ensures failed { IsErrOf result InputError.Failed → Rose (S.faults source.old) (S.faults source.new) }
    ensures no_memory { IsErrOf result InputError.NoMemory → S.faults source.new ≡ S.faults source.old }
{
    let mut buffer = [0; PIECE];
    let room = PIECE.min(most - bytes.len());
    match source.read(&mut buffer[..room]) {
        Ok(0) => Ok(true),
        Ok(count) => match bytes.extend_from_slice(&buffer[..count]) {
            Ok(()) => Ok(false),
            Err(_) => Err(InputError::NoMemory),
        },
        Err(Failed) => Err(InputError::Failed),
    }
}

/// Reads behind the bytes, which are none at first, until the stream ends or they are `most`.
pub fn read_whole<S: Source>(
    source: &mut S,
    bytes: &mut Vec<u8>,
    most: usize,
) -> Result<(), InputError>
    requires { bytes.old.items ≡ [] }
    ensures read { OnOk result (IsRead (S.left source.old) (S.left source.new) most bytes.new.items) }
    ensures same { OnOk result (S.faults source.new ≡ S.faults source.old) }
    ensures failed { IsErrOf result InputError.Failed → Rose (S.faults source.old) (S.faults source.new) }
    ensures no_memory { IsErrOf result InputError.NoMemory → S.faults source.new ≡ S.faults source.old }
{
    while bytes.len() < most {
        if read_piece(source, bytes, most)? {
            return Ok(());
        }
    }
    Ok(())
}
