//! Input that is read whole.
ghost use Rattle.std.specs.Prelude.{◌≡◌, ◌⊎◌, ◌≤◌, ◌+◌, vec_len, IfOk, IfErr, OnOk, IsErrOf};
ghost use Rattle.std.specs.Io.KnownBytes.{IsAtEnd};
ghost use Rattle.feed_http.specs.Device.{HasFailed, Moved};
ghost use Rattle.feed_commands.specs.Check.{IsWhole, IsWholeWithin, InputFails, FailsWithin};

use crate::fault::Fault;
use feed_http::device::FeedRead;
use feed_http::head_reading::READ_BYTES;
use std::alloc::Global;

/// The most bytes of an input that is read whole.
pub const INPUT_BYTES: usize = 67_108_864;

/// Makes one read of at most 4,096 bytes, adds what it gave, and answers how much that was: none at
/// the end alone.
fn read_piece<R: FeedRead>(reader: &mut R, bytes: &mut Vec<u8>) -> Result<usize, Fault>
    ensures given { OnOk result (Moved (R.remaining reader.old) (R.remaining reader.new)
        bytes.old.items bytes.new.items) }
    ensures grown { IfOk result (λ n. vec_len bytes.new ≡ vec_len bytes.old + n) }
    ensures piece { IfOk result (λ n. n ≤ READ_BYTES) }
    ensures end { IfOk result (λ n. n ≡ 0 → IsAtEnd (R.remaining reader.new)) }
    ensures failed { IsErrOf result Fault.Read
        → HasFailed (R.failures reader.old) (R.failures reader.new) }
    ensures faults { IfErr result (λ why. (why ≡ Fault.Read) ⊎ (why ≡ Fault.Memory)) }
    ensures quiet { ¬ (IsErrOf result Fault.Read)
        → R.failures reader.new ≡ R.failures reader.old }
{
    let mut piece = [0u8; READ_BYTES];
    let Ok(count) = reader.read_some(&mut piece) else {
        return Err(Fault::Read);
    };
    bytes.extend_from_slice(&piece[..count])?;
    Ok(count)
}

/// Reads the input to its end, at most 67,108,864 bytes.
pub(crate) fn read_input<R: FeedRead>(alloc: Global, input: &mut R) -> Result<Vec<u8>, Fault>
    ensures ok { IfOk result (λ bytes.
        IsWhole (R.remaining input.old) (R.remaining input.new) bytes.items) }
    ensures err { IfErr result (λ why.
        InputFails why (R.remaining input.old) (R.remaining input.new)) }
    ensures read { IsErrOf result Fault.Read
        → HasFailed (R.failures input.old) (R.failures input.new) }
    ensures quiet { ¬ (IsErrOf result Fault.Read)
        → R.failures input.new ≡ R.failures input.old }
{
    read_within(alloc, INPUT_BYTES, input)
}

/// Reads an input to its end, at most so many bytes.
pub(crate) fn read_within<R: FeedRead>(
    alloc: Global,
    most: usize,
    input: &mut R,
) -> Result<Vec<u8>, Fault>
    ensures ok { IfOk result (λ bytes.
        IsWholeWithin most (R.remaining input.old) (R.remaining input.new) bytes.items) }
    ensures err { IfErr result (λ why.
        FailsWithin most why (R.remaining input.old) (R.remaining input.new)) }
    ensures read { IsErrOf result Fault.Read
        → HasFailed (R.failures input.old) (R.failures input.new) }
    ensures quiet { ¬ (IsErrOf result Fault.Read)
        → R.failures input.new ≡ R.failures input.old }
{
    let mut bytes = Vec::new(alloc);
    'pieces: while bytes.len() <= most {
        if read_piece(input, &mut bytes)? == 0 {
            return Ok(bytes);
        }
    }
    Err(Fault::TooLong)
}
