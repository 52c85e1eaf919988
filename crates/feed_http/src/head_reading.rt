//! Reads of a request's head.
ghost use Rattle.std.specs.Prelude.{◌≡◌, ◌⊎◌, ◌<◌, ◌≤◌, ℕ, List, [], ◌++◌, length, IsTrue, IfOk, IfErr, OnOk, OnErr, IsErrOf};
ghost use Rattle.std.specs.Io.KnownBytes.{Consumes, IsAtEnd};
ghost use Rattle.feed_http.specs.declared.fault.EngineFault.{EngineFault as Fault};
ghost use Rattle.feed_http.specs.Device.{counted, RoseAtMost};
ghost use Rattle.feed_http.specs.Exchange.{gave_by, failed_reads_after};
ghost use Rattle.feed_http.specs.HeadReading.{read_bytes, most_after, IsReadAsNeeded, IsStillNeeded, IsEnough, HeadEnds};

use crate::device::FeedRead;
use crate::fault::EngineFault;
use feed_answer::{HEAD_BYTES, HeadRead, look_at_request};

/// The most bytes of one read.
pub const READ_BYTES: usize = 4096;

/// How many bytes the next read of a request's head may ask for at most, after so many bytes of it:
/// 1 to 4,096, not past the most that a head may have, and one byte from there on.
pub fn most_wanted(len: usize) -> usize
    ensures most { result ≡ most_after len }
    ensures some { 0 < result }
    ensures fits { result ≤ read_bytes }
{
    if len < HEAD_BYTES {
        READ_BYTES.min(HEAD_BYTES - len)
    } else {
        1
    }
}

/// Makes one read, adds what it gave, and answers how much that was.
#[tactic(auto, using(crate::proofs::DeviceLemmas::unread_nothing))]
fn read_piece<R: FeedRead>(reader: &mut R, bytes: &mut Vec<u8>) -> Result<usize, EngineFault>
    ensures given { IfOk result (λ n. (given : List ℕ) ×
        (bytes.new.items ≡ bytes.old.items ++ given)
        × (length given ≡ n) × (n ≤ most_after (length bytes.old.items))
        × Consumes (R.remaining reader.old) (R.remaining reader.new) given
        × (n ≡ 0 → IsAtEnd (R.remaining reader.new))) }
    ensures unread { IsErrOf result Fault.Read →
        Consumes (R.remaining reader.old) (R.remaining reader.new) [] }
    ensures reads { R.reads reader.new ≡ counted (R.reads reader.old) 1 }
    ensures kept { OnErr result (bytes.new.items ≡ bytes.old.items) }
    ensures failures { R.failures reader.new
        ≡ failed_reads_after (R.failures reader.old) result }
    ensures faults { IfErr result (λ fault. (fault ≡ Fault.Read) ⊎ (fault ≡ Fault.Memory)) }
{
    let mut piece = [0u8; READ_BYTES];
    let most = most_wanted(bytes.len());
    let Ok(n) = reader.read_some(&mut piece[..most]) else {
        return Err(EngineFault::Read);
    };
    bytes.extend_from_slice(&piece[..n])?;
    Ok(n)
}

/// Whether more bytes are to be read after these, the first of a request: they begin with no whole
/// head, and may go on to one within the limits. Else they are enough to be answered: a whole head,
/// too many, or bytes that no head begins with.
pub fn is_needed(bytes: &[u8]) -> bool
    ensures needed { IsTrue result → IsStillNeeded bytes.now }
    ensures enough { ¬ (IsTrue result) → IsEnough bytes.now }
{
    match look_at_request(bytes) {
        HeadRead::More => true,
        HeadRead::Whole(_) => false,
        HeadRead::TooLarge => false,
        HeadRead::Never => false,
    }
}

/// Reads the head of a request: until it is whole, is too large or never becomes one, or the reader
/// ends.
pub(crate) fn read_head<R: FeedRead>(
    reader: &mut R,
    bytes: &mut Vec<u8>,
    most_reads: u64,
) -> Result<(), EngineFault>
    requires { bytes.old.items ≡ [] }
    ensures ends { let gave = gave_by R.remaining R.reads R.failures reader.old reader.new in
        HeadEnds most_reads gave bytes.new.items result }
    ensures failures { R.failures reader.new
        ≡ failed_reads_after (R.failures reader.old) result }
    ensures needed { IsReadAsNeeded bytes.new.items }
    ensures reads { RoseAtMost (R.reads reader.old) (R.reads reader.new) most_reads }
{
    let mut made: u64 = 0;
    'pieces: while is_needed(bytes.as_slice()) {
        if made == most_reads {
            return Err(EngineFault::TooManyReads);
        }
        made += 1;
        if read_piece(reader, bytes)? == 0 {
            return Ok(());
        }
    }
    Ok(())
}
