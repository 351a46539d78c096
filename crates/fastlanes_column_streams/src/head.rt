//! The head of a column from a source.

ghost use Rattle.std.specs.Prelude.{◌≡◌, ◌≢◌, ◌+◌, ◌<◌, Err, IfErr, IfOk};
ghost use Rattle.fastlanes_format.specs.Format.{IsElementSize};
ghost use Rattle.fastlanes_column_streams.specs.Failures.{failed_reads};
ghost use Rattle.fastlanes_column_streams.specs.Refusals.{HaveNoHead, IsReadError, Refuses};
ghost use Rattle.fastlanes_column_streams.specs.Transfer.{GivesHead};

use crate::error::StreamError;
use crate::transfer::fill;
use fastlanes_format::{element_bits, open_head};
use fastlanes_streams::ByteIn;

/// What the head of a column says.
#[derive(Clone, Copy, PartialEq, Eq, Debug)]
pub struct ColumnHead {
    /// How many bits an element has.
    pub bits: usize,
    /// Whether each page has a checksum.
    pub checked: bool,
}

/// Reads the head of a column, whatever its elements are.
pub fn read_head<I: ByteIn>(input: &mut I) -> Result<ColumnHead, StreamError>
    requires { I.failures input.old < u32.MAX }
    ensures never_write_failed { result ≢ Err StreamError.WriteFailed }
    ensures failed_reads { I.failures input.new ≡ I.failures input.old + failed_reads result }
    ensures size { IfOk result (λ head. IsElementSize head.bits) }
    ensures gives { I.tells → IfOk result (λ head.
        GivesHead head.bits head.checked (I.source input.old) (I.source input.new)) }
    ensures errors { IfErr result (λ e. IsReadError e) }
    ensures refuses { I.tells → IfErr result (λ e.
        Refuses e (HaveNoHead (I.source input.old).left)) }
{
    let mut bytes = [0; 8];
    let count = fill(input, &mut bytes)?;
    let head = &bytes[..count];
    // Bytes that say no element size are refused as bytes of any other.
    let bits = element_bits(head).unwrap_or(8);
    match open_head(head, bits) {
        Ok(checked) => Ok(ColumnHead { bits, checked }),
        Err(e) => Err(StreamError::Refused(e)),
    }
}
