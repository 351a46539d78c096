//! The first bytes of a column.

ghost use Rattle.std.specs.Prelude.{◌≡◌, ℕ, ◌≤◌, Bool, IfErr, IfOk, IfSome, OnErr, Some, drop, length, take};
ghost use Rattle.fastlanes_format.specs.Errors.{error_of, header_error};
ghost use Rattle.fastlanes_format.specs.Format.{IsColumnHead, IsElementSize};

use crate::flaw::{Flaw, FormatError};
use crate::numbers::number_of_four;

/// 'F', 'L', 'C' and the version 1, as a number.
const NAME: u32 = 0x0143_4C46;
/// The byte that says that pages have checksums.
const CHECKSUMS: u8 = 3;

/// Looks at the first eight bytes of a column whose elements have so many bits, and answers whether each page has a checksum.
pub fn open_head(bytes: &[u8], bits: usize) -> Result<bool, FormatError>
    requires { IsElementSize bits }
    ensures head { IfOk result (λ checked. IsColumnHead bits checked (take 8 bytes.now)) }
    ensures other { OnErr result ((checked : Bool) → ¬ (IsColumnHead bits checked (take 8 bytes.now))) }
    ensures error { error_of result ≡ header_error bits bytes.now }
    ensures within { IfErr result (λ e. e.at ≤ length bytes.now) }
{
    if bytes.len() < 8 {
        return Err(Flaw::Cut.at(bytes.len()));
    }
    check_head_of_column(&bytes[..8], bits)
}

/// Looks at the eight bytes.
fn check_head_of_column(head: &[u8], bits: usize) -> Result<bool, FormatError>
    requires length { length head.now ≡ 8 }
    requires bits { IsElementSize bits }
    ensures head { IfOk result (λ checked. IsColumnHead bits checked head.now) }
    ensures other { OnErr result ((checked : Bool) → ¬ (IsColumnHead bits checked head.now)) }
    ensures error { error_of result ≡ header_error bits head.now }
    ensures within { IfErr result (λ e. e.at ≤ 8) }
{
    if number_of_four(head, 0) != NAME as usize {
        return Err(Flaw::Name.at(0));
    }
    if head[4] as usize != bits {
        return Err(Flaw::Element.at(4));
    }
    if head[5] != 0 && head[5] != CHECKSUMS {
        return Err(Flaw::Checks.at(5));
    }
    if head[6] != 0 || head[7] != 0 {
        return Err(Flaw::Spare.at(6));
    }
    Ok(head[5] == CHECKSUMS)
}

/// How many bits the elements of a column have, by its first eight bytes: 8, 16, 32 or 64, where they are such.
pub fn element_bits(bytes: &[u8]) -> Option<usize>
    ensures some { IfSome result (λ bits. IsElementSize bits) }
    ensures bits { (bits : ℕ) (checked : Bool) → IsColumnHead bits checked (take 8 bytes.now) → result ≡ Some bits }
{
    if bytes.len() < 8 {
        return None;
    }
    match bytes[4] {
        8 | 16 | 32 | 64 => Some(bytes[4] as usize),
        _ => None,
    }
}

/// Puts the first eight bytes of a column.
pub fn put_column_head(bytes: &mut [u8], bits: u8, checked: bool)
    requires inside { 8 ≤ length bytes.old }
    requires size { IsElementSize bits }
    ensures head { IsColumnHead bits checked (take 8 bytes.new) }
    ensures behind { drop 8 bytes.new ≡ drop 8 bytes.old }
{
    let checks = if checked { CHECKSUMS } else { 0 };
    let head = [b'F', b'L', b'C', 1, bits, checks, 0, 0];
    for i in 0..8 {
        bytes[i] = head[i];
    }
}
