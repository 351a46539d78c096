//! What stands next in a column: a page, or its end.

ghost use Rattle.std.specs.Prelude.{◌≡◌, ◌≢◌, ℕ, ◌+◌, ◌*◌, ◌%◌, ◌<◌, ◌≤◌, ◌⊎◌, [], ◌++◌, Bool, Err, IfErr, IfOk, List, OnErr, OnOk, length, take, true, false};
ghost use Rattle.fastlanes_format.specs.Format.{IsEnd, IsPage, head_len, longest_page, number_at, values_of};
ghost use Rattle.fastlanes_format.specs.Next.{IsNext};
ghost use Rattle.fastlanes_pages.specs.Shortest.{page_most};
ghost use Rattle.fastlanes_streams.specs.Stream.{Gives};
ghost use Rattle.fastlanes_column_streams.specs.Failures.{failed_reads};
ghost use Rattle.fastlanes_column_streams.specs.Refusals.{AreNoPages, IsReadError, IsRefusal, LacksRoom, Refuses};
ghost use Rattle.fastlanes_column_streams.specs.Transfer.{GivesFound, IsFound};

use crate::error::{StreamError, behind};
use crate::transfer::fill;
use fastlanes_format::{Flaw, FormatError, Next, check_next, check_page};
use fastlanes_streams::ByteIn;

/// How many pages a column has at most: each but the last has 65536 values, and all have fewer than 2^64.
pub const PAGES_MOST: u64 = 1 << 48;

/// How many bytes a page or an end has, by its first bytes.
fn declared_len(bytes: &[u8]) -> usize
    requires { 16 ≤ length bytes.now }
    ensures value { result ≡ 16 + number_at 4 bytes.now 8 }
{
    16 + u32::from_le_bytes([bytes[8], bytes[9], bytes[10], bytes[11]]) as usize
}

/// Reads the head of a page or of an end, and as many bytes as it says, and answers how many came. Fails with `Length` if it says more
/// than the longest page has, and with `Room` if it says more than there is room for.
fn read_next<I: ByteIn>(
    input: &mut I,
    bits: usize,
    place: usize,
    bytes: &mut [u8],
) -> Result<usize, StreamError>
    requires failures { I.failures input.old < u32.MAX }
    requires bits { bits ≤ 64 }
    requires room { 24 ≤ length bytes.old }
    ensures never_write_failed { result ≢ Err StreamError.WriteFailed }
    ensures failed_reads { I.failures input.new ≡ I.failures input.old + failed_reads result }
    ensures within { IfOk result (λ count. count ≤ length bytes.new) }
    ensures no_more { IfOk result (λ count. 16 ≤ count → count ≤ 16 + number_at 4 bytes.new 8) }
    ensures gives { I.tells → IfOk result (λ count.
        Gives (I.source input.old) (take count bytes.new) (I.source input.new)) }
    // Fewer bytes than the head says come only at the end of the source.
    ensures ended { I.tells → IfOk result (λ count.
        count < head_len (take count bytes.new) → (I.source input.new).left ≡ []) }
    ensures errors { IfErr result (λ e. IsReadError e) }
    ensures refuses { I.tells → IfErr result (λ e. Refuses e
        ((longest_page bits < head_len (I.source input.old).left)
        ⊎ LacksRoom bits (length bytes.old) (I.source input.old).left)) }
    ensures too_long { I.tells → IfErr result (λ e.
        longest_page bits < head_len (I.source input.old).left
        → IsRefusal Flaw.Length (place + 8) e) }
    ensures lacks_room { I.tells → IfErr result (λ e.
        LacksRoom bits (length bytes.old) (I.source input.old).left
        → IsRefusal Flaw.Room (place + 8) e) }
    ensures fits { I.tells → OnOk result (16 ≤ length (I.source input.old).left
        → (head_len (I.source input.old).left ≤ longest_page bits)
        × (head_len (I.source input.old).left ≤ length bytes.old)) }
{
    let head = fill(input, &mut bytes[..16])?;
    if head < 16 {
        return Ok(head);
    }
    let len = declared_len(bytes);
    if len > page_room(bits) {
        return Err(StreamError::Refused(behind(Flaw::Length.at(8), place)));
    }
    if len > bytes.len() {
        return Err(StreamError::Refused(behind(Flaw::Room.at(8), place)));
    }
    let rest = fill(input, &mut bytes[16..len])?;
    Ok(16 + rest)
}

/// Reads one byte more than an end has: there is none where the source ends with the column.
fn read_behind<I: ByteIn>(input: &mut I, place: usize) -> Result<(), StreamError>
    requires { I.failures input.old < u32.MAX }
    ensures never_write_failed { result ≢ Err StreamError.WriteFailed }
    ensures failed_reads { I.failures input.new ≡ I.failures input.old + failed_reads result }
    ensures nothing { I.tells → OnOk result (Gives (I.source input.old) [] (I.source input.new)) }
    ensures ended { I.tells → OnOk result ((I.source input.new).left ≡ []) }
    ensures errors { IfErr result (λ e. IsReadError e) }
    ensures trailing { I.tells → IfErr result (λ e. Refuses e ((I.source input.old).left ≢ [])) }
    ensures error { IfErr result (λ e. IsRefusal Flaw.Trailing (place + 24) e) }
{
    let mut next = [0];
    let count = fill(input, &mut next)?;
    if count > 0 {
        return Err(StreamError::Refused(behind(Flaw::Trailing.at(24), place)));
    }
    Ok(())
}

/// Whether bytes are as many as the head of a page says, which may stand behind so many values.
fn is_whole_page(bytes: &[u8], before: u128) -> bool
    ensures page { result ≡ true → (length bytes.now ≡ head_len bytes.now) × (before % 65536 ≡ 0) }
    ensures some { result ≡ true → values_of bytes.now ≢ 0 }
    ensures other { result ≡ false → length bytes.now ≡ head_len bytes.now → values_of bytes.now ≢ 0
        → before % 65536 ≢ 0 }
{
    if bytes.len() < 16 {
        return false;
    }
    let values = u32::from_le_bytes([bytes[4], bytes[5], bytes[6], bytes[7]]);
    declared_len(bytes) == bytes.len() && values != 0 && before % 65536 == 0
}

/// Looks at all of a page or of an end, which follows pages of so many values.
fn check_whole(bytes: &[u8], bits: usize, before: u128, checked: bool) -> Result<Next, FormatError>
    requires bits { bits ≤ 64 }
    requires no_more { length bytes.now ≤ head_len bytes.now }
    ensures next { IfOk result (λ next. IsNext bits checked before bytes.now next) }
    ensures other { OnErr result ((rest : List ℕ)
        → (length bytes.now < head_len bytes.now → rest ≡ [])
        → AreNoPages bits checked before (bytes.now ++ rest)) }
{
    if is_whole_page(bytes, before) {
        let values = check_page(bytes, bits, checked)?;
        return Ok(Next::Page(bytes.len(), values));
    }
    check_next(bytes, bits, before, checked)
}

/// Reads what stands next in a column, behind pages of so many values, and looks at all of it: a page, which then stands at the
/// start of `bytes`, or the end, with which the source has to end too. Fails with `Room` if `bytes` is shorter than a page.
pub fn next_page<I: ByteIn>(
    input: &mut I,
    bits: usize,
    checked: bool,
    before: u128,
    place: usize,
    bytes: &mut [u8],
) -> Result<Next, StreamError>
    requires failures { I.failures input.old < u32.MAX }
    requires bits { bits ≤ 64 }
    requires room { 24 ≤ length bytes.old }
    ensures never_write_failed { result ≢ Err StreamError.WriteFailed }
    ensures failed_reads { I.failures input.new ≡ I.failures input.old + failed_reads result }
    ensures found { IfOk result (λ next. IsFound bits checked before bytes.new next) }
    ensures gives { I.tells → IfOk result (λ next.
        GivesFound checked before (I.source input.old) bytes.new (I.source input.new) next) }
    ensures errors { IfErr result (λ e. IsReadError e) }
    // It refuses only what is not pages and the end, and a page for which there is no room.
    ensures refuses { I.tells → IfErr result (λ e. Refuses e
        (AreNoPages bits checked before (I.source input.old).left
        ⊎ LacksRoom bits (length bytes.old) (I.source input.old).left)) }
    // A length that no page has, one for which there is no room, and bytes behind the end.
    ensures too_long { I.tells → 16 ≤ length (I.source input.old).left
        → longest_page bits < head_len (I.source input.old).left
        → IfErr result (λ e. IsRefusal Flaw.Length (place + 8) e) }
    ensures lacks_room { I.tells → 16 ≤ length (I.source input.old).left
        → LacksRoom bits (length bytes.old) (I.source input.old).left
        → IfErr result (λ e. IsRefusal Flaw.Room (place + 8) e) }
    ensures trailing { I.tells → (end rest : List ℕ) → IsEnd checked before end
        → end ++ rest ≡ (I.source input.old).left
        → IfErr result (λ e. IsRefusal Flaw.Trailing (place + 24) e) }
{
    let count = read_next(input, bits, place, bytes)?;
    match check_whole(&bytes[..count], bits, before, checked) {
        Ok(Next::Page(len, values)) => Ok(Next::Page(len, values)),
        Ok(Next::End(all)) => {
            read_behind(input, place)?;
            Ok(Next::End(all))
        }
        Err(e) => Err(StreamError::Refused(behind(e, place))),
    }
}

/// How many bytes the longest page of elements of so many bits has. An end has fewer.
pub fn page_room(bits: usize) -> usize
    requires { bits ≤ 64 }
    ensures value { result ≡ longest_page bits }
    ensures some { 24 ≤ result }
    // A page that is written is not longer.
    ensures written { page_most bits 65536 ≤ result }
    ensures longest { (checked : Bool) (page : List ℕ) → IsPage bits checked page
        → length page ≤ result }
{
    16 + 64 * (16 + 128 * (bits + 1))
}
