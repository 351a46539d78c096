//! Single values of a column, as text.

ghost use Rattle.std.specs.Prelude.{◌≡◌, ◌+◌, ◌<◌, ◌≤◌, ℕ, All, IfErr, IfOk, OnOk, ⊤, length};
ghost use Rattle.flcolumn.specs.Columns.{FindsColumn, FindsRest, IsFirstMissing};
ghost use Rattle.fastlanes_streams.specs.Stream.{Delivers, Takes};
ghost use Rattle.flcolumn.specs.Runs.{GetsColumn, line_of, lines_of};
ghost use Rattle.flcolumn.specs.Failures.{CountFailures, MayFail, failed_reads, failed_writes};
ghost use Rattle.flcolumn.specs.Stops.{StopsFinding, StopsFindingRest, StopsWhereMemory};
ghost use Rattle.flcolumn.specs.declared.failure.Failure.{Failure};

use crate::failure::Failure;
use crate::streams::Streams;
use fastlanes_column_streams::{deliver, find_stream, finish, page_room, read_head};
use fastlanes_pages::Stored;
use fastlanes_streams::{ByteIn, ByteOut};
use std::alloc::Global;

impl<I: ByteIn, O: ByteOut> Streams<I, O> {
    /// Reads a column, and writes the values of these numbers, a line each.
    pub(crate) fn get(&mut self, numbers: &[u64], alloc: Global) -> Result<(), Failure>
        requires { MayFail I.failures O.failures self.old }
        ensures failures { CountFailures I.failures O.failures result self.old self.new }
        ensures gets { I.tells → O.tells → OnOk result (GetsColumn numbers.now
            (I.source self.old.input) (I.source self.new.input) (O.sink self.old.output) (O.sink self.new.output)) }
        ensures stops { I.tells → IfErr result (StopsFinding numbers.now
            (I.source self.old.input) (I.source self.new.input)) }
    {
        match find(numbers, alloc, &mut self.input) {
            Ok(found) => write_lines(found.as_slice(), alloc, &mut self.output),
            Err(failure) => Err(failure),
        }
    }
}

/// Writes numbers, a line each, and flushes.
fn write_lines<O: ByteOut>(numbers: &[u64], alloc: Global, output: &mut O) -> Result<(), Failure>
    requires { O.failures output.old < u32.MAX }
    ensures no_read { failed_reads result ≡ 0 }
    ensures failed_writes { O.failures output.new ≡ O.failures output.old + failed_writes result }
    ensures delivers { O.tells → OnOk result
        (Delivers (O.sink output.old) (lines_of numbers.now) (O.sink output.new)) }
    ensures stops { IfErr result (StopsWhereMemory ⊤) }
{
    for number in numbers {
        write_line(*number, alloc, output)?;
    }
    Ok(finish(output, &[])?)
}

/// Writes a number as a line.
fn write_line<O: ByteOut>(number: u64, alloc: Global, output: &mut O) -> Result<(), Failure>
    requires { O.failures output.old < u32.MAX }
    ensures no_read { failed_reads result ≡ 0 }
    ensures failed_writes { O.failures output.new ≡ O.failures output.old + failed_writes result }
    ensures takes { O.tells → OnOk result (Takes (O.sink output.old) (line_of number) (O.sink output.new)) }
    ensures stops { IfErr result (StopsWhereMemory ⊤) }
{
    let line = format!(in alloc; "{number}\n")?;
    Ok(deliver(output, line.as_bytes())?)
}

/// Reads a column, and finds the values of these numbers, in their order.
fn find<I: ByteIn>(numbers: &[u64], alloc: Global, input: &mut I) -> Result<Vec<u64>, Failure>
    requires { I.failures input.old < u32.MAX }
    ensures failed_reads { I.failures input.new ≡ I.failures input.old + failed_reads result }
    ensures no_write { failed_writes result ≡ 0 }
    ensures many { IfOk result (λ found. length found.items ≡ length numbers.now) }
    ensures finds { I.tells → IfOk result (λ found.
        FindsColumn (I.source input.old) (I.source input.new) numbers.now found.items) }
    ensures stops { I.tells → IfErr result
        (StopsFinding numbers.now (I.source input.old) (I.source input.new)) }
{
    let head = read_head(input)?;
    match head.bits {
        8 => find_as::<u8, I>(head.checked, numbers, alloc, input),
        16 => find_as::<u16, I>(head.checked, numbers, alloc, input),
        32 => find_as::<u32, I>(head.checked, numbers, alloc, input),
        _ => find_as::<u64, I>(head.checked, numbers, alloc, input),
    }
}

/// Reads what follows the head of a column of `E`, and finds the values of these numbers.
fn find_as<E: Stored, I: ByteIn>(
    checked: bool,
    numbers: &[u64],
    alloc: Global,
    input: &mut I,
) -> Result<Vec<u64>, Failure>
    requires { I.failures input.old < u32.MAX }
    ensures failed_reads { I.failures input.new ≡ I.failures input.old + failed_reads result }
    ensures no_write { failed_writes result ≡ 0 }
    ensures many { IfOk result (λ found. length found.items ≡ length numbers.now) }
    ensures finds { I.tells → IfOk result (λ found. FindsRest E.T E.LANES checked
        (I.source input.old) (I.source input.new) numbers.now found.items) }
    ensures stops { I.tells → IfErr result (StopsFindingRest E.T E.LANES checked numbers.now
        (I.source input.old) (I.source input.new)) }
{
    let mut bytes = vec![in alloc; 0u8; page_room(E::T)]?;
    let mut values = vec![in alloc; E::zero(); 65536]?;
    let mut found = vec![in alloc; 0u64; numbers.len()]?;
    match find_stream(
        input,
        checked,
        numbers,
        bytes.as_mut_slice(),
        values.as_mut_slice(),
        found.as_mut_slice(),
    ) {
        Ok(all) => match check_numbers(numbers, all) {
            Ok(()) => Ok(found),
            Err(failure) => Err(failure),
        },
        Err(error) => Err(Failure::Stream(error)),
    }
}

/// Fails with the first of the numbers that is not below the number of values, if there is one.
fn check_numbers(numbers: &[u64], all: u64) -> Result<(), Failure>
    ensures no_read { failed_reads result ≡ 0 }
    ensures no_write { failed_writes result ≡ 0 }
    ensures below { OnOk result (All (λ number. number < all) numbers.now) }
    ensures missing { IfErr result (λ failure. (number : ℕ)
        × (failure ≡ Failure.NoSuchValue number all) × IsFirstMissing all numbers.now number) }
{
    for number in numbers {
        if *number >= all {
            return Err(Failure::NoSuchValue(*number, all));
        }
    }
    Ok(())
}
