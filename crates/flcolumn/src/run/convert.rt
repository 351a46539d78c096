//! Values as a column, and a column as values.

ghost use Rattle.std.specs.Prelude.{◌≡◌, ◌≤◌, IfErr, IfOk, OnOk, length};
ghost use Rattle.fastlanes_pages.specs.Shortest.{page_most};
ghost use Rattle.fastlanes_column_streams.specs.Pages.{Decodes, Encodes};
ghost use Rattle.flcolumn.specs.Columns.{DecodesColumn};
ghost use Rattle.flcolumn.specs.Elements.{bits_of, lanes_of};
ghost use Rattle.flcolumn.specs.Failures.{CountFailures, MayFail};
ghost use Rattle.flcolumn.specs.Stops.{GivesFromHead, StopsWhereMemory};

use crate::failure::Failure;
use crate::streams::Streams;
use fastlanes_column_streams::{Options, decode_stream, encode_stream, page_room, read_head};
use fastlanes_pages::Stored;
use fastlanes_streams::{ByteIn, ByteOut};
use flcolumn_words::ElementType;
use std::alloc::Global;

impl<I: ByteIn, O: ByteOut> Streams<I, O> {
    /// Reads values, and writes a column of them.
    pub(crate) fn encode(
        &mut self,
        alloc: Global,
        element: ElementType,
        options: Options,
    ) -> Result<(), Failure>
        requires { MayFail I.failures O.failures self.old }
        ensures failures { CountFailures I.failures O.failures result self.old self.new }
        ensures encodes { I.tells → O.tells → OnOk result (Encodes (bits_of element) (lanes_of (bits_of element))
            options.frames_only options.checked (I.source self.old.input) (I.source self.new.input)
            (O.sink self.old.output) (O.sink self.new.output)) }
        // Memory runs out before anything is read or written.
        ensures stops { IfErr result (StopsWhereMemory ((I.source self.new.input ≡ I.source self.old.input)
            × (O.sink self.new.output ≡ O.sink self.old.output))) }
    {
        match element {
            ElementType::U8 => self.encode_as::<u8>(alloc, options),
            ElementType::U16 => self.encode_as::<u16>(alloc, options),
            ElementType::U32 => self.encode_as::<u32>(alloc, options),
            ElementType::U64 => self.encode_as::<u64>(alloc, options),
        }
    }

    /// The same for values of `E`.
    fn encode_as<E: Stored>(&mut self, alloc: Global, options: Options) -> Result<(), Failure>
        requires { MayFail I.failures O.failures self.old }
        ensures failures { CountFailures I.failures O.failures result self.old self.new }
        ensures encodes { I.tells → O.tells → OnOk result (Encodes E.T E.LANES options.frames_only options.checked
            (I.source self.old.input) (I.source self.new.input) (O.sink self.old.output) (O.sink self.new.output)) }
        ensures stops { IfErr result (StopsWhereMemory ((I.source self.new.input ≡ I.source self.old.input)
            × (O.sink self.new.output ≡ O.sink self.old.output))) }
    {
        let mut bytes = vec![in alloc; 0u8; page_room(E::T)]?;
        let mut values = vec![in alloc; E::zero(); 65536]?;
        self.encode_with::<E>(options, bytes.as_mut_slice(), values.as_mut_slice())
    }

    /// The same in the caller's buffers. Does not allocate.
    fn encode_with<E: Stored>(
        &mut self,
        options: Options,
        bytes: &mut [u8],
        values: &mut [E],
    ) -> Result<(), Failure>
        requires calls { MayFail I.failures O.failures self.old }
        requires values { length values.old ≡ 65536 }
        requires room { page_most E.T 65536 ≤ length bytes.old }
        ensures failures { CountFailures I.failures O.failures result self.old self.new }
        ensures encodes { I.tells → O.tells → OnOk result (Encodes E.T E.LANES options.frames_only options.checked
            (I.source self.old.input) (I.source self.new.input) (O.sink self.old.output) (O.sink self.new.output)) }
        ensures never_no_memory { IfErr result (StopsWhereMemory ⊥) }
    {
        match encode_stream(&mut self.input, &mut self.output, options, bytes, values) {
            Ok(_) => Ok(()),
            Err(error) => Err(Failure::Stream(error)),
        }
    }

    /// Reads a column, and writes its values. Returns how many they are.
    pub(crate) fn decode(&mut self, alloc: Global) -> Result<u64, Failure>
        requires { MayFail I.failures O.failures self.old }
        ensures failures { CountFailures I.failures O.failures result self.old self.new }
        ensures decodes { I.tells → O.tells → OnOk result (DecodesColumn
            (I.source self.old.input) (I.source self.new.input) (O.sink self.old.output) (O.sink self.new.output)) }
        // Memory runs out behind the head of a column, before anything is written.
        ensures stops { I.tells → IfErr result (StopsWhereMemory (GivesFromHead
            (I.source self.old.input) (I.source self.new.input)
            × (O.sink self.new.output ≡ O.sink self.old.output))) }
    {
        let head = read_head(&mut self.input)?;
        match head.bits {
            8 => self.decode_as::<u8>(alloc, head.checked),
            16 => self.decode_as::<u16>(alloc, head.checked),
            32 => self.decode_as::<u32>(alloc, head.checked),
            _ => self.decode_as::<u64>(alloc, head.checked),
        }
    }

    /// Reads what follows the head of a column of `E`, and writes its values. Returns how many they are.
    fn decode_as<E: Stored>(&mut self, alloc: Global, checked: bool) -> Result<u64, Failure>
        requires { MayFail I.failures O.failures self.old }
        ensures failures { CountFailures I.failures O.failures result self.old self.new }
        ensures decodes { I.tells → O.tells → IfOk result (λ count. Decodes E.T E.LANES checked count
            (I.source self.old.input) (I.source self.new.input) (O.sink self.old.output) (O.sink self.new.output)) }
        ensures stops { IfErr result (StopsWhereMemory ((I.source self.new.input ≡ I.source self.old.input)
            × (O.sink self.new.output ≡ O.sink self.old.output))) }
    {
        let mut bytes = vec![in alloc; 0u8; page_room(E::T)]?;
        let mut values = vec![in alloc; E::zero(); 65536]?;
        self.decode_with::<E>(checked, bytes.as_mut_slice(), values.as_mut_slice())
    }

    /// The same in the caller's buffers. Does not allocate.
    fn decode_with<E: Stored>(
        &mut self,
        checked: bool,
        bytes: &mut [u8],
        values: &mut [E],
    ) -> Result<u64, Failure>
        requires calls { MayFail I.failures O.failures self.old }
        requires values { length values.old ≡ 65536 }
        requires room { page_most E.T 65536 ≤ length bytes.old }
        ensures failures { CountFailures I.failures O.failures result self.old self.new }
        ensures decodes { I.tells → O.tells → IfOk result (λ count. Decodes E.T E.LANES checked count
            (I.source self.old.input) (I.source self.new.input) (O.sink self.old.output) (O.sink self.new.output)) }
        ensures never_no_memory { IfErr result (StopsWhereMemory ⊥) }
    {
        match decode_stream(&mut self.input, &mut self.output, checked, bytes, values) {
            Ok(count) => Ok(count),
            Err(error) => Err(Failure::Stream(error)),
        }
    }
}
