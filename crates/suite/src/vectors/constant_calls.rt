//! Calls at a constant width on plain numbers.

ghost use Rattle.std.specs.Prelude.{◌≡◌, ◌+◌, ◌*◌, ◌^◌, ◌<◌, ◌≤◌};
ghost use Rattle.std.specs.Mem.{type_size};

use crate::vectors::calls::{Call, Constant};
use crate::vectors::constant::AtConstant;
use crate::vectors::element::Word;
use crate::vectors::numbers::{Numbers, bits_of, elements_of, numbers_of, with_bits};
use crate::vectors::types::Step;
use fastlanes::{Delta, FoR};

/// What a call gives in its form with a constant width, if it has one.
pub(crate) fn at_widths<
    E: Word + FoR + Delta<LANES>,
    const LANES: usize,
    const BELOW: usize,
    const WORDS: usize,
    const T: usize,
>(width: Constant, call: Call, input: &Numbers, before: &Numbers) -> Option<Numbers>
    requires lanes { LANES ≡ E.LANES }
    requires one { LANES ≡ E.LANES * 1 }
    requires below { BELOW + 1 ≡ E.T }
    requires words { WORDS ≡ E.LANES * BELOW }
    requires full { T ≡ E.T }
    requires block { 1024 ≡ E.LANES * T }
    requires zero_room { 0 * type_size E.row < 2 ^ 63 }
    requires lanes_room { LANES * type_size E.row < 2 ^ 63 }
    requires words_room { WORDS * type_size E.row < 2 ^ 63 }
    requires room { 1024 * type_size E.row < 2 ^ 63 }
{
    match width {
        Constant::Zero => at_width::<E, LANES, 0, 0>(call, input, before),
        Constant::One => at_width::<E, LANES, 1, LANES>(call, input, before),
        Constant::Below => at_width::<E, LANES, BELOW, WORDS>(call, input, before),
        Constant::Full => at_width::<E, LANES, T, 1024>(call, input, before),
    }
}

/// What a call gives in its form with the constant width `W`, if it has one.
fn at_width<E: AtConstant<LANES, W, B>, const LANES: usize, const W: usize, const B: usize>(
    call: Call,
    input: &Numbers,
    before: &Numbers,
) -> Option<Numbers>
    requires lanes { LANES ≡ E.LANES }
    requires width { W ≤ E.T }
    requires words { B ≡ E.LANES * W }
    requires room { B * type_size E.row < 2 ^ 63 }
    requires bases { LANES * type_size E.row < 2 ^ 63 }
{
    let block = elements_of::<E>(input);
    let words = block.first_chunk::<B>()?;
    let mut output = elements_of::<E>(before);
    match call {
        Call::Pack(by) => E::pack_at(by, &block, output.first_chunk_mut::<B>()?)?,
        Call::Unpack(by) => E::unpack_at(by, words, &mut output)?,
        Call::Step(Step::UndeltaPack, bases) => {
            let bases = elements_of::<E>(&bases.numbers(E::T));
            E::undelta_pack_at(words, bases.first_chunk::<LANES>()?, &mut output);
        }
        Call::Compare(question) => {
            let mut mask = bits_of(before);
            E::unpack_cmp_at(question, words, &mut mask);
            return Some(with_bits(before, &mask));
        }
        _ => return None,
    }
    Some(numbers_of(&output))
}
