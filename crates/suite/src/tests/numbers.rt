//! Lists of numbers by a function: a closure at `from_fn` takes three proofs at each place where it stands.

ghost use Rattle.std.specs.Prelude.{◌<◌, All};

use fastlanes_base::MachineWord;

/// The numbers `first`, `first + step` and so on modulo `2^T`, each of them `run` times, and from `first` on again
/// after `period` places.
pub(crate) fn ramp<E: MachineWord, const N: usize>(
    first: E,
    step: E,
    run: usize,
    period: usize,
) -> [E; N]
    requires run { 0 < run }
    requires period { 0 < period }
{
    let mut numbers = [first; N];
    let mut number = first;
    for place in 0..N {
        if place % period == 0 {
            number = first;
        } else if place % run == 0 {
            number = number.plus(step);
        }
        numbers[place] = number;
    }
    numbers
}

/// The number `one` at a place, and `other` at all others.
pub(crate) fn one_among<E: Copy, const N: usize>(other: E, place: usize, one: E) -> [E; N]
    requires { place < N }
{
    let mut numbers = [other; N];
    numbers[place] = one;
    numbers
}

/// The places of a block.
pub(crate) fn places<E: MachineWord>() -> [E; 1024] {
    ramp(E::zero(), E::one(), 1, 1024)
}

/// The indices of a block.
pub(crate) fn all_indices() -> [usize; 1024]
    ensures { All (λ i. i < 1024) result }
{
    let mut indices = [0usize; 1024];
    for i in 0..1024 {
        indices[i] = i;
    }
    indices
}
