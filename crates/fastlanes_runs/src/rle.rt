//! Runs of equal values: a dictionary with an entry for each run, and for each place the number of its run.

ghost use Rattle.std.specs.Prelude.{◌≡◌, ◌<◌, ◌≤◌, ◌+◌, ◌↔◌, ℕ, Bool, true, Some, List, IsTrue, length, map, drop, if◌then◌else◌, slice_get, slice_index};
ghost use Rattle.std.specs.List.{All};
ghost use Rattle.fastlanes_runs.specs.RunSteps.{DecodesPlaces, IsEncodedTo};
ghost use Rattle.fastlanes_runs.specs.RunLengths.{IsIdentityOn, is_equal, last_start, run_number, starts};

use std::simd::prelude::*;

/// Blocks of values that repeat. A run starts at place 0, and at each place whose value does not equal the value at
/// the last start before it, by the type's own equality.
pub trait RLE: Sized {
    // Whether the first value equals the second.
    ghost eq: { Self → Self → Bool };

    /// Writes the value at each start to `rle_vals`, the dictionary, and to `rle_idxs` the number of the run that each
    /// place is in. It answers how many runs there are. The dictionary stays as it was from that number on.
    ///
    /// ```rust
    /// use fastlanes::RLE;
    ///
    /// let mut input = [7u8; 1024];
    /// input[2] = 9;
    /// let mut rle_vals = [0; 1024];
    /// let mut rle_idxs = [0; 1024];
    /// assert_eq!(rt; u8::encode_unchecked(&input, &mut rle_vals, &mut rle_idxs), 3);
    /// assert!(rt; rle_vals[..3] == [7, 9, 7] && rle_idxs[..4] == [0, 0, 1, 2]);
    /// ```
    fn encode_unchecked(
        input: &[Self; 1024],
        rle_vals: &mut [Self; 1024],
        rle_idxs: &mut [u16; 1024],
    ) -> usize
        ensures count { result ≡ length (starts eq input.now) }
        ensures at_least_one { 1 ≤ result }
        ensures at_most_all { result ≤ 1024 }
        ensures indexes { (i : ℕ) → i < 1024
            → slice_index rle_idxs.new i ≡ run_number eq input.now i }
        ensures indexes_below { All (λ index. index < result) rle_idxs.new }
        ensures entries { (k : ℕ) → k < result
            → slice_get rle_vals.new k ≡ slice_get input.now (slice_index (starts eq input.now) k) }
        ensures rest { drop result rle_vals.new ≡ drop result rle_vals.old }

        // What the index of a place leads back to: the value at the last start, which is the place's own value where
        // equal values are one value.
        ensures decodes { (i : ℕ) → i < 1024
            → slice_get rle_vals.new (slice_index rle_idxs.new i)
            ≡ slice_get input.now (last_start eq input.now i) }
        ensures restores { IsIdentityOn eq input.now → (i : ℕ) → i < 1024
            → slice_get rle_vals.new (slice_index rle_idxs.new i) ≡ slice_get input.now i };

    /// Writes to each place of `output` the entry of `rle_vals` that the place's index names.
    ///
    /// ```rust
    /// use fastlanes::RLE;
    ///
    /// let mut rle_idxs = [0u8; 1024];
    /// rle_idxs[2] = 1;
    /// let mut output = [0; 1024];
    /// u16::decode_unchecked(&[700, 900], &rle_idxs, &mut output);
    /// assert!(rt; output[..4] == [700, 700, 900, 700]);
    /// ```
    fn decode_unchecked<I: RunIndex>(
        rle_vals: &[Self],
        rle_idxs: &[I; 1024],
        output: &mut [Self; 1024],
    )
        requires { All (λ index. I.place index < length rle_vals.now) rle_idxs.now }
        ensures { (i : ℕ) → i < 1024
            → slice_get output.new i
            ≡ slice_get rle_vals.now (slice_index (map I.place rle_idxs.now) i) };
}

/// A number that names an entry of a dictionary.
pub trait RunIndex: Copy {
    // The number.
    ghost place: { Self → ℕ };

    /// The place of the entry in the dictionary.
    ///
    /// ```rust
    /// use fastlanes::RunIndex;
    ///
    /// assert_eq!(rt; (true.place(), 7u8.place()), (1, 7));
    /// ```
    fn place(self) -> usize
        ensures { result ≡ place self };

    /// The places of four indexes side by side, of which the first is number `from`. A type's own way to read them at once
    /// makes `decode_unchecked` faster.
    ///
    /// ```rust
    /// use fastlanes::RunIndex;
    ///
    /// let mut indexes = [0u16; 1024];
    /// indexes[6] = 700;
    /// assert_eq!(rt; u16::four_places(&indexes, 4), [0, 0, 700, 0]);
    /// ```
    fn four_places(indexes: &[Self; 1024], from: usize) -> [usize; 4]
        requires { from + 4 ≤ 1024 }
        ensures { (j : ℕ) → j < 4 → slice_index result j
            ≡ slice_index (map place indexes.now) (from + j) }
    {
        let mut places = [0; 4];
        for j in 0..4 {
            places[j] = indexes[from + j].place();
        }
        places
    }
}

impl RunIndex for bool {
    ghost place = { λ index. if index then 1 else 0 };

    #[inline(always)]
    fn place(self) -> usize {
        if self { 1 } else { 0 }
    }
}

impl RunIndex for u8 {
    ghost place = { λ index. index };

    #[inline(always)]
    fn place(self) -> usize {
        self as usize
    }
}

impl RunIndex for u16 {
    ghost place = { λ index. index };

    #[inline(always)]
    fn place(self) -> usize {
        usize::from(self)
    }

    // One load in place of four.
    #[inline(always)]
    fn four_places(indexes: &[u16; 1024], from: usize) -> [usize; 4] {
        u16x4::from_slice(&indexes[from..from + 4])
            .cast::<usize>()
            .to_array()
    }
}

impl RunIndex for usize {
    ghost place = { λ index. index };

    #[inline(always)]
    fn place(self) -> usize {
        self
    }
}

impl<V: PartialEq + Copy> RLE for V {
    ghost eq = { V.eq };

    fn encode_unchecked(
        input: &[V; 1024],
        rle_vals: &mut [V; 1024],
        rle_idxs: &mut [u16; 1024],
    ) -> usize {
        let first = Run {
            start: input[0],
            number: 0,
        };
        rle_vals[0] = first.start;
        rle_idxs[0] = 0;
        let mut run = encode_places(input, 1, 16, first, rle_vals, rle_idxs);
        for group in 1..64 {
            run = encode_sixteen(input, 16 * group, run, rle_vals, rle_idxs);
        }
        run.number + 1
    }

    fn decode_unchecked<I: RunIndex>(rle_vals: &[V], rle_idxs: &[I; 1024], output: &mut [V; 1024]) {
        for group in 0..64 {
            decode_sixteen(rle_vals, rle_idxs, 16 * group, output);
        }
    }
}

/// A run: the value at its start, and how many starts stand before that one.
#[derive(Clone, Copy)]
struct Run<V> {
    start: V,
    number: usize,
}

/// Encodes the sixteen places from `from` on, where `run` is the run before them, and answers the run after them.
/// Long runs are fast, since sixteen values are compared at once.
#[inline(always)]
fn encode_sixteen<V: PartialEq + Copy>(
    input: &[V; 1024],
    from: usize,
    run: Run<V>,
    rle_vals: &mut [V; 1024],
    rle_idxs: &mut [u16; 1024],
) -> Run<V>
    requires within { from + 16 ≤ 1024 }
    requires below { run.number < from }
    ensures below { result.number < from + 16 }
    ensures encoded { (before : List V)
        → IsEncodedTo V.eq input.now before from run.start run.number rle_vals.old rle_idxs.old
        → IsEncodedTo V.eq input.now before (from + 16) result.start result.number rle_vals.new
        rle_idxs.new }
{
    if goes_on(input, from, run.start) {
        for i in from..from + 16 {
            rle_idxs[i] = run.number as u16;
        }
        run
    } else {
        encode_places(input, from, from + 16, run, rle_vals, rle_idxs)
    }
}

/// Whether the sixteen values from `from` on all equal `start`. It does not stop at the first that does not: so they
/// can be compared at once.
#[inline(always)]
fn goes_on<V: PartialEq + Copy>(input: &[V; 1024], from: usize, start: V) -> bool
    requires { from + 16 ≤ 1024 }
    ensures { IsTrue result ↔ ((i : ℕ) → from ≤ i → i < from + 16
        → is_equal V.eq (slice_get input.now i) (Some start) ≡ true) }
{
    let mut all = true;
    for i in from..from + 16 {
        all &= input[i] == start;
    }
    all
}

/// Encodes the places from `from` up to `to`, where `run` is the run before them, and answers the run after them.
#[inline(always)]
fn encode_places<V: PartialEq + Copy>(
    input: &[V; 1024],
    from: usize,
    to: usize,
    mut run: Run<V>,
    rle_vals: &mut [V; 1024],
    rle_idxs: &mut [u16; 1024],
) -> Run<V>
    requires order { from ≤ to }
    requires within { to ≤ 1024 }
    requires below { run.number < from }
    ensures below { result.number < to }
    ensures encoded { (before : List V)
        → IsEncodedTo V.eq input.now before from run.start run.number rle_vals.old rle_idxs.old
        → IsEncodedTo V.eq input.now before to result.start result.number rle_vals.new
        rle_idxs.new }
{
    for i in from..to {
        let value = input[i];
        let starts = value != run.start;
        let number = run.number + starts as usize;
        let start = if starts { value } else { run.start };
        // Where no run starts, this writes what the entry is already. That costs less than a branch, which goes wrong
        // often where runs are short.
        rle_vals[number] = start;
        rle_idxs[i] = number as u16;
        run = Run { start, number };
    }
    run
}

/// Decodes the sixteen places from `from` on. Where they are in one run, its entry is read once.
#[inline(always)]
fn decode_sixteen<V: Copy, I: RunIndex>(
    rle_vals: &[V],
    rle_idxs: &[I; 1024],
    from: usize,
    output: &mut [V; 1024],
)
    requires within { from + 16 ≤ 1024 }
    requires named { All (λ index. I.place index < length rle_vals.now) rle_idxs.now }
    ensures { DecodesPlaces (map I.place rle_idxs.now) rle_vals.now from (from + 16) output.old
        output.new }
{
    let place = rle_idxs[from].place();
    if is_one_run(rle_idxs, from, place) {
        let value = rle_vals[place];
        for i in from..from + 16 {
            output[i] = value;
        }
    } else {
        for four in 0..4 {
            let start = from + 4 * four;
            put_four(rle_vals, I::four_places(rle_idxs, start), start, output);
        }
    }
}

/// Whether the sixteen indexes from `from` on all stand for `place`. It does not stop at the first that does not: so they
/// can be compared at once.
#[inline(always)]
fn is_one_run<I: RunIndex>(rle_idxs: &[I; 1024], from: usize, place: usize) -> bool
    requires { from + 16 ≤ 1024 }
    ensures { IsTrue result ↔ ((i : ℕ) → from ≤ i → i < from + 16
        → slice_index (map I.place rle_idxs.now) i ≡ place) }
{
    let mut all = true;
    for i in from..from + 16 {
        all &= rle_idxs[i].place() == place;
    }
    all
}

/// Writes the entries of four places of the dictionary to the places from `from` on.
#[inline(always)]
fn put_four<V: Copy>(rle_vals: &[V], places: [usize; 4], from: usize, output: &mut [V; 1024])
    requires within { from + 4 ≤ 1024 }
    requires named { (j : ℕ) → j < 4 → slice_index places j < length rle_vals.now }
    ensures { (idxs : List ℕ) → ((j : ℕ) → j < 4
        → slice_index places j ≡ slice_index idxs (from + j))
        → DecodesPlaces idxs rle_vals.now from (from + 4) output.old output.new }
{
    for j in 0..4 {
        output[from + j] = rle_vals[places[j]];
    }
}
