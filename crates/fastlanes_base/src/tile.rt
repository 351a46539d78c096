//! Tiles of 8 by 8 elements, transposed in vectors. Layers of perfect shuffles transpose a square of `SIDE` by `SIDE`
//! elements: each interleaves the first half of the rows with the second. A vector of two such runs transposes two squares.

ghost use Rattle.std.specs.Prelude.{◌≡◌, ℕ, ◌+◌, ◌-◌, ◌*◌, ◌/◌, ◌%◌, ◌<◌, ◌≤◌, ◌⊎◌, length, map, slice_index};
ghost use Rattle.fastlanes_base.specs.Tile.{AreEight, AreFour, TransposesTile, layer, woven};

use std::simd::prelude::*;

/// `N` elements of a tile: one run of `SIDE` elements, or two.
pub trait TileVector<E, const SIDE: usize, const N: usize>: Copy {
    // The number that an element stands for.
    ghost number: { E → ℕ };

    // The number of each of the elements.
    ghost at: { Self → ℕ → ℕ };

    /// Reads runs of `SIDE` elements, which are `SIDE * step` places apart.
    fn load(words: &[E], from: usize, step: usize) -> Self
        requires { from + step * (N - SIDE) + SIDE ≤ length words.now }
        ensures { (j : ℕ) → j < N
            → at result j ≡ slice_index (map number words.now) (from + step * (j / SIDE * SIDE) + j % SIDE) };

    /// Interleaves the elements of two vectors, those of each run apart.
    fn weave(self, other: Self) -> (Self, Self)
        ensures { (rows : ℕ → ℕ → ℕ) → ((j : ℕ) → j < N → at self j ≡ rows 0 j)
            → ((j : ℕ) → j < N → at other j ≡ rows 1 j)
            → (j : ℕ) → j < N → (at result.0 j ≡ woven SIDE rows 0 j) × (at result.1 j ≡ woven SIDE rows 1 j) };

    /// Writes the elements one after another.
    fn store(self, words: &mut [E], to: usize)
        requires { to + N ≤ length words.old }
        ensures long { length words.new ≡ length words.old }
        ensures here { (j : ℕ) → j < N → slice_index (map number words.new) (to + j) ≡ at self j }
        ensures others { (i : ℕ) → (i < to) ⊎ (to + N ≤ i)
            → slice_index (map number words.new) i ≡ slice_index (map number words.old) i };
}

impl TileVector<u8, 8, 8> for u8x8 {
    ghost number = { λ x. x };

    ghost at = { λ row j. slice_index row j };

    #[tactic(auto, using(crate::proofs::Tiles::read_run))]
    #[inline(always)]
    fn load(words: &[u8], from: usize, _step: usize) -> u8x8 {
        u8x8::from_slice(&words[from..from + 8])
    }

    #[inline(always)]
    fn weave(self, other: u8x8) -> (u8x8, u8x8) {
        self.interleave(other)
    }

    #[tactic(auto, using(crate::proofs::Tiles::written_here, crate::proofs::Tiles::written_elsewhere))]
    #[inline(always)]
    fn store(self, words: &mut [u8], to: usize) {
        self.copy_to_slice(&mut words[to..to + 8]);
    }
}

impl TileVector<u16, 8, 8> for u16x8 {
    ghost number = { λ x. x };

    ghost at = { λ row j. slice_index row j };

    #[tactic(auto, using(crate::proofs::Tiles::read_run))]
    #[inline(always)]
    fn load(words: &[u16], from: usize, _step: usize) -> u16x8 {
        u16x8::from_slice(&words[from..from + 8])
    }

    #[inline(always)]
    fn weave(self, other: u16x8) -> (u16x8, u16x8) {
        self.interleave(other)
    }

    #[tactic(auto, using(crate::proofs::Tiles::written_here, crate::proofs::Tiles::written_elsewhere))]
    #[inline(always)]
    fn store(self, words: &mut [u16], to: usize) {
        self.copy_to_slice(&mut words[to..to + 8]);
    }
}

impl TileVector<u32, 4, 8> for u32x8 {
    ghost number = { λ x. x };

    ghost at = { λ row j. slice_index row j };

    #[inline(always)]
    fn load(words: &[u32], from: usize, step: usize) -> u32x8 {
        let next = from + step * 4;
        let low = u32x4::from_slice(&words[from..from + 4]);
        let high = u32x4::from_slice(&words[next..next + 4]);
        low.shuffle(high, [0, 1, 2, 3, 4, 5, 6, 7])
    }

    #[inline(always)]
    fn weave(self, other: u32x8) -> (u32x8, u32x8) {
        let low = self.shuffle(other, [0, 8, 1, 9, 4, 12, 5, 13]);
        let high = self.shuffle(other, [2, 10, 3, 11, 6, 14, 7, 15]);
        (low, high)
    }

    #[tactic(auto, using(crate::proofs::Tiles::written_here, crate::proofs::Tiles::written_elsewhere))]
    #[inline(always)]
    fn store(self, words: &mut [u32], to: usize) {
        self.copy_to_slice(&mut words[to..to + 8]);
    }
}

impl TileVector<u64, 2, 4> for u64x4 {
    ghost number = { λ x. x };

    ghost at = { λ row j. slice_index row j };

    #[inline(always)]
    fn load(words: &[u64], from: usize, step: usize) -> u64x4 {
        let next = from + step * 2;
        let low = u64x2::from_slice(&words[from..from + 2]);
        let high = u64x2::from_slice(&words[next..next + 2]);
        low.shuffle(high, [0, 1, 2, 3])
    }

    #[inline(always)]
    fn weave(self, other: u64x4) -> (u64x4, u64x4) {
        let low = self.shuffle(other, [0, 4, 2, 6]);
        let high = self.shuffle(other, [1, 5, 3, 7]);
        (low, high)
    }

    #[tactic(auto, using(crate::proofs::Tiles::written_here, crate::proofs::Tiles::written_elsewhere))]
    #[inline(always)]
    fn store(self, words: &mut [u64], to: usize) {
        self.copy_to_slice(&mut words[to..to + 4]);
    }
}

/// Interleaves each of the first four rows with the row four after it.
#[inline(always)]
fn layer_of_8<E, V: TileVector<E, 8, 8>>(
    a: V,
    b: V,
    c: V,
    d: V,
    e: V,
    f: V,
    g: V,
    h: V,
) -> (V, V, V, V, V, V, V, V)
    ensures { (rows : ℕ → ℕ → ℕ) → AreEight V.at rows a b c d e f g h
        → AreEight V.at (layer 8 rows) result.0 result.1 result.2 result.3 result.4 result.5 result.6 result.7 }
{
    let (i, j) = a.weave(e);
    let (k, l) = b.weave(f);
    let (m, n) = c.weave(g);
    let (o, p) = d.weave(h);
    (i, j, k, l, m, n, o, p)
}

/// Interleaves each of the first two rows with the row two after it.
#[inline(always)]
fn layer_of_4<E, V: TileVector<E, 4, 8>>(a: V, b: V, c: V, d: V) -> (V, V, V, V)
    ensures { (rows : ℕ → ℕ → ℕ) → AreFour V.at rows a b c d
        → AreFour V.at (layer 4 rows) result.0 result.1 result.2 result.3 }
{
    let (e, f) = a.weave(c);
    let (g, h) = b.weave(d);
    (e, f, g, h)
}

/// Transposes eight runs of eight elements.
#[inline(always)]
pub fn tile_of_8<E, V: TileVector<E, 8, 8>>(
    input: &[E],
    from: usize,
    from_step: usize,
    output: &mut [E],
    to: usize,
    to_step: usize,
)
    requires input { from + from_step * 7 + 8 ≤ length input.now }
    requires output { to + to_step * 7 + 8 ≤ length output.old }
    ensures { TransposesTile 8 8 from from_step to to_step (map V.number input.now)
        (map V.number output.old) (map V.number output.new) }
{
    let a = V::load(input, from, from_step);
    let b = V::load(input, from + from_step, from_step);
    let c = V::load(input, from + from_step * 2, from_step);
    let d = V::load(input, from + from_step * 3, from_step);
    let e = V::load(input, from + from_step * 4, from_step);
    let f = V::load(input, from + from_step * 5, from_step);
    let g = V::load(input, from + from_step * 6, from_step);
    let h = V::load(input, from + from_step * 7, from_step);
    let (a, b, c, d, e, f, g, h) = layer_of_8::<E, V>(a, b, c, d, e, f, g, h);
    let (a, b, c, d, e, f, g, h) = layer_of_8::<E, V>(a, b, c, d, e, f, g, h);
    let (a, b, c, d, e, f, g, h) = layer_of_8::<E, V>(a, b, c, d, e, f, g, h);
    a.store(output, to);
    b.store(output, to + to_step);
    c.store(output, to + to_step * 2);
    d.store(output, to + to_step * 3);
    e.store(output, to + to_step * 4);
    f.store(output, to + to_step * 5);
    g.store(output, to + to_step * 6);
    h.store(output, to + to_step * 7);
}

/// Transposes eight runs of four elements.
#[inline(always)]
fn tile_of_4<E, V: TileVector<E, 4, 8>>(
    input: &[E],
    from: usize,
    from_step: usize,
    output: &mut [E],
    to: usize,
    to_step: usize,
)
    requires input { from + from_step * 7 + 4 ≤ length input.now }
    requires output { to + to_step * 3 + 8 ≤ length output.old }
    ensures { TransposesTile 4 8 from from_step to to_step (map V.number input.now)
        (map V.number output.old) (map V.number output.new) }
{
    let a = V::load(input, from, from_step);
    let b = V::load(input, from + from_step, from_step);
    let c = V::load(input, from + from_step * 2, from_step);
    let d = V::load(input, from + from_step * 3, from_step);
    let (a, b, c, d) = layer_of_4::<E, V>(a, b, c, d);
    let (a, b, c, d) = layer_of_4::<E, V>(a, b, c, d);
    a.store(output, to);
    b.store(output, to + to_step);
    c.store(output, to + to_step * 2);
    d.store(output, to + to_step * 3);
}

/// Transposes four runs of two elements.
#[inline(always)]
fn tile_of_2<E, V: TileVector<E, 2, 4>>(
    input: &[E],
    from: usize,
    from_step: usize,
    output: &mut [E],
    to: usize,
    to_step: usize,
)
    requires input { from + from_step * 3 + 2 ≤ length input.now }
    requires output { to + to_step + 4 ≤ length output.old }
    ensures { TransposesTile 2 4 from from_step to to_step (map V.number input.now)
        (map V.number output.old) (map V.number output.new) }
{
    let a = V::load(input, from, from_step);
    let b = V::load(input, from + from_step, from_step);
    let (a, b) = a.weave(b);
    a.store(output, to);
    b.store(output, to + to_step);
}

/// Transposes eight runs of eight elements, in two tiles of runs of four.
#[inline(always)]
pub fn tile_of_pairs_of_4<E, V: TileVector<E, 4, 8>>(
    input: &[E],
    from: usize,
    from_step: usize,
    output: &mut [E],
    to: usize,
    to_step: usize,
)
    requires input { from + from_step * 7 + 8 ≤ length input.now }
    requires output { to + to_step * 7 + 8 ≤ length output.old }
    ensures { TransposesTile 8 8 from from_step to to_step (map V.number input.now)
        (map V.number output.old) (map V.number output.new) }
{
    tile_of_4::<E, V>(input, from, from_step, output, to, to_step);
    tile_of_4::<E, V>(
        input,
        from + 4,
        from_step,
        output,
        to + to_step * 4,
        to_step,
    );
}

/// Transposes eight runs of two elements, in two tiles of four runs.
#[inline(always)]
fn two_runs<E, V: TileVector<E, 2, 4>>(
    input: &[E],
    from: usize,
    from_step: usize,
    output: &mut [E],
    to: usize,
    to_step: usize,
)
    requires input { from + from_step * 7 + 2 ≤ length input.now }
    requires output { to + to_step + 8 ≤ length output.old }
    ensures { TransposesTile 2 8 from from_step to to_step (map V.number input.now)
        (map V.number output.old) (map V.number output.new) }
{
    tile_of_2::<E, V>(input, from, from_step, output, to, to_step);
    tile_of_2::<E, V>(
        input,
        from + from_step * 4,
        from_step,
        output,
        to + 4,
        to_step,
    );
}

/// Transposes eight runs of eight elements, in eight tiles of four runs of two.
#[inline(always)]
pub fn tile_of_pairs_of_2<E, V: TileVector<E, 2, 4>>(
    input: &[E],
    from: usize,
    from_step: usize,
    output: &mut [E],
    to: usize,
    to_step: usize,
)
    requires input { from + from_step * 7 + 8 ≤ length input.now }
    requires output { to + to_step * 7 + 8 ≤ length output.old }
    ensures { TransposesTile 8 8 from from_step to to_step (map V.number input.now)
        (map V.number output.old) (map V.number output.new) }
{
    two_runs::<E, V>(input, from, from_step, output, to, to_step);
    two_runs::<E, V>(
        input,
        from + 2,
        from_step,
        output,
        to + to_step * 2,
        to_step,
    );
    two_runs::<E, V>(
        input,
        from + 4,
        from_step,
        output,
        to + to_step * 4,
        to_step,
    );
    two_runs::<E, V>(
        input,
        from + 6,
        from_step,
        output,
        to + to_step * 6,
        to_step,
    );
}

/// Copies eight elements, `from_step` places apart, to adjacent places.
#[inline(always)]
fn run_of_elements<E: Copy>(input: &[E], from: usize, from_step: usize, output: &mut [E], to: usize)
    requires input { from + from_step * 7 < length input.now }
    requires output { to + 8 ≤ length output.old }
    ensures { (number : E → ℕ) (to_step : ℕ) → TransposesTile 1 8 from from_step to to_step (map number input.now)
        (map number output.old) (map number output.new) }
{
    for a in 0..8 {
        output[to + a] = input[from + from_step * a];
    }
}

/// Transposes eight runs of eight elements, one element at a time.
pub fn tile_of_elements<E: Copy>(
    input: &[E],
    from: usize,
    from_step: usize,
    output: &mut [E],
    to: usize,
    to_step: usize,
)
    requires input { from + from_step * 7 + 8 ≤ length input.now }
    requires output { to + to_step * 7 + 8 ≤ length output.old }
    ensures { (number : E → ℕ) → TransposesTile 8 8 from from_step to to_step (map number input.now)
        (map number output.old) (map number output.new) }
{
    for b in 0..8 {
        run_of_elements(input, from + b, from_step, output, to + to_step * b);
    }
}
