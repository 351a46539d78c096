//! Element types, each with the vectors that its rows are.

ghost use Rattle.std.proofs.Common.{lit<, lit≤};
ghost use Rattle.std.specs.Prelude.{◌≡◌, refl};
ghost use Rattle.fastlanes_rows.specs.Rows.{MakesGroups};

use crate::vector::RowVector;
use crate::width::Widths;
use std::simd::prelude::*;

/// Element types, each with the vectors of its rows of lanes side by side.
pub trait RowTypes: Widths {
    /// The vector of a row of sixteen lanes.
    type Row: RowVector<Self>;

    /// The vector of a wide row: 64 bytes of `u8` and `u16`, 32 of `u32` and `u64`.
    type Wide: RowVector<Self>;

    /// The vector of the widest row: of all lanes, which are 128 bytes, or of 64 lanes of `u8`, since no vector has more.
    type Widest: RowVector<Self>;

    ghost sixteen_law: { Self.Row.N ≡ 16 };

    ghost row_law: { MakesGroups Self.LANES Self.Row.N };

    ghost wide_law: { MakesGroups Self.LANES Self.Wide.N };

    ghost widest_law: { MakesGroups Self.LANES Self.Widest.N };
}

impl RowTypes for u8 {
    type Row = u8x16;

    type Wide = u8x64;

    type Widest = u8x64;

    ghost sixteen_law = { refl };

    ghost row_law = { (lit< tt, lit≤ tt, refl) };

    ghost wide_law = { (lit< tt, lit≤ tt, refl) };

    ghost widest_law = { (lit< tt, lit≤ tt, refl) };
}

impl RowTypes for u16 {
    type Row = u16x16;

    type Wide = u16x32;

    type Widest = u16x64;

    ghost sixteen_law = { refl };

    ghost row_law = { (lit< tt, lit≤ tt, refl) };

    ghost wide_law = { (lit< tt, lit≤ tt, refl) };

    ghost widest_law = { (lit< tt, lit≤ tt, refl) };
}

impl RowTypes for u32 {
    type Row = u32x16;

    type Wide = u32x8;

    type Widest = u32x32;

    ghost sixteen_law = { refl };

    ghost row_law = { (lit< tt, lit≤ tt, refl) };

    ghost wide_law = { (lit< tt, lit≤ tt, refl) };

    ghost widest_law = { (lit< tt, lit≤ tt, refl) };
}

impl RowTypes for u64 {
    type Row = u64x16;

    type Wide = u64x4;

    type Widest = u64x16;

    ghost sixteen_law = { refl };

    ghost row_law = { (lit< tt, lit≤ tt, refl) };

    ghost wide_law = { (lit< tt, lit≤ tt, refl) };

    ghost widest_law = { (lit< tt, lit≤ tt, refl) };
}
