//! Where bytes stand before and after the bit transposes on vectors move them.

use crate::tests::assertions::{assert_equal, assert_equal_at};
use fastlanes_masks::lanes::byte_tables::*;

/// Whether the two halves of a table have each number below 128 once.
fn is_permutation(low: &[usize; 64], high: &[usize; 64]) -> bool {
    let mut seen = [false; 128];
    for half in [low, high] {
        for i in 0..64usize {
            let place = half[i];
            if place >= 128 || seen[place] {
                return false;
            }
            seen[place] = true;
        }
    }
    true
}

#[test]
fn tables_are_permutations(rt: HostRuntime) {
    let tables = [
        (&GATHER_8_LOW, &GATHER_8_HIGH),
        (&GATHER_16_LOW, &GATHER_16_HIGH),
        (&GATHER_32_LOW, &GATHER_32_HIGH),
        (&GATHER_64_LOW, &GATHER_64_HIGH),
        (&SCATTER_8_LOW, &SCATTER_8_HIGH),
        (&SCATTER_16_LOW, &SCATTER_16_HIGH),
        (&SCATTER_32_LOW, &SCATTER_32_HIGH),
        (&SCATTER_64_LOW, &SCATTER_64_HIGH),
        (&UNSCATTER_8_LOW, &UNSCATTER_8_HIGH),
        (&UNSCATTER_16_LOW, &UNSCATTER_16_HIGH),
        (&UNSCATTER_32_LOW, &UNSCATTER_32_HIGH),
        (&UNSCATTER_64_LOW, &UNSCATTER_64_HIGH),
        (&UNGATHER_8_LOW, &UNGATHER_8_HIGH),
        (&UNGATHER_16_LOW, &UNGATHER_16_HIGH),
        (&UNGATHER_32_LOW, &UNGATHER_32_HIGH),
        (&UNGATHER_64_LOW, &UNGATHER_64_HIGH),
    ];
    for (low, high) in tables {
        assert!(rt; is_permutation(low, high));
        // The lower half alone lacks some numbers.
        assert!(rt; !is_permutation(low, low));
    }
}

#[test]
fn entries_of_tables(rt: HostRuntime) {
    assert!(rt; GATHER_16_LOW[..16] == [0, 2, 4, 6, 8, 10, 12, 14, 1, 3, 5, 7, 9, 11, 13, 15]);
    assert!(rt; GATHER_16_LOW[16..24] == [16, 18, 20, 22, 24, 26, 28, 30]);
    assert!(rt; GATHER_32_LOW[..8] == [0, 4, 8, 12, 16, 20, 24, 28]);
    assert!(rt; GATHER_32_LOW[24..32] == [3, 7, 11, 15, 19, 23, 27, 31]);
    assert!(rt; GATHER_64_LOW[..8] == [0, 8, 16, 24, 32, 40, 48, 56]);
    assert!(rt; GATHER_64_HIGH[..8] == [64, 72, 80, 88, 96, 104, 112, 120]);
    assert_equal(&rt, (SCATTER_16_LOW[8], SCATTER_16_LOW[24]), (8, 9));
    assert_equal(&rt, (SCATTER_32_LOW[4], SCATTER_64_LOW[2]), (16, 32));
}

#[test]
fn tables_of_bytes(rt: HostRuntime) {
    for n in 0..64usize {
        assert_equal_at(&rt, n, GATHER_8_HIGH[n], 64 + n);
        assert_equal_at(&rt, n, SCATTER_8_LOW[n], n % 16 * 8 + n / 16);
    }
}

#[test]
fn tables_of_groups(rt: HostRuntime) {
    // The groups of the first half take the bytes 0, 16 .. 112, then 8, 24 .. 120, 4, 20 .. 116 and so on.
    let firsts = [0, 8, 4, 12, 2, 10, 6, 14];
    for g in 0..8usize {
        for row in 0..8usize {
            assert_equal(&rt, UNSCATTER_64_LOW[8 * g + row], firsts[g] + 16 * row);
            assert_equal(
                &rt,
                UNSCATTER_64_HIGH[8 * g + row],
                firsts[g] + 1 + 16 * row,
            );
            assert_equal(&rt, UNGATHER_64_LOW[8 * row + g], 8 * g + row);
            assert_equal(&rt, UNGATHER_64_HIGH[8 * row + g], 64 + 8 * g + row);
        }
    }
}
