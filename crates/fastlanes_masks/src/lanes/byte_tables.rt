//! Where the bytes of a block stand before and after they are moved: tables of 128 places, in two halves of 64, as the positions
//! of two shuffles. Group `g` of sixteen has the bits of eight rows, from row `8 * (g % (T / 8))` on, of eight lanes, from lane
//! `8 * (g / (T / 8))` on. Its eight bytes are its lanes before it is transposed into the order of places, and its rows after.

use fastlanes_base::FL_ORDER;

/// The byte of a block in the order of lanes of `t` bits that is byte `n` of its groups.
macro_rules! gather_place {
    ($t:literal, $n:expr) => {
        ($n) / 8 / ($t / 8) * $t + ($n) / 8 % ($t / 8) + ($n) % 8 * ($t / 8)
    };
}

/// The byte of the transposed groups that is byte `n` of the block in the order of places.
macro_rules! scatter_place {
    ($t:literal, $n:expr) => {
        (($n) % (128 / $t) * ($t / 8) + FL_ORDER[(($n) % 16 - ($n) % (128 / $t)) / 2]) * 8 + ($n) / 16
    };
}

/// The byte of a block in the order of places that is byte `n` of its groups: what `scatter_place` undoes.
macro_rules! unscatter_place {
    ($t:literal, $n:expr) => {
        FL_ORDER[($n) / 8 % ($t / 8)] * 2 + ($n) / 8 / ($t / 8) + ($n) % 8 * 16
    };
}

/// The byte of the transposed groups that is byte `n` of the block in the order of lanes: what `gather_place` undoes.
macro_rules! ungather_place {
    ($t:literal, $n:expr) => {
        (($n) / $t * ($t / 8) + ($n) % ($t / 8)) * 8 + ($n) % $t / ($t / 8)
    };
}

/// What a rule gives for the 64 numbers from `first` on.
macro_rules! sixty_four {
    ($rule:ident($t:literal), $first:literal) => {
        [
            $rule!($t, $first + 0), $rule!($t, $first + 1), $rule!($t, $first + 2), $rule!($t, $first + 3),
            $rule!($t, $first + 4), $rule!($t, $first + 5), $rule!($t, $first + 6), $rule!($t, $first + 7),
            $rule!($t, $first + 8), $rule!($t, $first + 9), $rule!($t, $first + 10), $rule!($t, $first + 11),
            $rule!($t, $first + 12), $rule!($t, $first + 13), $rule!($t, $first + 14), $rule!($t, $first + 15),
            $rule!($t, $first + 16), $rule!($t, $first + 17), $rule!($t, $first + 18), $rule!($t, $first + 19),
            $rule!($t, $first + 20), $rule!($t, $first + 21), $rule!($t, $first + 22), $rule!($t, $first + 23),
            $rule!($t, $first + 24), $rule!($t, $first + 25), $rule!($t, $first + 26), $rule!($t, $first + 27),
            $rule!($t, $first + 28), $rule!($t, $first + 29), $rule!($t, $first + 30), $rule!($t, $first + 31),
            $rule!($t, $first + 32), $rule!($t, $first + 33), $rule!($t, $first + 34), $rule!($t, $first + 35),
            $rule!($t, $first + 36), $rule!($t, $first + 37), $rule!($t, $first + 38), $rule!($t, $first + 39),
            $rule!($t, $first + 40), $rule!($t, $first + 41), $rule!($t, $first + 42), $rule!($t, $first + 43),
            $rule!($t, $first + 44), $rule!($t, $first + 45), $rule!($t, $first + 46), $rule!($t, $first + 47),
            $rule!($t, $first + 48), $rule!($t, $first + 49), $rule!($t, $first + 50), $rule!($t, $first + 51),
            $rule!($t, $first + 52), $rule!($t, $first + 53), $rule!($t, $first + 54), $rule!($t, $first + 55),
            $rule!($t, $first + 56), $rule!($t, $first + 57), $rule!($t, $first + 58), $rule!($t, $first + 59),
            $rule!($t, $first + 60), $rule!($t, $first + 61), $rule!($t, $first + 62), $rule!($t, $first + 63)
        ]
    };
}

pub const GATHER_8_LOW: [usize; 64] = sixty_four!(gather_place(8), 0);

pub const GATHER_8_HIGH: [usize; 64] = sixty_four!(gather_place(8), 64);

pub const SCATTER_8_LOW: [usize; 64] = sixty_four!(scatter_place(8), 0);

pub const SCATTER_8_HIGH: [usize; 64] = sixty_four!(scatter_place(8), 64);

pub const UNSCATTER_8_LOW: [usize; 64] = sixty_four!(unscatter_place(8), 0);

pub const UNSCATTER_8_HIGH: [usize; 64] = sixty_four!(unscatter_place(8), 64);

pub const UNGATHER_8_LOW: [usize; 64] = sixty_four!(ungather_place(8), 0);

pub const UNGATHER_8_HIGH: [usize; 64] = sixty_four!(ungather_place(8), 64);

pub const GATHER_16_LOW: [usize; 64] = sixty_four!(gather_place(16), 0);

pub const GATHER_16_HIGH: [usize; 64] = sixty_four!(gather_place(16), 64);

pub const SCATTER_16_LOW: [usize; 64] = sixty_four!(scatter_place(16), 0);

pub const SCATTER_16_HIGH: [usize; 64] = sixty_four!(scatter_place(16), 64);

pub const UNSCATTER_16_LOW: [usize; 64] = sixty_four!(unscatter_place(16), 0);

pub const UNSCATTER_16_HIGH: [usize; 64] = sixty_four!(unscatter_place(16), 64);

pub const UNGATHER_16_LOW: [usize; 64] = sixty_four!(ungather_place(16), 0);

pub const UNGATHER_16_HIGH: [usize; 64] = sixty_four!(ungather_place(16), 64);

pub const GATHER_32_LOW: [usize; 64] = sixty_four!(gather_place(32), 0);

pub const GATHER_32_HIGH: [usize; 64] = sixty_four!(gather_place(32), 64);

pub const SCATTER_32_LOW: [usize; 64] = sixty_four!(scatter_place(32), 0);

pub const SCATTER_32_HIGH: [usize; 64] = sixty_four!(scatter_place(32), 64);

pub const UNSCATTER_32_LOW: [usize; 64] = sixty_four!(unscatter_place(32), 0);

pub const UNSCATTER_32_HIGH: [usize; 64] = sixty_four!(unscatter_place(32), 64);

pub const UNGATHER_32_LOW: [usize; 64] = sixty_four!(ungather_place(32), 0);

pub const UNGATHER_32_HIGH: [usize; 64] = sixty_four!(ungather_place(32), 64);

pub const GATHER_64_LOW: [usize; 64] = sixty_four!(gather_place(64), 0);

pub const GATHER_64_HIGH: [usize; 64] = sixty_four!(gather_place(64), 64);

pub const SCATTER_64_LOW: [usize; 64] = sixty_four!(scatter_place(64), 0);

pub const SCATTER_64_HIGH: [usize; 64] = sixty_four!(scatter_place(64), 64);

pub const UNSCATTER_64_LOW: [usize; 64] = sixty_four!(unscatter_place(64), 0);

pub const UNSCATTER_64_HIGH: [usize; 64] = sixty_four!(unscatter_place(64), 64);

pub const UNGATHER_64_LOW: [usize; 64] = sixty_four!(ungather_place(64), 0);

pub const UNGATHER_64_HIGH: [usize; 64] = sixty_four!(ungather_place(64), 64);
