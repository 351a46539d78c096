//! A caller of the library, as the README shows it.

ghost use Rattle.std.specs.Prelude.{◌≡◌, ◌^◌, ◌<◌, All};

use fastlanes::{pack, unpack};

/// Stores 1024 readings of twelve bits in 768 words, and reads them back.
pub fn stored(readings: &[u16; 1024], words: &mut [u16; 768], back: &mut [u16; 1024])
    requires { All (λ x. x < 2 ^ 12) readings.now }
    ensures { back.new ≡ readings.now }
{
    pack::<u16, 12, 768>(readings, words);
    unpack::<u16, 12, 768>(words, back);
}
