//! The width that a walk is given: a number of the run, or that of a type, which the compiler knows as a constant.

ghost use Rattle.std.specs.Prelude.{◌≡◌, ℕ, ⊤};

use crate::width::Width;
use std::marker::PhantomData;

/// A width, whether or not the compiler knows it as a constant.
pub trait GivenWidth {
    // The width is one of these.
    ghost may: { ℕ → Type 0 };

    /// The width, as a constant where it is known.
    fn known(width: usize) -> usize
        requires { may width }
        ensures { result ≡ width };
}

/// A width that is a number of the run.
pub struct OfRun;

impl GivenWidth for OfRun {
    ghost may = { λ width. ⊤ };

    #[inline(always)]
    fn known(width: usize) -> usize {
        width
    }
}

/// The width of a type.
pub struct OfType<W> {
    width: PhantomData<W>,
}

impl<W: Width> GivenWidth for OfType<W> {
    ghost may = { λ width. width ≡ W.W };

    #[inline(always)]
    fn known(_width: usize) -> usize {
        W::W
    }
}
