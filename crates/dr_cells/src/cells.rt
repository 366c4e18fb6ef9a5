//! Where the cells of a strip lie.
ghost use Rattle.std.specs.Prelude.{◌≡◌, ⊤};

use std::alloc::AllocError;

/// The place of a strip of cells. It owns nothing: tokens do.
pub struct Cells<T> {
    pub(crate) ptr: *mut T,
}

impl<T> Clone for Cells<T> {
    ghost is_clone = { λ x y. y ≡ x };

    ghost is_infallible = { λ _. ⊤ };

    fn clone(&self) -> Result<Cells<T>, AllocError> {
        Ok(*self)
    }
}

impl<T> Copy for Cells<T> {}

unsafe impl<T> Send for Cells<T> {}

unsafe impl<T> Sync for Cells<T> {}
