ghost use Rattle.std.specs.Prelude.{◌≡◌, IfOk};

use std::alloc::AllocError;

/// Plain data, which can be copied if there is memory.
pub trait PlainData: Drop {
    /// Returns a copy that equals this value. Fails if memory runs out; what was copied until then is freed.
    fn copy(&self) -> Result<Self, AllocError>
        ensures { IfOk result (λ copy. copy ≡ self.now) };
}

impl PlainData for u8 {
    fn copy(&self) -> Result<u8, AllocError> {
        Ok(*self)
    }
}

impl PlainData for u32 {
    fn copy(&self) -> Result<u32, AllocError> {
        Ok(*self)
    }
}

impl PlainData for usize {
    fn copy(&self) -> Result<usize, AllocError> {
        Ok(*self)
    }
}

fn copied_option<T: PlainData>(value: &Option<T>) -> Result<Option<T>, AllocError>
    ensures { IfOk result (λ copy. copy ≡ value.now) }
{
    match value {
        Some(value) => Ok(Some(value.copy()?)),
        None => Ok(None),
    }
}

impl<T: PlainData> PlainData for Option<T> {
    fn copy(&self) -> Result<Option<T>, AllocError> {
        copied_option(self)
    }
}
