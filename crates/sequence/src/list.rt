ghost use Rattle.std.specs.Prelude.{◌≡◌, IfOk};

use crate::plain::PlainData;
use std::alloc::AllocError;
use std::marker::Model;

/// A list in plain data. It is made from a `Vec` and can be turned back into one. Copying it copies the elements.
#[derive(Debug, Drop)]
pub struct Sequence<T> {
    items: Vec<T>,
}

impl<T> Model for Sequence<T> {
    ghost use Rattle.std.specs.Prelude.{List};

    ghost Value = { List T };

    ghost view = { λ s. s.items.items };
}

impl<T> Sequence<T> {
    /// Wraps the vector as a list. Allocates nothing.
    pub fn from_vec(items: Vec<T>) -> Sequence<T>
        ensures { result ≡ items.items }
    {
        Sequence { items }
    }

    /// Returns the elements as a vector. Allocates nothing.
    pub fn into_vec(self) -> Vec<T>
        ensures { result.items ≡ self }
    {
        self.items
    }

    /// Lends the elements as a slice.
    pub fn as_slice(&self) -> &[T]
        ensures { result.now ≡ self.now }
    {
        self.items.as_slice()
    }
}

/// Copies each element, in order.
fn copied<T: PlainData>(items: &Vec<T>) -> Result<Vec<T>, AllocError>
    ensures { IfOk result (λ copy. copy.items ≡ items.now.items) }
{
    let mut copy = Vec::with_capacity(*items.allocator(), items.len())?;
    for item in items {
        copy.push(item.copy()?)?;
    }
    Ok(copy)
}

impl<T: PlainData> PlainData for Sequence<T> {
    fn copy(&self) -> Result<Sequence<T>, AllocError> {
        Ok(Sequence {
            items: copied(&self.items)?,
        })
    }
}
