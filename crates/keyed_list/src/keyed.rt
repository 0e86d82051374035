//! What a list asks of its items, of a test and of an edit of them.
ghost use Rattle.std.specs.Prelude.{◌≡◌};

/// An item with a bucket. Any function of the item may be its bucket.
pub trait Keyed {
    ghost use Rattle.std.specs.Prelude.{ℕ};

    ghost bucket_of: { Self → ℕ };

    /// Returns the item's bucket.
    fn bucket(&self) -> u16
        ensures { result ≡ bucket_of self.now };
}

/// A test of items.
pub trait Test<T> {
    ghost use Rattle.std.specs.Prelude.{Bool};

    ghost passes: { Self → T → Bool };

    /// Tests whether the item passes.
    fn passes(&self, item: &T) -> bool
        ensures { result ≡ passes self.now item.now };
}

/// A change of an item.
pub trait Edit<T> {
    ghost edited: { Self → T → T };

    /// Changes the item.
    fn edit(&self, item: &mut T)
        ensures { item.new ≡ edited self.now item.old };
}
