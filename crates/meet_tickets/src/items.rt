//! The items that pass through a place.

ghost use Rattle.std.specs.Prelude.{◌≡◌, ℕ};

/// An item with a mark (an item id), by which a record names it. Two items may have one mark.
///
/// # Example
/// From `crates/examples/src/parcels/passing.rt`:
///
///     impl Marked for Parcel {
///         ghost mark_of = { λ parcel. parcel.mark };
///         fn mark(&self) -> u64 {
pub trait Marked {
    /// The mark of an item.
    ghost mark_of: { Self → ℕ };

    /// Returns the number by which records name this item. It doesn't allocate.
    fn mark(&self) -> u64
        ensures { result ≡ mark_of self.now };
}

/// A number is its own mark.
impl Marked for u64 {
    ghost mark_of = { λ item. item };

    fn mark(&self) -> u64 {
        *self
    }
}

/// A number is its own mark.
impl Marked for u8 {
    ghost mark_of = { λ item. item };

    fn mark(&self) -> u64 {
        u64::from(*self)
    }
}

/// A number is its own mark.
impl Marked for u16 {
    ghost mark_of = { λ item. item };

    fn mark(&self) -> u64 {
        u64::from(*self)
    }
}

/// A number is its own mark.
impl Marked for u32 {
    ghost mark_of = { λ item. item };

    fn mark(&self) -> u64 {
        u64::from(*self)
    }
}

/// A number is its own mark.
impl Marked for usize {
    ghost mark_of = { λ item. item };

    fn mark(&self) -> u64 {
        (*self) as u64
    }
}
