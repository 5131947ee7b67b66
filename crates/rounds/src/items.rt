// Slices with one item for each console, read at every index, and authors by index.
ghost use Rattle.std.specs.Prelude.{◌≡◌, ◌==◌, suc, slice_index_or};

// The item at index c, or `other` beyond the end.
pub fn item_or<T: Copy>(items: &[T], c: u8, other: T) -> T
    ensures { result ≡ slice_index_or items.now c other }
{
    items.get(c as usize).copied().unwrap_or(other)
}

// Whether the number is that of the author of index a.
pub fn is_author(number: u8, a: u8) -> bool
    ensures { result ≡ (number == suc a) }
{
    u16::from(number) == u16::from(a) + 1
}
