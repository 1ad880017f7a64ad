// Elements of lists.
ghost use Rattle.std.specs.Prelude.{◌≡◌, ◌<◌, Some, length, slice_get};

/// The element at the index.
pub(crate) fn item<T>(items: &[T], index: usize) -> &T
    requires { index < length items.now }
    ensures { slice_get items.now index ≡ Some result.now }
{
    &items[index]
}
