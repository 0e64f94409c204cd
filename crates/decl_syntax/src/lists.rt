//! Lists that are as long as what they hold.
ghost use Rattle.std.specs.Prelude.{◌≡◌};

/// The list without room for more. A tree holds very many short lists, and none grows once it is read.
pub fn fitted<T>(mut list: Vec<T>) -> Vec<T>
    ensures { result.items ≡ list.items }
{
    list.shrink_to_fit();
    list
}
