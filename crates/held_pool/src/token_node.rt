//! The nodes of a list of numbers.

ghost use Rattle.std.specs.Prelude.{◌≡◌, ◌∷◌, [], IfNone, IfSome};
ghost use Rattle.held_pool.specs.TokenNumbers.{numbers_in};

/// A number, and the node after it.
#[derive(Drop)]
pub(crate) struct Node {
    pub number: u64,
    pub next: Link,
}

/// The first node of a list, if it has one.
pub(crate) type Link = Option<Box<Node>>;

/// Takes the first number out.
pub(crate) fn pop(list: &mut Link) -> Option<u64>
    ensures some { IfSome result (λ number. numbers_in list.old ≡ number ∷ numbers_in list.new) }
    ensures none { IfNone result (numbers_in list.old ≡ []) }
    ensures none_left { IfNone result (numbers_in list.new ≡ []) }
{
    let first = list.take()?;
    let Node { number, next } = Box::into_inner(first);
    *list = next;
    Some(number)
}

/// Drops a list, one node after the other: the list itself would be dropped as deep as it is long.
pub(crate) fn clear(list: Link) {
    let mut rest = list;
    while let Some(_number) = pop(&mut rest) {}
}
