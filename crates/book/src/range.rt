// "a byte is out of its range: arity, predicate, n, mask, argument".
#[derive(Clone, Copy)]
pub enum Range {
    Below(u8),
    AtMost(u8),
    Argument,
    NoWildcard,
}
