//! What a format of `printf` says of its arguments.

/// What a conversion takes after promotion: `int` or `unsigned int`, one of the `long` types, or one
/// of the `long long` types.
#[derive(Clone, Copy, Debug, PartialEq, Eq)]
pub enum Want {
    Int,
    Long,
    LongLong,
}

/// What stands before a byte of a format: text, the `%` of a conversion, or an `l` or two behind it.
#[derive(Clone, Copy, Debug, PartialEq, Eq)]
pub enum Part {
    Text,
    Percent,
    OneL,
    TwoL,
}

/// What a byte of a format does: it leads on, it ends a conversion, or it has no place there.
#[derive(Clone, Copy, Debug, PartialEq, Eq)]
pub enum Read {
    On(Part),
    Takes(Want),
    Wrong,
}
