// How the variants that every program has are named.

/// How variants of `Option` and `Result` are named; a declared variant always stands behind its enum.
#[derive(Clone, Copy, Debug, PartialEq, Eq)]
pub enum Paths {
    /// Alone, as in `None`.
    Short,
    /// Behind the enum, as in `Option::None`: so a declared item of that name hides none.
    Whole,
}
