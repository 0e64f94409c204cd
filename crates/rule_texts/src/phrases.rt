// Words on what is wrong.

/// Words on what is wrong at a place.
#[derive(Clone, Copy, Debug, PartialEq, Eq)]
pub enum Phrase {
    /// As they stand.
    Plain(&'static str),
    /// Before and behind the name of what stands at the place.
    Named {
        front: &'static str,
        back: &'static str,
    },
}
