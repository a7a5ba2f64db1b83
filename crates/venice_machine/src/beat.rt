//! Which work a channel has gone on with.

/// Which work of its queue a channel has done a beat of.
#[derive(Clone, Copy)]
pub(crate) enum Beat {
    Nothing,
    First,
    Second,
}
