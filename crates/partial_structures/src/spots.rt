//! Where the walk along an application's arguments stands.

/// The node of the row so far, the types of the arguments to come, and whether each argument so far was of
/// its type.
#[derive(Clone, Copy)]
pub struct Place<'a> {
    pub(crate) node: Option<usize>,
    pub(crate) types: &'a [u32],
    pub(crate) typed: bool,
}
