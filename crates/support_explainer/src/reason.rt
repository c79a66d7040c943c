//! Why a literal is true.
use ground_core::LitList;
use lit_core::Values;

/// Why a literal is true wherever the problem and what is assumed hold.
#[derive(Drop)]
pub enum Support {
    /// It is not: values under which it is false.
    Free(Values),
    /// They nowhere hold.
    Inconsistent,
    /// These force it, and none of them can be left out.
    By(LitList),
}
