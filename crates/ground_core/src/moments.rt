//! When a clause was learnt.

/// How long a problem's lists were. They only grow, so these lengths tell what the problem was.
#[derive(Clone, Copy)]
pub struct Moment {
    pub vars: u64,
    pub gates: u64,
    pub clauses: u64,
    pub sums: u64,
    pub bounds: u64,
    pub retired: u64,
}
