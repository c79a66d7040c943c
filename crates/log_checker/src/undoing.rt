//! How an earlier state comes back: what an entry leaves only adds at the ends of lists.
ghost use Rattle.std.specs.Prelude.{◌≡◌};
ghost use Rattle.log_checker.specs.States.{state_view};
ghost use Rattle.log_checker.specs.Undoing.{ends_of, cut_back};

use crate::checked::{Checked, Ends};

/// What has to be known of a state, so that a later one can be cut back to it.
pub fn ends_of(st: &Checked) -> Ends
    ensures { result ≡ ends_of (state_view st.now) }
{
    Ends {
        vars: st.vars,
        clauses: st.clauses.len(),
        bounds: st.bounds.as_slice().len(),
        line: st.line,
        claims: st.claims.len(),
    }
}

/// Gives up what stands past the ends.
pub fn cut_back(st: &mut Checked, ends: Ends)
    ensures { state_view st.new ≡ cut_back (state_view st.old) ends }
{
    st.vars = ends.vars;
    st.clauses.truncate(ends.clauses);
    st.bounds.truncate(ends.bounds);
    st.line = ends.line;
    st.claims.truncate(ends.claims);
}
