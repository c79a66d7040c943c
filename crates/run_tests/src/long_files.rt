//! What no clause says and no case of consult_cases can show.

mod files;
