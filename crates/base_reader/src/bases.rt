//! Laws of what the stages of reading accept.
ghost use Rattle.base_reader.specs.Groundable.{AcceptedCanBeGrounded, AcceptedIsBounded};

use reading_laws::{
    accepted_are_bounded, accepted_have_domains, accepted_is_given, accepted_is_typed_over,
    given_is_consistent,
};

/// What the stages of names, types and data accept can be grounded: its data are consistent and of its vocabulary, its
/// sentences, rules and terms are well typed over them, and their aggregates stand where they may.
pub fn accepted_can_be_grounded()
    ensures { AcceptedCanBeGrounded }
{
    accepted_is_typed_over();
    accepted_have_domains();
    accepted_is_given();
    given_is_consistent();
}

/// What the stage of sizes accepts as well is bounded: the chosen theory, and each term that may be asked for.
pub fn accepted_is_bounded()
    ensures { AcceptedIsBounded }
{
    accepted_are_bounded();
}
