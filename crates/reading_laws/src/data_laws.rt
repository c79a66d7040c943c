//! Laws of the stage of data.
ghost use Rattle.reading_laws.specs.DataLaws.{
  AcceptedHaveDomains,
  AcceptedIsGiven,
  BlocksHavePlaces,
  GivenIsConsistent,
  RefusalsAreParted,
  TheoriesHavePlaces,
};

/// A refusal is one of what the structure says by itself, or one of an integer beside it.
pub fn refusals_are_parted()
    ensures { RefusalsAreParted }
{}

/// What is returned is what the structure gives by itself, under the vocabulary alone.
pub fn accepted_is_given()
    ensures { AcceptedIsGiven }
{}

/// Where nothing is refused, no atom is said to be true and false.
pub fn given_is_consistent()
    ensures { GivenIsConsistent }
{}

/// What is accepted has domains as they are asked for.
pub fn accepted_have_domains()
    ensures { AcceptedHaveDomains }
{}

/// Each term of a theory has its place.
pub fn theories_have_places()
    ensures { TheoriesHavePlaces }
{}

/// Each term of a term block has its place.
pub fn blocks_have_places()
    ensures { BlocksHavePlaces }
{}
