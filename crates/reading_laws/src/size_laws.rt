//! Laws of the stage of sizes.
ghost use Rattle.reading_laws.specs.SizeLaws.{
  AcceptedAreBounded,
  BlocksHaveBounds,
  ProductCountsTuples,
  SmallIsBounded,
  SmallTermIsBounded,
  TheoriesHaveBounds,
};

/// The product of the sizes of domains counts their tuples.
pub fn product_counts_tuples()
    ensures { ProductCountsTuples }
{}

/// Each term of a theory has its bounds.
pub fn theories_have_bounds()
    ensures { TheoriesHaveBounds }
{}

/// Each term of a term block has its bounds.
pub fn blocks_have_bounds()
    ensures { BlocksHaveBounds }
{}

/// All bounds in 64 bits are small exactly where a formula is bounded.
pub fn small_is_bounded()
    ensures { SmallIsBounded }
{}

/// All bounds in 64 bits are small exactly where a term is bounded.
pub fn small_term_is_bounded()
    ensures { SmallTermIsBounded }
{}

/// What is accepted is bounded: the chosen theory and each term block.
pub fn accepted_are_bounded()
    ensures { AcceptedAreBounded }
{}
