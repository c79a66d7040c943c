//! The files that the worked rows are about.

/// Each element is of one of the two predicates, of which one is given.
pub(super) const COVER: &[u8] = b"vocabulary V { type N  P(N)  Q(N) }
theory T : V { !x[N]: P(x) | Q(x).  !x[N]: ~(P(x) & Q(x)). }
structure S : V { N = {a; b}  P = {a} }
";

pub(super) const BOTH_GIVEN: &[u8] = b"vocabulary V { type N  P(N)  Q(N) }
theory T : V { !x[N]: P(x) | Q(x).  !x[N]: ~(P(x) & Q(x)). }
structure S : V { N = {a; b}  P = {a}  Q = {a} }
";

pub(super) const A_FUNCTION: &[u8] = b"vocabulary V { type N  P(N)  Q(N):N }
theory T : V { !x[N]: P(x) | Q(x).  !x[N]: ~(P(x) & Q(x)). }
structure S : V { N = {a; b}  P = {a} }
";

pub(super) const TWENTY_TWO: &[u8] = b"vocabulary V { type N  P(N)  Q(N) }
theory T : V { !x[N]: P(x) | Q(x).  !x[N]: ~(P(x) & Q(x)). }
structure S : V { N = {a; b; c; d; e; f; g; h; i; j; k; l; m; n; o; p; q; r; s; t; u; v}  P = {a} }
";

pub(super) const EITHER_P_OR_Q: &[u8] =
    b"vocabulary V { p  q }\ntheory T : V { p | q.  ~p. }\nstructure S : V { }\n";

/// A coloured map of two areas that border on one another.
pub(super) const MAP: &[u8] = b"vocabulary V {
  type Area
  type Color constructed from {Red, Green}
  Border(Area,Area)
  color(Area):Color
}
theory T : V {
  !x y: Border(x,y) => color(x) ~= color(y).
}
structure S : V {
  Area = {b; f}
  Border = {b,f}
}
";

pub(super) const MAP_IN_ONE_COLOUR: &[u8] = b"vocabulary V {
  type Area
  type Color constructed from {Red}
  Border(Area,Area)
  color(Area):Color
}
theory T : V {
  !x y: Border(x,y) => color(x) ~= color(y).
}
structure S : V {
  Area = {b; f}
  Border = {b,f}
}
";

pub(super) const MARKED_MAP: &[u8] = b"vocabulary V {
  type Area
  type Color constructed from {Red, Green}
  Border(Area,Area)
  color(Area):Color
}
theory T : V {
  !x y: Border(x,y) => color(x) ~= color(y).
}
structure S : V {
  Area = {b; f}
  Border<ct> = {b,f; } color<cf> = {f->Red}
}
";

pub(super) const MARKED_MAP_TEXT: &[u8] = b"structure S : V {
  Area = {b; f}
  Border<ct> = {b,f}
  color<cf> = {f->Red}
}
";

pub(super) const MAP_TEXT: &[u8] = b"structure S : V {
  Area = {b; f}
  Border = {b,f}
}
";

pub(super) const EMPTY_TYPE: &[u8] =
    b"vocabulary V { type E  P(E) }\ntheory T : V { !x: P(x). }\nstructure S : V { }\n";

pub(super) const CONSTANT_OF_AN_EMPTY_TYPE: &[u8] =
    b"vocabulary V { type E  P(E)  c : E }\ntheory T : V { !x: P(x). }\nstructure S : V { }\n";

pub(super) const FIVE_PIGEONS: &[u8] = b"vocabulary V { type Pigeon  type Hole  in(Pigeon):Hole }
theory T : V { !p q: p ~= q => in(p) ~= in(q). }
structure S : V { Pigeon = {p1; p2; p3; p4; p5}  Hole = {h1; h2; h3; h4} }
";

/// With one queen given, comments, a variable's type left out and a procedure.
pub(super) const FOUR_QUEENS: &[u8] = b"/* four queens */
vocabulary V {
  type Row isa nat
  type Col isa nat
  queen(Row):Col   // one per row
}
theory T : V {
  !r[Row] s: r < s => queen(r) ~= queen(s).
  !r, s: r < s => queen(r) - queen(s) ~= r - s & queen(r) - queen(s) ~= s - r.
}
structure S : V {
  Row = {1..4}
  Col = {1..4}
  queen<ct>={1->2}
}
procedure main() {
  stdoptions.nbmodels = 2  -- all { of them
  print(\"}\")
}
";

/// A minimum stands in a sum.
pub(super) const A_MINIMUM_IN_A_SUM: &[u8] =
    b"vocabulary V { type Item  type Num isa nat  P(Item)  w(Item):Num }
theory T : V { ?x: P(x). }
structure S : V { Item = {a; b}  Num = {0..6}  w = {a->2; b->3} }
term cost : V { min{x : P(x) : w(x)} + 1 }
";

pub(super) const A_DEFINITION: &[u8] =
    b"vocabulary V { p  q  o }\ntheory T : V { { p <- ~p & o. } }\nstructure S : V { }\n";

/// Its theory weighs more than is allowed.
pub(super) const A_HEAVY_THEORY: &[u8] = b"vocabulary V { type N isa nat  P(N)  Q(N,N) }
theory T : V { !x y z: Q(x,y) => P(x) | P(z). }
structure S : V { N = {1..1000}  Q = {1,2} }
";

/// A shopping list: what is bought costs something, and something is bought.
pub(super) const A_SUM: &[u8] = b"vocabulary V { type Item  type Num isa nat  P(Item)  w(Item):Num }
theory T : V { ?x: P(x). }
structure S : V { Item = {a; b}  Num = {0..6}  w = {a->2; b->3} }
term cost : V { sum{x : P(x) : w(x)} }
";

/// The least of nothing, and the greatest of nothing.
pub(super) const NOTHING_TO_WEIGH: &[u8] =
    b"vocabulary V { type Item  type Num isa nat  P(Item)  w(Item):Num }
theory T : V { ~?x: P(x). }
structure S : V { Item = {a; b}  Num = {0..6}  w = {a->2; b->3} }
term least : V { min{x : P(x) : w(x)} }
term most : V { max{x : P(x) : w(x)} }
";
