//! What formulas, terms and rules demand of the types of their terms.

/// A term's type: `int`, a type of the vocabulary, or none, as of a variable that has none.
#[derive(Clone, Copy)]
pub enum TermType {
    Int,
    Declared(u32),
    Untyped,
}

/// Where a term's type comes from: the term is the variable with this number, or has a type by itself.
#[derive(Clone, Copy)]
pub enum Kind {
    Variable(u32),
    ByItself(TermType),
}

/// A demand, with the place where its term begins, or the left side of its comparison. An argument has its kind and
/// its position's type; one of a function also whether it is an integer. The value of a head has its kind and its
/// function's value type, in which it need not be.
#[derive(Clone, Copy)]
pub enum Demand {
    Number(usize, Kind),
    Sides(usize, Kind, Kind),
    OfPredicate(usize, Kind, u32),
    OfFunction(usize, bool, Kind, u32),
    OfHead(usize, Kind, u32),
}

/// What is found of a variable's type: nothing yet, a type, or types of which none is the least.
#[derive(Clone, Copy)]
pub enum Finding {
    Nothing,
    Found(u32),
    Ambiguous,
}

/// A variable where it is bound.
#[derive(Clone, Copy)]
pub struct Binding {
    pub place: usize,
    pub finding: Finding,
}

/// A demand, or a list of variables with what is demanded in its scope.
#[cycle(parts)]
#[derive(Drop)]
pub enum Part {
    Demand(Demand),
    Scope(Vec<Binding>, Vec<Part>),
}
