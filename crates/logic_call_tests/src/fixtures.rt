//! Small parts of vocabularies, structures and formulas.
ghost use Rattle.std.specs.Prelude.{◌≡◌, ◌∷◌, [], map, IfOk};
ghost use Rattle.kb_logic.specs.declared.elements.Elem.TheVariants.{Named, Num};

use kb_logic::{
    Bound, DomainList, Elem, ElemList, ListOf, Literal, Memory, Name, NumberList, Parent, RowList,
    Structure, Symbol, SymbolList, Table, TableList, TypeDecl, TypeList, Vocabulary,
};
use std::alloc::Global;

fn named(alloc: Global, word: &[u8]) -> Result<Elem, Memory>
    ensures { IfOk result (λ e. e ≡ Named word.now) }
{
    match Name::new(alloc, word) {
        Ok(name) => Ok(Elem::Named(name)),
        Err(stop) => Err(stop),
    }
}

/// Elements with these names.
pub fn words(alloc: Global, texts: &[&[u8]]) -> Result<ElemList, Memory>
    ensures { IfOk result (λ list. list ≡ map (λ t. Named t.now) texts.now) }
{
    let mut list = ElemList::new(alloc);
    for text in texts {
        list.push(named(alloc, text)?)?;
    }
    Ok(list)
}

/// These integers as elements.
pub fn integers(alloc: Global, members: &[i64]) -> Result<ElemList, Memory>
    ensures { IfOk result (λ list. list ≡ map Num members.now) }
{
    let mut list = ElemList::new(alloc);
    for n in members {
        list.push(Elem::Num(*n))?;
    }
    Ok(list)
}

/// Two domains of integers.
pub fn domains(alloc: Global, first: &[i64], second: &[i64]) -> Result<DomainList, Memory>
    ensures { IfOk result (λ list. list ≡ map Num first.now ∷ map Num second.now ∷ []) }
{
    let mut list = DomainList::new(alloc);
    list.push(integers(alloc, first)?)?;
    list.push(integers(alloc, second)?)?;
    Ok(list)
}

/// The rows of a predicate of one place that has these members.
fn table(alloc: Global, symbol: u32, members: &[i64]) -> Result<Table, Memory> {
    let mut rows = RowList::new(alloc);
    for n in members {
        rows.push(integers(alloc, &[*n])?)?;
    }
    Ok(Table { symbol, rows })
}

/// Integers, an empty type, and the predicate 0 of 1 and 2.
pub fn integer_structure(alloc: Global, members: &[i64]) -> Result<Structure, Memory> {
    Ok(Structure {
        domains: domains(alloc, members, &[])?,
        relations: TableList::from_vec(vec![in alloc; table(alloc, 0, &[1, 2])?]?),
        functions: TableList::new(alloc),
    })
}

fn push_over(alloc: Global, bounds: &mut Vec<Bound>, ty: u32, count: usize) -> Result<(), Memory> {
    for _ in 0..count {
        let name = Name::new(alloc, b"x")?;
        bounds.push(Bound { name, ty })?;
    }
    Ok(())
}

/// As many variables of type 0, and after them as many of type 1.
pub fn variables(alloc: Global, counts: [usize; 2]) -> Result<Vec<Bound>, Memory> {
    let mut bounds = Vec::new(alloc);
    push_over(alloc, &mut bounds, 0, counts[0])?;
    push_over(alloc, &mut bounds, 1, counts[1])?;
    Ok(bounds)
}

/// A symbol of arguments and a value of these types.
pub fn symbol(alloc: Global, args: &[u32], value: Option<u32>) -> Result<Symbol, Memory> {
    Ok(Symbol {
        name: Name::new(alloc, b"s")?,
        args: NumberList::from_vec(Vec::from_slice(alloc, args)?),
        value,
    })
}

fn two_types(alloc: Global) -> Result<TypeList, Memory> {
    let mut list = ListOf::new(alloc);
    for _ in 0..2 {
        list.push(TypeDecl {
            name: Name::new(alloc, b"T")?,
            parent: Parent::Root,
            made: ListOf::new(alloc),
        })?;
    }
    Ok(list)
}

/// A vocabulary of two types.
pub fn vocabulary(alloc: Global, symbols: SymbolList) -> Result<Vocabulary, Memory>
    ensures { IfOk result (λ v. v.symbols ≡ symbols) }
{
    Ok(Vocabulary {
        name: Name::new(alloc, b"V")?,
        types: two_types(alloc)?,
        symbols,
    })
}

/// Symbol 0 is a predicate of two elements of type 0, symbol 1 a function from type 0 to type 1.
pub fn edge_and_color(alloc: Global) -> Result<SymbolList, Memory> {
    let mut list = ListOf::new(alloc);
    list.push(symbol(alloc, &[0, 0], None)?)?;
    list.push(symbol(alloc, &[0], Some(1))?)?;
    Ok(list)
}

/// The predicate 0 of these elements.
pub fn predicate_atom(args: ElemList) -> Literal {
    Literal {
        positive: true,
        symbol: 0,
        args,
        value: None,
    }
}

/// The predicate 0 of two names.
pub fn edge(alloc: Global, from: &[u8], to: &[u8]) -> Result<Literal, Memory> {
    Ok(predicate_atom(words(alloc, &[from, to])?))
}

/// That the function 1 of one name is another.
pub fn color(alloc: Global, area: &[u8], value: &[u8]) -> Result<Literal, Memory> {
    Ok(Literal {
        positive: true,
        symbol: 1,
        args: words(alloc, &[area])?,
        value: Some(named(alloc, value)?),
    })
}
