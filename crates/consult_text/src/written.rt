//! Commands as they are written, before their names are looked up.

/// An element as it is written.
#[derive(Clone, Copy)]
pub enum ElemText<'a> {
    Name(&'a [u8]),
    Integer(bool, &'a [u8]),
}

/// A name with its arguments.
#[derive(Drop)]
pub struct Head<'a> {
    pub name: &'a [u8],
    pub args: Vec<ElemText<'a>>,
}

/// A literal as it is written: `P(args)` or `f(args) = value`, or its negation.
#[derive(Drop)]
pub struct LiteralText<'a> {
    pub positive: bool,
    pub name: &'a [u8],
    pub args: Vec<ElemText<'a>>,
    pub value: Option<ElemText<'a>>,
}

/// A command as it is written.
#[derive(Drop)]
pub enum CommandText<'a> {
    Assert(LiteralText<'a>),
    Retract(LiteralText<'a>),
    Reset,
    Choices,
    Model,
    /// The digits of the number of models.
    Models(&'a [u8]),
    Propagate,
    /// The name of a term block.
    Minimize(&'a [u8]),
    Explain(LiteralText<'a>),
    Why,
    /// The digits of the budget.
    Budget(&'a [u8]),
    Unlimited,
    Forget,
}
