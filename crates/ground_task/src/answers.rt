//! What a task answers.
use atom_numbers::FoundStructure;
use kb_logic::LiteralList;

/// What the choices admit.
#[derive(Drop)]
pub enum Answer {
    /// A model that makes them true.
    Model(FoundStructure),
    /// No model: some of them, in their order, with which there is none.
    NoModel(LiteralList),
}
