//! What the walk over a formula carries along.
ghost use Rattle.std.specs.Prelude.{◌≡◌, []};

use crate::scopes::Scope;
use crate::tables::Table;
use stage_definitions::Earliest;
use std::alloc::Global;

/// What is known before a walk: the names that are declared, and those that the definition round it defines.
#[derive(Drop)]
pub struct Known<'r, 'a> {
    pub table: &'r Table<'a>,
    pub defined: &'r Scope<'a>,
}

/// Resolves names in a formula: each step of the walk makes a part of the tree with numbers, and notes the earliest
/// refusal so far.
// The walk owns its scope and its refusal: a struct that held them as `&mut` would owe at each step that it still holds
// the same two references.
#[derive(Drop)]
pub struct Resolver<'r, 'a> {
    pub alloc: Global,
    pub known: Known<'r, 'a>,
    pub scope: Scope<'a>,
    pub earliest: Earliest,
}

impl<'r, 'a> Resolver<'r, 'a> {
    /// A walk where no variable is in scope.
    pub fn begin(alloc: Global, known: Known<'r, 'a>, earliest: &Earliest) -> Resolver<'r, 'a>
        ensures known { result.known ≡ known.entry }
        ensures scope { result.scope ≡ [] }
        ensures noted { result.earliest.first ≡ earliest.now.first }
    {
        Resolver {
            alloc,
            known,
            scope: Scope::new(alloc),
            earliest: Earliest {
                first: earliest.first,
            },
        }
    }
}
