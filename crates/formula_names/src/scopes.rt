//! The variables in scope, outermost first.
ghost use Rattle.std.specs.Prelude.{◌≡◌, [], ◌∷◌, ◌++◌, ◌-◌, IfOk, OnOk, length, take, drop, is_some};
ghost use Rattle.stage_definitions.specs.Scopes.{last_position};

use indexmap::IndexMap;
use kb_logic::Memory;
use std::alloc::Global;
use std::marker::Model;

/// A variable, and the one of its name that it hides.
#[derive(Clone, Copy)]
pub struct Binding<'a> {
    pub text: &'a [u8],
    pub hidden: Option<u32>,
}

/// The innermost variable of each name.
#[derive(Drop)]
pub struct Levels<'a> {
    pub map: IndexMap<&'a [u8], Option<u32>>,
}

/// The names in scope.
// Shallow binding: the table has the innermost variable of each name, and the stack keeps with each variable the one
// that it hides, which leaving it writes back. So a look-up is one hash however deep the scope is, and entering or
// leaving costs one write, where a list of variables, searched from its end, would make each word cost the depth.
#[derive(Drop)]
pub struct Scope<'a> {
    bindings: Vec<Binding<'a>>,
    levels: Levels<'a>,
}

impl<'a> Model for Scope<'a> {
    ghost use Rattle.std.specs.Prelude.{ℕ, List};

    ghost Value = { List (List ℕ) };

    ghost use Rattle.formula_names.specs.Levels.{texts_in, IsScope};

    ghost view = { λ s. texts_in s.bindings.items };

    ghost invariant = { IsScope };
}

ghost use Rattle.formula_names.specs.Levels.{level_in};

fn level_of<'a>(levels: &Levels<'a>, name: &'a [u8]) -> Option<u32>
    ensures { result ≡ level_in levels.now name.now }
{
    match levels.map.get(name) {
        Some(level) => *level,
        None => None,
    }
}

impl<'a> Scope<'a> {
    pub fn new(alloc: Global) -> Scope<'a>
        ensures { result ≡ [] }
    {
        Scope {
            bindings: Vec::new(alloc),
            levels: Levels {
                map: IndexMap::new(alloc),
            },
        }
    }

    pub fn len(&self) -> usize
        ensures { result ≡ length self.now }
    {
        self.bindings.len()
    }

    /// The number of the innermost variable of this name, counted from the outermost variable.
    pub fn level(&self, name: &'a [u8]) -> Option<u32>
        ensures { result ≡ last_position name.now self.now }
    {
        level_of(&self.levels, name)
    }

    /// Binds one more variable, and returns its number.
    pub fn enter(&mut self, name: &'a [u8]) -> Result<u32, Memory>
        ensures number { IfOk result (λ n. n ≡ length self.old) }
        ensures scope { OnOk result (self.new ≡ self.old ++ name.now ∷ []) }
    {
        let number = self.bindings.len();
        if number >= u32::MAX as usize {
            return Err(Memory);
        }
        let hidden = level_of(&self.levels, name);
        self.bindings.push(Binding { text: name, hidden })?;
        match self.levels.map.insert(name, Some(number as u32)) {
            Ok(_) => Ok(number as u32),
            Err(_) => {
                let _ = self.bindings.pop();
                Err(Memory)
            }
        }
    }

    /// Leaves the scope of the innermost variable.
    fn leave_one(&mut self) -> Result<(), Memory>
        ensures { OnOk result (self.new ≡ take (length self.old - 1) self.old) }
    {
        let Some(binding) = self.bindings.pop() else {
            return Ok(());
        };
        match self.levels.map.insert(binding.text, binding.hidden) {
            Ok(_) => Ok(()),
            Err(_) => {
                self.bindings.push(binding)?;
                Err(Memory)
            }
        }
    }

    /// Leaves the scope of all variables but the `len` outermost ones.
    pub fn leave(&mut self, len: usize) -> Result<(), Memory>
        ensures { OnOk result (self.new ≡ take len self.old) }
    {
        while self.len() > len {
            self.leave_one()?;
        }
        Ok(())
    }
}

/// Whether a variable from `outer` on has this name.
pub fn is_bound_from<'a>(scope: &Scope<'a>, outer: usize, name: &'a [u8]) -> bool
    ensures { result ≡ is_some (last_position name.now (drop outer scope.now)) }
{
    match scope.level(name) {
        Some(level) => level as usize >= outer,
        None => false,
    }
}
