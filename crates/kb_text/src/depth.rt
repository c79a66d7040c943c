//! How deep the next token stands: what K16 bounds.
//!
//! The depth counts all constructs that are open at a place: brackets, the quantifiers and arrows since the last dot of
//! the same bracket, and the signs `~` and `-` just before. So no reader of the tokens recurses deeper than that.
ghost use Rattle.std.specs.Prelude.{◌≡◌, ◌≤◌, ◌+◌, OnOk};

use crate::role::{Role, role_of};
use crate::token::Kind;
use std::alloc::{AllocError, Global};

/// What one bracket opened.
#[derive(Clone, Copy)]
pub struct Level {
    /// The bracket, or 0 outside of all.
    bracket: u8,
    /// The depth of what stands in it.
    base: u32,
    /// The quantifiers and arrows since the last dot.
    count: u32,
    /// Whether it or one around it is a brace.
    in_braces: bool,
    ghost bounded: { base + count ≤ 201 },
}

/// Where a text stands after some tokens: all that the depth of the next one needs.
#[derive(Drop)]
pub struct Nesting {
    level: Level,
    /// The levels around it, the outermost first.
    outer: Vec<Level>,
    /// The signs `~` and `-` just before.
    run: u32,
    ghost short: { run ≤ 201 },
}

impl Nesting {
    ghost use Rattle.kb_text.specs.Depth.{around_of, outermost, depth_of, outwards, after_role, after_token};
    ghost use Rattle.kb_text.specs.declared.role.Role.TheVariants.{Open};

    pub fn new(alloc: Global) -> Nesting
        ensures { around_of result ≡ outermost }
    {
        let level = Level {
            bracket: 0,
            base: 0,
            count: 0,
            in_braces: false,
        };
        Nesting {
            level,
            outer: Vec::new(alloc),
            run: 0,
        }
    }

    pub fn depth(&self) -> u32
        ensures { result ≡ depth_of (around_of self.now) }
    {
        self.level.base + self.level.count + self.run
    }

    pub fn in_braces(&self) -> bool
        ensures { result ≡ (around_of self.now).layer.in_braces }
    {
        self.level.in_braces
    }

    fn enter(&mut self, bracket: u8) -> Result<(), AllocError>
        requires { depth_of (around_of self.old) ≤ 200 }
        ensures { OnOk result (around_of self.new ≡ after_role (around_of self.old) (Open bracket)) }
    {
        let base = self.depth() + 1;
        let in_braces = self.level.in_braces || bracket == b'{';
        self.outer.push(self.level)?;
        self.level = Level {
            bracket,
            base,
            count: 0,
            in_braces,
        };
        self.run = 0;
        Ok(())
    }

    fn leave(&mut self)
        ensures { around_of self.new ≡ outwards (around_of self.old).layer (around_of self.old).outer }
    {
        if let Some(level) = self.outer.pop() {
            self.level = level;
        }
        self.run = 0;
    }

    fn play(&mut self, role: Role) -> Result<(), AllocError>
        requires { depth_of (around_of self.old) ≤ 200 }
        ensures { OnOk result (around_of self.new ≡ after_role (around_of self.old) role) }
    {
        match role {
            Role::Open(bracket) => self.enter(bracket),
            Role::Close(bracket) => {
                if self.level.bracket == bracket {
                    self.leave();
                } else {
                    self.run = 0;
                }
                Ok(())
            }
            Role::Count => {
                self.level.count += 1;
                self.run = 0;
                Ok(())
            }
            Role::Stop => {
                self.level.count = 0;
                self.run = 0;
                Ok(())
            }
            Role::Prefix => {
                self.run += 1;
                Ok(())
            }
            Role::Other => {
                self.run = 0;
                Ok(())
            }
        }
    }

    /// Goes on after a token.
    pub fn pass(&mut self, kind: Kind, text: &[u8]) -> Result<(), AllocError>
        requires { depth_of (around_of self.old) ≤ 200 }
        ensures { OnOk result (around_of self.new ≡ after_token (around_of self.old) kind text.now) }
    {
        match kind {
            Kind::Sign => self.play(role_of(text)),
            Kind::Word | Kind::Int | Kind::Procedure => self.play(Role::Other),
        }
    }
}
