//! Structures that are found over domains, which they share.
ghost use Rattle.std.specs.Prelude.{◌≡◌, [], IfOk};

use kb_logic::{DomainList, Memory, Structure, TableList};
use std::alloc::Global;
use std::marker::Model;
use std::rc::Rc;

// A domain may have 65,536 elements, and what is found is made, kept and printed by its tables: so the domains are
// counted, and not copied.
/// A structure that was found over some domains, of which all that are found over them have the same ones in memory: it
/// takes time and memory by its tables alone.
#[derive(Drop)]
pub struct FoundStructure {
    domains: Rc<DomainList>,
    /// The tables; the domains are missing here.
    tables: Structure,
}

impl Model for FoundStructure {
    ghost use Rattle.std.specs.Prelude.{◌≡◌, []};
    ghost use Rattle.kb_logic.specs.declared.structures.Structure.{Structure};

    ghost Value = { Structure };

    ghost view = { λ m. record m.tables { domains = m.domains.value } };

    ghost invariant = { λ m. m.tables.domains ≡ [] };
}

impl FoundStructure {
    /// The structure of these tables.
    pub(crate) fn over(
        alloc: Global,
        domains: &Rc<DomainList>,
        relations: TableList,
        functions: TableList,
    ) -> Result<FoundStructure, Memory>
        ensures { IfOk result (λ m. m ≡ record {
          domains = domains.now.value;
          relations = relations;
          functions = functions;
        }) }
    {
        Ok(FoundStructure {
            domains: domains.clone()?,
            tables: Structure {
                domains: DomainList::new(alloc),
                relations,
                functions,
            },
        })
    }

    /// The structure without its domains. It is for a reader of tables, as one that prints them.
    pub fn tables(&self) -> &Structure
        ensures { result.now ≡ record self.now { domains = [] } }
    {
        &self.tables
    }

    pub fn copy(&self, alloc: Global) -> Result<FoundStructure, Memory>
        ensures { IfOk result (λ m. m ≡ self.now) }
    {
        Ok(FoundStructure {
            domains: self.domains.clone()?,
            tables: self.tables.copy(alloc)?,
        })
    }
}
