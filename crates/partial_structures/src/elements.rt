//! The elements of the types, hashed type by type.
ghost use Rattle.std.specs.Prelude.{◌≡◌, ◌||◌, slice_get, IfOk, OnOk};
ghost use Rattle.std.specs.Option.{option_copied};
ghost use Rattle.std.specs.List.{list_any};
ghost use Rattle.row_tries.specs.declared.rows.Label.{Label as ALabel};
ghost use Rattle.partial_structures.specs.Elements.{AreLabelsOf, HasElements, has_label_of, labels_in};
ghost use Rattle.row_tries.specs.Rows.{same_label, same_optional_label};
ghost use Rattle.row_tries.specs.Words.{words_in};

use indexmap::IndexSet;
use kb_logic::{Elem, ElemList, Memory};
use row_tries::{Label, Rows};
use std::alloc::Global;

/// The labels of each type's elements.
#[derive(Drop)]
pub(crate) struct Elements {
    pub tables: Vec<IndexSet<Label>>,
}

/// One more label, where there is one.
fn add_label(labels: &mut IndexSet<Label>, label: Option<Label>) -> Result<(), Memory>
    ensures { OnOk result ((l : ALabel) → list_any (same_label l) labels.new.keys
        ≡ (list_any (same_label l) labels.old.keys || same_optional_label l label)) }
{
    match label {
        None => Ok(()),
        Some(label) => {
            labels.insert_full(label)?;
            Ok(())
        }
    }
}

/// The labels of some elements, which the rows have.
fn labels_of(alloc: Global, rows: &Rows, elems: &[Elem]) -> Result<IndexSet<Label>, Memory>
    ensures { IfOk result (λ s. AreLabelsOf (words_in rows.now.words) elems.now s.keys) }
{
    let mut labels = IndexSet::with_capacity(alloc, elems.len())?;
    for elem in elems {
        add_label(&mut labels, rows.label(elem))?;
    }
    Ok(labels)
}

impl Elements {
    /// The elements of these domains, whose labels the rows have.
    pub fn of(alloc: Global, rows: &Rows, domains: &[ElemList]) -> Result<Elements, Memory>
        ensures { IfOk result (λ s. HasElements (words_in rows.now.words) domains.now (labels_in s)) }
    {
        let mut tables = Vec::with_capacity(alloc, domains.len())?;
        for domain in domains {
            tables.push(labels_of(alloc, rows, domain.as_slice())?)?;
        }
        Ok(Elements { tables })
    }

    fn table(&self, ty: usize) -> Option<&IndexSet<Label>>
        ensures { option_copied result ≡ slice_get self.now.tables.items ty }
    {
        self.tables.get(ty)
    }

    /// Whether the type has an element with the label.
    pub fn contains(&self, ty: u32, label: Option<Label>) -> bool
        ensures { result ≡ has_label_of (labels_in self.now) ty label }
    {
        match label {
            None => false,
            Some(label) => match self.table(ty as usize) {
                Some(labels) => labels.contains(&label),
                None => false,
            },
        }
    }
}
