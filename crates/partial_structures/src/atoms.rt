//! What rows say of an atom.
ghost use Rattle.std.specs.Prelude.{IfOk, Some, ◌≡◌, ◌↔◌, ◌<◌, ◌+◌, List, ℕ, All, IfSome, IsTrue, IsErrOf, OnOk, OnErr};
ghost use Rattle.std.specs.Prelude.{length, map, option_map, reverse};
ghost use Rattle.kb_logic.specs.declared.elements.Elem.{Elem as Element};
ghost use Rattle.row_tries.specs.Lent.{lent_view};
ghost use Rattle.row_tries.specs.Words.{words_in};
ghost use Rattle.partial_structures.specs.Ordered.{value_behind};
ghost use Rattle.row_tries.specs.Rows.{Grows, node_of, has_label, mark_of};
ghost use Rattle.partial_structures.specs.AtomRows.{MadeFalse, MadeTrue, row_of, denied, settled, status_of};
ghost use Rattle.partial_structures.specs.Counts.{added_by};
ghost use Rattle.row_tries.specs.declared.truths.Truth.TheVariants.{No};
ghost use Rattle.partial_structures.specs.declared.errors.SetError.TheVariants.{DataClash};

use crate::errors::SetError;
use kb_logic::{Elem, Literal, Memory};
use row_tries::lent::{lent, lent_value};
use row_tries::{LentElem, Mark, Rows, Truth};

/// What is known where `closed` says that the rest is false.
pub(crate) fn if_closed(closed: bool, known: Truth) -> Truth
    ensures { result ≡ settled closed known }
{
    match known {
        Truth::Yes => Truth::Yes,
        Truth::No => Truth::No,
        Truth::Unknown => if closed { Truth::No } else { Truth::Unknown },
    }
}

/// What a row with a value says of the value.
pub(crate) fn denial(known: Truth) -> Truth
    ensures { result ≡ denied known }
{
    match known {
        Truth::No => Truth::No,
        _ => Truth::Unknown,
    }
}

/// What is known of a predicate's atom, where `closed` says that the rest of its symbol is false.
pub(crate) fn predicate_status(rows: &Rows, closed: bool, symbol: u32, args: &[Elem]) -> Truth
    ensures { result ≡ status_of (words_in rows.now.words) rows.now.nodes.entries closed symbol args.now None }
{
    if_closed(closed, rows.mark(rows.find(symbol, args)).known)
}

/// What is known of a function's having this value where its arguments lead to the node.
pub(crate) fn value_known(
    rows: &Rows,
    closed: bool,
    front: Option<usize>,
    value: LentElem<'_>,
) -> Truth
    ensures { result ≡ value_behind (words_in rows.now.words) rows.now.nodes.entries closed front
        (lent_view value.entry) }
{
    match rows.mark(front).value {
        Some(label) => {
            if rows.lent_label(value) == Some(label) {
                Truth::Yes
            } else {
                Truth::No
            }
        }
        None => if_closed(
            closed,
            denial(rows.mark(rows.lent_step(front, value)).known),
        ),
    }
}

/// What is known of a function's atom, in the same way.
pub(crate) fn function_status(
    rows: &Rows,
    closed: bool,
    symbol: u32,
    args: &[Elem],
    value: &Elem,
) -> Truth
    ensures { result ≡ status_of (words_in rows.now.words) rows.now.nodes.entries closed symbol args.now
        (Some value.now) }
{
    value_known(rows, closed, rows.find(symbol, args), lent(value))
}

/// What is known of the atom, in the same way.
pub(crate) fn status(rows: &Rows, closed: bool, atom: &Literal) -> Truth
    ensures { result ≡ status_of (words_in rows.now.words) rows.now.nodes.entries closed atom.now.symbol atom.now.args
        atom.now.value }
{
    match &atom.value {
        None => predicate_status(rows, closed, atom.symbol, atom.args.as_slice()),
        Some(value) => function_status(rows, closed, atom.symbol, atom.args.as_slice(), value),
    }
}

/// What is known of the atom with this value whose arguments lead to the node.
fn known_behind(
    rows: &Rows,
    closed: bool,
    front: Option<usize>,
    value: Option<LentElem<'_>>,
) -> Truth
    ensures { (s : ℕ) (args : List Element) → node_of (words_in rows.now.words) rows.now.nodes.entries s (reverse args)
        ≡ front → result ≡ status_of (words_in rows.now.words) rows.now.nodes.entries closed s args
        (option_map lent_view value.entry) }
{
    match value {
        None => if_closed(closed, rows.mark(front).known),
        Some(value) => value_known(rows, closed, front, value),
    }
}

/// Makes the atom true whose arguments lead to the node.
fn affirm(rows: &mut Rows, node: usize, value: Option<LentElem<'_>>)
    requires { node < length rows.old.nodes.entries }
    ensures made { (s : ℕ) (args : List Element) → node_of (words_in rows.old.words) rows.old.nodes.entries s
        (reverse args) ≡ Some node → MadeTrue (words_in rows.old.words) rows.old.nodes.entries rows.new.nodes.entries s
        args (option_map lent_view value.entry) }
    ensures words { rows.new.words ≡ rows.old.words }
{
    let mark = rows.mark(Some(node));
    match value {
        None => rows.set_mark(
            node,
            Mark {
                known: Truth::Yes,
                value: mark.value,
            },
        ),
        Some(value) => {
            let value = rows.lent_label(value);
            rows.set_mark(
                node,
                Mark {
                    known: mark.known,
                    value,
                },
            );
        }
    }
}

/// How many atoms are true once one more is, whose truth before is `known`; None where they cannot be counted.
fn counted(known: Truth, count: u64) -> Option<u64>
    ensures { IfSome result (λ n. n ≡ count + added_by known) }
{
    match known {
        Truth::Yes => Some(count),
        _ => count.checked_add(1),
    }
}

/// Why an atom was not made true for which there is no memory, where this is known of it.
fn unaffirmed(known: Truth) -> SetError
    ensures { (result ≡ DataClash) ↔ (known ≡ No) }
{
    match known {
        Truth::No => SetError::DataClash,
        _ => SetError::Memory,
    }
}

/// Makes the atom true, unless it is false, where so many atoms are true; how many are true then.
///
/// What is known is looked up where the one walk through the tree ends that makes room for the atom. Only where that
/// has no memory a walk of its own says whether the atom is false.
pub(crate) fn make_true(
    rows: &mut Rows,
    closed: bool,
    count: u64,
    atom: &Literal,
) -> Result<u64, SetError>
    requires { All (λ x. IsTrue (has_label (words_in rows.old.words) x)) atom.now.args }
    ensures ok { OnOk result (MadeTrue (words_in rows.old.words) rows.old.nodes.entries rows.new.nodes.entries
        atom.now.symbol atom.now.args atom.now.value) }
    ensures count { IfOk result (λ n. n ≡ count + added_by (status_of (words_in rows.old.words) rows.old.nodes.entries
        closed atom.now.symbol atom.now.args atom.now.value)) }
    ensures clash { IsErrOf result DataClash ↔ (status_of (words_in rows.old.words) rows.old.nodes.entries closed
        atom.now.symbol atom.now.args atom.now.value ≡ No) }
    ensures err { OnErr result ((s : ℕ) (xs : List Element) → mark_of (words_in rows.old.words) rows.new.nodes.entries s
        xs ≡ mark_of (words_in rows.old.words) rows.old.nodes.entries s xs) }
    ensures words { rows.new.words ≡ rows.old.words }
{
    let Ok(node) = rows.reach(atom.symbol, atom.args.as_slice()) else {
        return Err(unaffirmed(status(rows, closed, atom)));
    };
    let value = lent_value(&atom.value);
    match known_behind(rows, closed, Some(node), value) {
        Truth::No => Err(SetError::DataClash),
        known => match counted(known, count) {
            None => Err(SetError::Memory),
            Some(count) => {
                affirm(rows, node, value);
                Ok(count)
            }
        },
    }
}

/// Makes the atom false.
pub(crate) fn make_false(rows: &mut Rows, atom: &Literal) -> Result<(), Memory>
    requires args { All (λ x. IsTrue (has_label (words_in rows.old.words) x)) atom.now.args }
    requires value { IfSome atom.now.value (λ x. IsTrue (has_label (words_in rows.old.words) x)) }
    ensures ok { OnOk result (MadeFalse (words_in rows.old.words) rows.old.nodes.entries rows.new.nodes.entries
        atom.now.symbol atom.now.args atom.now.value) }
    ensures err { OnErr result ((s : ℕ) (xs : List Element) → mark_of (words_in rows.old.words) rows.new.nodes.entries s
        xs ≡ mark_of (words_in rows.old.words) rows.old.nodes.entries s xs) }
    ensures words { rows.new.words ≡ rows.old.words }
{
    let node = reach_atom(rows, atom)?;
    let mark = rows.mark(Some(node));
    rows.set_mark(
        node,
        Mark {
            known: Truth::No,
            value: mark.value,
        },
    );
    Ok(())
}

/// The node of the atom's row, with its value where it has one.
fn reach_atom(rows: &mut Rows, atom: &Literal) -> Result<usize, Memory>
    requires args { All (λ x. IsTrue (has_label (words_in rows.old.words) x)) atom.now.args }
    requires value { IfSome atom.now.value (λ x. IsTrue (has_label (words_in rows.old.words) x)) }
    ensures node { IfOk result (λ n. node_of (words_in rows.new.words) rows.new.nodes.entries atom.now.symbol
        (row_of atom.now.args atom.now.value) ≡ Some n) }
    ensures grows { Grows rows.old.nodes.entries rows.new.nodes.entries }
    ensures words { rows.new.words ≡ rows.old.words }
{
    let node = rows.reach(atom.symbol, atom.args.as_slice())?;
    match &atom.value {
        None => Ok(node),
        Some(value) => Ok(rows.reach_child(node, value)?),
    }
}

/// Makes the atom of these elements true, which is not false, where so many atoms are true; how many are true then.
pub(crate) fn make_lent_true(
    rows: &mut Rows,
    closed: bool,
    count: u64,
    symbol: u32,
    args: &[LentElem<'_>],
    value: Option<LentElem<'_>>,
) -> Result<u64, Memory>
    requires { All (λ x. IsTrue (has_label (words_in rows.old.words) (lent_view x))) args.now }
    ensures ok { OnOk result (MadeTrue (words_in rows.old.words) rows.old.nodes.entries rows.new.nodes.entries
        symbol (map lent_view args.now) (option_map lent_view value.entry)) }
    ensures count { IfOk result (λ n. n ≡ count + added_by (status_of (words_in rows.old.words) rows.old.nodes.entries
        closed symbol (map lent_view args.now) (option_map lent_view value.entry))) }
    ensures err { OnErr result ((s : ℕ) (xs : List Element) → mark_of (words_in rows.old.words) rows.new.nodes.entries s
        xs ≡ mark_of (words_in rows.old.words) rows.old.nodes.entries s xs) }
    ensures words { rows.new.words ≡ rows.old.words }
{
    let node = rows.reach_lent(symbol, args)?;
    let known = known_behind(rows, closed, Some(node), value);
    match counted(known, count) {
        None => Err(Memory),
        Some(count) => {
            affirm(rows, node, value);
            Ok(count)
        }
    }
}

/// The node of the row of these elements, with the value where there is one.
fn reach_lent_atom(
    rows: &mut Rows,
    symbol: u32,
    args: &[LentElem<'_>],
    value: Option<LentElem<'_>>,
) -> Result<usize, Memory>
    requires args { All (λ x. IsTrue (has_label (words_in rows.old.words) (lent_view x))) args.now }
    requires value { IfSome (option_map lent_view value) (λ x. IsTrue (has_label (words_in rows.old.words) x)) }
    ensures node { IfOk result (λ n. node_of (words_in rows.new.words) rows.new.nodes.entries symbol
        (row_of (map lent_view args.now) (option_map lent_view value.entry)) ≡ Some n) }
    ensures grows { Grows rows.old.nodes.entries rows.new.nodes.entries }
    ensures words { rows.new.words ≡ rows.old.words }
{
    let node = rows.reach_lent(symbol, args)?;
    match value {
        None => Ok(node),
        Some(value) => Ok(rows.reach_lent_child(node, value)?),
    }
}

/// Makes the atom of these elements false.
pub(crate) fn make_lent_false(
    rows: &mut Rows,
    symbol: u32,
    args: &[LentElem<'_>],
    value: Option<LentElem<'_>>,
) -> Result<(), Memory>
    requires args { All (λ x. IsTrue (has_label (words_in rows.old.words) (lent_view x))) args.now }
    requires value { IfSome (option_map lent_view value) (λ x. IsTrue (has_label (words_in rows.old.words) x)) }
    ensures ok { OnOk result (MadeFalse (words_in rows.old.words) rows.old.nodes.entries rows.new.nodes.entries
        symbol (map lent_view args.now) (option_map lent_view value.entry)) }
    ensures err { OnErr result ((s : ℕ) (xs : List Element) → mark_of (words_in rows.old.words) rows.new.nodes.entries s
        xs ≡ mark_of (words_in rows.old.words) rows.old.nodes.entries s xs) }
    ensures words { rows.new.words ≡ rows.old.words }
{
    let node = reach_lent_atom(rows, symbol, args, value)?;
    let mut mark = rows.mark(Some(node));
    mark.known = Truth::No;
    rows.set_mark(node, mark);
    Ok(())
}
