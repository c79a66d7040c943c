//! The types of a symbol's arguments and of its value.
ghost use Rattle.std.specs.Prelude.{◌≡◌, ◌++◌, ◌∷◌, [], fold, map, OnOk, IfOk};
ghost use Rattle.std.specs.Option.{option_map};
ghost use Rattle.stage_definitions.specs.FileView.{argument_names, names_among, result_name, tail_name, isa_name};
ghost use Rattle.stage_definitions.specs.NamesStage.{name_noted};
ghost use Rattle.stage_definitions.specs.Numbering as number;
ghost use Rattle.stage_definitions.specs.Uses as use_of;
ghost use Rattle.grammar.specs.View.{name_view};
ghost use Rattle.formula_names.specs.Meanings.{names_in};

use crate::tables::Table;
use crate::uses::position;
use grammar::{RawNameTail, RawPositions, RawResult};
use kb_logic::{Memory, NumberList};
use stage_definitions::Earliest;
use std::alloc::Global;

fn more_positions<'a>(
    table: &Table<'a>,
    more: &'a [RawNameTail],
    types: &mut NumberList,
    earliest: &mut Earliest,
) -> Result<(), Memory>
    ensures types { OnOk result (types.new ≡ types.old ++ map (number.type_number_of (names_in table.now))
        (map tail_name more.now)) }
    ensures noted { OnOk result (earliest.new.first ≡ fold (name_noted (names_in table.now)) earliest.old.first
        (map use_of.position (map tail_name more.now))) }
{
    for tail in more {
        types.push(position(table, &tail.name, earliest))?;
    }
    Ok(())
}

/// The numbers of the types of a symbol's arguments.
pub fn positions<'a>(
    alloc: Global,
    table: &Table<'a>,
    arguments: &'a Option<RawPositions>,
    earliest: &mut Earliest,
) -> Result<NumberList, Memory>
    ensures types { IfOk result (λ ts. ts ≡ map (number.type_number_of (names_in table.now))
        (argument_names arguments.now)) }
    ensures noted { OnOk result (earliest.new.first ≡ fold (name_noted (names_in table.now)) earliest.old.first
        (map use_of.position (argument_names arguments.now))) }
{
    let mut types = NumberList::new(alloc);
    if let Some(positions) = arguments {
        if let Some(names) = &positions.names {
            types.push(position(table, &names.first, earliest))?;
            more_positions(table, names.more.as_slice(), &mut types, earliest)?;
            return Ok(types);
        }
    }
    Ok(types)
}

/// The number of the type of a function's value.
pub fn value_position<'a>(
    table: &Table<'a>,
    result_type: &'a Option<RawResult>,
    earliest: &mut Earliest,
) -> Option<u32>
    ensures number { result ≡ option_map (number.type_number_of (names_in table.now))
        (option_map result_name result_type.now) }
    ensures noted { earliest.new.first ≡ fold (name_noted (names_in table.now)) earliest.old.first
        (use_of.position_uses (option_map result_name result_type.now)) }
{
    match result_type {
        Some(raw) => Some(position(table, &raw.name, earliest)),
        None => None,
    }
}
