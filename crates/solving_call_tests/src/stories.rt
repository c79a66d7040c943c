//! Hand-written stories.

use crate::story::Act::{
    BackTo, Clear, Decide, Fix, Found, Pack, Propagate, Push, Remove, Trail, Untrue,
};
use crate::story::{Act, play};
use std::test::Fail;

const UNITS: [Act; 7] = [
    Push(&[-2, 3], 2),
    Push(&[-1, 2], 2),
    Push(&[1], 1),
    Propagate(true),
    Trail(&[1, 2, 3]),
    Found(3, 0, Some(0)),
    Untrue(4),
];

#[test]
fn units_follow_one_another(rt: HostRuntime) -> Result<(), Fail> {
    play(&rt, rt.alloc(), 5, &UNITS)
}

const CONFLICT: [Act; 11] = [
    Push(&[1, 2], 2),
    Push(&[-1, 2], 2),
    Push(&[-1, -2], 2),
    Propagate(true),
    Decide(1),
    Propagate(false),
    BackTo(0),
    Trail(&[]),
    Decide(-1),
    Propagate(true),
    Found(2, 1, Some(0)),
];

#[test]
fn a_false_clause_is_answered(rt: HostRuntime) -> Result<(), Fail> {
    play(&rt, rt.alloc(), 3, &CONFLICT)
}

const EARLY_DECISION: [Act; 10] = [
    Push(&[-1, 2], 2),
    Propagate(true),
    Decide(1),
    Decide(3),
    Propagate(true),
    Found(2, 2, Some(0)),
    BackTo(1),
    Untrue(2),
    Propagate(true),
    Found(2, 1, Some(0)),
];

#[test]
fn a_decision_before_all_is_propagated_loses_nothing(rt: HostRuntime) -> Result<(), Fail> {
    play(&rt, rt.alloc(), 4, &EARLY_DECISION)
}

const LEARNT: [Act; 11] = [
    Decide(1),
    Decide(2),
    Propagate(true),
    Push(&[-1, -2, 3], 3),
    Propagate(true),
    Found(3, 2, Some(0)),
    BackTo(1),
    Untrue(3),
    Decide(-3),
    Propagate(true),
    Found(-2, 2, Some(0)),
];

#[test]
fn a_learnt_clause_is_found_again(rt: HostRuntime) -> Result<(), Fail> {
    play(&rt, rt.alloc(), 5, &LEARNT)
}

const REPEATED: [Act; 4] = [
    Push(&[2, -1, 2, 2], 2),
    Push(&[3, 3], 1),
    Push(&[], 0),
    Propagate(false),
];

#[test]
fn a_repeated_literal_counts_once(rt: HostRuntime) -> Result<(), Fail> {
    play(&rt, rt.alloc(), 4, &REPEATED)
}

const FIXED: [Act; 4] = [Fix(-1), Found(-1, 0, None), Clear, Trail(&[])];

#[test]
fn fixed_literals_go_with_the_rest(rt: HostRuntime) -> Result<(), Fail> {
    play(&rt, rt.alloc(), 2, &FIXED)
}

const REMOVED: [Act; 9] = [
    Push(&[1], 1),
    Push(&[2], 1),
    Propagate(true),
    Remove(0),
    Propagate(true),
    Trail(&[2]),
    Push(&[-2, 3], 2),
    Propagate(true),
    Found(3, 0, Some(2)),
];

#[test]
fn a_removed_clause_is_forgotten(rt: HostRuntime) -> Result<(), Fail> {
    play(&rt, rt.alloc(), 4, &REMOVED)
}

const PACKED: [Act; 14] = [
    Push(&[-1, 2], 2),
    Push(&[-1, -2, 3], 3),
    Push(&[-1, -2, -3, 4], 4),
    Push(&[-4, 5], 2),
    Pack,
    Remove(3),
    Push(&[-4, 6], 2),
    Decide(1),
    Propagate(true),
    Trail(&[1, 2, 3, 4, 6]),
    Found(4, 1, Some(2)),
    Push(&[-1, -6], 2),
    Propagate(false),
    BackTo(0),
];

#[test]
fn listed_clauses_propagate_until_they_are_removed(rt: HostRuntime) -> Result<(), Fail> {
    play(&rt, rt.alloc(), 7, &PACKED)
}

const REMOVED_LAST: [Act; 11] = [
    Push(&[-1, 2], 2),
    Push(&[-2, 3], 2),
    Push(&[-3, 4], 2),
    Remove(1),
    Remove(2),
    Push(&[-2, 4], 2),
    Decide(1),
    Propagate(true),
    Found(2, 1, Some(0)),
    Found(4, 1, Some(3)),
    Untrue(3),
];

#[test]
fn clauses_follow_where_the_last_were_removed(rt: HostRuntime) -> Result<(), Fail> {
    play(&rt, rt.alloc(), 5, &REMOVED_LAST)
}

const ALL_REMOVED: [Act; 9] = [
    Push(&[1, 2, 3], 3),
    Push(&[-1], 1),
    Remove(1),
    Remove(0),
    Push(&[-2], 1),
    Push(&[2, 3], 2),
    Propagate(true),
    Trail(&[-2, 3]),
    Found(3, 0, Some(3)),
];

#[test]
fn an_emptied_store_is_used_again(rt: HostRuntime) -> Result<(), Fail> {
    play(&rt, rt.alloc(), 4, &ALL_REMOVED)
}
