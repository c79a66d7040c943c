//! Grounds the knowledge base on its input, to measure grounding from outside. With the word `read` it is read and
//! weighed, and no more.
#![tactic(auto)]

use base_reader::read_base;
use consult_base::KnowledgeBase;
use ground_core::Problem;
use grounder::ground;
use size_stage::{atoms, weight};
use std::env;
use std::io::{Read, Write};
use std::process::ExitCode;

/// Whether the one word after the program's name is `read`. None where there are other words.
fn reads_alone(rt: &HostRuntime) -> Option<bool> {
    let Ok(args) = env::args(rt) else {
        return None;
    };
    let mut alone = false;
    for word in args.skip(1) {
        if alone || word.as_str() != "read" {
            return None;
        }
        alone = true;
    }
    Some(alone)
}

/// Prints how large the knowledge base is.
fn print_sizes(rt: &HostRuntime, base: &KnowledgeBase) -> bool {
    let kb = base.typed();
    let domains = base.data().domains();
    let count = atoms(&kb.vocab, domains);
    let theory = &kb.theories.as_slice()[base.theory()].value;
    let weight = weight(&kb.vocab, domains, theory, kb.terms.as_slice());
    println!(rt; "atoms {count}\nweight {weight}").is_ok()
}

/// Prints how large the problem is.
fn print_problem(rt: &HostRuntime, problem: &Problem) -> bool {
    let variables = problem.vars();
    let clauses = problem.clauses().len();
    let gates = problem.gates().len();
    println!(rt; "variables {variables}\nclauses {clauses}\ngates {gates}").is_ok()
}

/// Grounds the knowledge base, and prints what came of it.
fn print_ground(rt: &HostRuntime, base: &KnowledgeBase) -> bool {
    match ground(
        rt.alloc(),
        base.typed(),
        base.theory(),
        base.data(),
        base.narrowing(),
    ) {
        Ok(problem) => print_problem(rt, &problem),
        Err(error) => println!(rt; "{error}").is_ok(),
    }
}

fn main(rt: HostRuntime) -> ExitCode {
    let Some(alone) = reads_alone(&rt) else {
        return ExitCode::from(2);
    };
    let mut text = Vec::new(rt.alloc());
    if rt.stdin().read_to_end(&mut text).is_err() {
        return ExitCode::from(3);
    }
    let printed = match read_base(rt.alloc(), &text, None, None) {
        Ok(base) => print_sizes(&rt, &base) && (alone || print_ground(&rt, &base)),
        Err(_) => println!(rt; "refused").is_ok(),
    };
    if printed {
        ExitCode::from(0)
    } else {
        ExitCode::from(4)
    }
}
