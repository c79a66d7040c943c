//! Words, numbers and literals of a line.
use ground_core::Part;
use lit_core::{Lit, Var};
use solving_judge::faults::Fault;
use std::alloc::{AllocError, Global};

/// The words of a line.
pub fn words_of(alloc: Global, line: &str) -> Result<Vec<String>, AllocError> {
    let mut words = Vec::new(alloc);
    for word in line.split_whitespace() {
        words.push(String::from_str(alloc, word)?)?;
    }
    Ok(words)
}

/// The numbers that the words are.
pub fn numbers_of(alloc: Global, words: &[String]) -> Result<Vec<i64>, Fault> {
    let mut numbers = Vec::new(alloc);
    for word in words {
        match word.as_str().parse::<i64>() {
            Ok(number) => numbers.push(number)?,
            Err(_) => return Err(Fault::Number),
        }
    }
    Ok(numbers)
}

/// The literal of a number as DIMACS has it; 0 is one of no problem.
pub fn lit_of(number: i64) -> Lit {
    Lit {
        var: Var(number.unsigned_abs()),
        positive: 0 < number,
    }
}

/// The literals of the numbers.
pub fn lits_of(alloc: Global, numbers: &[i64]) -> Result<Vec<Lit>, AllocError> {
    let mut lits = Vec::new(alloc);
    for number in numbers {
        lits.push(lit_of(*number))?;
    }
    Ok(lits)
}

/// The parts of a term: literals, each with its weight after it.
pub fn parts_of(alloc: Global, numbers: &[i64]) -> Result<Vec<Part>, Fault> {
    let mut parts = Vec::new(alloc);
    for pair in numbers.chunks(2) {
        let [lit, weight] = pair else {
            return Err(Fault::Number);
        };
        parts.push(Part {
            lit: lit_of(*lit),
            weight: *weight,
        })?;
    }
    Ok(parts)
}
