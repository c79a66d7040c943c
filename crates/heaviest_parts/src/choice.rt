//! The parts that count most.
use crate::parts::Part;

/// Whether the part counts more than the best one so far.
fn is_heavier(part: Part, best: Option<Part>) -> bool {
    match best {
        None => true,
        Some(other) => part.count > other.count,
    }
}

/// The part that counts most of those that do not stand at the passed places; the first of equal ones.
pub fn heaviest(parts: &[Part], passed: &[usize]) -> Option<Part> {
    let mut best = None;
    for part in parts {
        if !passed.contains(&part.place) && is_heavier(*part, best) {
            best = Some(*part);
        }
    }
    best
}
