//! Each refusal of a file, by a change of one line of a file that is accepted.

use super::bases::MAP;
use super::runs::{CHECK, CONSULT, PLAN, Plan, gives};
use std::alloc::AllocError;
use std::test::Fail;

/// A sentence one level too deep.
const DEEP: &[u8] =
    b"((((((((((((((((((((((((((((((((((((((((((((((((((((((((((((((((((((((((((((((((((((((((((((((((((((\
((((((((((((((((((((((((((((((((((((((((((((((((((((((((((((((((((((((((((((((((((((((((((((((((((((true";

/// A sentence that stands under more than 16,000,000 assignments.
const WIDE: &[u8] =
    b"  !a[Area] b[Area] c[Area] d[Area] e[Area] f[Area] g[Area] h[Area] i[Area] j[Area] \
k[Area] l[Area] m[Area] n[Area] o[Area] p[Area] q[Area] r[Area] s[Area] t[Area] u[Area] v[Area] w[Area] x[Area]: true.";

/// The number of the changed line, from 0, the text in its place, and the refusal.
const CHANGES: [(usize, &[u8], &[u8]); 19] = [
    (12, b"", b"error K1 Syntax line 14\n"),
    (
        7,
        b"  !x y: Border(x,z) => color(x) ~= color(y).",
        b"error K2 UnknownName line 8\n",
    ),
    (
        3,
        b"  Border(Area,Area)  Border(Area)",
        b"error K3 Redeclared line 4\n",
    ),
    (
        7,
        b"  !x: Border(x) => color(x) = Red.",
        b"error K4 WrongArity line 8\n",
    ),
    (7, b"  !x: color(x) < Red.", b"error K5 TypeClash line 8\n"),
    (7, b"  !x: true.", b"error K6 Untyped line 8\n"),
    (
        1,
        b"  type Area  type Town isa Area",
        b"error K7 TypeNotGiven line 2\n",
    ),
    (11, b"  Border = {b,z}", b"error K8 NotAnElement line 12\n"),
    (
        11,
        b"  Border<ct> = {b,f}  Border<cf> = {b,f}",
        b"error K9 DataClash line 12\n",
    ),
    (
        4,
        b"  partial color(Area):Color",
        b"error K10 Unsupported line 5\n",
    ),
    (
        7,
        b"  { !x y: Border(x,y) <- Border(y,x). }",
        b"error K10 Unsupported line 8\n",
    ),
    (
        7,
        b"  -min{x y: Border(x,y): 1} = 1.",
        b"error K10 Unsupported line 8\n",
    ),
    (
        10,
        b"  Area = {b; f; 2000000}",
        b"error K13 OutOfRange line 11\n",
    ),
    (
        10,
        b"  Area = {b; f; 1..2000}",
        b"error K14 TooLarge line 4\n",
    ),
    (7, WIDE, b"error K14 TooLarge line 7\n"),
    (7, DEEP, b"error K16 TooDeep line 8\n"),
    (
        12,
        b"} structure R : V { Area = {} }",
        b"error K17 BlockChoice line 13\n",
    ),
    (
        6,
        b"theory R : V { }  theory T : V {",
        b"error K17 BlockChoice line 7\n",
    ),
    (6, b"structure T : V {", b"error K1 Syntax line 8\n"),
];

/// The text with another line of this number.
fn with_line(
    rt: &HostRuntime,
    text: &[u8],
    number: usize,
    line: &[u8],
) -> Result<Vec<u8>, AllocError> {
    let mut changed = Vec::new(rt.alloc());
    for (k, before) in text.split(|b| *b == b'\n').enumerate() {
        if k > 0 {
            changed.push(b'\n')?;
        }
        changed.extend_from_slice(if k == number { line } else { before })?;
    }
    Ok(changed)
}

#[test]
fn a_changed_line_is_refused_at_its_line(rt: HostRuntime) -> Result<(), Fail> {
    for (number, line, wanted) in &CHANGES {
        let text = with_line(&rt, MAP, *number, line)?;
        let plan = Plan {
            file: &text,
            ..PLAN
        };
        assert!(rt; gives(&rt, CONSULT, &plan, 1, wanted)?);
        assert!(rt; gives(&rt, CHECK, &plan, 1, wanted)?);
    }
    Ok(())
}
