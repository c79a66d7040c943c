//! Files, commands and replies that were worked out by hand, whole and with every device cut after each byte.

use super::bases::{
    A_DEFINITION, A_FUNCTION, A_HEAVY_THEORY, A_MINIMUM_IN_A_SUM, BOTH_GIVEN,
    CONSTANT_OF_AN_EMPTY_TYPE, COVER, EITHER_P_OR_Q, EMPTY_TYPE, FIVE_PIGEONS, FOUR_QUEENS, MAP,
    MAP_IN_ONE_COLOUR, MAP_TEXT, MARKED_MAP, MARKED_MAP_TEXT, TWENTY_TWO,
};
use super::runs::{CHECK, CONSULT, PLAN, Plan, gives};
use std::test::Fail;

const CHOICES: &[u8] = b"assert Q(a).
model.
retract Q(a).
choices.
model.
";

const CHOSEN: &[u8] = b"ok
inconsistent
ok
done
model
P = {a}
Q = {b}
done
";

const REFUSED: &[u8] = b"assert Q(zz).
assert Q(b).
assert Q(b).
retract Q(a).
assert P(a).
assert R(a).
assert Q(a,b).
assert Q(b)
minimize t.
choices.
model.
";

const REFUSALS: &[u8] = b"refused F4 NotAnElement
ok
refused F5 AlreadyChosen
refused F6 NotChosen
refused F7 GivenByData
refused F2 UnknownSymbol
refused F3 WrongArity
refused F1 Syntax
refused F9 UnknownTerm
choice Q(b)
done
model
P = {a}
Q = {b}
done
";

/// The file, the commands and the output of a consultation that ends with the commands.
const CONSULTATIONS: [(&[u8], &[u8], &[u8]); 21] = [
    // What the data leave open is completed.
    (COVER, b"model.\n", b"model\nP = {a}\nQ = {b}\ndone\n"),
    (
        EITHER_P_OR_Q,
        b"model.\n",
        b"model\np = false\nq = true\ndone\n",
    ),
    // Data that no model extends.
    (BOTH_GIVEN, b"model.\n", b"inconsistent\n"),
    (MAP_IN_ONE_COLOUR, b"model.\n", b"inconsistent\n"),
    // More than twenty unknown atoms are no refusal.
    (TWENTY_TWO, b"", b""),
    // Nothing is said where nothing is asked.
    (COVER, b"", b""),
    (MAP, b"", b""),
    // Blank lines, and a last line without a newline.
    (
        COVER,
        b"modle.\n \t \n\n  model  .  ",
        b"refused F1 Syntax\nmodel\nP = {a}\nQ = {b}\ndone\n",
    ),
    // A choice against the theory, and its withdrawal.
    (COVER, CHOICES, CHOSEN),
    // Each refusal of a command, after which the choices are as before.
    (COVER, REFUSED, REFUSALS),
    // Comments of a command line.
    (
        COVER,
        b"choices. // said\n/* nothing */ // at all\nchoices /**/ .\n",
        b"done\ndone\n",
    ),
    // Budgets at both ends of their range.
    (
        COVER,
        b"budget 0.\nbudget 1000000000001.\nbudget 1000000000000.\n",
        b"refused F1 Syntax\nrefused F1 Syntax\nok\n",
    ),
    (
        COVER,
        b"budget 7.\nforget.\nbudget unlimited.\n",
        b"ok\nok\nok\n",
    ),
    // A quantifier over no element, and a constant without a value.
    (EMPTY_TYPE, b"model.\n", b"model\nP = {}\ndone\n"),
    (CONSTANT_OF_AN_EMPTY_TYPE, b"model.\n", b"inconsistent\n"),
    // A function with a value given.
    (
        FOUR_QUEENS,
        b"model.\n",
        b"model\nqueen = {1->2; 2->4; 3->1; 4->3}\ndone\n",
    ),
    // A choice that a function's value must be, and one that it must not be.
    (
        MAP,
        b"assert color(b) = Red.\nassert color(f) ~= Green.\nmodel.\n",
        b"ok\nok\ninconsistent\n",
    ),
    (
        MAP,
        b"assert color(b) ~= Green.\nmodel.\n",
        b"ok\nmodel\nBorder = {b,f}\ncolor = {b->Red; f->Green}\ndone\n",
    ),
    // Where there is no model, an unlimited budget finds that out.
    (
        FIVE_PIGEONS,
        b"budget unlimited.\nmodel.\n",
        b"ok\ninconsistent\n",
    ),
    // A budget that is always enough: two to the power of one more than the weight.
    (
        EITHER_P_OR_Q,
        b"budget 8388608.\nmodel.\n",
        b"ok\nmodel\np = false\nq = true\ndone\n",
    ),
    // The search that a small budget cut is made anew with a greater one.
    (
        FIVE_PIGEONS,
        b"budget 1.\nmodel.\nbudget 100000.\nmodel.\nmodel.\n",
        b"ok\nundecided 1\nok\ninconsistent\ninconsistent\n",
    ),
];

/// The file and its refusal.
const REFUSED_FILES: [(&[u8], &[u8]); 4] = [
    // A function where a formula stands.
    (A_FUNCTION, b"error K4 WrongArity line 2\n"),
    (A_MINIMUM_IN_A_SUM, b"error K10 Unsupported line 4\n"),
    (A_DEFINITION, b"error K10 Unsupported line 2\n"),
    (A_HEAVY_THEORY, b"error K14 TooLarge line 2\n"),
];

/// The file and its chosen structure, printed.
const CHECKS: [(&[u8], &[u8]); 2] = [(MAP, MAP_TEXT), (MARKED_MAP, MARKED_MAP_TEXT)];

const SINGLES: &[usize] = &[1; 600];

/// Whether the words give this output in this status, whole and with devices that hand over single bytes.
fn gives_however(
    rt: &HostRuntime,
    words: &[&str],
    plan: &Plan<'_>,
    code: u8,
    wanted: &[u8],
) -> Result<bool, Fail> {
    let in_bytes = Plan {
        file_pieces: SINGLES,
        script_pieces: SINGLES,
        out_pieces: SINGLES,
        ..*plan
    };
    Ok(gives(rt, words, plan, code, wanted)? && gives(rt, words, &in_bytes, code, wanted)?)
}

#[test]
fn consultations_give_these_replies(rt: HostRuntime) -> Result<(), Fail> {
    for (file, script, wanted) in &CONSULTATIONS {
        let plan = Plan {
            file,
            script,
            ..PLAN
        };
        assert!(rt; gives_however(&rt, CONSULT, &plan, 0, wanted)?);
    }
    Ok(())
}

#[test]
fn both_jobs_refuse_these_files(rt: HostRuntime) -> Result<(), Fail> {
    for (file, wanted) in &REFUSED_FILES {
        let plan = Plan { file, ..PLAN };
        assert!(rt; gives_however(&rt, CONSULT, &plan, 1, wanted)?);
        assert!(rt; gives_however(&rt, CHECK, &plan, 1, wanted)?);
    }
    Ok(())
}

#[test]
fn checks_print_these_structures(rt: HostRuntime) -> Result<(), Fail> {
    for (file, wanted) in &CHECKS {
        let plan = Plan { file, ..PLAN };
        assert!(rt; gives_however(&rt, CHECK, &plan, 0, wanted)?);
    }
    Ok(())
}
