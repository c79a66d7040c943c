//! What is told of commands that are refused.

/// How a reply begins, and what is told of it.
struct Refusal {
    begins: &'static [u8],
    note: &'static str,
}

/// Each refusal of a command, and the replies that give no answer.
const REFUSALS: [Refusal; 10] = [
    Refusal {
        begins: b"refused F1",
        note: "  the commands, each with a full stop at its end: model. models N. propagate. minimize t. assert L. \
retract L.\n  reset. choices. explain L. why. budget N. forget.\n",
    },
    Refusal {
        begins: b"refused F2",
        note: "  the vocabulary declares no predicate, function or constant of this name\n",
    },
    Refusal {
        begins: b"refused F3",
        note: "  it is declared with another number of arguments; a function or a constant wants a value, as c = e, \
and a predicate has none\n",
    },
    Refusal {
        begins: b"refused F4",
        note: "  one of these is no element of the type that belongs there\n",
    },
    Refusal {
        begins: b"refused F5",
        note: "  this is a choice already: choices. lists them\n",
    },
    Refusal {
        begins: b"refused F6",
        note: "  this is no choice: choices. lists them\n",
    },
    Refusal {
        begins: b"refused F7",
        note: "  the structure of the file says already whether this is so\n",
    },
    Refusal {
        begins: b"refused F8",
        note: "  a command has at most 65,536 bytes\n",
    },
    Refusal {
        begins: b"refused F9",
        note: "  the file has no term block of this name\n",
    },
    Refusal {
        begins: b"undecided",
        note: "  the search met as many conflicts as the budget allows: budget N. or budget unlimited. lets it go on\n",
    },
];

/// What is told of a reply to someone who types commands; nothing where it is an answer.
pub fn reply_note(reply: &[u8]) -> &'static str {
    for refusal in &REFUSALS {
        if reply.starts_with(refusal.begins) {
            return refusal.note;
        }
    }
    ""
}
