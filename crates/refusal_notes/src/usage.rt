//! How the program is called, its version, and what is told of devices that failed.

/// The version of the program, as CHANGELOG.md has it.
pub const VERSION: &str = "idp 0.1\n";

/// Every command, option and exit status, a line each.
pub const USAGE: &str = "\
idp answers questions about a knowledge base, line by line

  idp consult FILE [--theory NAME] [--structure NAME] [--budget N] [--log LOG]
                    answers the commands on standard input by what FILE means; with --log it writes into LOG, step by
                    step, how it came to say that something is impossible, follows, or is least
  idp verify FILE LOG [--theory NAME] [--structure NAME]
                    checks each step of such a log, and prints what it claims of FILE
  idp check FILE [--theory NAME] [--structure NAME]
                    prints the structure of FILE that is chosen
  idp generate KIND N [--text]
                    makes a large file, and prints how much follows from it and its least cost; with --text, the file
                    KIND is timetable, with N from 1 to 40, or roster, with N from 1 to 100

options, before or after FILE and LOG, each at most once, as --theory NAME or --theory=NAME:
  --theory NAME     the theory that is worked on, where FILE has several
  --structure NAME  the structure that is worked on, where FILE has several
  --budget N        how many conflicts a query may meet: 1 to 1000000000000, or unlimited; 100000 without it
  --log LOG         the file for the log, which is made anew

commands of a consultation, one a line, each with a full stop at its end:
  model.            a solution: all that the data and the choices leave open, filled in
  models N.         at most N different solutions, N from 1 to 1000
  propagate.        what follows: the literals that are true in all solutions
  minimize t.       a solution in which the term block t is least
  assert L.         makes the literal L the last choice: p, ~p, P(a,b), ~P(a,b), c = e, c ~= e, f(a) = e, f(a) ~= e
  retract L.        takes the choice L back
  reset.            takes all choices back
  choices.          lists the choices
  explain L.        which choices make the literal L true
  why.              which choices contradict one another
  budget N.         as --budget, for the queries to come
  forget.           gives up what was learnt

exit statuses: 0 done, 1 the file is refused, 2 no command line, 3 reading failed, 4 writing failed, 5 out of memory,
  6 more than 67108864 bytes of commands or of a log, 7 the log is refused

to begin with: idp consult examples/laptop.idp, and docs/TUTORIAL.md
";

/// What is told where a number of a command line is out of its range.
pub const BUDGET_NOTE: &str =
    "idp: --budget wants a number from 1 to 1000000000000, or unlimited\n";

/// What is told where no file can be made of the words of `generate`.
pub const GENERATION_NOTE: &str =
    "idp: generate wants timetable and a number from 1 to 40, or roster and a number from 1 to 100\n";

/// What is told where the output is closed or full.
pub const OUTPUT_LOST: &str = "idp: standard output is closed, or cannot be written\n";

/// What is told where memory ran out.
pub const MEMORY_LOST: &str = "idp: out of memory\n";

/// What is told where more commands were offered than are read.
pub const SCRIPT_TOO_LONG: &str =
    "idp: standard input has more than 67,108,864 bytes of commands; the lines within these were answered\n";
