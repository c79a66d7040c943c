//! Files, commands and replies that were worked out by hand, and devices that fail.

mod bases;
mod faults;
mod logs;
mod long_inputs;
mod paced;
mod refusals;
mod runs;
mod worked_rows;
