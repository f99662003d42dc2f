//! Reads the numbered batches of events of a stream that comes in any pieces: finds its lines, passes over those that hold no
//! batch, and reads the others.
//! It stands on the tokens, the judge and the builder of a line of events, and never knows of texts, of kinds of predicates,
//! or of cycles.
//! It carries the theorem that a line is read as the grammar and the limits say, the clause of `read_line`, and that a
//! stream gives the same batches and the same first bad line however it is cut, the law `cutting_changes_nothing`. Below
//! these stands that the rules for lines allow exactly the lines that are found, `lines_are_those_of_the_rules`.
#![tactic(auto)]

mod ahead;
mod batch_bad;
mod batch_reader;
mod front;
mod laws;
mod line;
mod line_buffer;
mod outcome;
mod skipped;

pub use batch_bad::BatchBad;
pub use batch_reader::BatchReader;
pub use laws::{
    batches_have_few_events, cutting_changes_nothing, lines_are_read_one_way,
    lines_are_those_of_the_rules, more_bytes_change_no_line, streams_are_read_one_way,
};
pub use line::read_line;
