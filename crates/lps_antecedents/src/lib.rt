//! What waits for the antecedents of all rules, carried from cycle to cycle, and the keys of the goals that antecedents that come true
//! create.
//!
//! It stands on sequences in time, and never knows of a trace, of goals that are pursued or of picks: a call knows what waits, and the
//! state and the events of its cycle. Its theorem is that what waits stands for every trace that it was carried along (`StandsFor`): it
//! is exactly the nodes that are left of the antecedents, each once; and that `start` and `advance` give exactly the keys of their cycle,
//! in order (clause `stands` of each). `undo` gives back what waited before the last `advance`, and takes no memory.
//!
//! What waits lies in buckets by what wakes it, and a cycle looks at the buckets that it touches alone: what it does not touch goes on to
//! itself, by the law of nodes that rest. An equal node lies in the same bucket, so that it is looked for there alone. Each bucket says
//! of those in it whether they wait now and whether they waited before; the buckets that a cycle changed are settled before the next.
//!
//! Contracts cite these definitions:
//!
//! | file of `specs/` | defines |
//! |---|---|
//! | `Waiting` | what waits, and what it stands for |
//! | `Slots` | what lies in a bucket |
//! | `Buckets` | what waits in buckets by what wakes it, and what holds of them |
//! | `Advancing` | what those that a cycle touches come to in it |
//! | `Gathered` | what is gathered for a cycle, and what is added to it |
//! | `Lists` | what lists have, and lists that grow |
//! | `Laws` | the law that what waits stands for a trace by what happens up to its time alone (`waiting_law`) |
#![tactic(auto)]

mod advancing;
mod buckets;
mod gathered;
mod held;
mod keyed;
mod laws;
mod rules;
mod slot;
mod starting;
mod symbols;
mod waiting;

pub use held::Held;
pub use laws::waiting_law;
pub use waiting::Waiting;
