//! Sequences in time: what a sequence of items comes to at the time at which it is entered, and what each of the nodes that are left of
//! it comes to in the next cycle.
//!
//! It stands on how one item is met, on what is left as a value and on the definition of nodes, and never knows of a trace: a call knows
//! the node, the state and the events of its own time alone. Its theorem is that `enter` and `progress` give exactly the nodes and
//! carries that walks over any trace with this state and these events give (clauses `entry` and `next`), each once; the bindings are as
//! they were on every way out (clause `same`). Sequences have no macro calls here, so no plan is cut. Its law `rest_law` says that a node
//! which is not due goes on to itself alone in each cycle in which nothing happens that it awaits, so that it need not be looked at then.
//!
//! A node's first item is met at a time in each way that there is, and so is what is left behind it, until no more can be met: an event
//! or an action by an event of the cycle, any other item by an instance over the state. Each way puts values and times into what is left
//! and tests the constraints whose times are then all known. What is left at a step, with or without steps made before it, is kept in
//! canonical numbers where its time conditions have a solution and nothing in it is large.
//!
//! Contracts cite these definitions:
//!
//! | file of `specs/` | defines |
//! |---|---|
//! | `Calls` | what the calls give, told by walks over the whole trace |
//! | `Resting` | nodes that a cycle leaves as they are, since it does not touch what wakes them |
//! | `Starts` | where sequences are entered, and what is left of them there |
//! | `Leads` | stages on the way through the steps of one time, and what steps alone lead to from them |
//! | `Found` | what is found at a time, and what is added to it |
//! | `Carries` | the order of what instances carry |
#![tactic(auto)]

mod ended;
mod entering;
mod entrance;
mod found;
mod progressing;
mod resting;
mod rule;
mod run;
mod start;
mod stepped;
mod steps;

pub use entering::enter;
pub use progressing::progress;
pub use resting::rest_law;
pub use start::Start;
pub use stepped::Stepped;
