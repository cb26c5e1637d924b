// What each call answers on an accepted table, from what was found in it: the tests that are left, in the page's order, and then the answer.
#![tactic(auto)]

// What was learnt and the record stay two parameters: what is asked of them (`Asked`) differs by the choices, none or the joint ones, so a struct of
// the two would need a ghost third, and is no plainer.

pub mod looks; // hidden
pub mod moves; // offer
pub mod opens; // open
pub mod plays; // play
pub mod positions; // limits, and positions from marks
mod shared; // the tests that several calls make
pub mod tells; // message and model
