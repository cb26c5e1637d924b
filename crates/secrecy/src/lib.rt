// What is proved of the calls together: that a seat learns nothing that does not reach it, that each promise determines its answer, and the
// worked examples.
#![tactic(auto)]
