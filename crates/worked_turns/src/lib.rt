//! Worked turns of the loop, and a call of the service, computed: for each part of a claim one that
//! meets it, and a neighbour that breaks it. There is no code.
#![tactic(auto)]
