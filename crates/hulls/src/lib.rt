// What follows from the definition of a hull (request M-104): the hull in rounds, and its promise. It has no code.
#![tactic(auto)]
