// Examples computed through the definitions: the rows of document 01 that are marked P, and lists of calls.
#![tactic(auto)]
