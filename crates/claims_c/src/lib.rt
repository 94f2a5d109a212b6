// The lists of demands 2 and 3 made through the calls for C: laws only, over the definitions that those calls' contracts name.
#![tactic(auto)]
