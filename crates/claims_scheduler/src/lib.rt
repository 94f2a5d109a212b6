// The claims about the scheduler: laws only, over the definitions that the contracts of `scheduler` name.
#![tactic(auto)]
