// The claims about pages altered in one block: laws only, over the definitions that the contracts of seal and open name.
#![tactic(auto)]
