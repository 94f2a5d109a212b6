// The claims about the search: laws only, over the definitions that the contract of `search::search` names.
#![tactic(auto)]
