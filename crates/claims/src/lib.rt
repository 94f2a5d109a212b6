// The claims about lists of calls, whole pages and cipher states: laws only, over the definitions that the calls' contracts name.
#![tactic(auto)]
