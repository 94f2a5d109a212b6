// The claims about key stores: laws only, over the definitions that the contracts of `key_store` name.
#![tactic(auto)]
