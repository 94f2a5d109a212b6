// The claims about page files: laws only, over the definitions that the contracts of `page_file` name.
#![tactic(auto)]
