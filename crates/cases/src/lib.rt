// The starred cases of document 01, as laws of the definitions alone: specs/Starred.antt.
#![tactic(auto)]
