// What answers mean. There is no code here: the crate is definitions and theorems about the services below it, in specs/.
#![tactic(auto)]
