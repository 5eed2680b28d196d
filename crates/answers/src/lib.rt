// Every answer of a query: the walk of 'Q, fail', and at each exit of Q the values of its variables with the bodies and branches used.
#![tactic(auto)]

pub mod variables; // variables.rt: the variables of a query by rising number
pub mod values; // values.rt: the values of variables, measured and written
pub mod used; // used.rt: bodies and branches, measured and written
pub mod answer; // answer.rt: one answer, measured, refused or written
pub mod begin; // begin.rt: the first event of 'Q, fail'
pub mod service; // service.rt: all answers, behind the gate
