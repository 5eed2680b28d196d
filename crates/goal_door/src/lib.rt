// Back to the door of a goal: the nearest event, found by steps back, that calls the same goal with the same ancestors.
#![tactic(auto)]

pub mod door; // door.rt: whether an event is a door of another
pub mod way; // way.rt: the way back, from call to call
pub mod service; // service.rt: the way back behind the gate
