//! What turns and replies are made of: how frames begin, what an instruction comes to, values that are given
//! back, initialisers and throwables.
#![tactic(auto)]

pub mod begins;
pub mod done;
pub mod gives;
pub mod initialises;
pub mod returns;
pub mod throws;
