//! A driver between a machine and the outside, and what all driven machines have in common. A service is such a driver: it
//! answers some questions of its machine itself, and leaves some events out.
#![tactic(auto)]

pub mod theorems;
