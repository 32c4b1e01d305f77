//! Hostile use of the program's top call, as tables: ends that fail at each of their calls, a schedule that is cut
//! behind each of its bytes, and connections that fail where they are read and written. They stand in a crate of their
//! own, which uses the top call as it is proved.
#![tactic(auto)]

#[cfg(test)]
mod tests;
