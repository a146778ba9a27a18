//! Tests of `outside_real` on the host that they run on.
#![tactic(auto)]

#[cfg(test)]
mod folders;
#[cfg(test)]
mod listed;
#[cfg(test)]
mod locks;
#[cfg(test)]
mod objects;
#[cfg(test)]
mod script;
#[cfg(test)]
mod secrets;
#[cfg(test)]
mod sockets;
#[cfg(test)]
mod stops;
