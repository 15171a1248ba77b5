//! Tests of what no table of cases can say: sources and sinks that falter in mid-stream, what the objects in memory give
//! and take, what is printed of secrets, and real folders, sockets, clocks and random bytes.
#![tactic(auto)]

#[cfg(test)]
mod desks;
#[cfg(test)]
mod dirs;
#[cfg(test)]
mod falters;
#[cfg(test)]
mod folders;
#[cfg(test)]
mod links;
#[cfg(test)]
mod printing;
#[cfg(test)]
mod sockets;
