//! Tests of ground sets, rounds of instances, closures, branches and searches, as tables against
//! their public calls. The crate holds nothing else.
#![tactic(auto)]

#[cfg(test)]
mod branches;
#[cfg(test)]
mod closures;
#[cfg(test)]
mod endings;
#[cfg(test)]
mod evidence;
#[cfg(test)]
mod expecting;
#[cfg(test)]
mod grounds;
#[cfg(test)]
mod inputs;
#[cfg(test)]
mod jumps;
#[cfg(test)]
mod large;
#[cfg(test)]
mod operations;
#[cfg(test)]
mod past;
#[cfg(test)]
mod rounds;
#[cfg(test)]
mod searches;
#[cfg(test)]
mod standings;
