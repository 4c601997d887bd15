//! Tests of workers on several threads, by gates that only pass where the threads run beside each other.
#![tactic(auto)]

#[cfg(test)]
mod commands;
#[cfg(test)]
mod feeds;
#[cfg(test)]
mod gates;
#[cfg(test)]
mod jobs;
#[cfg(test)]
mod logs;
#[cfg(test)]
mod meetings;
#[cfg(test)]
mod orders;
