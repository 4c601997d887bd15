//! Tests of public calls that no row of a command can show: each once, with ample memory, and values from outside.
#![tactic(auto)]

#[cfg(test)]
mod generated_job;
#[cfg(test)]
mod hart_steps;
#[cfg(test)]
mod kernel_events;
#[cfg(test)]
mod log_source;
#[cfg(test)]
mod machine_events;
#[cfg(test)]
mod many_reports;
#[cfg(test)]
mod memory_faults;
#[cfg(test)]
mod own_probe;
#[cfg(test)]
mod recorded_log;
#[cfg(test)]
mod written_log;
