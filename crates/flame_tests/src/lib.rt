//! Tests of what no case can say: devices in memory and real ones, traits through their bounds and generic types at
//! concrete ones, and values from outside that are no input of a command. It has no code.
#![tactic(auto)]

#[cfg(test)]
mod depots;
#[cfg(test)]
mod meadows;
#[cfg(test)]
mod real_devices;
#[cfg(test)]
mod sinks;
#[cfg(test)]
mod transfers;
#[cfg(test)]
mod values;
