// Tests over the libraries, in a crate of their own, so that the libraries are proved once.
// `assert_eq!` prints its sides, so values with no `Debug`, as faults, are compared under `assert!`.
#![tactic(auto)]

#[cfg(test)]
mod accepted;
#[cfg(test)]
mod configuration_tests;
#[cfg(test)]
mod pattern_tests;
#[cfg(test)]
mod plan_tests;
#[cfg(test)]
mod rule_tests;
#[cfg(test)]
mod samples;
#[cfg(test)]
mod script_tests;
#[cfg(test)]
mod topology_tests;
#[cfg(test)]
mod wire_tests;
