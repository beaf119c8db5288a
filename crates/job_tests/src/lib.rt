// Examples of jobs, each proved safe and then run.
#![tactic(auto)]

#[cfg(test)]
mod said;
#[cfg(test)]
mod wrong;
