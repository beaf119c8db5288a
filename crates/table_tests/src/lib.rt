// Examples of loading, each proved safe and then run.
#![tactic(auto)]

#[cfg(test)]
mod accepted;
#[cfg(test)]
mod helpers;
#[cfg(test)]
mod refused;
