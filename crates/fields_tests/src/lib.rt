// Examples of reading fields, numbers and places, each proved safe and then run.
#![tactic(auto)]

#[cfg(test)]
mod numbers;
#[cfg(test)]
mod places;
#[cfg(test)]
mod texts;
