//! Tests of all crates, from those at the bottom to what serves. They see public calls alone.
#![tactic(auto)]

#[cfg(test)]
mod base;
#[cfg(test)]
mod calls;
#[cfg(test)]
mod chronicles;
#[cfg(test)]
mod given_back;
#[cfg(test)]
mod halls;
#[cfg(test)]
mod handed;
#[cfg(test)]
mod journals;
#[cfg(test)]
mod keeping;
#[cfg(test)]
mod names;
#[cfg(test)]
mod rows;
#[cfg(test)]
mod same;
#[cfg(test)]
mod script_texts;
#[cfg(test)]
mod serving;
#[cfg(test)]
mod tails;
