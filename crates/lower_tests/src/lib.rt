//! Tests of loops as jobs: each part of small loops of every form against the plain loop, the lines that explain a loop, and the
//! order of refusals.
#![tactic(auto)]

#[cfg(test)]
mod explained;
#[cfg(test)]
mod loops;
#[cfg(test)]
mod nodes;
#[cfg(test)]
mod parts;
#[cfg(test)]
mod plain;
#[cfg(test)]
mod refused;
