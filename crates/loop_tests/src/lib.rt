//! Tests of what no legal loop reaches, or no line of a result shows: steps and blocks on a store of the caller's own, loops that
//! carry values, the items of heads and walks along them, the parts of an offence. Each loop is a text that the program's own
//! reader reads, and what comes of it is compared as a text: tables worked by hand from the language's rules.
#![tactic(auto)]

#[cfg(test)]
mod blocks;
#[cfg(test)]
mod items;
#[cfg(test)]
mod offences;
#[cfg(test)]
mod plain;
#[cfg(test)]
mod random;
#[cfg(test)]
mod run;
#[cfg(test)]
mod scratches;
#[cfg(test)]
mod shown;
#[cfg(test)]
mod steps;
#[cfg(test)]
mod walks;
