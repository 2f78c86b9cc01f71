//! Tests of what can't be written as data for the programs of cases.
#![tactic(auto)]

#[cfg(test)]
mod bodies;
#[cfg(test)]
mod codes;
#[cfg(test)]
mod copies;
#[cfg(test)]
mod endpoints;
#[cfg(test)]
mod ends;
#[cfg(test)]
mod lines;
#[cfg(test)]
mod maps;
#[cfg(test)]
mod points;
#[cfg(test)]
mod runs;
#[cfg(test)]
mod schemas;
#[cfg(test)]
mod values;
