//! Trials of the libraries below the programs.
#![tactic(auto)]

#[cfg(test)]
mod blocks;
#[cfg(test)]
mod booked;
#[cfg(test)]
mod bounds;
#[cfg(test)]
mod calls;
#[cfg(test)]
mod certs;
#[cfg(test)]
mod constraints;
#[cfg(test)]
mod fronts;
#[cfg(test)]
mod incidence;
#[cfg(test)]
mod loads;
#[cfg(test)]
mod problems;
#[cfg(test)]
mod readings;
#[cfg(test)]
mod reports;
#[cfg(test)]
mod routes;
#[cfg(test)]
mod safe;
#[cfg(test)]
mod said;
#[cfg(test)]
mod searches;
#[cfg(test)]
mod sums;
#[cfg(test)]
mod trees;
