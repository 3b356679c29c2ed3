//! Tests of what no row of a table can show, a folder for each library and one for cursors and trees.
#![tactic(auto)]

#[cfg(test)]
mod base;
#[cfg(test)]
mod cursors;
#[cfg(test)]
mod headers;
#[cfg(test)]
mod lists;
#[cfg(test)]
mod samples;
#[cfg(test)]
mod sections;
#[cfg(test)]
mod units;
#[cfg(test)]
mod walk;
