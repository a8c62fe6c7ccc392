//! Tests of the crates of the ground, of rows and of pages: each public call on its happy path, rows that were written by
//! hand, and objects of the outside that fail.
#![tactic(auto)]

#[cfg(test)]
mod codes;
#[cfg(test)]
mod files;
#[cfg(test)]
mod losing;
#[cfg(test)]
mod outside;
#[cfg(test)]
mod pages;
#[cfg(test)]
mod rows;
#[cfg(test)]
mod tokens;
#[cfg(test)]
mod values;
