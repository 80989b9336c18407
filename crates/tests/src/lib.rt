//! Tests of each crate below the programs, and of both programs, through their public functions.
#![tactic(auto)]

#[cfg(test)]
mod ahead;
#[cfg(test)]
mod best_offset;
#[cfg(test)]
mod buffered;
#[cfg(test)]
mod by_row;
#[cfg(test)]
mod choice;
#[cfg(test)]
mod coder;
#[cfg(test)]
mod coding;
#[cfg(test)]
mod command_line;
#[cfg(test)]
mod decoding;
#[cfg(test)]
mod each_cut;
#[cfg(test)]
mod header;
#[cfg(test)]
mod heights;
#[cfg(test)]
mod in_pieces;
#[cfg(test)]
mod info;
#[cfg(test)]
mod large;
#[cfg(test)]
mod numbers;
#[cfg(test)]
mod parts;
#[cfg(test)]
mod pbm;
#[cfg(test)]
mod pbm_in_pieces;
#[cfg(test)]
mod plain;
#[cfg(test)]
mod pulls;
#[cfg(test)]
mod random;
#[cfg(test)]
mod rows;
#[cfg(test)]
mod rows_in_parts;
#[cfg(test)]
mod standard;
#[cfg(test)]
mod streams;
#[cfg(test)]
mod trial;
#[cfg(test)]
mod trial_devices;
#[cfg(test)]
mod watched;
