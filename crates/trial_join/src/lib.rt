//! Trials of joining by its top call: streams of single packets, a capture cut into two parts in every way, and files
//! that are refused. It has tests alone, and the files in memory that they hand in.
#![tactic(auto)]

#[cfg(test)]
mod files;
#[cfg(test)]
mod tests;
