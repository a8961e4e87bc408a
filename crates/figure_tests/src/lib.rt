//! Tests of `load_figures` and `load_report`: histograms, counts and texts by worked rows; and of
//! `drawing`, `script_picture` and the pictures of loads: the number of marks.
#![tactic(auto)]

#[cfg(test)]
mod checks;
#[cfg(test)]
mod figures;
#[cfg(test)]
mod histograms;
#[cfg(test)]
mod load_pictures;
#[cfg(test)]
mod load_texts;
#[cfg(test)]
mod pictures;
