//! Tests of the machine and of its code: lines and texts of assembly, files of images, and the machine that runs them. It has
//! tests alone, so that no crate below is proved twice.
#![tactic(auto)]

#[cfg(test)]
mod image_rows;
#[cfg(test)]
mod images;
#[cfg(test)]
mod machine_rows;
#[cfg(test)]
mod runs;
#[cfg(test)]
mod tables;
