//! Commands and whole programs, asked of the top call over inputs, outputs and stores in memory: tables of what comes of
//! them. It has tests alone, so that no crate below is proved twice.
#![tactic(auto)]

#[cfg(test)]
mod calls;
#[cfg(test)]
mod example_rows;
#[cfg(test)]
mod faults;
#[cfg(test)]
mod foreign_rows;
#[cfg(test)]
mod go_arm_rows;
#[cfg(test)]
mod go_bound_rows;
#[cfg(test)]
mod go_code_rows;
#[cfg(test)]
mod go_data_rows;
#[cfg(test)]
mod go_iter_rows;
#[cfg(test)]
mod go_place_rows;
#[cfg(test)]
mod go_rows;
#[cfg(test)]
mod limit_rows;
#[cfg(test)]
mod op_costs;
#[cfg(test)]
mod op_helpers;
#[cfg(test)]
mod op_rows_data;
#[cfg(test)]
mod op_rows_text;
#[cfg(test)]
mod order_rows;
#[cfg(test)]
mod outside;
#[cfg(test)]
mod parameter_rows;
#[cfg(test)]
mod session_rows;
#[cfg(test)]
mod sessions;
#[cfg(test)]
mod status_rows;
#[cfg(test)]
mod tables;
#[cfg(test)]
mod text_rows;
#[cfg(test)]
mod trace_rows;
#[cfg(test)]
mod walk_rows;
