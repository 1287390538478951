// What every operation shares: its inputs, the place of a function, and how it ends.
#![tactic(auto)]

pub mod area; // where a function lies in its area, 20, 18
pub mod ending; // 18 and 19 of a written result, and an answer's numbers
pub mod inputs; // a string table and a sheet, with their refusals in order
