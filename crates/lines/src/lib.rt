// One line of a sheet, read into lists of full size behind what the lines before left there: the readers of expressions and rules, and what they write.
// Every function of this crate is inner: only `translate` calls it.
#![tactic(auto)]

mod expression;
pub mod line;
pub mod parts;
mod rule;
mod writing;
