// What the programs that run the examples share: data files and the fields of their lines, lists that are lent with marks, a pseudo-random
// sequence, and what is printed. Every function of this crate is inner: only `trials`, `refusals` and `examples` call it, and none of them
// `fields::Fields` and `unfold::unfolded`, which read texts and not the bytes of a table. It is safe and ends, and promises little else: nothing
// here is for users of the library.
#![tactic(auto)]

pub mod fields;
pub mod marks;
pub mod report;
pub mod sequence;
pub mod table;
pub mod unfold;
