// The sent order of a block field by words. Its bits 1 to 195 are 13 runs of 15. The last run first, and then the columns of these runs for
// rows, are the plain order, which is cut into 13 rows of 15.
#![tactic(auto)]

pub mod lanes;
pub mod reading;
pub mod writing;
