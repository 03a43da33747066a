// What crates of this language call: the check of a table, and work on circuits and tables that it has let pass. A `requires` here is asked by
// the prover of every caller, and no other language reaches these functions.
pub use crate::checking::{Tested, accept, test_closing, test_gate, test_gates};
pub use crate::copying::copy_over;
pub use crate::critical::{
    DepthPair, critical_with_reverse_depths, pair, pair_with_reverse_depths,
};
pub use crate::depth::{depths_from, output_depth};
pub use crate::table::{
    CLOSING, CONSTANTS, Circuit, Gate, Kind, LAST_REFERENCE, MAX_GATES, MAX_INPUTS, MAX_LINES,
    MAX_OUTPUTS, MAX_REFERENCES, MAX_TABLE, SMALL_TABLE, START, closings_from, gates_from,
};
pub use crate::trimming::{old_number, trim, trim_by_reverse_depths, trim_depths};
