//! A cache of the boxes of block layout (CSS 2.2, 8 to 10): each box is computed once, marked when the tree changes, and
//! recomputed only when it is due. All lengths are in units of 1/64 CSS pixel.
#![tactic(auto)]

mod kept;
mod laws;
mod measures;
mod positions;
mod slots;
mod walk;

pub use kept::Kept;
pub use laws::{
    changes_leave_the_rest_right, exceptions_may_be_more, marked_nodes_are_no_exception,
    new_nodes_need_no_mark, trees_change_at_few_nodes,
};
pub use measures::KeptMeasures;
pub use positions::Shift;
pub use slots::{Found, Slot};
