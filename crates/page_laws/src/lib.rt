//! Laws about the definitions of a page and its runs.
#![tactic(auto)]

mod pages;
mod runs;

pub use pages::{
    boxes_do_not_read_the_ratio, children_are_one_level_deeper, commands_are_counted,
    commands_make_one_change, commands_read_the_target_alone, commands_take_nothing_back,
    listed_documents_are_active, no_box_has_no_size, numbers_stay_in_range,
    readings_change_nothing, what_is_made_has_no_box,
};
pub use runs::{
    limits_are_kept, runs_stay_in_range, runs_take_nothing_back, the_clock_stands_in_a_tick,
    ticks_of_a_quiet_page_say_nothing_more, turns_by_place_are_never_cut_off,
};
