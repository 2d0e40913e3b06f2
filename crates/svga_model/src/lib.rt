//! The definitions that the contracts of all other crates cite, and the laws over them.
//!
//! It runs nothing. A law is the contract of a public function with an empty body.
#![tactic(auto)]

mod addresses;
mod captures;
mod examples;
mod faults;
mod fences;
mod grammar;
mod meanings;
mod pixels;
mod runs;
mod scripts;
mod states;
mod touches;

pub use addresses::one_turn;
pub use captures::{small_captures, words_of_captures};
pub use examples::{
    blit_at_a_corner, empty_region, overlapping_screens, pixel_over_two_places,
    remap_of_its_own_numbers, update_past_the_edge,
};
pub use faults::{fault_of_act, judged_without_bytes, least_fault};
pub use fences::fence_order;
pub use grammar::{one_ending, refused_word, viable_words};
pub use meanings::meaning_in_parts;
pub use pixels::{
    narrowed_colour, no_pixels, painted_pixels, pixels_at_a_corner, pixels_of_a_far_screen,
    pixels_of_two_screens,
};
pub use runs::{replay_within_regions, run_in_parts, run_over_only};
pub use scripts::{
    bounded_scripts, first_lines_of_scripts, lines_ask, small_meanings, small_scripts,
    words_of_scripts,
};
pub use states::{put_alone, valid_states};
pub use touches::{puts_commute, touched_pages};
