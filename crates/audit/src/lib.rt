//! What is claimed of the public calls, as the contract of a function that does nothing: the check
//! proves it like any other. The claims are of quoted promises. That each call asks nothing and
//! keeps the promise that is quoted of it are the contracts of `library` and, for C, of `exports`:
//! of each call a function that does nothing but call it.
#![tactic(auto)]

ghost use Rattle.audit.specs.Claims.{Claims};

pub mod exports;
pub mod library;

/// Every claim holds, by the theorems of the crates below: the contracts of the functions called
/// here, which do nothing either.
pub fn all_claims_hold()
    ensures { Claims }
{
    refusal::numbers_are_reasons_own();
    rows::maps_meet_the_demands();
    maps::calls_keep_origins();
    maps::each_origin_is_one_origin();
    cuts::each_cut_is_one_cut();
    rules::refusals_are_right();
    judge::refusals_by_video_are_right();
    judge::refusals_by_recording_are_right();
    table_rows::accepted_rows_are_a_map();
    differ::tables_of_one_video();
    stops::stops_at_a_bad_header();
    stops::only_divides();
    table_meaning::refusals_of_texts_are_right();
    table_meaning::written_tables_are_accepted();
    table_meaning::names_stand_in_their_text();
    modes::both_readings_agree();
}
