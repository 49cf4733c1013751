//! How far two tables of one video may differ (RULES 6.4). The theorem is the contract of a function
//! that does nothing.
#![tactic(auto)]

ghost use Rattle.std.specs.Prelude.{◌≡◌};
ghost use Rattle.judge.specs.Video.{shown_by};
ghost use Rattle.judge.specs.Judge.{validate_of, Settled};
ghost use Rattle.differ.specs.Differ.{Differing};

/// A theorem: of two tables that are accepted for one video and agree in their frame fields, all
/// starts and all durations but the last are the same, and the last ones differ by two nominal
/// durations at most, but for the rounding (RULES 6.4). It is of the answers that `judge::validate`
/// and `judge::check_mcraw` promise.
pub fn tables_of_one_video()
    ensures { Differing (λ table. table)
        (λ table video starts answer. answer ≡ validate_of table (shown_by video starts)) Settled }
{
    judge::accepted_tables_fit_their_video();
    judge::accepted_tables_fit_their_recording();
}
