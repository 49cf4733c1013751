//! Where both readings of composition offsets, the standard's and the Rust's, answer the same
//! (RULES 8.4). The theorem is the contract of a function that does nothing.
#![tactic(auto)]

ghost use Rattle.std.specs.Prelude.{◌≡◌, ℕ, List, true, false};
ghost use Rattle.frame_times.specs.Times.{times_of_moov};
ghost use Rattle.modes.specs.Modes.{ctts_of, NoTopBit};

/// Both readings of a moov are the same where the ctts of its first video track has no offset of
/// version 0 with its top bit set (RULES 8.4; ISO/IEC 14496-12, 8.6.1.3).
#[tactic(auto, using(crate::proofs::Modes::modes_agree))]
pub fn both_readings_agree()
    ensures { (moov : List ℕ) (room : ℕ) → NoTopBit (ctts_of moov)
        → times_of_moov true moov room ≡ times_of_moov false moov room }
{}
