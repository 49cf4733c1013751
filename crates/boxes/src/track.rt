//! The first video track of a moov: RULES 7.8.
ghost use Rattle.std.specs.Prelude.{◌≡◌, ◌+◌, ◌≤◌, length};
ghost use Rattle.boxes.specs.Tracks.{is_video, is_video_track, video_track};
ghost use Rattle.boxes.specs.Walks.{WalkStays};

use crate::places::inner_child;
use crate::read::{be32, code};
use crate::search::stopped;
use crate::size::header_at;
use crate::{BoxAt, Header, Walk};

// Whether a track is a video track: its first mdia's first hdlr has `vide` at 8.
fn is_video(trak: &[u8]) -> bool
    ensures { result ≡ is_video trak.now }
{
    let hdlr = inner_child(inner_child(trak, code(b"mdia")), code(b"hdlr"));
    if hdlr.len() < 12 {
        return false;
    }
    be32(hdlr, 8) == code(b"vide")
}

// Whether a box of a moov is a video track.
fn is_video_track(moov: &[u8], child: BoxAt) -> bool
    requires { child.start + child.len ≤ length moov.now }
    ensures { result ≡ is_video_track moov.now child.kind child.start child.len }
{
    if child.kind != code(b"trak") {
        return false;
    }
    is_video(&moov[child.start..child.start + child.len])
}

/// The first video track of a moov's payload: its first trak whose first mdia's first hdlr has
/// `vide` at 8 (RULES 7.8; ISO/IEC 14496-12, 8.4.3). The walk stays within the moov.
pub fn find_video_track(moov: &[u8]) -> Walk
    ensures first { result ≡ video_track moov.now }
    ensures stays { WalkStays (length moov.now) result }
{
    let mut at = 0;
    loop {
        let header = header_at(moov, at);
        let Header::Whole(child) = header else {
            break stopped(header, at);
        };
        if is_video_track(moov, child) {
            break Walk::Found(child.payload());
        }
        at = child.next;
    }
}
