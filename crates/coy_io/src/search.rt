//! The search for the end of a line, through a window into a source.
ghost use Rattle.std.specs.Prelude.{◌≡◌, ◌≢◌, ◌<◌, ◌≤◌, length, Err, OnOk};
ghost use Rattle.std.specs.Io.KnownBytes.{Keeps, prepend_known};
ghost use Rattle.coy_io.specs.Causes.{Rose};
ghost use Rattle.coy_io.specs.Pieces.{CountsIn};
ghost use Rattle.coy_io.specs.Limits.{window_limit};
ghost use Rattle.coy_io.specs.Lines.{line_len};
ghost use Rattle.coy_io.specs.Found.{IsFound, idle_in};

use crate::scan::first_line_from;
use crate::window::Window;
use crate::{Failed, LINE_LIMIT, LineFault, Source};

/// Takes bytes until a line stands at the front of the window, and answers where it ends: `None`
/// where the input ends first. Of the input `room` bytes may be read, those in the window among
/// them.
#[tactic(auto, using(crate::proofs::FirstLine::line_len_grows, crate::proofs::FirstLine::line_len_within))]
pub(crate) fn find_line<S: Source>(
    window: &mut Window,
    room: usize,
    source: &mut S,
) -> Result<Option<usize>, LineFault>
    requires { length window.old ≤ room }
    ensures counts { CountsIn S.given S.calls S.idle source.old source.new
        (length window.old) (length window.new) 0 (idle_in result) }
    ensures found { IsFound result window.new room (S.held source.new) }
    ensures bound { OnOk result (length window.new ≤ window_limit) }
    ensures ahead { Keeps (prepend_known window.old (S.held source.old))
        (prepend_known window.new (S.held source.new)) }
    ensures untouched { line_len window.old < length window.old → source.new ≡ source.old }
    ensures read { result ≡ Err LineFault.ReadFault →
        Rose (S.faults source.old) (S.faults source.new) }
    ensures quiet { result ≢ Err LineFault.ReadFault → S.faults source.new ≡ S.faults source.old }
{
    let mut read = 0;
    'reading: loop {
        let bytes = window.as_slice();
        let end = first_line_from(bytes, read);
        if end > LINE_LIMIT {
            return Err(LineFault::LineTooLong);
        }
        if end < bytes.len() {
            return Ok(Some(end));
        }
        read = end;
        match window.take_from(source, (room - read).max(1)) {
            Err(Failed) => return Err(LineFault::ReadFault),
            Ok(0) => return Ok(None),
            Ok(_) if read == room => return Err(LineFault::TooLong),
            Ok(_) => {}
        }
    }
}
