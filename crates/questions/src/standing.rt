//! Where processes stand.
ghost use Rattle.std.specs.Prelude.{◌≡◌, ◌<◌, length};
ghost use Rattle.questions.specs.Atom.{is_asleep, some_on_hart, some_ready};

use cap_format::PRIORITIES;
use schedules::Queues;
use separation_check::sleeps_on;

/// Whether a process is on one of so many harts.
pub(crate) fn some_on_hart(queues: &Queues, harts: u8) -> bool
    requires { harts ≡ length queues.now.harts }
    ensures { result ≡ some_on_hart queues.now }
{
    'each: for hart in 0..harts {
        if queues.on_hart(hart).is_some() {
            return true;
        }
    }
    false
}

/// Whether a process is in a ready queue.
pub(crate) fn some_ready(queues: &Queues) -> bool
    ensures { result ≡ some_ready queues.now }
{
    'each: for priority in 0..PRIORITIES {
        if queues.ready_at(priority, 0).is_some() {
            return true;
        }
    }
    false
}

/// Whether a process sleeps on one of so many.
pub(crate) fn is_asleep(queues: &Queues, processes: u16, p: u16) -> bool
    requires { processes ≡ length queues.now.sleepers }
    ensures { result ≡ is_asleep queues.now p }
{
    'each: for on in 0..processes {
        if sleeps_on(queues, p, on) {
            return true;
        }
    }
    false
}
