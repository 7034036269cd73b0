//! The events of a line of the schedule, one after the other.
ghost use Rattle.std.specs.Prelude.{◌≡◌, ◌≤◌, length, IfSome};
ghost use Rattle.listing_read.specs.Schedule.{IsTimed};
ghost use Rattle.schedule_replay.specs.Events.{line_events, left, IsTaken};
ghost use Rattle.schedule_replay.specs.Scheduled.{asked_events};

use kernel_core::Event;
use listing_read::Timed;
use untraced_steps::HartSteps;

/// The events that are left of a line.
#[derive(Clone, Copy)]
pub enum Events {
    /// Steps of one hart, or of all in rounds.
    StepsLeft(HartSteps),
    /// A tick.
    TickLeft { hart: u8 },
    NoneLeft,
}

impl Events {
    /// All events that a line asks for, on a machine with so many harts: none where it is skipped.
    pub fn new(harts: u8, asked: Option<Timed>) -> Events
        requires { IfSome asked (IsTimed harts) }
        ensures value { left result ≡ asked_events harts asked }
        ensures few { length (left result) ≤ 255000000 }
    {
        match asked {
            None => Events::NoneLeft,
            Some(timed) => Events::of_line(harts, timed),
        }
    }

    fn of_line(harts: u8, timed: Timed) -> Events
        requires { IsTimed harts timed }
        ensures value { left result ≡ line_events harts timed }
        ensures few { length (left result) ≤ 255000000 }
    {
        match timed {
            Timed::Step { hart, times } => Events::StepsLeft(HartSteps::of_hart(hart, times)),
            Timed::Tick { hart } => Events::TickLeft { hart },
            Timed::Round { times } => Events::StepsLeft(HartSteps::of_rounds(harts, times)),
        }
    }

    /// The first event that is left, which then is left no more.
    pub fn take(&mut self) -> Option<Event>
        ensures { IsTaken result (left self.old) (left self.new) }
    {
        match self {
            Events::StepsLeft(steps) => match steps.take() {
                Some(hart) => Some(Event::Step(hart)),
                None => None,
            },
            Events::TickLeft { hart } => {
                let tick = Event::Tick(*hart);
                *self = Events::NoneLeft;
                Some(tick)
            }
            Events::NoneLeft => None,
        }
    }
}
