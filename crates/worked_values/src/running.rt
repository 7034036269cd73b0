//! A machine with processes that run, wait, listen and are told, and with capabilities of every kind that can be asked.
//! What is done to it is a text, a row for each thing, whose numbers are hexadecimal.
ghost use Rattle.std.specs.Prelude.{◌≡◌, length};
ghost use Rattle.cap_format.specs.declared.kind.CapKind.TheVariants.{Process as ProcessKind};
ghost use Rattle.object_store.specs.Store.{size_of};
ghost use Rattle.object_store.specs.Ahead.{NoneAhead};
ghost use Rattle.schedules.specs.Ready.{Agrees, runs_of};
ghost use Rattle.control_caps.specs.Kinds.{is_control};

use crate::requests::{cap_at, check_reply, request_at};
use crate::rows::{byte, check, hex, letter, short};
use cap_format::{Cap, CapKind, FaultCode, Reply, Request};
use control_caps::invoke;
use fault_path::message_path::{listen, tell, wait};
use fault_path::{Outcome, deliver_fault};
use invocation::{Callee, CapList, Message, target};
use object_store::{Objects, Sizes};
use process_objects::{Accept, Process, State, Wait};
use schedules::{Queues, Spot};
use std::alloc::Global;
use std::process::Abort;

const SIZES: Sizes = Sizes {
    harts: 2,
    pages: 1,
    cappages: 1,
    gpts: 1,
    processes: 6,
    endpoints: 6,
};

/// Objects and queues. A process that runs stands in exactly one place, and any other in none.
#[derive(Drop)]
pub struct Running {
    objects: Objects,
    queues: Queues,
    ghost behind: { NoneAhead objects },
    ghost sizes: { length queues.sleepers ≡ size_of objects.items ProcessKind },
    ghost agrees: { Agrees (runs_of objects queues) },
    ghost harts: { length queues.harts ≡ 2 },
}

/// Whether this kind is no memory.
fn is_control(kind: CapKind) -> bool
    ensures { result ≡ is_control kind }
{
    matches!(
        kind,
        CapKind::Null
            | CapKind::Endpoint
            | CapKind::Process
            | CapKind::Schedule
            | CapKind::Range
            | CapKind::Discrim
    )
}

impl Running {
    /// Six processes that were stopped, six endpoints without a recipient, and two harts.
    fn new(rt: &impl Abort, alloc: Global) -> Running {
        let objects = Objects::new(alloc, SIZES).expect(rt, "memory");
        let queues = Queues::new(alloc, SIZES).expect(rt, "memory");
        Running { objects, queues }
    }

    /// The same, after the rows were done one after the other.
    pub fn after(rt: &impl Abort, alloc: Global, rows: &str) -> Running {
        let mut machine = Running::new(rt, alloc);
        for row in rows.lines() {
            machine.perform(rt, row);
        }
        machine
    }

    /// `ask`, then the capability that is asked, the request and the reply, as in the table of the memory kinds.
    /// `wait`, with a process and the one that it sleeps on. `listen`, with a process. `tell`, with an endpoint and a
    /// word: the process that was told, or b0 and the one that is busy, or d0. `hart`: which process hart 0 has, after
    /// it took one if it had none. Anything else is a question.
    fn perform(&mut self, rt: &impl Abort, row: &str) {
        match letter(row, 0) {
            b'a' => self.ask_row(rt, row),
            b'w' => self.wait(rt, short(rt, row, 1), short(rt, row, 2)),
            b'l' => self.listen(rt, short(rt, row, 1)),
            b't' => {
                let told = self.tell(rt, short(rt, row, 1), hex(rt, row, 2));
                check(rt, told == hex(rt, row, 3), row);
            }
            b'h' => check(rt, self.dispatch() == Some(short(rt, row, 1)), row),
            _ => check(rt, self.answer(rt, row) == hex(rt, row, 2), row),
        }
    }

    /// Who is in the `queue` of a priority, and who sleeps `on` a process: f, and behind it the processes as digits,
    /// from the front. Of a process, the `first` word that it was told, its `state` and its `place`.
    fn answer(&self, rt: &impl Abort, row: &str) -> u32 {
        match letter(row, 0) {
            b'q' | b'o' => self.digits(rt, row),
            b'f' => self.process(rt, short(rt, row, 1)).reg(11),
            b's' => self.state(rt, short(rt, row, 1)),
            _ => self.place(rt, short(rt, row, 1)),
        }
    }

    /// A process.
    pub fn process(&self, rt: &impl Abort, p: u16) -> &Process {
        assert!(rt; p < self.objects.sizes().processes);
        self.objects.process(p)
    }

    /// Asks a capability of a kind that is no memory.
    pub fn ask(&mut self, rt: &impl Abort, cap: Cap, request: Request) -> Reply {
        let cap = self.objects.live(cap);
        let sent = self.objects.live(request.sent);
        assert!(rt; is_control(cap.kind()));
        let words = request.words;
        invoke(
            &mut self.objects,
            &mut self.queues,
            cap,
            Request { words, sent },
        )
    }

    /// Asks what the row asks, and compares.
    fn ask_row(&mut self, rt: &impl Abort, row: &str) {
        let reply = self.ask(rt, cap_at(rt, row, 1), request_at(rt, row, 8));
        check_reply(rt, reply, row, 16);
    }

    /// A process that runs is the last sleeper of another.
    fn wait(&mut self, rt: &impl Abort, p: u16, on: u16) {
        let processes = self.objects.sizes().processes;
        assert!(rt; p < processes && on < processes);
        assert!(rt; matches!(self.objects.process(p).state(), State::Running));
        wait(&self.objects, &mut self.queues, p, on);
    }

    /// A process receives from all, with one capability into c9.
    fn listen(&mut self, rt: &impl Abort, p: u16) {
        assert!(rt; p < self.objects.sizes().processes);
        let accept = Accept::new(Wait::Open, 1, [9, 0, 0, 0], 0, 0);
        listen(&mut self.objects, &mut self.queues, p, accept);
    }

    /// Sends a message of one word through an endpoint, and says who answered it.
    fn tell(&mut self, rt: &impl Abort, endpoint: u16, word: u32) -> u32 {
        assert!(rt; endpoint < 1024);
        match target(&self.objects, Cap::entry(endpoint, 0, 0)) {
            Callee::Open { endpoint, process } => {
                let message = Message {
                    words: [word, 0, 0, 0],
                    payload: 0,
                    length: 0,
                    cut: false,
                    caps: CapList::new(),
                };
                let (objects, queues) = (&mut self.objects, &mut self.queues);
                tell(objects, queues, endpoint, process, message);
                u32::from(process)
            }
            Callee::Busy(process) => 0xb0 + u32::from(process),
            _ => 0xd0,
        }
    }

    /// Process 0, which runs, faults at address 1234 (hexadecimal).
    pub fn fault(&mut self, rt: &impl Abort, walked: Option<Cap>) -> Outcome {
        assert!(rt; self.objects.sizes().processes == 6);
        assert!(rt; matches!(self.objects.process(0).state(), State::Running));
        deliver_fault(
            &mut self.objects,
            &mut self.queues,
            0,
            FaultCode::AccessViolation,
            0x1234,
            walked,
        )
    }

    /// Hart 0 takes a process, unless it has one.
    fn dispatch(&mut self) -> Option<u16> {
        self.queues.dispatch(0)
    }

    /// Whether no hart has a process.
    pub fn is_idle(&self) -> bool {
        self.queues.on_hart(0).is_none() && self.queues.on_hart(1).is_none()
    }

    /// An f, and behind it the first four of the ready queue of a priority, or of those that sleep on a process, as
    /// digits.
    fn digits(&self, rt: &impl Abort, row: &str) -> u32 {
        let (is_queue, of) = (letter(row, 0) == b'q', byte(rt, row, 1));
        assert!(rt; of < 8 && u16::from(of) < self.objects.sizes().processes);
        let mut digits = 0xf;
        for n in 0..4 {
            let next = if is_queue {
                self.queues.ready_at(of, n)
            } else {
                self.queues.sleeper_at(u16::from(of), n)
            };
            if let Some(p) = next {
                digits = (digits << 4) | u32::from(p);
            }
        }
        digits
    }

    /// The state of a process: 0 where it runs, 1 where it receives, or f0 and its fault.
    pub fn state(&self, rt: &impl Abort, p: u16) -> u32 {
        match self.process(rt, p).state() {
            State::Running => 0,
            State::Receiving(_) => 1,
            State::Faulted { code, .. } => 0xf0 + code.number(),
        }
    }

    /// Where a process stands: a0 and the priority of a ready queue, b0 and the process that it sleeps on, c0 and a
    /// hart, or f0 for nowhere.
    pub fn place(&self, rt: &impl Abort, p: u16) -> u32 {
        assert!(rt; p < self.objects.sizes().processes);
        match self.queues.place(p) {
            Spot::Ready(priority) => 0xa0 + u32::from(priority),
            Spot::Sleeper(on) => 0xb0 + u32::from(on),
            Spot::Hart(hart) => 0xc0 + u32::from(hart),
            Spot::Nowhere => 0xf0,
        }
    }
}
