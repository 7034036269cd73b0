//! Every request to the other kinds as one table, whose replies were worked out by hand from the rules. The rows are
//! done one after the other on one machine, so that a later row reads what an earlier one changed.
use crate::running::Running;

/// What is done and asked, as `Running` reads it.
const ROWS: &str = "\
ask 0 0 0 c 0 0 | 0 0 0 0 | 0 0 | 1 0 0 0 | - - - - - - | - - - | Null answers no request
ask 0 0 0 c 0 0 | 8 0 0 0 | 0 0 | 1 0 0 0 | - - - - - - | - - - | Null answers no request
ask 6 0 0 c 0 0 | 0 0 0 0 | 0 0 | 0 6 0 0 | - - - - - - | - - - | kind: an endpoint
ask 8 0 0 c 0 0 | 0 0 0 0 | 0 0 | 0 8 0 0 | - - - - - - | - - - | kind: a process
ask 9 3 0 c 0 0 | 0 0 0 0 | 0 0 | 0 9 0 0 | - - - - - - | - - - | kind: a schedule
ask a 0 0 c 0 0 | 0 0 0 0 | 0 0 | 0 a 0 0 | - - - - - - | - - - | kind: Range
ask b 0 0 c 0 0 | 0 0 0 0 | 0 0 | 0 b 0 0 | - - - - - - | - - - | kind: Discrim
ask 6 0 0 c 0 0 | 1 0 0 0 | 0 0 | 2 0 0 0 | - - - - - - | - - - | an endpoint has no restrictions
ask 6 0 0 c 0 0 | e 0 0 0 | 0 0 | 2 0 0 0 | - - - - - - | - - - | no request 14 of an endpoint
ask 8 0 0 c 0 0 | 11 0 0 0 | 0 0 | 2 0 0 0 | - - - - - - | - - - | no request 17 of a process
ask 9 3 0 c 0 0 | a 0 0 0 | 0 0 | 2 0 0 0 | - - - - - - | - - - | no request 10 of a schedule
ask a 0 0 c 0 0 | a 0 0 0 | 0 0 | 2 0 0 0 | - - - - - - | - - - | no request 10 of Range
ask b 0 0 c 0 0 | 9 0 0 0 | 0 0 | 2 0 0 0 | - - - - - - | - - - | no request 9 of Discrim
ask 6 0 0 c 0 0 | 9 0 0 0 | 0 0 | 0 0 0 0 | - - - - - - | - - - | getid of an empty endpoint
ask 6 0 0 c 0 0 | a 77 0 0 | 0 0 | 0 0 0 0 | - - - - - - | - - - | setid
ask 6 0 0 c 0 0 | b 1 0 0 | 0 0 | 0 0 0 0 | - - - - - - | - - - | setmatch: set
ask 6 0 0 c 0 0 | d ffffffff 0 0 | 0 0 | 0 0 0 0 | - - - - - - | - - - | setpayload
ask 6 0 0 c 0 0 | b 2 0 0 | 0 0 | 4 0 0 0 | - - - - - - | - - - | setmatch: over 1
ask 6 0 0 c 0 0 | 9 0 0 0 | 0 0 | 0 77 1 ffffffff | - - - - - - | - - - | getid
ask 6 0 0 c 0 0 | b 0 0 0 | 0 0 | 0 0 0 0 | - - - - - - | - - - | setmatch: cleared
ask 6 0 0 c 0 0 | 9 0 0 0 | 0 0 | 0 77 0 ffffffff | - - - - - - | - - - | getid
ask 6 0 0 c 0 0 | 8 0 0 0 | 8 1 | 0 0 0 0 | - - - - - - | - - - | setrecipient: a process
ask 6 0 0 c 0 0 | 8 0 0 0 | 0 0 | 0 0 0 0 | - - - - - - | - - - | setrecipient: Null
ask 6 0 0 c 0 0 | 8 0 0 0 | 6 0 | 4 0 0 0 | - - - - - - | - - - | setrecipient: neither
ask 6 0 0 c 0 0 | c deadbeef 0 0 | 0 0 | 0 0 0 0 | 7 0 0 c deadbeef 0 | - - - | makeentry
ask 8 0 0 c 0 0 | 9 0 10 0 | 0 0 | 0 0 0 0 | - - - - - - | - - - | setreg of the pc
ask 8 0 0 c 0 0 | 8 0 0 0 | 0 0 | 0 10 0 0 | - - - - - - | - - - | getreg of the pc
ask 8 0 0 c 0 0 | 9 0 12 0 | 0 0 | 4 0 0 0 | - - - - - - | - - - | setreg: the pc is no multiple of 4
ask 8 0 0 c 0 0 | 9 1f 12 0 | 0 0 | 0 0 0 0 | - - - - - - | - - - | setreg of the last register
ask 8 0 0 c 0 0 | 8 1f 0 0 | 0 0 | 0 12 0 0 | - - - - - - | - - - | getreg of the last register
ask 8 0 0 c 0 0 | 9 20 10 0 | 0 0 | 4 0 0 0 | - - - - - - | - - - | setreg: over 31
ask 8 0 0 c 0 0 | 8 20 0 0 | 0 0 | 4 0 0 0 | - - - - - - | - - - | getreg: over 31
ask 8 0 0 c 0 0 | 8 0 0 0 | 0 0 | 0 10 0 0 | - - - - - - | - - - | getreg: the refusals changed nothing
ask 8 0 0 c 0 0 | b 1f 0 0 | 1 0 | 0 0 0 0 | - - - - - - | - - - | setcapreg of the last register
ask 8 0 0 c 0 0 | a 1f 0 0 | 0 0 | 0 0 0 0 | 1 0 0 c 0 0 | - - - | getcapreg of the last register
ask 8 0 0 c 0 0 | b 0 0 0 | 1 0 | 4 0 0 0 | - - - - - - | - - - | setcapreg of register 0
ask 8 0 0 c 0 0 | a 0 0 0 | 0 0 | 0 0 0 0 | 0 0 0 c 0 0 | - - - | getcapreg of register 0
ask 8 0 0 c 0 0 | b 20 0 0 | 1 0 | 4 0 0 0 | - - - - - - | - - - | setcapreg: over 31
ask 8 0 0 c 0 0 | a 20 0 0 | 0 0 | 4 0 0 0 | - - - - - - | - - - | getcapreg: over 31
ask 8 0 0 c 0 0 | d 2 0 0 | 7 0 | 0 0 0 0 | - - - - - - | - - - | setslot: the handler
ask 8 0 0 c 0 0 | c 2 0 0 | 0 0 | 0 0 0 0 | 7 0 0 c 0 0 | - - - | getslot: the handler
ask 8 0 0 c 0 0 | d 3 0 0 | 7 0 | 4 0 0 0 | - - - - - - | - - - | setslot: over 2
ask 8 0 0 c 0 0 | c 3 0 0 | 0 0 | 4 0 0 0 | - - - - - - | - - - | getslot: over 2
ask 8 0 0 c 0 0 | e 0 0 0 | 0 0 | 0 2 0 0 | - - - - - - | - - - | getstate of a process that was stopped
ask 8 0 0 c 0 0 | 10 0 0 0 | 0 0 | 4 0 0 0 | - - - - - - | - - - | stop: it is faulted
ask 8 0 0 c 0 0 | f 0 0 0 | 0 0 | 0 0 0 0 | - - - - - - | - - - | resume without a schedule
ask 8 0 0 c 0 0 | e 0 0 0 | 0 0 | 0 2 7 10 | - - - - - - | - - - | getstate: NoSchedule at its pc
place 0 f0
ask 8 0 0 c 0 0 | d 1 0 0 | 9 3 | 0 0 0 0 | - - - - - - | - - - | setslot: the schedule
ask 8 0 0 c 0 0 | f 0 0 0 | 0 0 | 0 0 0 0 | - - - - - - | - - - | resume
ask 8 0 0 c 0 0 | e 0 0 0 | 0 0 | 0 0 0 0 | - - - - - - | - - - | getstate of a process that runs
place 0 a3
ask 8 0 0 c 0 0 | f 0 0 0 | 0 0 | 4 0 0 0 | - - - - - - | - - - | resume: it runs
ask 8 1 0 c 0 0 | d 1 0 0 | 9 5 | 0 0 0 0 | - - - - - - | - - - | another schedule for process 1
ask 8 1 0 c 0 0 | f 0 0 0 | 0 0 | 0 0 0 0 | - - - - - - | - - - | resume of process 1
ask 8 2 0 c 0 0 | d 1 0 0 | 9 0 | 0 0 0 0 | - - - - - - | - - - | and of process 2
ask 8 2 0 c 0 0 | f 0 0 0 | 0 0 | 0 0 0 0 | - - - - - - | - - - | resume of process 2
wait 1 0
wait 2 0
place 1 b0
ask 8 1 0 c 0 0 | e 0 0 0 | 0 0 | 0 0 0 0 | - - - - - - | - - - | getstate: a sleeper runs
ask 8 1 0 c 0 0 | f 0 0 0 | 0 0 | 4 0 0 0 | - - - - - - | - - - | resume: a sleeper runs
ask 8 2 0 c 0 0 | 10 0 0 0 | 0 0 | 0 0 0 0 | - - - - - - | - - - | stop of a sleeper
place 2 f0
ask 8 0 0 c 0 0 | 10 0 0 0 | 0 0 | 0 0 0 0 | - - - - - - | - - - | stop
ask 8 0 0 c 0 0 | e 0 0 0 | 0 0 | 0 2 0 0 | - - - - - - | - - - | getstate: stopped, with no address
place 0 f0
place 1 b0
ask 9 3 0 c 0 0 | 8 0 0 0 | 0 0 | 0 3 0 0 | - - - - - - | - - - | priority
ask 9 3 0 c 0 0 | 9 0 0 0 | 0 0 | 0 0 0 0 | 9 0 0 c 0 0 | - - - | lower
ask 9 3 0 c 0 0 | 9 3 0 0 | 0 0 | 0 0 0 0 | 9 3 0 c 0 0 | - - - | lower: the same
ask 9 3 0 c 0 0 | 9 4 0 0 | 0 0 | 4 0 0 0 | - - - - - - | - - - | lower: a higher one
ask a 0 0 c 0 0 | 8 1 0 0 | 0 0 | 0 0 0 0 | 1 0 0 c 0 0 | - - - | getcap: a page
ask a 0 0 c 0 0 | 8 3 0 0 | 0 0 | 0 0 0 0 | 3 0 0 20 0 0 | - - - | getcap: a GPT, all of it
ask a 0 0 c 0 0 | 8 8 3 0 | 0 0 | 0 0 0 0 | 8 3 0 c 0 0 | - - - | getcap: a process
ask a 0 0 c 0 0 | 8 8 6 0 | 0 0 | 4 0 0 0 | - - - - - - | - - - | getcap: no such process
ask a 0 0 c 0 0 | 8 7 0 0 | 0 0 | 4 0 0 0 | - - - - - - | - - - | getcap: an entry is no object
ask a 0 0 c 0 0 | 8 9 3 0 | 0 0 | 4 0 0 0 | - - - - - - | - - - | getcap: a schedule is no object
ask a 0 0 c 0 0 | 8 e 0 0 | 0 0 | 4 0 0 0 | - - - - - - | - - - | getcap: no type 14
ask a 0 0 c 0 0 | 9 0 0 0 | 0 0 | 4 0 0 0 | - - - - - - | - - - | destroy: nothing was sent
ask a 0 0 c 0 0 | 9 0 0 0 | 7 0 | 4 0 0 0 | - - - - - - | - - - | destroy: an entry is no object
ask a 0 0 c 0 0 | 9 0 0 0 | a 0 | 4 0 0 0 | - - - - - - | - - - | destroy: Range is no object
ask a 0 0 c 0 0 | 9 0 0 0 | 8 0 | 0 0 0 0 | - - - - - - | h 8 0 | destroy: a process
place 0 f0
place 1 a5
ask 8 0 0 c 0 0 | e 0 0 0 | 0 0 | 1 0 0 0 | - - - - - - | - - - | the capability to it means Null now
ask a 0 0 c 0 0 | 9 0 0 0 | 8 0 | 4 0 0 0 | - - - - - - | - - - | destroy: and so does the one that is sent
ask a 0 0 c 0 0 | 9 0 0 0 | 8 1 | 0 0 0 0 | - - - - - - | h 8 1 | destroy: a process that is ready
place 1 f0
ask a 0 0 c 0 0 | 9 0 0 0 | 3 0 | 0 0 0 0 | - - - - - - | h 3 0 | destroy: a GPT
ask a 0 0 c 0 0 | 9 0 0 0 | 6 0 | 0 0 0 0 | - - - - - - | h 6 0 | destroy: an endpoint
ask b 0 0 c 0 0 | 8 0 0 0 | 1 0 | 0 1 0 0 | - - - - - - | - - - | classify: a page
ask b 0 0 c 0 0 | 8 0 0 0 | 0 0 | 0 0 1 0 | - - - - - - | - - - | classify: Null is harmless
ask b 0 0 c 0 0 | 8 0 0 0 | b 0 | 0 b 1 0 | - - - - - - | - - - | classify: Discrim is harmless
ask b 0 0 c 0 0 | 8 0 0 0 | c 0 | 0 c 0 0 | - - - - - - | - - - | classify: KernLog";

#[test]
fn requests_to_the_other_kinds_are_replied_as_their_rows_say(rt: HostRuntime) {
    Running::after(&rt, rt.alloc(), ROWS);
}
