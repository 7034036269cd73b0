//! Processes that are told, that wait and that listen, and in which order they stand in the queues, worked out by hand
//! from the rules. The rows are done one after the other on one machine.
use crate::running::Running;

/// What is done and asked, as `Running` reads it.
const ROWS: &str = "\
ask 6 0 0 c 0 0 | 8 0 0 0 | 8 0 | 0 0 0 0 | - - - - - - | - - - | endpoint 0 leads to process 0
ask 6 1 0 c 0 0 | 8 0 0 0 | 8 1 | 0 0 0 0 | - - - - - - | - - - | endpoint 1 leads to process 1
ask 6 2 0 c 0 0 | 8 0 0 0 | 8 2 | 0 0 0 0 | - - - - - - | - - - | endpoint 2 leads to process 2
ask 6 3 0 c 0 0 | 8 0 0 0 | 8 3 | 0 0 0 0 | - - - - - - | - - - | endpoint 3 leads to process 3
ask 6 4 0 c 0 0 | 8 0 0 0 | 8 4 | 0 0 0 0 | - - - - - - | - - - | endpoint 4 leads to process 4
ask 8 1 0 c 0 0 | d 1 0 0 | 9 3 | 0 0 0 0 | - - - - - - | - - - | process 1 gets a schedule of priority 3
ask 8 1 0 c 0 0 | f 0 0 0 | 0 0 | 0 0 0 0 | - - - - - - | - - - | and is resumed
ask 8 2 0 c 0 0 | d 1 0 0 | 9 3 | 0 0 0 0 | - - - - - - | - - - | process 2 gets a schedule of priority 3
ask 8 2 0 c 0 0 | f 0 0 0 | 0 0 | 0 0 0 0 | - - - - - - | - - - | and is resumed
ask 8 3 0 c 0 0 | d 1 0 0 | 9 5 | 0 0 0 0 | - - - - - - | - - - | process 3 gets a schedule of priority 5
ask 8 3 0 c 0 0 | f 0 0 0 | 0 0 | 0 0 0 0 | - - - - - - | - - - | and is resumed
ask 8 0 0 c 0 0 | d 1 0 0 | 9 3 | 0 0 0 0 | - - - - - - | - - - | process 0 gets a schedule of priority 3
ask 8 0 0 c 0 0 | f 0 0 0 | 0 0 | 0 0 0 0 | - - - - - - | - - - | and is resumed
queue 3 f120
queue 5 f3
wait 2 0
wait 1 0
wait 3 0
queue 3 f0
queue 5 f
on 0 f213
state 2 0 a sleeper runs
hart 0
listen 0 its sleepers are woken in their order, each into its own queue
state 0 1
on 0 f
queue 3 f21
queue 5 f3
tell 0 77 0 it is told, and stands last in its queue
first 0 77
state 0 0
queue 3 f210
tell 0 78 b0 it runs, so it isn't told
first 0 77
queue 3 f210
hart 3 it was free, and the highest queue is first
wait 3 2
hart 2
wait 1 2
listen 2 it leaves its hart, and its two sleepers go to their queues
hart 3
queue 3 f01
tell 1 79 b1 another process
tell 2 7a 2
first 2 7a
first 1 0
queue 3 f012
wait 1 4 a process that was stopped has sleepers too
wait 2 4
wait 0 4
ask 8 2 0 c 0 0 | d 1 0 0 | 0 0 | 0 0 0 0 | - - - - - - | - - - | process 2 loses its schedule
listen 4 one of its sleepers has no schedule any more
queue 3 f10
on 4 f
state 2 f7
tell 4 7b 4 it can't be made ready either, but it was told
first 4 7b
state 4 f7
tell 4 7c b4
first 4 7b
tell 5 7d d0 the endpoint leads nowhere";

#[test]
fn processes_are_told_wait_and_listen_in_the_order_of_queues(rt: HostRuntime) {
    Running::after(&rt, rt.alloc(), ROWS);
}
