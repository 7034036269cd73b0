//! Rows of whole machines, each with what has to stand in the output, worked out by hand.

/// First stand the rows of messages: in the first of them, whose input has 65 lines, a client asks a server a hundred
/// times and then faults, a pager gives it the page that it misses, and a logger logs once. Then those of operations,
/// faults and destructions, and of the tables behind them. In the others, from the yield on, a machine does one thing;
/// the last is `examples/primes`, with the output that is kept beside it.
pub(crate) const KERNEL_ROWS: &str = "\
0 run: pager-server-client-logger
coyotos 1
machine 2 8 0 4 4 3
code 0 000 lui x10 0x80
code 0 004 addi x10 x10 0x40
code 0 008 ecall
code 0 00c lui x10 0x10
code 0 010 addi x10 x10 0x21
code 0 014 addi x11 x0 9
code 0 018 addi x12 x0 2
code 0 01c ecall
code 0 020 addi x10 x0 0x25
code 0 024 addi x11 x0 15
code 0 028 ecall
code 0 02c jal x0 -44
code 1 000 lui x10 0x80
code 1 004 addi x10 x10 0x40
code 1 008 ecall
code 1 00c add x11 x11 x11
code 1 010 addi x9 x9 1
code 1 014 lui x10 0x80
code 1 018 addi x10 x10 0x65
code 1 01c jal x0 -20
code 2 000 lui x10 0x10
code 2 004 addi x10 x10 0x61
code 2 008 addi x11 x5 0
code 2 00c ecall
code 2 010 add x6 x6 x11
code 2 014 addi x5 x5 -1
code 2 018 bne x5 x0 -24
code 2 01c lui x7 2
code 2 020 sw x6 0(x7)
code 2 024 addi x10 x0 64
code 2 028 ecall
code 3 000 ecall
code 3 004 jal x0 0
page 3 100 6869
gpt 2 12 ha
slot 0 0 page:0@12/0
slot 1 0 page:1@12/0
slot 2 0 page:2@12/0
slot 2 15 entry:2:0000000c
slot 3 0 page:3@12/0
endpoint 0 process:1 00000000 00000000 plain
endpoint 1 process:2 00000001 00000000 plain
endpoint 2 process:0 00000002 00000000 plain
process 0 0 gpt:0@16/0 schedule:3 null run
reg 0 18 00000002
reg 0 19 00000005
capreg 0 1 gpt:2@16/0
capreg 0 2 page:7@12/0
process 1 0 gpt:1@16/0 schedule:3 null run
reg 1 19 00000005
process 2 0 gpt:2@16/0 schedule:3 null run
reg 2 5 00000064
reg 2 18 00000002
capreg 2 1 entry:0:00000000
capreg 2 2 entry:1:00000000
process 3 0 gpt:3@16/0 schedule:1 null run
reg 3 10 00000021
reg 3 11 00000008
reg 3 15 00000100
reg 3 16 00000002
capreg 3 1 kernlog
end
round 25000
=>
records 202
records-of msg 200
has-record fault 2 InvalidDataReference 00002000 to 0
has-record log 3 6869
show page 7 000 7427000000..
show slot 2 2 page:7@12/00000
show reg 1 9 00000064
show reg 2 6 00002774
show process 2 0000002c gpt:2@16/00000 schedule:3 null waiting open 0 0 0 0 0 00000000 0
==
0 run: closed-wait
coyotos 1
machine 1 2 0 2 2 1
code 0 000 ecall
code 1 000 ecall
code 1 004 addi x10 x0 33
code 1 008 ecall
slot 0 0 page:0@12/0
slot 1 0 page:1@12/0
endpoint 0 process:0 00000007 00000005 plain
process 0 0 gpt:0@16/0 schedule:1 null run
reg 0 10 00000140
reg 0 11 00000009
reg 0 18 00000002
reg 0 22 00000008
process 1 0 gpt:1@16/0 schedule:3 null run
reg 1 10 00000021
reg 1 11 00000011
capreg 1 1 entry:0:00000005
end
step 0 3
=>
no-record
show sleepers 0 1
like process 0 * waiting 00000008 *
==
0 run: match-endpoint
coyotos 1
machine 1 2 0 2 2 1
code 0 000 ecall
code 1 000 ecall
code 1 004 addi x10 x0 33
code 1 008 ecall
slot 0 0 page:0@12/0
slot 1 0 page:1@12/0
endpoint 0 process:0 00000000 00000005 match
process 0 0 gpt:0@16/0 schedule:5 null run
reg 0 10 00000040
reg 0 11 00000009
reg 0 18 00000002
process 1 0 gpt:1@16/0 schedule:3 null run
reg 1 10 00000021
reg 1 11 00000011
capreg 1 1 entry:0:00000005
end
step 0 4
=>
record msg 1 0 endpoint=0 payload=00000005 words=00000011,00000000,00000000,00000000 len=0 caps=0
show endpoint 0 process:0 00000000 00000006 match
show reg 0 10 00000001
show reg 0 11 00000011
show reg 0 15 00000005
show reg 1 10 00000002
show reg 1 11 00000001
==
0 run: would-block-or-sleep.would-block
coyotos 1
machine 1 2 0 2 2 1
code 0 000 ecall
code 1 000 ecall
code 1 004 addi x10 x0 33
code 1 008 ecall
slot 0 0 page:0@12/0
slot 1 0 page:1@12/0
endpoint 0 process:0 00000000 00000005 plain
process 0 0 gpt:0@16/0 schedule:1 null run
reg 0 10 00000040
reg 0 11 00000009
reg 0 18 00000002
process 1 0 gpt:1@16/0 schedule:3 null run
reg 1 10 000000a1
reg 1 11 00000011
capreg 1 1 entry:0:00000005
end
step 0 1
=>
no-record
show reg 1 10 00000002
show reg 1 11 00000006
==
0 run: would-block-or-sleep.sleeps
coyotos 1
machine 1 2 0 2 2 1
code 0 000 ecall
code 1 000 ecall
code 1 004 addi x10 x0 33
code 1 008 ecall
slot 0 0 page:0@12/0
slot 1 0 page:1@12/0
endpoint 0 process:0 00000000 00000005 plain
process 0 0 gpt:0@16/0 schedule:1 null run
reg 0 10 00000040
reg 0 11 00000009
reg 0 18 00000002
process 1 0 gpt:1@16/0 schedule:3 null run
reg 1 10 00000021
reg 1 11 00000011
capreg 1 1 entry:0:00000005
end
step 0 1
=>
show hart 0 idle
show ready 1 0
show sleepers 0 1
==
0 run: would-block-or-sleep.served-later
coyotos 1
machine 1 2 0 2 2 1
code 0 000 ecall
code 1 000 ecall
code 1 004 addi x10 x0 33
code 1 008 ecall
slot 0 0 page:0@12/0
slot 1 0 page:1@12/0
endpoint 0 process:0 00000000 00000005 plain
process 0 0 gpt:0@16/0 schedule:1 null run
reg 0 10 00000040
reg 0 11 00000009
reg 0 18 00000002
process 1 0 gpt:1@16/0 schedule:3 null run
reg 1 10 00000021
reg 1 11 00000011
capreg 1 1 entry:0:00000005
end
step 0 3
=>
record msg 1 0 endpoint=0 payload=00000005 words=00000011,00000000,00000000,00000000 len=0 caps=0
show hart 0 1
show ready 1 0
show reg 0 11 00000011
none reg 1 10
==
0 run: string-across-pages.cut
coyotos 1
machine 1 6 0 2 2 1
code 0 000 ecall
code 1 000 ecall
slot 0 0 page:0@12/0
slot 0 1 page:2@12/0
slot 0 2 page:3@12/0
slot 1 0 page:1@12/0
slot 1 1 page:4@12/0
slot 1 2 page:5@12/0+r
page 2 800 11
page 2 a00 22
endpoint 0 process:1 00000000 00000000 plain
process 0 0 gpt:0@16/0 schedule:3 null run
reg 0 10 00000021
reg 0 15 00001800
reg 0 16 00001000
capreg 0 1 entry:0:00000009
process 1 0 gpt:1@16/0 schedule:5 null run
reg 1 10 00000040
reg 1 20 00001a00
reg 1 21 00001000
end
step 0 2
=>
record msg 0 1 endpoint=0 payload=00000009 words=00000000,00000000,00000000,00000000 len=1536 caps=0
show reg 1 10 00000101
show reg 1 16 00000600
show page 4 a00 1100..
show page 4 c00 2200..
==
0 run: string-across-pages.aliased
coyotos 1
machine 1 6 0 2 2 1
code 0 000 ecall
code 1 000 ecall
slot 0 0 page:0@12/0
slot 0 1 page:2@12/0
slot 0 2 page:3@12/0
slot 1 0 page:1@12/0
slot 1 1 page:2@12/0
slot 1 2 page:5@12/0+r
page 2 800 11
page 2 a00 22
endpoint 0 process:1 00000000 00000000 plain
process 0 0 gpt:0@16/0 schedule:3 null run
reg 0 10 00000021
reg 0 15 00001800
reg 0 16 00001000
capreg 0 1 entry:0:00000009
process 1 0 gpt:1@16/0 schedule:5 null run
reg 1 10 00000040
reg 1 20 00001a00
reg 1 21 00001000
end
step 0 2
=>
record msg 0 1 endpoint=0 payload=00000009 words=00000000,00000000,00000000,00000000 len=1536 caps=0
show reg 1 10 00000101
show reg 1 16 00000600
show page 2 800 1100..
show page 2 a00 1100..
show page 2 c00 2200..
==
0 run: long-string
coyotos 1
machine 1 19 0 6 2 1
code 0 000 ecall
code 1 000 ecall
page 2 800 11
gpt 0 16
gpt 1 16
slot 0 0 gpt:2@16/0
slot 0 1 gpt:3@16/0
slot 1 0 gpt:4@16/0
slot 1 1 gpt:5@16/0
slot 2 0 page:0@12/0
slot 4 0 page:1@12/0
slot 3 0 page:2@12/0
slot 5 0 page:3@12/0
slot 3 1 page:2@12/0
slot 5 1 page:4@12/0
slot 3 2 page:2@12/0
slot 5 2 page:5@12/0
slot 3 3 page:2@12/0
slot 5 3 page:6@12/0
slot 3 4 page:2@12/0
slot 5 4 page:7@12/0
slot 3 5 page:2@12/0
slot 5 5 page:8@12/0
slot 3 6 page:2@12/0
slot 5 6 page:9@12/0
slot 3 7 page:2@12/0
slot 5 7 page:10@12/0
slot 3 8 page:2@12/0
slot 5 8 page:11@12/0
slot 3 9 page:2@12/0
slot 5 9 page:12@12/0
slot 3 10 page:2@12/0
slot 5 10 page:13@12/0
slot 3 11 page:2@12/0
slot 5 11 page:14@12/0
slot 3 12 page:2@12/0
slot 5 12 page:15@12/0
slot 3 13 page:2@12/0
slot 5 13 page:16@12/0
slot 3 14 page:2@12/0
slot 5 14 page:17@12/0
slot 3 15 page:2@12/0
slot 5 15 page:18@12/0
endpoint 0 process:1 00000000 00000000 plain
process 0 0 gpt:0@32/0 schedule:3 null run
reg 0 10 00000021
reg 0 15 00010000
reg 0 16 00010000
capreg 0 1 entry:0:00000009
process 1 0 gpt:1@32/0 schedule:5 null run
reg 1 10 00000040
reg 1 20 00010000
reg 1 21 00010000
end
step 0 2
=>
record msg 0 1 endpoint=0 payload=00000009 words=00000000,00000000,00000000,00000000 len=65536 caps=0
show reg 1 10 00000001
show reg 1 16 00010000
show page 2 800 1100..
show page 3 800 1100..
show page 4 800 1100..
show page 5 800 1100..
show page 6 800 1100..
show page 7 800 1100..
show page 8 800 1100..
show page 9 800 1100..
show page 10 800 1100..
show page 11 800 1100..
show page 12 800 1100..
show page 13 800 1100..
show page 14 800 1100..
show page 15 800 1100..
show page 16 800 1100..
show page 17 800 1100..
show page 18 800 1100..
==
0 run: long-string-cut.over-the-limit
coyotos 1
machine 1 19 0 6 2 1
code 0 000 ecall
code 1 000 ecall
page 2 800 11
gpt 0 16
gpt 1 16
slot 0 0 gpt:2@16/0
slot 0 1 gpt:3@16/0
slot 1 0 gpt:4@16/0
slot 1 1 gpt:5@16/0
slot 2 0 page:0@12/0
slot 4 0 page:1@12/0
slot 3 0 page:2@12/0
slot 5 0 page:3@12/0
slot 3 1 page:2@12/0
slot 5 1 page:4@12/0
slot 3 2 page:2@12/0
slot 5 2 page:5@12/0
slot 3 3 page:2@12/0
slot 5 3 page:6@12/0
slot 3 4 page:2@12/0
slot 5 4 page:7@12/0
slot 3 5 page:2@12/0
slot 5 5 page:8@12/0
slot 3 6 page:2@12/0
slot 5 6 page:9@12/0
slot 3 7 page:2@12/0
slot 5 7 page:10@12/0
slot 3 8 page:2@12/0
slot 5 8 page:11@12/0
slot 3 9 page:2@12/0
slot 5 9 page:12@12/0
slot 3 10 page:2@12/0
slot 5 10 page:13@12/0
slot 3 11 page:2@12/0
slot 5 11 page:14@12/0
slot 3 12 page:2@12/0
slot 5 12 page:15@12/0
slot 3 13 page:2@12/0
slot 5 13 page:16@12/0
slot 3 14 page:2@12/0
slot 5 14 page:17@12/0
slot 3 15 page:2@12/0
slot 5 15 page:18@12/0+r
endpoint 0 process:1 00000000 00000000 plain
process 0 0 gpt:0@32/0 schedule:3 null run
reg 0 10 00000021
reg 0 15 00010000
reg 0 16 00010001
capreg 0 1 entry:0:00000009
process 1 0 gpt:1@32/0 schedule:5 null run
reg 1 10 00000040
reg 1 20 00010000
reg 1 21 00010000
end
step 0 2
=>
record fault 0 MalformedSyscall 00000000 unheard
==
0 run: long-string-cut.read-only-page
coyotos 1
machine 1 19 0 6 2 1
code 0 000 ecall
code 1 000 ecall
page 2 800 11
gpt 0 16
gpt 1 16
slot 0 0 gpt:2@16/0
slot 0 1 gpt:3@16/0
slot 1 0 gpt:4@16/0
slot 1 1 gpt:5@16/0
slot 2 0 page:0@12/0
slot 4 0 page:1@12/0
slot 3 0 page:2@12/0
slot 5 0 page:3@12/0
slot 3 1 page:2@12/0
slot 5 1 page:4@12/0
slot 3 2 page:2@12/0
slot 5 2 page:5@12/0
slot 3 3 page:2@12/0
slot 5 3 page:6@12/0
slot 3 4 page:2@12/0
slot 5 4 page:7@12/0
slot 3 5 page:2@12/0
slot 5 5 page:8@12/0
slot 3 6 page:2@12/0
slot 5 6 page:9@12/0
slot 3 7 page:2@12/0
slot 5 7 page:10@12/0
slot 3 8 page:2@12/0
slot 5 8 page:11@12/0
slot 3 9 page:2@12/0
slot 5 9 page:12@12/0
slot 3 10 page:2@12/0
slot 5 10 page:13@12/0
slot 3 11 page:2@12/0
slot 5 11 page:14@12/0
slot 3 12 page:2@12/0
slot 5 12 page:15@12/0
slot 3 13 page:2@12/0
slot 5 13 page:16@12/0
slot 3 14 page:2@12/0
slot 5 14 page:17@12/0
slot 3 15 page:2@12/0
slot 5 15 page:18@12/0+r
endpoint 0 process:1 00000000 00000000 plain
process 0 0 gpt:0@32/0 schedule:3 null run
reg 0 10 00000021
reg 0 15 00010000
reg 0 16 00010000
capreg 0 1 entry:0:00000009
process 1 0 gpt:1@32/0 schedule:5 null run
reg 1 10 00000040
reg 1 20 00010000
reg 1 21 00010000
end
step 0 2
=>
record msg 0 1 endpoint=0 payload=00000009 words=00000000,00000000,00000000,00000000 len=61440 caps=0
show reg 1 10 00000101
show reg 1 16 0000f000
none page 18
==
0 run: l2v-changed
coyotos 1
machine 1 2 0 2 2 1
code 0 000 ecall
code 1 000 ecall
gpt 0 12 ha
slot 0 1 page:0@12/0
slot 0 15 entry:0:0000abcd
slot 1 0 page:1@12/0
endpoint 0 process:1 00000077 00000000 plain
process 0 00001000 gpt:0@16/0 schedule:3 null run
capreg 0 1 gpt:0@16/0
reg 0 10 00000021
reg 0 11 0000000b
reg 0 12 00000010
reg 0 13 00000001
process 1 00000000 gpt:1@16/0 schedule:5 null run
reg 1 10 00080040
reg 1 19 00000005
end
step 0 3
=>
whole
fault 0 InvalidDataReference 00001004 to 1
state
hart 0 idle
ready 5 1
page 0 000 73000000000000000000000000000000
page 1 000 73000000000000000000000000000000
gpt 0 16 ha
slot 0 1 page:0@12/00000
slot 0 15 entry:0:0000abcd
slot 1 0 page:1@12/00000
endpoint 0 process:1 00000077 00000000 plain
process 0 00001004 gpt:0@16/00000 schedule:3 null faulted InvalidDataReference 00001004
reg 0 10 00000002
capreg 0 1 gpt:0@16/00000
process 1 00000004 gpt:1@16/00000 schedule:5 null run
reg 1 10 00010001
reg 1 11 00000001
reg 1 12 00001004
reg 1 13 00001004
reg 1 15 0000abcd
reg 1 19 00000005
reg 1 22 00000077
capreg 1 5 process:0
end
==
0 run: send-to-itself
coyotos 1
machine 1 1 0 1 1 1
code 0 000 ecall
slot 0 0 page:0@12/0
endpoint 0 process:0 00000000 00000000 plain
process 0 0 gpt:0@16/0 schedule:3 null run
reg 0 10 00000021
capreg 0 1 entry:0:00000000
end
step 0 1
=>
no-record
show hart 0 idle
show sleepers 0 0
like process 0 00000000 * run
==
0 run: alias-rewritten
coyotos 1
machine 2 4 0 3 2 0
code 0 000 ecall
code 1 000 lui x5 1
code 1 004 lw x6 0(x5)
code 1 008 lui x7 2
code 1 00c lw x8 0(x7)
code 1 010 lw x9 0(x5)
code 1 014 lw x18 0(x7)
page 2 000 22222222
page 3 000 33333333
slot 0 0 page:0@12/0
slot 1 0 page:1@12/0
slot 1 1 gpt:2@12/0
slot 1 2 gpt:2@12/0
slot 2 0 page:2@12/0
process 0 0 gpt:0@16/0 schedule:3 null run
reg 0 10 00010021
reg 0 11 00000009
reg 0 18 00000002
capreg 0 1 gpt:2@12/0
capreg 0 2 page:3@12/0
process 1 0 gpt:1@16/0 schedule:5 null run
end
step 1 4
step 0 1
step 1 2
=>
show slot 2 0 page:3@12/00000
show reg 0 10 00000002
show reg 1 6 22222222
show reg 1 8 22222222
show reg 1 9 33333333
show reg 1 18 33333333
none reg 0 11
==
0 run: unrelated-rewrites
coyotos 1
machine 1 1 0 4 1 0
code 0 000 lui x10 0x10
code 0 004 addi x10 x10 0x21
code 0 008 addi x11 x0 9
code 0 00c ecall
code 0 010 addi x5 x5 -1
code 0 014 bne x5 x0 -20
gpt 0 20
slot 0 0 gpt:1@20/0
gpt 1 16
slot 1 0 gpt:2@16/0
slot 2 0 page:0@12/0
process 0 0 gpt:0@24/0 schedule:3 null run
reg 0 5 00002710
reg 0 18 00000002
capreg 0 1 gpt:3@16/0
capreg 0 2 page:0@12/0
end
step 0 60000
=>
show slot 3 0 page:0@12/00000
show process 0 00000018 gpt:0@24/00000 schedule:3 null run
none reg 0 5
==
0 run: classify
coyotos 1
machine 1 1 0 1 1 0
code 0 000 ecall
slot 0 0 page:0@12/0
process 0 0 gpt:0@16/0 schedule:3 null run
reg 0 10 00010021
reg 0 11 00000008
reg 0 18 00000002
capreg 0 1 discrim
capreg 0 2 page:0@12/0+r
end
step 0 1
=>
show reg 0 12 00000001
show reg 0 13 00000001
==
0 run: halt
coyotos 1
machine 1 1 0 1 1 0
code 0 000 ecall
slot 0 0 page:0@12/0
process 0 0 gpt:0@16/0 schedule:3 null run
reg 0 10 00000021
reg 0 11 00000008
capreg 0 1 sysctl
end
step 0 2
=>
record halt 0
show hart 0 0
show halted
like process 0 00000004 *
show reg 0 10 00000002
none reg 0 11
==
0 run: weak-loadcap
coyotos 1
machine 1 2 1 1 1 0
code 0 000 ecall
code 0 004 addi x10 x10 16
code 0 008 addi x11 x0 6
code 0 00c ecall
slot 0 0 page:0@12/0
slot 0 2 cappage:0@12/0+w
cap 0 1 page:1@12/0
cap 0 2 process:0
process 0 0 gpt:0@16/0 schedule:3 null run
reg 0 10 00002010
reg 0 11 00000005
reg 0 17 00000001
capreg 0 6 range
end
step 0 4
=>
show capreg 0 5 page:1@12/00000+rwn
none capreg 0 6
==
0 run: count-spent
coyotos 1
machine 1 2 0 1 1 0
code 0 000 ecall
slot 0 0 page:0@12/0
page 1 000 ab
count page 1 1048575
process 0 0 gpt:0@16/0 schedule:3 null run
reg 0 10 00010021
reg 0 11 00000009
reg 0 18 00000002
capreg 0 1 range
capreg 0 2 page:1@12/0
end
step 0 1
=>
no-record
show count page 1 1048575
show page 1 000 ab00..
show reg 0 11 00000005
show capreg 0 2 page:1@12/00000
==
0 run: malformed-call
coyotos 1
machine 1 2 0 1 1 0
code 0 000 ecall
slot 0 0 page:0@12/0
page 1 000 ab
count page 1 1048575
process 0 0 gpt:0@16/0 schedule:3 null run
reg 0 10 00000000
reg 0 11 00000009
reg 0 18 00000002
capreg 0 1 range
capreg 0 2 page:1@12/0
end
step 0 1
=>
record fault 0 MalformedSyscall 00000000 unheard
==
0 run: page-destroyed-and-got-again
coyotos 1
machine 2 3 0 2 2 0
code 0 000 ecall
code 0 004 lui x10 0x80
code 0 008 addi x10 x10 0x21
code 0 00c addi x11 x0 8
code 0 010 addi x12 x0 1
code 0 014 addi x13 x0 2
code 0 018 ecall
code 0 01c lui x10 0x10
code 0 020 addi x10 x10 0x24
code 0 024 addi x11 x0 9
code 0 028 addi x12 x0 2
code 0 02c addi x18 x0 3
code 0 030 ecall
code 0 034 lui x5 2
code 0 038 lw x6 0(x5)
code 1 000 lw x6 0(x5)
code 1 004 lw x7 0(x5)
page 2 000 22222222
slot 0 0 page:0@12/0
slot 1 0 page:1@12/0
slot 1 1 page:2@12/0
process 0 0 gpt:0@16/0 schedule:3 null run
reg 0 6 ffffffff
reg 0 10 00010021
reg 0 11 00000009
reg 0 18 00000002
reg 0 19 00000003
capreg 0 1 range
capreg 0 2 page:2@12/0
capreg 0 4 gpt:0@16/0
process 1 0 gpt:1@16/0 schedule:5 null run
reg 1 5 00001000
end
step 1 1
step 0 15
step 1 1
=>
record destroy page 2
record fault 1 InvalidDataReference 00001000 unheard
show count page 2 1
show slot 0 2 page:2@12/00000
show capreg 0 3 page:2@12/00000
show reg 1 6 22222222
show hart 1 idle
none reg 0 6
none slot 1 1
none capreg 0 2
none page 2
==
0 run: receiver-destroys-itself
coyotos 1
machine 1 2 0 2 2 1
code 0 000 ecall
code 1 000 ecall
slot 0 0 page:0@12/0
slot 1 0 page:1@12/0
endpoint 0 process:0 00000000 00000000 plain
process 0 0 gpt:0@16/0 schedule:3 null run
reg 0 10 00010021
reg 0 11 00000009
reg 0 18 00000002
capreg 0 1 range
capreg 0 2 process:0
process 1 0 gpt:1@16/0 schedule:5 null run
reg 1 10 00000021
capreg 1 1 entry:0:00000007
end
step 0 3
=>
record destroy process 0
show hart 0 1
show count process 0 1
show process 1 00000004 gpt:1@16/00000 schedule:5 null run
show reg 1 10 00000002
show reg 1 11 00000001
show capreg 1 1 entry:0:00000007
none endpoint 0
none process 0
==
0 run: own-space-destroyed
coyotos 1
machine 1 1 0 1 1 0
code 0 000 ecall
slot 0 0 page:0@12/0
process 0 0 gpt:0@16/0 schedule:3 null run
reg 0 10 00010021
reg 0 11 00000009
reg 0 18 00000002
capreg 0 1 range
capreg 0 2 gpt:0@16/0
end
step 0 2
=>
record destroy gpt 0
record fault 0 InvalidDataReference 00000004 unheard
show count gpt 0 1
show process 0 00000004 null schedule:3 null faulted InvalidDataReference 00000004
show reg 0 10 00000002
none reg 0 11
none slot 0 0
none capreg 0 2
==
0 run: own-code-destroyed
coyotos 1
machine 1 1 0 1 1 0
code 0 000 ecall
slot 0 0 page:0@12/0
process 0 0 gpt:0@16/0 schedule:3 null run
reg 0 10 00010021
reg 0 11 00000009
reg 0 18 00000002
capreg 0 1 range
capreg 0 2 page:0@12/0
end
step 0 2
=>
record destroy page 0
record fault 0 InvalidDataReference 00000004 unheard
show count page 0 1
none page 0
none slot 0 0
==
0 run: pools-filled
coyotos 1
machine 1 1 0 3 1 0
code 0 000 lw x6 0(x5)
code 0 004 add x5 x5 x7
code 0 008 addi x8 x8 -1
code 0 00c bne x8 x0 -12
gpt 0 28
gpt 1 24
gpt 2 20
slot 0 0 gpt:1@28/0
slot 1 0 gpt:2@24/0
slot 2 0 page:0@20/0
slot 0 1 gpt:1@28/0
slot 1 1 gpt:2@24/0
slot 2 1 page:0@20/0
slot 0 2 gpt:1@28/0
slot 1 2 gpt:2@24/0
slot 2 2 page:0@20/0
slot 0 3 gpt:1@28/0
slot 1 3 gpt:2@24/0
slot 2 3 page:0@20/0
slot 0 4 gpt:1@28/0
slot 1 4 gpt:2@24/0
slot 2 4 page:0@20/0
slot 0 5 gpt:1@28/0
slot 1 5 gpt:2@24/0
slot 2 5 page:0@20/0
slot 0 6 gpt:1@28/0
slot 1 6 gpt:2@24/0
slot 2 6 page:0@20/0
slot 0 7 gpt:1@28/0
slot 1 7 gpt:2@24/0
slot 2 7 page:0@20/0
slot 0 8 gpt:1@28/0
slot 1 8 gpt:2@24/0
slot 2 8 page:0@20/0
slot 0 9 gpt:1@28/0
slot 1 9 gpt:2@24/0
slot 2 9 page:0@20/0
slot 0 10 gpt:1@28/0
slot 1 10 gpt:2@24/0
slot 2 10 page:0@20/0
slot 0 11 gpt:1@28/0
slot 1 11 gpt:2@24/0
slot 2 11 page:0@20/0
slot 0 12 gpt:1@28/0
slot 1 12 gpt:2@24/0
slot 2 12 page:0@20/0
slot 0 13 gpt:1@28/0
slot 1 13 gpt:2@24/0
slot 2 13 page:0@20/0
slot 0 14 gpt:1@28/0
slot 1 14 gpt:2@24/0
slot 2 14 page:0@20/0
slot 0 15 gpt:1@28/0
slot 1 15 gpt:2@24/0
slot 2 15 page:0@20/0
process 0 0 gpt:0@32/0 schedule:3 null run
reg 0 7 00400000
reg 0 8 00000400
end
step 0 4096
=>
like process 0 00000010 *
show reg 0 6 0002a303
none reg 0 5
none reg 0 8
==
0 tables: tables-and-check.tables
coyotos 1
machine 1 2 0 1 1 0
page 0 000 93005000371100002320110083210100
gpt 0 12
slot 0 0 page:0@12/0+r
slot 0 1 page:1@12/0
process 0 00000000 gpt:0@16/0 schedule:3 null run
end
step 0 4
=>
whole
state
hart 0 0
page 0 000 93005000371100002320110083210100
page 1 000 05000000000000000000000000000000
slot 0 0 page:0@12/00000+r
slot 0 1 page:1@12/00000
process 0 00000010 gpt:0@16/00000 schedule:3 null run
reg 0 1 00000005
reg 0 2 00001000
reg 0 3 00000005
end
map gpt:0@16/00000 00000000 page 0 rx
map gpt:0@16/00000 00001000 page 1 rwx
==
0 tables: tables-after-rewrites
coyotos 1
machine 1 1 0 4 1 0
code 0 000 lui x10 0x10
code 0 004 addi x10 x10 0x21
code 0 008 addi x11 x0 9
code 0 00c ecall
code 0 010 addi x5 x5 -1
code 0 014 bne x5 x0 -20
gpt 0 20
slot 0 0 gpt:1@20/0
gpt 1 16
slot 1 0 gpt:2@16/0
slot 2 0 page:0@12/0
process 0 0 gpt:0@24/0 schedule:3 null run
reg 0 5 00002710
reg 0 18 00000002
capreg 0 1 gpt:3@16/0
capreg 0 2 page:0@12/0
end
step 0 60000
=>
map gpt:0@24/00000 00000000 page 0 rwx
show slot 3 0 page:0@12/00000
show process 0 00000018 gpt:0@24/00000 schedule:3 null run
none reg 0 5
==
0 tables: tables-of-an-alias
coyotos 1
machine 2 4 0 3 2 0
code 0 000 ecall
code 1 000 lui x5 1
code 1 004 lw x6 0(x5)
code 1 008 lui x7 2
code 1 00c lw x8 0(x7)
code 1 010 lw x9 0(x5)
code 1 014 lw x18 0(x7)
page 2 000 22222222
page 3 000 33333333
slot 0 0 page:0@12/0
slot 1 0 page:1@12/0
slot 1 1 gpt:2@12/0
slot 1 2 gpt:2@12/0
slot 2 0 page:2@12/0
process 0 0 gpt:0@16/0 schedule:3 null run
reg 0 10 00010021
reg 0 11 00000009
reg 0 18 00000002
capreg 0 1 gpt:2@12/0
capreg 0 2 page:3@12/0
process 1 0 gpt:1@16/0 schedule:5 null run
end
step 1 4
step 0 1
step 1 2
=>
map gpt:0@16/00000 00000000 page 0 rwx
map gpt:1@16/00000 00000000 page 1 rwx
map gpt:1@16/00000 00001000 page 3 rwx
map gpt:1@16/00000 00002000 page 3 rwx
show slot 2 0 page:3@12/00000
show reg 0 10 00000002
show reg 1 6 22222222
show reg 1 8 22222222
show reg 1 9 33333333
show reg 1 18 33333333
none reg 0 11
==
0 run: A yield puts the process behind the other of its priority
coyotos 1
machine 1 1 0 1 2 0
code 0 000 addi x17 x0 4
code 0 004 ecall
code 0 008 addi x1 x0 7
slot 0 0 page:0@12/0
process 0 0 gpt:0@16/0 schedule:3 null run
process 1 8 gpt:0@16/0 schedule:3 null run
end
step 0 3
=>
whole
state
hart 0 1
ready 3 0
page 0 000 93084000730000009300700000000000
slot 0 0 page:0@12/00000
process 0 00000008 gpt:0@16/00000 schedule:3 null run
reg 0 17 00000004
process 1 0000000c gpt:0@16/00000 schedule:3 null run
reg 1 1 00000007
end
==
0 run: copycap gives the capability to the other register
coyotos 1
machine 1 1 0 1 1 0
code 0 000 ecall
slot 0 0 page:0@12/0
process 0 0 gpt:0@16/0 schedule:3 null run
reg 0 10 1
reg 0 11 1f
reg 0 17 3
capreg 0 1 range
end
step 0 1
=>
whole
state
hart 0 0
page 0 000 73000000000000000000000000000000
slot 0 0 page:0@12/00000
process 0 00000004 gpt:0@16/00000 schedule:3 null run
reg 0 10 00000001
reg 0 11 0000001f
reg 0 17 00000003
capreg 0 1 range
capreg 0 31 range
end
==
0 run: what goes to c0 is dropped
coyotos 1
machine 1 1 0 1 1 0
code 0 000 ecall
slot 0 0 page:0@12/0
process 0 0 gpt:0@16/0 schedule:3 null run
reg 0 10 1
reg 0 11 0
reg 0 17 3
capreg 0 1 range
end
step 0 1
=>
whole
state
hart 0 0
page 0 000 73000000000000000000000000000000
slot 0 0 page:0@12/00000
process 0 00000004 gpt:0@16/00000 schedule:3 null run
reg 0 10 00000001
reg 0 17 00000003
capreg 0 1 range
end
==
0 run: there is no register 32
coyotos 1
machine 1 1 0 1 1 0
code 0 000 ecall
slot 0 0 page:0@12/0
process 0 0 gpt:0@16/0 schedule:3 null run
reg 0 10 1
reg 0 11 20
reg 0 17 3
capreg 0 1 range
end
step 0 1
=>
whole
fault 0 MalformedSyscall 00000000 unheard
state
hart 0 idle
page 0 000 73000000000000000000000000000000
slot 0 0 page:0@12/00000
process 0 00000000 gpt:0@16/00000 schedule:3 null faulted MalformedSyscall 00000000
reg 0 10 00000001
reg 0 11 00000020
reg 0 17 00000003
capreg 0 1 range
end
==
0 trace: a break faults at its own address
coyotos 1
machine 1 1 0 1 1 0
code 0 000 ebreak
slot 0 0 page:0@12/0
process 0 0 gpt:0@16/0 schedule:3 null run
end
step 0 1
=>
whole
fetch 0 00000000 page 0
insn 0 00000000 ebreak
fault 0 Breakpoint 00000000 unheard
state
hart 0 idle
page 0 000 73001000000000000000000000000000
slot 0 0 page:0@12/00000
process 0 00000000 gpt:0@16/00000 schedule:3 null faulted Breakpoint 00000000
end
==
0 trace: a word outside the forty is fetched and is no instruction
coyotos 1
machine 1 1 0 1 1 0
slot 0 0 page:0@12/0
process 0 0 gpt:0@16/0 schedule:3 null run
end
step 0 1
=>
whole
fetch 0 00000000 page 0
fault 0 BadOpcode 00000000 unheard
state
hart 0 idle
slot 0 0 page:0@12/00000
process 0 00000000 gpt:0@16/00000 schedule:3 null faulted BadOpcode 00000000
end
==
0 trace: a load that is not aligned makes no access
coyotos 1
machine 1 1 0 1 1 0
code 0 000 lw x1 2(x0)
slot 0 0 page:0@12/0
process 0 0 gpt:0@16/0 schedule:3 null run
end
step 0 1
=>
whole
fetch 0 00000000 page 0
insn 0 00000000 lw x1 2(x0)
fault 0 BadAlign 00000002 unheard
state
hart 0 idle
page 0 000 83202000000000000000000000000000
slot 0 0 page:0@12/00000
process 0 00000000 gpt:0@16/00000 schedule:3 null faulted BadAlign 00000002
end
==
0 trace: nor does a store
coyotos 1
machine 1 1 0 1 1 0
code 0 000 sh x0 1(x0)
slot 0 0 page:0@12/0
process 0 0 gpt:0@16/0 schedule:3 null run
end
step 0 1
=>
whole
fetch 0 00000000 page 0
insn 0 00000000 sh x0 1(x0)
fault 0 BadAlign 00000001 unheard
state
hart 0 idle
page 0 000 a3100000000000000000000000000000
slot 0 0 page:0@12/00000
process 0 00000000 gpt:0@16/00000 schedule:3 null faulted BadAlign 00000001
end
==
0 run: behind the last word of all addresses comes the first
coyotos 1
machine 1 1 0 0 1 0
code 0 ffc addi x1 x0 1
process 0 fffffffc page:0@12/fffff schedule:3 null run
end
step 0 2
=>
whole
fault 0 InvalidDataReference 00000000 unheard
state
hart 0 idle
page 0 ff0 00000000000000000000000093001000
process 0 00000000 page:0@12/fffff schedule:3 null faulted InvalidDataReference 00000000
reg 0 1 00000001
end
==
0 trace: a round gives each hart one step, from hart 0 upwards
coyotos 1
machine 2 1 0 1 3 0
code 0 000 addi x1 x1 1
code 0 004 jal x0 -4
slot 0 0 page:0@12/0
process 0 0 gpt:0@16/0 schedule:3 null run
process 1 0 gpt:0@16/0 schedule:3 null run
process 2 0 gpt:0@16/0 schedule:3 null run
end
round 2
tick 1
step 1 1
=>
whole
fetch 0 00000000 page 0
insn 0 00000000 addi x1 x1 1
fetch 1 00000000 page 0
insn 1 00000000 addi x1 x1 1
fetch 0 00000004 page 0
insn 0 00000004 jal x0 -4
fetch 1 00000004 page 0
insn 1 00000004 jal x0 -4
fetch 2 00000000 page 0
insn 2 00000000 addi x1 x1 1
state
hart 0 0
hart 1 2
ready 3 1
page 0 000 938010006ff0dfff0000000000000000
slot 0 0 page:0@12/00000
process 0 00000000 gpt:0@16/00000 schedule:3 null run
reg 0 1 00000001
process 1 00000000 gpt:0@16/00000 schedule:3 null run
reg 1 1 00000001
process 2 00000004 gpt:0@16/00000 schedule:3 null run
reg 2 1 00000001
end
==
0 run: a machine keeps its priorities: the highest queue comes first
coyotos 1
machine 2 1 0 1 2 0
code 0 000 addi x1 x1 1
slot 0 0 page:0@12/0
process 0 0 gpt:0@16/0 schedule:3 null run
process 1 0 gpt:0@16/0 schedule:5 null run
end
step 1 1
=>
whole
state
hart 0 idle
hart 1 1
ready 3 0
page 0 000 93801000000000000000000000000000
slot 0 0 page:0@12/00000
process 0 00000000 gpt:0@16/00000 schedule:3 null run
process 1 00000004 gpt:0@16/00000 schedule:5 null run
reg 1 1 00000001
end
==
0 run: a program in C
# Made by make-listing from primes.c.
coyotos 1
machine 1 3 0 1 1 0
# The code, 64 bytes a line.
page 0 000 37010100ef00800073001000b78f000003a50f0037880000130e4000130f05009306000013062000130848009308703e130310009\
30e803e6f00000113061600
page 0 040 130e2e006300d60793573600b307f80083c7070013777600b3d7e74093f71700e39e07fc130f1f0063e6c80313070e0093563700b\
306d80083c5060093777700
page 0 080 b317f300b3e7b7002380f6003307c700e3f0e8fe1306160093061000130e2e00e314d6fb6386060023a0ef0113050f0067800000
# Sixteen slots of one page: code that may not be written, data and stack that may not be executed.
gpt 0 12
slot 0 0 page:0@12/0+r
slot 0 8 page:1@12/0+x
slot 0 15 page:2@12/0+x
process 0 00000000 gpt:0@16/0 schedule:3 null run
end
step 0 60000
=>
whole
fault 0 Breakpoint 00000008 unheard
state
hart 0 idle
page 0 000 37010100ef00800073001000b78f0000
page 0 010 03a50f0037880000130e4000130f0500
page 0 020 9306000013062000130848009308703e
page 0 030 13031000930e803e6f00000113061600
page 0 040 130e2e006300d60793573600b307f800
page 0 050 83c7070013777600b3d7e74093f71700
page 0 060 e39e07fc130f1f0063e6c80313070e00
page 0 070 93563700b306d80083c5060093777700
page 0 080 b317f300b3e7b7002380f6003307c700
page 0 090 e3f0e8fe1306160093061000130e2e00
page 0 0a0 e314d6fb6386060023a0ef0113050f00
page 0 0b0 67800000000000000000000000000000
page 1 000 a800000050d7755fdf75dfd7777df7fd
page 1 010 5dd7fd7ff7f55fdf77dfd77f5dfff77f
page 1 020 d77dfdf77d5fdff5dfff77ddfff7fdd7
page 1 030 7d7fdf77dfdffdfdd77f7df7fd5df77f
page 1 040 7ff777dffff5ffdff7dff7f5fdf77d7d
page 1 050 dff57fff75dfd7ffddf7f7dfdf7f7fdf
page 1 060 777fdffdddfff7dffff55fd77fffdf75
page 1 070 ffdf75ffff777ffffdddf7fd7ff77d7f
page 1 080 df000000000000000000000000000000
slot 0 0 page:0@12/00000+r
slot 0 8 page:1@12/00000+x
slot 0 15 page:2@12/00000+x
process 0 00000008 gpt:0@16/00000 schedule:3 null faulted Breakpoint 00000008
reg 0 1 00000008
reg 0 2 00010000
reg 0 6 00000001
reg 0 10 000000a8
reg 0 11 000000df
reg 0 12 000003e8
reg 0 13 00000001
reg 0 14 00000007
reg 0 15 00000001
reg 0 16 00008004
reg 0 17 000003e7
reg 0 28 000007d0
reg 0 29 000003e8
reg 0 30 000000a8
reg 0 31 00008000
end
";
