//! Rows of the words `run`, `check`, `trace`, `walk` and `make`, and of words that are none.

/// The rows, whose expected outputs are worked out by hand.
pub(crate) const WORD_ROWS: &str = "\
0 run
coyotos 1
machine 1 2 0 1 1 0
page 0 000 93005000371100002320110083210100
gpt 0 12
slot 0 0 page:0@12/0+r
slot 0 1 page:1@12/0
process 0 00000000 gpt:0@16/0 schedule:3 null run
end
=>
state
hart 0 idle
ready 3 0
page 0 000 93005000371100002320110083210100
slot 0 0 page:0@12/00000+r
slot 0 1 page:1@12/00000
process 0 00000000 gpt:0@16/00000 schedule:3 null run
end
==
1 run -x
=>
usage: coyotos check | run | trace | tables | walk P KIND ADDR | make N [summary] | pack | unpack | migrate | confine \
| share | back N
==
2 run
=>
refused 1 BadHeader
==
0 run
coyotos 1
machine 1 2 0 1 1 0
page 0 000 93005000371100002320110083210100
gpt 0 12
slot 0 0 page:0@12/0+r
slot 0 1 page:1@12/0
process 0 00000000 gpt:0@16/0 schedule:3 null run
end
step 0 4
=>
state
hart 0 0
page 0 000 93005000371100002320110083210100
page 1 000 05000000000000000000000000000000
slot 0 0 page:0@12/00000+r
slot 0 1 page:1@12/00000
process 0 00000010 gpt:0@16/00000 schedule:3 null run
reg 0 1 00000005
reg 0 2 00001000
reg 0 3 00000005
end
==
0 run: the text that `migrate` makes of that runs as it does
coyotos 2
machine 1 2 0 1 1 0
page 0 000 93005000371100002320110083210100
gpt 0 12
slot 0 0 page:0@12/00000+r
slot 0 1 page:1@12/00000
process 0 00000000 gpt:0@16/00000 schedule:3 null run
end
step 0 4
=>
state
hart 0 0
page 0 000 93005000371100002320110083210100
page 1 000 05000000000000000000000000000000
slot 0 0 page:0@12/00000+r
slot 0 1 page:1@12/00000
process 0 00000010 gpt:0@16/00000 schedule:3 null run
reg 0 1 00000005
reg 0 2 00001000
reg 0 3 00000005
end
==
0 run
coyotos 1
machine 1 2 0 1 1 0
page 0 000 93005000371100002320110083210100
gpt 0 12
slot 0 0 page:0@12/fffff+r
slot 0 1 page:1@12/0
process 0 00000000 gpt:0@16/0 schedule:3 null run
end
step 0 4
=>
fault 0 InvalidDataReference 00000000 unheard
state
hart 0 idle
page 0 000 93005000371100002320110083210100
slot 0 0 page:0@12/fffff+r
slot 0 1 page:1@12/00000
process 0 00000000 gpt:0@16/00000 schedule:3 null faulted InvalidDataReference 00000000
end
==
2 run
coyotos 1
machine 1 2 0 1 1 0
page 0 000 93005000371100002320110083210100
gpt 0 12
slot 0 0 page:0@11/0+r
slot 0 1 page:1@12/0
process 0 00000000 gpt:0@16/0 schedule:3 null run
end
step 0 4
=>
refused 5 BadGuard
==
2 run
coyotos 1
machine 1 2 0 1 1 0
page 0 000 93005000371100002320110083210100
gpt 0 12
slot 0 0 page:0@12/100000+r
slot 0 1 page:1@12/0
process 0 00000000 gpt:0@16/0 schedule:3 null run
end
step 0 4
=>
refused 5 BadGuard
==
0 check
coyotos 1
machine 1 2 0 1 1 0
page 0 000 93005000371100002320110083210100
gpt 0 12
slot 0 0 page:0@12/0+r
slot 0 1 page:1@12/0
process 0 00000000 gpt:0@16/0 schedule:3 null run
end
step 0 4
=>
ok events=4
==
0 walk 0 capload 0
coyotos 1
machine 1 1 1 1 1 0
slot 0 0 page:0@12/0+r
slot 0 1 page:0@12/0+x
slot 0 2 cappage:0@12/0
process 0 0 gpt:0@16/0 schedule:3 null run
end
=>
fault CapAccessTypeError none
==
0 walk 0 capload 2010
coyotos 1
machine 1 1 1 1 1 0
slot 0 0 page:0@12/0+r
slot 0 1 page:0@12/0+x
slot 0 2 cappage:0@12/0
process 0 0 gpt:0@16/0 schedule:3 null run
end
=>
reach cappage 0 010 -
==
0 walk 0 fetch 1000
coyotos 1
machine 1 1 1 1 1 0
slot 0 0 page:0@12/0+r
slot 0 1 page:0@12/0+x
slot 0 2 cappage:0@12/0
process 0 0 gpt:0@16/0 schedule:3 null run
end
=>
fault AccessViolation none
==
0 walk 0 load 2000
coyotos 1
machine 1 1 1 1 1 0
slot 0 0 page:0@12/0+r
slot 0 1 page:0@12/0+x
slot 0 2 cappage:0@12/0
process 0 0 gpt:0@16/0 schedule:3 null run
end
=>
fault DataAccessTypeError none
==
0 walk 0 load 1000
coyotos 1
machine 1 1 1 1 1 0
slot 0 0 page:0@12/0+r
slot 0 1 page:0@12/0+x
slot 0 2 cappage:0@12/0
process 0 0 gpt:0@16/0+r schedule:3 null run
end
=>
reach page 0 000 rx
==
0 walk 0 store 0
coyotos 1
machine 1 1 1 1 1 0
slot 0 0 page:0@12/0+r
slot 0 1 page:0@12/0+x
slot 0 2 cappage:0@12/0
process 0 0 gpt:0@16/0 schedule:3 null run
end
=>
fault AccessViolation none
==
0 walk 0 store 1000
coyotos 1
machine 1 1 1 1 1 0
slot 0 0 page:0@12/0+r
slot 0 1 page:0@12/0+x
slot 0 2 cappage:0@12/0
process 0 0 gpt:0@16/0+r schedule:3 null run
end
=>
fault AccessViolation none
==
0 walk 1 load 0
coyotos 1
machine 1 1 0 1 1 0
slot 0 0 gpt:0@12/0
process 0 0 gpt:0@16/0 schedule:3 null run
end
=>
no process
==
0 walk 0 load 0
coyotos 1
machine 1 1 0 1 1 0
slot 0 0 gpt:0@12/0
process 0 0 gpt:0@16/0 schedule:3 null run
end
=>
fault MalformedSpace none
==
0 walk 0 load 00000ffc
coyotos 1
machine 1 2 0 1 1 0
page 0 000 93005000371100002320110083210100
gpt 0 28
slot 0 0 page:0@12/0+r
slot 0 1 page:1@12/0
process 0 00000000 gpt:0@32/0 schedule:3 null run
end
=>
reach page 0 ffc r
==
0 walk 0 load ffffffff
coyotos 1
machine 1 2 0 1 1 0
page 0 000 93005000371100002320110083210100
gpt 0 28
slot 0 0 page:0@12/0+r
slot 0 1 page:1@12/0
process 0 00000000 gpt:0@32/0 schedule:3 null run
end
=>
fault InvalidDataReference none
==
0 run
coyotos 1
machine 1 1 0 1 1 0
code 0 000 jal x1 2
slot 0 0 page:0@12/0
process 0 0 gpt:0@16/0 schedule:3 null run
end
step 0 1
=>
fault 0 BadAlign 00000002 unheard
state
hart 0 idle
page 0 000 ef002000000000000000000000000000
slot 0 0 page:0@12/00000
process 0 00000000 gpt:0@16/00000 schedule:3 null faulted BadAlign 00000002
end
==
0 trace
coyotos 1
machine 1 2 0 1 1 0
page 0 000 93005000371100002320110083210100
gpt 0 12
slot 0 0 page:0@12/0+r
slot 0 1 page:1@12/0
process 0 00000000 gpt:0@16/0 schedule:3 null run
end
step 0 4
=>
fetch 0 00000000 page 0
insn 0 00000000 addi x1 x0 5
fetch 0 00000004 page 0
insn 0 00000004 lui x2 1
fetch 0 00000008 page 0
insn 0 00000008 sw x1 0(x2)
store 0 00001000 page 1
fetch 0 0000000c page 0
insn 0 0000000c lw x3 0(x2)
load 0 00001000 page 1
state
hart 0 0
page 0 000 93005000371100002320110083210100
page 1 000 05000000000000000000000000000000
slot 0 0 page:0@12/00000+r
slot 0 1 page:1@12/00000
process 0 00000010 gpt:0@16/00000 schedule:3 null run
reg 0 1 00000005
reg 0 2 00001000
reg 0 3 00000005
end
==
0 walk 0 load e0000
coyotos 1
machine 1 4 0 3 1 0
gpt 0 16 bg
slot 0 1 gpt:1@16/0
slot 0 14 gpt:2@20/0
slot 1 2 window:00005000@12/0
slot 2 5 page:3@12/0
process 0 0 gpt:0@32/0 schedule:3 null run
end
=>
fault InvalidDataReference none
==
0 walk 0 load 12034
coyotos 1
machine 1 4 0 3 1 0
gpt 0 16 bg
slot 0 1 gpt:1@16/0
slot 0 14 gpt:2@20/0
slot 1 2 window:00005000@12/0
slot 2 5 page:3@12/0
process 0 0 gpt:0@32/0 schedule:3 null run
end
=>
reach page 3 034 -
==
0 walk 0 load e0000
coyotos 1
machine 1 4 0 3 1 0
gpt 0 16 ha bg
slot 0 1 gpt:1@16/0
slot 0 14 gpt:2@20/0
slot 0 15 range
slot 1 2 window:00005000@12/0
slot 2 5 page:3@12/0
process 0 0 gpt:0@32/0+n schedule:3 null run
end
=>
fault InvalidDataReference none
==
0 walk 0 load e0000
coyotos 1
machine 1 4 0 3 1 0
gpt 0 16 ha bg
slot 0 1 gpt:1@16/0
slot 0 14 gpt:2@20/0
slot 0 15 range
slot 1 2 window:00005000@12/0
slot 2 5 page:3@12/0
process 0 0 gpt:0@32/0 schedule:3 null run
end
=>
fault InvalidDataReference range
==
0 walk 0 load 3000
coyotos 1
machine 1 1 1 1 1 0
slot 0 0 page:0@12/0+r
slot 0 1 page:0@12/0+x
slot 0 2 cappage:0@12/0
slot 0 3 local:3:00000000@12/0
process 0 0 gpt:0@16/0 schedule:3 null run
end
=>
fault MalformedSpace none
==
0 run
coyotos 1
machine 1 1 0 1 2 0
code 0 000 addi x1 x1 1
code 0 004 jal x0 -4
slot 0 0 page:0@12/0
process 0 0 gpt:0@16/0 schedule:3 null run
process 1 0 gpt:0@16/0 null null run
end
step 0 2
tick 0
step 0 3
=>
state
hart 0 0
page 0 000 938010006ff0dfff0000000000000000
slot 0 0 page:0@12/00000
process 0 00000004 gpt:0@16/00000 schedule:3 null run
reg 0 1 00000003
process 1 00000000 gpt:0@16/00000 null null faulted NoSchedule 00000000
end
==
0 run
coyotos 1
machine 1 1 0 1 2 0
code 0 000 addi x1 x1 1
code 0 004 jal x0 -4
slot 0 0 page:0@12/0
process 0 0 gpt:0@16/0 schedule:3 null run
process 1 0 gpt:0@16/0 schedule:3 null run
end
step 0 2
tick 0
step 0 3
=>
state
hart 0 1
ready 3 0
page 0 000 938010006ff0dfff0000000000000000
slot 0 0 page:0@12/00000
process 0 00000000 gpt:0@16/00000 schedule:3 null run
reg 0 1 00000001
process 1 00000004 gpt:0@16/00000 schedule:3 null run
reg 1 1 00000002
end
==
3 trace
coyotos 1
machine 1 2 0 1 1 0
page 0 000 93005000371100002320110083210100
gpt 0 12
slot 0 0 page:0@12/0+r
slot 0 1 page:1@12/0
process 0 00000000 gpt:0@16/0 schedule:3 null run
end
step 0 1
step 0 1
tick 9
=>
fetch 0 00000000 page 0
insn 0 00000000 addi x1 x0 5
fetch 0 00000004 page 0
insn 0 00000004 lui x2 1
refused 11 NoHart
==
0 --help
=>
usage: coyotos check | run | trace | tables | walk P KIND ADDR | make N [summary] | pack | unpack | migrate | confine \
| share | back N
==
0 make 0
a source that is not read
=>
coyotos 1
machine 1 2 0 2 2 2
code 0 000 lui x10 0x10
code 0 004 addi x10 x10 0x61
code 0 008 addi x11 x5 0
code 0 00c ecall
code 0 010 add x6 x6 x11
code 0 014 addi x5 x5 -1
code 0 018 bne x5 x0 -24
code 0 01c addi x10 x0 64
code 0 020 ecall
code 1 000 lui x10 0x80
code 1 004 addi x10 x10 0x40
code 1 008 ecall
code 1 00c add x11 x11 x11
code 1 010 addi x9 x9 1
code 1 014 lui x10 0x80
code 1 018 addi x10 x10 0x65
code 1 01c jal x0 -20
slot 0 0 page:0@12/0
slot 1 0 page:1@12/0
endpoint 0 process:1 00000000 00000000 plain
endpoint 1 process:0 00000000 00000000 plain
process 0 0 gpt:0@16/0 schedule:3 null run
process 1 0 gpt:1@16/0 schedule:3 null run
reg 0 5 00000001
reg 0 18 00000002
capreg 0 1 entry:0:00000000
capreg 0 2 entry:1:00000000
reg 1 19 00000005
end
round 33
==
1 tr
=>
usage: coyotos check | run | trace | tables | walk P KIND ADDR | make N [summary] | pack | unpack | migrate | confine \
| share | back N
==
1 help
=>
usage: coyotos check | run | trace | tables | walk P KIND ADDR | make N [summary] | pack | unpack | migrate | confine \
| share | back N
==
1 --help run
=>
usage: coyotos check | run | trace | tables | walk P KIND ADDR | make N [summary] | pack | unpack | migrate | confine \
| share | back N
==
1 make -- 7
=>
usage: coyotos check | run | trace | tables | walk P KIND ADDR | make N [summary] | pack | unpack | migrate | confine \
| share | back N
==
1 make 7 verbose
=>
usage: coyotos check | run | trace | tables | walk P KIND ADDR | make N [summary] | pack | unpack | migrate | confine \
| share | back N
==
1 make 4294967296
=>
usage: coyotos check | run | trace | tables | walk P KIND ADDR | make N [summary] | pack | unpack | migrate | confine \
| share | back N
==
1 walk 0 load 0 0
=>
usage: coyotos check | run | trace | tables | walk P KIND ADDR | make N [summary] | pack | unpack | migrate | confine \
| share | back N
==
1 walk 256 load 0
=>
usage: coyotos check | run | trace | tables | walk P KIND ADDR | make N [summary] | pack | unpack | migrate | confine \
| share | back N
==
0 make 0 summary
a source that is not read
=>
summary events=33 messages=2 faults=0 logs=0 destroys=0
==
0 make 64 summary
=>
summary events=92 messages=8 faults=0 logs=0 destroys=0
==
2 run
coyotos 2
machine 1 1 0 1 1 0
name code page 0
region 0 0 1 $data r
end
=>
refused 4 NameUnknown
";
