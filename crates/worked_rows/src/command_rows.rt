//! Rows of the words `confine`, `migrate`, `back`, `share`, `pack` and `unpack`.

/// The rows, whose expected outputs are worked out by hand. `back` gives the state before the events that are undone,
/// which are no more than there were, and no more than 256. `share` counts a frame for each space and for each leaf
/// table: two spaces that reach a GPT behind a guard of 28 have one leaf table; where no guard is wide, each has its
/// own. A schedule that is refused has no line of frames. Of images, the first has one region.
pub(crate) const COMMAND_ROWS: &str = "\
0 confine
coyotos 1
machine 2 4 0 3 2 0
code 0 000 ecall
code 1 000 lui x5 1
code 1 004 lw x6 0(x5)
code 1 008 lui x7 2
code 1 00c lw x8 0(x7)
code 1 010 lw x9 0(x5)
code 1 014 lw x18 0(x7)
page 2 000 22222222
page 3 000 33333333
slot 0 0 page:0@12/0
slot 1 0 page:1@12/0
slot 1 1 gpt:2@12/0
slot 1 2 gpt:2@12/0
slot 2 0 page:2@12/0
process 0 0 gpt:0@16/0 schedule:3 null run
reg 0 10 00010021
reg 0 11 00000009
reg 0 18 00000002
capreg 0 1 gpt:2@12/0
capreg 0 2 page:3@12/0
process 1 0 gpt:1@16/0 schedule:5 null run
end
left process 0
left gpt 0
left page 0
=>
breach process 0 4 gpt:2@12/00000
==
0 confine
coyotos 1
machine 2 4 0 3 2 0
code 0 000 ecall
code 1 000 lui x5 1
code 1 004 lw x6 0(x5)
code 1 008 lui x7 2
code 1 00c lw x8 0(x7)
code 1 010 lw x9 0(x5)
code 1 014 lw x18 0(x7)
page 2 000 22222222
page 3 000 33333333
slot 0 0 page:0@12/0
slot 1 0 page:1@12/0
slot 1 1 gpt:2@12/0
slot 1 2 gpt:2@12/0
slot 2 0 page:2@12/0
process 0 0 gpt:0@16/0 schedule:3 null run
reg 0 10 00010021
reg 0 11 00000009
reg 0 18 00000002
capreg 0 1 gpt:2@12/0+rwn
capreg 0 2 page:3@12/0+r
process 1 0 gpt:1@16/0 schedule:5 null run
end
left process 0
left gpt 0
left page 0
=>
confined left=3 right=6
==
0 confine
coyotos 1
machine 1 2 0 2 2 1
code 0 000 ecall
code 1 000 ecall
slot 0 0 page:0@12/0
slot 1 0 page:1@12/0
endpoint 0 process:0 00000000 00000000 plain
process 0 0 gpt:0@16/0 schedule:3 null run
reg 0 10 00010021
reg 0 11 00000009
reg 0 18 00000002
capreg 0 1 range
capreg 0 2 process:0
process 1 0 gpt:1@16/0 schedule:5 null run
reg 1 10 00000021
capreg 1 1 entry:0:00000007
end
=>
breach process 0 4 range
==
9 confine
coyotos 1
machine 2 4 0 3 2 0
code 0 000 ecall
code 1 000 lui x5 1
code 1 004 lw x6 0(x5)
code 1 008 lui x7 2
code 1 00c lw x8 0(x7)
code 1 010 lw x9 0(x5)
code 1 014 lw x18 0(x7)
page 2 000 22222222
page 3 000 33333333
slot 0 0 page:0@12/0
slot 1 0 page:1@12/0
slot 1 1 gpt:2@12/0
slot 1 2 gpt:2@12/0
slot 2 0 page:2@12/0
process 0 0 gpt:0@16/0 schedule:3 null run
reg 0 10 00010021
reg 0 11 00000009
reg 0 18 00000002
capreg 0 1 gpt:2@12/0
capreg 0 2 page:3@12/0
process 1 0 gpt:1@16/0 schedule:5 null run
end
left gpt 2 0
=>
refused 25 BadOrder
==
0 migrate
coyotos 1
machine 1 2 0 1 1 0
page 0 000 93005000371100002320110083210100
gpt 0 12
slot 0 0 page:0@12/0+r
slot 0 1 page:1@12/0
process 0 00000000 gpt:0@16/0 schedule:3 null run
end
step 0 4
=>
coyotos 2
machine 1 2 0 1 1 0
page 0 000 93005000371100002320110083210100
gpt 0 12
slot 0 0 page:0@12/00000+r
slot 0 1 page:1@12/00000
process 0 00000000 gpt:0@16/00000 schedule:3 null run
end
step 0 4
==
0 confine
coyotos 1
machine 1 1 0 1 1 0
end
left gpt 0
# a note

left gpt 0 0
=>
confined left=1 right=2
==
9 confine
coyotos 1
machine 1 1 0 1 1 0
end
right gpt 0
=>
refused 4 UnknownCut
==
9 confine
coyotos 1
machine 1 1 0 1 1 0
end
left gpt
=>
refused 4 WrongWords
==
9 confine
coyotos 1
machine 1 1 0 1 1 0
end
left thing 0
=>
refused 4 BadValue
==
9 confine
coyotos 1
machine 1 1 0 1 1 0
end
left gpt 0
left gpt x
=>
refused 5 BadNumber
==
9 confine
coyotos 1
machine 1 1 0 1 1 0
end
left cappage 0
=>
refused 4 NoObject
==
9 confine
coyotos 1
machine 1 1 0 1 1 0
end
left gpt 0\t
=>
refused 4 BadByte
==
2 confine
coyotos 1
machine 1 1 0 1 1 0
step 0 1
=>
refused 3 UnknownStatement
==
1 confine now
=>
usage: coyotos check | run | trace | tables | walk P KIND ADDR | make N [summary] | pack | unpack | migrate | confine \
| share | back N
==
3 migrate
coyotos 2
machine 1 1 0 1 1 0
name code page 0
region 0 0 1 $code r
end
# a note
round 2
tick 0
tick 9
=>
coyotos 2
machine 1 1 0 1 1 0
region 0 0 1 0 r
end
round 2
tick 0
refused 9 NoHart
==
2 migrate
coyotos 2
machine 1 1 0 1 1 0
region 0 0 1 1 r
end
round 2
=>
refused 3 NoObject
==
0 back 1
coyotos 1
machine 1 2 0 1 1 0
page 0 000 93005000371100002320110083210100
gpt 0 12
slot 0 0 page:0@12/0+r
slot 0 1 page:1@12/0
process 0 00000000 gpt:0@16/0 schedule:3 null run
end
step 0 4
=>
back 1
state
hart 0 0
page 0 000 93005000371100002320110083210100
page 1 000 05000000000000000000000000000000
slot 0 0 page:0@12/00000+r
slot 0 1 page:1@12/00000
process 0 0000000c gpt:0@16/00000 schedule:3 null run
reg 0 1 00000005
reg 0 2 00001000
end
==
0 back 2
coyotos 1
machine 1 2 0 1 1 0
page 0 000 93005000371100002320110083210100
gpt 0 12
slot 0 0 page:0@12/0+r
slot 0 1 page:1@12/0
process 0 00000000 gpt:0@16/0 schedule:3 null run
end
step 0 4
=>
back 2
state
hart 0 0
page 0 000 93005000371100002320110083210100
slot 0 0 page:0@12/00000+r
slot 0 1 page:1@12/00000
process 0 00000008 gpt:0@16/00000 schedule:3 null run
reg 0 1 00000005
reg 0 2 00001000
end
==
0 back 9
coyotos 1
machine 1 2 0 1 1 0
page 0 000 93005000371100002320110083210100
gpt 0 12
slot 0 0 page:0@12/0+r
slot 0 1 page:1@12/0
process 0 00000000 gpt:0@16/0 schedule:3 null run
end
step 0 4
=>
back 4
state
hart 0 idle
ready 3 0
page 0 000 93005000371100002320110083210100
slot 0 0 page:0@12/00000+r
slot 0 1 page:1@12/00000
process 0 00000000 gpt:0@16/00000 schedule:3 null run
end
==
0 back 0
coyotos 1
machine 1 2 0 1 1 0
page 0 000 93005000371100002320110083210100
gpt 0 12
slot 0 0 page:0@12/0+r
slot 0 1 page:1@12/0
process 0 00000000 gpt:0@16/0 schedule:3 null run
end
step 0 4
=>
back 0
state
hart 0 0
page 0 000 93005000371100002320110083210100
page 1 000 05000000000000000000000000000000
slot 0 0 page:0@12/00000+r
slot 0 1 page:1@12/00000
process 0 00000010 gpt:0@16/00000 schedule:3 null run
reg 0 1 00000005
reg 0 2 00001000
reg 0 3 00000005
end
==
0 back 17
coyotos 1
machine 2 3 0 2 2 0
code 0 000 ecall
code 0 004 lui x10 0x80
code 0 008 addi x10 x10 0x21
code 0 00c addi x11 x0 8
code 0 010 addi x12 x0 1
code 0 014 addi x13 x0 2
code 0 018 ecall
code 0 01c lui x10 0x10
code 0 020 addi x10 x10 0x24
code 0 024 addi x11 x0 9
code 0 028 addi x12 x0 2
code 0 02c addi x18 x0 3
code 0 030 ecall
code 0 034 lui x5 2
code 0 038 lw x6 0(x5)
code 1 000 lw x6 0(x5)
code 1 004 lw x7 0(x5)
page 2 000 22222222
slot 0 0 page:0@12/0
slot 1 0 page:1@12/0
slot 1 1 page:2@12/0
process 0 0 gpt:0@16/0 schedule:3 null run
reg 0 6 ffffffff
reg 0 10 00010021
reg 0 11 00000009
reg 0 18 00000002
reg 0 19 00000003
capreg 0 1 range
capreg 0 2 page:2@12/0
capreg 0 4 gpt:0@16/0
process 1 0 gpt:1@16/0 schedule:5 null run
reg 1 5 00001000
end
step 1 1
step 0 15
step 1 1
=>
back 17
state
hart 0 idle
hart 1 idle
ready 5 1
ready 3 0
page 0 000 73000000370508001305150293058000
page 0 010 13061000930620007300000037050100
page 0 020 13054502930590001306200013093000
page 0 030 73000000b722000003a3020000000000
page 1 000 03a3020083a302000000000000000000
page 2 000 22222222000000000000000000000000
slot 0 0 page:0@12/00000
slot 1 0 page:1@12/00000
slot 1 1 page:2@12/00000
process 0 00000000 gpt:0@16/00000 schedule:3 null run
reg 0 6 ffffffff
reg 0 10 00010021
reg 0 11 00000009
reg 0 18 00000002
reg 0 19 00000003
capreg 0 1 range
capreg 0 2 page:2@12/00000
capreg 0 4 gpt:0@16/00000
process 1 00000000 gpt:1@16/00000 schedule:5 null run
reg 1 5 00001000
end
==
0 back 4294967295
coyotos 1
machine 1 1 0 1 1 0
code 0 000 addi x1 x1 1
code 0 004 jal x0 -4
slot 0 0 page:0@12/0
process 0 0 gpt:0@16/0 schedule:3 null run
end
step 0 300
=>
back 256
state
hart 0 0
page 0 000 938010006ff0dfff0000000000000000
slot 0 0 page:0@12/00000
process 0 00000000 gpt:0@16/00000 schedule:3 null run
reg 0 1 00000016
end
==
0 back 1
coyotos 1
machine 1 0 0 0 1 0
end
tick 0
step 0 1
=>
back 1
state
hart 0 idle
end
==
0 back 1
coyotos 1
machine 1 0 0 0 1 0
end
=>
back 0
state
hart 0 idle
end
==
3 back 1
coyotos 1
machine 1 1 0 1 1 0
end
step 0 2
tick 1
step 0 1
=>
refused 5 NoHart
==
2 back 1
coyotos 1
machine 1 1 0 1 1 0
step 0 1
=>
refused 3 UnknownStatement
==
1 back
=>
usage: coyotos check | run | trace | tables | walk P KIND ADDR | make N [summary] | pack | unpack | migrate | confine \
| share | back N
==
1 back 1 1
=>
usage: coyotos check | run | trace | tables | walk P KIND ADDR | make N [summary] | pack | unpack | migrate | confine \
| share | back N
==
0 share
coyotos 1
machine 2 1 0 3 2 0
code 0 000 addi x1 x1 1
gpt 0 28
gpt 1 28
slot 0 0 gpt:2@28/0
slot 1 0 gpt:2@28/0
slot 2 0 page:0@12/0
process 0 0 gpt:0@32/0 schedule:3 null run
process 1 0 gpt:1@32/0 schedule:3 null run
end
round 1
=>
frames 3
==
0 share
coyotos 1
machine 2 1 0 3 2 0
code 0 000 addi x1 x1 1
gpt 0 28
gpt 1 28
slot 0 0 gpt:2@28/0
slot 1 0 gpt:2@28/0
slot 2 0 page:0@12/0
process 0 0 gpt:2@16/0 schedule:3 null run
process 1 00010000 gpt:2@16/1 schedule:3 null run
end
round 1
=>
frames 4
==
0 share
coyotos 1
machine 1 2 0 2 2 1
code 0 000 ecall
code 1 000 ecall
gpt 0 12 ha
slot 0 1 page:0@12/0
slot 0 15 entry:0:0000abcd
slot 1 0 page:1@12/0
endpoint 0 process:1 00000077 00000000 plain
process 0 00001000 gpt:0@16/0 schedule:3 null run
capreg 0 1 gpt:0@16/0
reg 0 10 00000021
reg 0 11 0000000b
reg 0 12 00000010
reg 0 13 00000001
process 1 00000000 gpt:1@16/0 schedule:5 null run
reg 1 10 00080040
reg 1 19 00000005
end
step 0 3
=>
fault 0 InvalidDataReference 00001004 to 1
frames 4
==
0 share
coyotos 1
machine 1 1 0 1 1 0
end
=>
frames 0
==
3 share
coyotos 1
machine 2 1 0 3 2 0
code 0 000 addi x1 x1 1
gpt 0 28
gpt 1 28
slot 0 0 gpt:2@28/0
slot 1 0 gpt:2@28/0
slot 2 0 page:0@12/0
process 0 0 gpt:0@32/0 schedule:3 null run
end
round 1
tick 9
=>
refused 12 NoHart
==
0 share
coyotos 1
machine 2 4 0 3 2 0
code 0 000 ecall
code 1 000 lui x5 1
code 1 004 lw x6 0(x5)
code 1 008 lui x7 2
code 1 00c lw x8 0(x7)
code 1 010 lw x9 0(x5)
code 1 014 lw x18 0(x7)
page 2 000 22222222
page 3 000 33333333
slot 0 0 page:0@12/0
slot 1 0 page:1@12/0
slot 1 1 gpt:2@12/0
slot 1 2 gpt:2@12/0
slot 2 0 page:2@12/0
process 0 0 gpt:0@16/0 schedule:3 null run
reg 0 10 00010021
reg 0 11 00000009
reg 0 18 00000002
capreg 0 1 gpt:2@12/0
capreg 0 2 page:3@12/0
process 1 0 gpt:1@16/0 schedule:5 null run
end
step 1 4
step 0 1
step 1 2
=>
frames 4
==
0 share
coyotos 1
machine 2 3 0 2 2 0
code 0 000 ecall
code 0 004 lui x10 0x80
code 0 008 addi x10 x10 0x21
code 0 00c addi x11 x0 8
code 0 010 addi x12 x0 1
code 0 014 addi x13 x0 2
code 0 018 ecall
code 0 01c lui x10 0x10
code 0 020 addi x10 x10 0x24
code 0 024 addi x11 x0 9
code 0 028 addi x12 x0 2
code 0 02c addi x18 x0 3
code 0 030 ecall
code 0 034 lui x5 2
code 0 038 lw x6 0(x5)
code 1 000 lw x6 0(x5)
code 1 004 lw x7 0(x5)
page 2 000 22222222
slot 0 0 page:0@12/0
slot 1 0 page:1@12/0
slot 1 1 page:2@12/0
process 0 0 gpt:0@16/0 schedule:3 null run
reg 0 6 ffffffff
reg 0 10 00010021
reg 0 11 00000009
reg 0 18 00000002
reg 0 19 00000003
capreg 0 1 range
capreg 0 2 page:2@12/0
capreg 0 4 gpt:0@16/0
process 1 0 gpt:1@16/0 schedule:5 null run
reg 1 5 00001000
end
step 1 1
step 0 15
step 1 1
=>
destroy page 2
fault 1 InvalidDataReference 00001000 unheard
frames 4
==
1 share 1
=>
usage: coyotos check | run | trace | tables | walk P KIND ADDR | make N [summary] | pack | unpack | migrate | confine \
| share | back N
==
0 pack
coyotos 2
machine 1 1 0 1 1 0
name code page 0
region 0 0 1 $code r
end
=>
COYIMG02\x01\0\x01\0\0\0\x01\0\x01\0\0\0\x01\0\0\0\x0b\0\0\0\x01\0\0\x01==
0 unpack
COYIMG02\x01\0\x01\0\0\0\x01\0\x01\0\0\0\x01\0\0\0\x0b\0\0\0\x01\0\0\x01=>
coyotos 2
machine 1 1 0 1 1 0
region 0 0 1 0 r
end
==
8 unpack
COYIMG02\x01\0\x01\0\0\0\x01\0\x01\0\0\0\x01\0\0\0\x0b\0\0\0\x01\0=>
refused at 29 Cut
==
8 unpack
COYIMG02\x01\0\x01\0\0\0\x01\0\x01\0\0\0\x01\0\0\0\x0b\0\0\0\x01\0\0\x01\0=>
refused at 32 Trailing
==
8 unpack
=>
refused at 0 Cut
==
8 unpack
coyotos 2
machine=>
refused at 0 BadMagic
==
3 pack
coyotos 1
machine 1 0 0 0 0 0
end
#\x20

tick 0
=>
refused 6 EventInPack
==
3 pack
coyotos 1
machine 1 0 0 0 0 0
end
no event
=>
refused 4 EventInPack
==
3 pack
coyotos 1
machine 1 0 0 0 0 0
end
\x01
tick 0
=>
refused 4 BadByte
==
0 pack
coyotos 1
machine 1 0 0 0 0 0
end=>
COYIMG02\x01\0\0\0\0\0\0\0\0\0\0\0\0\0\0\0==
2 pack
coyotos 3
=>
refused 1 BadHeader
";
