//! Rows of the program `separation`.
ghost use Rattle.std.specs.Prelude.{◌≡◌};
ghost use Rattle.steps.specs.Permit.{permit_for};

use crate::rows::{Calls, WHOLE, check, row_of, sink_of, source_of, words_of};
use separation_program::separation;
use std::alloc::Global;
use std::marker::Brand;
use std::process::Abort;
use std::sync::ledger::Ledger;
use steps::{Permit, Steps};

/// The rows, whose expected outputs are worked out by hand; in the place of no words stands `none`.
const SEPARATION_ROWS: &str = "\
0 none: an object that no line names is of rest
coyotos 1
machine 1 2 1 1 2 1
end
end
=>
separated domains=1
domain rest objects=7 processes=2 reads=- writes=- view=-
==
0 none: who reads, reads what those read whom he reads
coyotos 1
machine 1 4 0 0 2 0
capreg 0 1 page:3@12/0+r
end
domain a process 0
domain b page 1
domain c page 2
domain d page 3
reads a b
reads b c
reads c d
end
=>
separated domains=5
domain rest objects=2 processes=1 reads=- writes=- view=-
domain a objects=1 processes=1 reads=b,c,d writes=- view=b,c,d
domain b objects=1 processes=0 reads=c,d writes=- view=c,d
domain c objects=1 processes=0 reads=d writes=- view=d
domain d objects=1 processes=0 reads=- writes=- view=-
==
10 none: each kind of place
coyotos 1
machine 1 2 1 1 2 1
cap 0 5 page:1@12/0
slot 0 3 page:1@12/0+r
endpoint 0 process:1 0 0 plain
process 0 0 page:1@12/0 schedule:3 entry:0:7 stop
capreg 0 31 process:1
capreg 1 2 range
end
domain a cappage 0
domain a gpt 0
domain a process 0
domain a endpoint 0
end
=>
crossing cappage 0 5 page:1@12/00000 a -> rest writes
crossing gpt 0 3 page:1@12/00000+r a -> rest reads
crossing endpoint 0 0 process:1 a -> rest never
crossing process 0 0 page:1@12/00000 a -> rest writes
crossing process 0 34 process:1 a -> rest never
range process 1 5 rest never
crossings 6
==
0 none: a page that one writes and another reads
coyotos 1
machine 1 1 0 2 2 0
slot 0 0 page:0@12/0
slot 1 0 page:0@12/0+r
end
domain sensor gpt 0
domain sensor page 0
domain monitor gpt 1
reads monitor sensor
end
=>
separated domains=3
domain rest objects=2 processes=2 reads=- writes=- view=-
domain sensor objects=2 processes=0 reads=- writes=- view=-
domain monitor objects=1 processes=0 reads=sensor writes=- view=sensor
==
0 none: a line reads that nothing needs
coyotos 1
machine 1 1 0 2 2 0
slot 0 0 page:0@12/0
slot 1 0 page:0@12/0+r
end
domain sensor gpt 0
domain sensor page 0
domain monitor gpt 1
reads monitor sensor
reads sensor monitor
end
=>
separated domains=3
domain rest objects=2 processes=2 reads=- writes=- view=-
domain sensor objects=2 processes=0 reads=monitor writes=- view=monitor
domain monitor objects=1 processes=0 reads=sensor writes=- view=sensor
unused reads sensor monitor
==
0 none: two lines reads that stand for each other, each by itself, and one that is needed
coyotos 1
machine 1 1 0 2 0 0
slot 0 0 page:0@12/0+r
slot 1 0 page:0@12/0+r
end
domain a gpt 0
domain b gpt 1
domain c page 0
reads b c
reads a c
reads a b
end
=>
separated domains=4
domain rest objects=0 processes=0 reads=- writes=- view=-
domain a objects=1 processes=0 reads=b,c writes=- view=b,c
domain b objects=1 processes=0 reads=c writes=- view=c
domain c objects=1 processes=0 reads=- writes=- view=-
unused reads a b
unused reads a c
==
10 none: to be read is not to read
coyotos 1
machine 1 1 0 2 2 0
slot 0 0 page:0@12/0
slot 1 0 page:0@12/0+r
end
domain sensor gpt 0
domain sensor page 0
domain monitor gpt 1
reads sensor monitor
end
=>
crossing gpt 1 0 page:0@12/00000+r monitor -> sensor reads
crossings 1
==
0 none: two domains over one GPT
coyotos 1
machine 1 1 0 1 2 0
slot 0 0 page:0@12/0+r
process 0 0 gpt:0@16/0+rwn schedule:3 null stop
process 1 0 gpt:0@16/0+rwn schedule:3 null stop
end
domain code gpt 0
domain code page 0
domain a process 0
domain b process 1
reads a code
reads b code
end
=>
separated domains=4
domain rest objects=0 processes=0 reads=- writes=- view=-
domain code objects=2 processes=0 reads=- writes=- view=-
domain a objects=1 processes=1 reads=code writes=- view=code
domain b objects=1 processes=1 reads=code writes=- view=code
==
10 none: one of them might ask its handlers
coyotos 1
machine 1 1 0 1 2 0
slot 0 0 page:0@12/0+r
process 0 0 gpt:0@16/0+rwn schedule:3 null stop
process 1 0 gpt:0@16/0+rw schedule:3 null stop
end
domain code gpt 0
domain code page 0
domain a process 0
domain b process 1
reads a code
reads b code
end
=>
crossing process 1 0 gpt:0@16/00000+rw b -> code never
crossings 1
==
10 none: an entry is a crossing, whoever reads
coyotos 1
machine 1 0 0 0 2 1
endpoint 0 process:1 0 0 plain
capreg 0 1 entry:0:1f
end
domain a process 0
domain b process 1
domain b endpoint 0
reads a b
end
=>
crossing process 0 4 entry:0:0000001f a -> b never
crossings 1
==
0 none: who halts and who logs
coyotos 1
machine 1 0 0 1 2 0
slot 0 2 kernlog
capreg 0 1 sysctl
capreg 1 1 kernlog
capreg 1 2 sysctl
end
domain a process 0
domain b gpt 0
halts a
halts rest
logs rest
logs b
logs b
end
=>
separated domains=3
domain rest objects=1 processes=1 reads=- writes=- view=- halts logs
domain a objects=1 processes=1 reads=- writes=- view=- halts
domain b objects=1 processes=0 reads=- writes=- view=- logs
==
10 none: SysCtl and KernLog where no line lets them stand
coyotos 1
machine 1 0 1 1 2 0
cap 0 7 sysctl
slot 0 2 kernlog
capreg 0 1 sysctl
capreg 0 2 range
capreg 1 1 kernlog
capreg 1 2 sysctl
end
domain a process 0
domain b gpt 0
halts rest
logs a
end
=>
logs gpt 0 2 b
halts process 0 4 a
range process 0 5 a never
logs process 1 4 rest
crossings 4
==
0 none: a page by which two domains talk
coyotos 1
machine 1 1 0 2 0 0
slot 0 0 page:0@12/0
slot 1 0 page:0@12/0
end
domain a gpt 0
domain b gpt 1
domain b page 0
writes a b
end
=>
separated domains=3
domain rest objects=0 processes=0 reads=- writes=- view=-
domain a objects=1 processes=0 reads=- writes=b view=b
domain b objects=2 processes=0 reads=- writes=- view=a
==
0 none: a line writes that nothing needs, and a line reads beside one writes that is needed
coyotos 1
machine 1 1 0 2 0 0
slot 0 0 page:0@12/0
slot 1 0 page:0@12/0
end
domain a gpt 0
domain b gpt 1
domain b page 0
writes b a
writes a b
reads a b
halts b
end
=>
separated domains=3
domain rest objects=0 processes=0 reads=- writes=- view=-
domain a objects=1 processes=0 reads=b writes=b view=b
domain b objects=2 processes=0 reads=- writes=a view=a
unused reads a b
unused writes b a
==
10 none: a line writes lets pages through alone, and goes no further
coyotos 1
machine 1 2 1 2 0 0
slot 0 0 page:0@12/0
slot 0 1 cappage:0@12/0
slot 0 2 gpt:1@16/0
slot 0 3 page:1@12/0
slot 0 4 cappage:0@12/0+rw
end
domain a gpt 0
domain b page 0
domain b cappage 0
domain b gpt 1
domain c page 1
writes a b
writes b c
end
=>
crossing gpt 0 1 cappage:0@12/00000 a -> b never
crossing gpt 0 2 gpt:1@16/00000 a -> b never
crossing gpt 0 3 page:1@12/00000 a -> c writes
crossing gpt 0 4 cappage:0@12/00000+rw a -> b reads
crossings 4
==
0 none: who reads one that writes a page may look at the page
coyotos 1
machine 1 1 0 2 0 0
slot 0 0 page:0@12/0+r
slot 1 0 page:0@12/0
end
domain a gpt 0
domain b gpt 1
domain c page 0
reads a b
writes b c
end
=>
separated domains=4
domain rest objects=0 processes=0 reads=- writes=- view=-
domain a objects=1 processes=0 reads=b writes=- view=b,c
domain b objects=1 processes=0 reads=- writes=c view=c
domain c objects=1 processes=0 reads=- writes=- view=b
==
10 none: and may not write it, nor look at what is no page
coyotos 1
machine 1 1 1 2 0 0
slot 0 0 page:0@12/0
slot 0 1 cappage:0@12/0+rw
slot 1 0 page:0@12/0
end
domain a gpt 0
domain b gpt 1
domain c page 0
domain c cappage 0
reads a b
writes b c
end
=>
crossing gpt 0 0 page:0@12/00000 a -> c writes
crossing gpt 0 1 cappage:0@12/00000+rw a -> c reads
crossings 2
==
10 none: an initialiser as the machine starts
coyotos 1
machine 1 2 0 2 2 0
code 0 000 ecall
slot 0 0 page:0@12/0
process 0 0 gpt:0@16/0 schedule:3 null run
reg 0 10 00010021
reg 0 11 00000009
reg 0 18 00000002
capreg 0 1 range
capreg 0 2 process:0
capreg 1 1 process:0
end
domain init process 0
domain init gpt 0
domain init page 0
domain b process 1
end
=>
range process 0 4 init never
crossing process 1 4 process:0 b -> init never
crossings 2
==
0 none: it destroyed itself, with its Range, and what named it is dead
coyotos 1
machine 1 2 0 2 2 0
code 0 000 ecall
slot 0 0 page:0@12/0
process 0 0 gpt:0@16/0 schedule:3 null run
reg 0 10 00010021
reg 0 11 00000009
reg 0 18 00000002
capreg 0 1 range
capreg 0 2 process:0
capreg 1 1 process:0
end
domain init process 0
domain init gpt 0
domain init page 0
domain b process 1
end
step 0 1
=>
separated domains=3
domain rest objects=2 processes=0 reads=- writes=- view=-
domain init objects=3 processes=1 reads=- writes=- view=-
domain b objects=1 processes=1 reads=- writes=- view=-
==
10 none: a schedule of no event changes nothing
coyotos 1
machine 1 1 0 1 2 0
code 0 000 ecall
slot 0 0 page:0@12/0
process 0 0 gpt:0@16/0 schedule:3 null run
reg 0 10 0
reg 0 11 1
reg 0 17 3
capreg 0 1 range
end
domain init process 0
domain init gpt 0
domain init page 0
end
=>
range process 0 4 init never
crossings 1
==
0 none: an initialiser puts Null in the place of its Range
coyotos 1
machine 1 1 0 1 2 0
code 0 000 ecall
slot 0 0 page:0@12/0
process 0 0 gpt:0@16/0 schedule:3 null run
reg 0 10 0
reg 0 11 1
reg 0 17 3
capreg 0 1 range
end
domain init process 0
domain init gpt 0
domain init page 0
end
step 0 1
=>
separated domains=2
domain rest objects=1 processes=1 reads=- writes=- view=-
domain init objects=3 processes=1 reads=- writes=- view=-
==
10 none: a process that sleeps on another domain's
coyotos 1
machine 1 2 0 2 2 1
code 1 000 ecall
slot 1 0 page:1@12/0
endpoint 0 process:0 0 0 plain
process 0 0 gpt:0@16/0 schedule:3 null run
process 1 0 gpt:1@16/0 schedule:5 null run
reg 1 10 00000021
capreg 1 1 entry:0:00000007
end
domain a process 0
domain a gpt 0
domain b process 1
domain b gpt 1
domain b page 1
domain b endpoint 0
end
step 0 1
=>
crossing endpoint 0 0 process:0 b -> a never
sleeper 1 b -> a never
crossings 2
==
0 none: lines that say nothing, a name twice, and a listing of version 2
coyotos 2
machine 1 3 0 0 0 0
name buffer page 2
end

# domain A
domain a page 0
domain a page 0 1
reads a a
  domain   rest  page  2
end
=>
separated domains=2
domain rest objects=1 processes=0 reads=- writes=- view=-
domain a objects=2 processes=0 reads=- writes=- view=-
unused reads a a
==
9 none
coyotos 1
machine 1 2 0 0 0 0
end
#xxxxxxxxxxxxxxxxxxxxxxxxxxxxxxxxxxxxxxxxxxxxxxxxxxxxxxxxxxxxxxxxxxxxxxxxxxxxxxxx\
xxxxxxxxxxxxxxxxxxxxxxxxxxxxxxxxxxxxxxxxxxxxxxxxxxxxxxxxxxxxxxxxxxxxxxxxxxxxxxxx\
xxxxxxxxxxxxxxxxxxxxxxxxxxxxxxxxxxxxxxxxxxxxxxxxxxxxxxxxxxxxxxxxxxxxxxxxxxxxxxxx\
xxxxxxxxxxxxxxxxxxxxxxxxxxxxxxxxxxxxxxxxxxxxxxxxxxxxxxxxxxxxxxxxxxxxxxxxxxxxxxxx\
xxxxxxxxxxxxxxxxxxxxxxxxxxxxxxxxxxxxxxxxxxxxxxxxxxxxxxxxxxxxxxxxxxxxxxxxxxxxxxxx\
xxxxxxxxxxxxxxxxxxxxxxxxxxxxxxxxxxxxxxxxxxxxxxxxxxxxxxxxxxxxxxxxxxxxxxxxxxxxxxxx\
xxxxxxxxxxxxxxxxxxxxxxxxxxxxxxxx
=>
refused 4 LineTooLong
==
9 none
coyotos 1
machine 1 2 0 0 0 0
end
domain a\tpage 0
=>
refused 4 BadByte
==
9 none
coyotos 1
machine 1 2 0 0 0 0
end
left page 0
=>
refused 4 UnknownPolicy
==
9 none
coyotos 1
machine 1 2 0 0 0 0
end
domain a page
=>
refused 4 WrongWords
==
9 none
coyotos 1
machine 1 2 0 0 0 0
end
reads rest
=>
refused 4 WrongWords
==
9 none
coyotos 1
machine 1 2 0 0 0 0
end
end now
=>
refused 4 WrongWords
==
9 none: before the kind
coyotos 1
machine 1 2 0 0 0 0
end
domain A thing x
=>
refused 4 BadName
==
9 none
coyotos 1
machine 1 2 0 0 0 0
end
reads 1a nobody
=>
refused 4 BadName
==
9 none: before the number
coyotos 1
machine 1 2 0 0 0 0
end
domain a thing x
=>
refused 4 BadValue
==
9 none
coyotos 1
machine 1 2 0 0 0 0
end
domain a page x
=>
refused 4 BadNumber
==
9 none: before the last number
coyotos 1
machine 1 2 0 0 0 0
end
domain a page 2 x
=>
refused 4 NoObject
==
9 none
coyotos 1
machine 1 2 0 0 0 0
end
domain a page 0 x
=>
refused 4 BadNumber
==
9 none
coyotos 1
machine 1 2 0 0 0 0
end
domain a page 0 2
=>
refused 4 NoObject
==
9 none
coyotos 1
machine 1 2 0 0 0 0
end
domain a page 1 0
=>
refused 4 BadOrder
==
9 none: one of several objects
coyotos 1
machine 1 2 0 0 0 0
end
domain a page 1
domain b page 0 1
=>
refused 5 Taken
==
9 none: rest has it by a line
coyotos 1
machine 1 2 0 0 0 0
end
domain rest page 0
domain a page 0
=>
refused 5 Taken
==
9 none: before the second name
coyotos 1
machine 1 2 0 0 0 0
end
reads nobody B
=>
refused 4 NoDomain
==
9 none
coyotos 1
machine 1 2 0 0 0 0
end
reads rest nobody
=>
refused 4 NoDomain
==
9 none
coyotos 1
machine 1 2 0 0 0 0
end
writes rest
=>
refused 4 WrongWords
==
9 none
coyotos 1
machine 1 2 0 0 0 0
end
writes 1a nobody
=>
refused 4 BadName
==
9 none
coyotos 1
machine 1 2 0 0 0 0
end
writes nobody B
=>
refused 4 NoDomain
==
9 none
coyotos 1
machine 1 2 0 0 0 0
end
writes rest B
=>
refused 4 BadName
==
9 none
coyotos 1
machine 1 2 0 0 0 0
end
writes rest nobody
=>
refused 4 NoDomain
==
9 none
coyotos 1
machine 1 2 0 0 0 0
end
halts
=>
refused 4 WrongWords
==
9 none
coyotos 1
machine 1 2 0 0 0 0
end
halts rest rest
=>
refused 4 WrongWords
==
9 none
coyotos 1
machine 1 2 0 0 0 0
end
halts A
=>
refused 4 BadName
==
9 none
coyotos 1
machine 1 2 0 0 0 0
end
halts nobody
=>
refused 4 NoDomain
==
9 none
coyotos 1
machine 1 2 0 0 0 0
end
logs
=>
refused 4 WrongWords
==
9 none
coyotos 1
machine 1 2 0 0 0 0
end
logs 1a
=>
refused 4 BadName
==
9 none
coyotos 1
machine 1 2 0 0 0 0
end
logs nobody
=>
refused 4 NoDomain
==
9 none: there are 64, and a kind comes later
coyotos 1
machine 1 64 0 0 0 0
end
domain a page 0
domain b page 1
domain c page 2
domain d page 3
domain e page 4
domain f page 5
domain g page 6
domain h page 7
domain i page 8
domain j page 9
domain k page 10
domain l page 11
domain m page 12
domain n page 13
domain o page 14
domain p page 15
domain q page 16
domain r page 17
domain s page 18
domain t page 19
domain u page 20
domain v page 21
domain w page 22
domain x page 23
domain y page 24
domain z page 25
domain aa page 26
domain ab page 27
domain ac page 28
domain ad page 29
domain ae page 30
domain af page 31
domain ag page 32
domain ah page 33
domain ai page 34
domain aj page 35
domain ak page 36
domain al page 37
domain am page 38
domain an page 39
domain ao page 40
domain ap page 41
domain aq page 42
domain ar page 43
domain as page 44
domain at page 45
domain au page 46
domain av page 47
domain aw page 48
domain ax page 49
domain ay page 50
domain az page 51
domain ba page 52
domain bb page 53
domain bc page 54
domain bd page 55
domain be page 56
domain bf page 57
domain bg page 58
domain bh page 59
domain bi page 60
domain bj page 61
domain bk page 62
domain more thing 0
=>
refused 67 TooManyDomains
==
9 none: the policy is to come
coyotos 1
machine 1 2 0 0 0 0
end
=>
refused 4 NoEnd
==
9 none: the line behind the last, which says nothing
coyotos 1
machine 1 2 0 0 0 0
end
domain a page 0
reads a rest
# and here it is cut
=>
refused 7 NoEnd
==
9 none: a line that is refused comes first
coyotos 1
machine 1 2 0 0 0 0
end
domain a page 0
read
=>
refused 5 UnknownPolicy
==
0 none: all domains are listed, of which one has no object
coyotos 1
machine 1 2 0 0 0 0
end

# these and no others
domains a  b c
domain c page 1
reads c b
reads rest a
end
=>
separated domains=4
domain rest objects=1 processes=0 reads=a writes=- view=a
domain a objects=0 processes=0 reads=- writes=- view=-
domain b objects=0 processes=0 reads=- writes=- view=-
domain c objects=1 processes=0 reads=b writes=- view=b
unused reads rest a
unused reads c b
==
9 none: a name that is not listed, before the kind
coyotos 1
machine 1 2 0 0 0 0
end
domains sensor monitor
domain sensor page 0
domain monitr thing 1
end
=>
refused 6 NoDomain
==
9 none: who reads is listed, and whom is not
coyotos 1
machine 1 2 0 0 0 0
end
domains sensor monitor
reads monitor sensr
end
=>
refused 5 NoDomain
==
9 none: no name
coyotos 1
machine 1 2 0 0 0 0
end
domains
end
=>
refused 4 WrongWords
==
9 none: a name behind those that stand
coyotos 1
machine 1 2 0 0 0 0
end
domains a b_2 B
end
=>
refused 4 BadName
==
9 none: a name twice
coyotos 1
machine 1 2 0 0 0 0
end
domains a b a B
end
=>
refused 4 NameTaken
==
9 none: rest is there
coyotos 1
machine 1 2 0 0 0 0
end
domains a rest
end
=>
refused 4 NameTaken
==
9 none: behind an object of rest
coyotos 1
machine 1 2 0 0 0 0
end
domain rest page 0
domains a
end
=>
refused 5 NotFirst
==
9 none: behind who reads, before its names
coyotos 1
machine 1 2 0 0 0 0
end
reads rest rest
domains A
end
=>
refused 5 NotFirst
==
9 none: listed already
coyotos 1
machine 1 2 0 0 0 0
end
domains a
domains b
end
=>
refused 5 NotFirst
==
9 none: the last of 64 names, and one behind it is bad
coyotos 1
machine 1 2 0 0 0 0
end
domains a b c d e f g h i j k l m n o p q r s t u v w x y z aa ab ac ad ae af ag ah ai aj ak al am an ao ap aq ar as at au av aw ax ay az ba bb bc bd be bf bg bh bi bj bk bl B
end
=>
refused 4 TooManyDomains
==
2 none
coyotos 3
=>
refused 1 BadHeader
==
3 none
coyotos 1
machine 1 2 0 0 0 0
end
end
step 1 1
=>
refused 5 NoHart
==
0 least: a line for each kind of crossing that one allows; each is needed, since no other line lets its capability stand
coyotos 1
machine 1 2 1 1 2 0
cap 0 5 page:0@12/0+r
slot 0 0 page:0@12/0+r
slot 0 1 page:1@12/0
capreg 0 1 sysctl
capreg 1 1 kernlog
end
domain a gpt 0
domain a process 0
domain b page 0
domain c page 1
domain c cappage 0
end
=>
reads a b
reads c b
writes a c
halts a
logs rest
==
0 least: nothing is needed, since each capability names an object of the domain in which it stands
coyotos 1
machine 1 1 0 1 2 0
slot 0 0 page:0@12/0
process 0 0 gpt:0@16/0 schedule:3 null stop
end
domain a gpt 0
domain a page 0
domain a process 0
end
=>
==
0 least: a reads c, since it reads b and that reads c, so a line for it is left out
coyotos 1
machine 1 1 0 2 0 0
slot 0 0 gpt:1@16/0+rwn
slot 0 1 page:0@12/0+r
slot 1 0 page:0@12/0+r
end
domain a gpt 0
domain b gpt 1
domain c page 0
end
=>
reads a b
reads b c
==
0 least: a may look at a page of c, since it reads b and that writes c
coyotos 1
machine 1 1 0 2 0 0
slot 0 0 gpt:1@16/0+rwn
slot 0 1 page:0@12/0+r
slot 1 0 page:0@12/0
end
domain a gpt 0
domain b gpt 1
domain c page 0
end
=>
reads a b
writes b c
==
0 least: a may look at a page that it writes, so it need not read b
coyotos 1
machine 1 1 0 2 0 0
slot 0 0 page:0@12/0+r
slot 0 1 page:0@12/0
end
domain a gpt 0
domain b page 0
end
=>
writes a b
==
0 least: each has a page of the other that it writes, and one line doesn't allow both
coyotos 1
machine 1 2 0 2 0 0
slot 0 0 page:1@12/0
slot 1 0 page:0@12/0
end
domain a gpt 0
domain a page 0
domain b gpt 1
domain b page 1
end
=>
writes a b
writes b a
==
0 least: lines of the policy count for nothing, neither those that would do in the place of others nor those that nothing needs
coyotos 1
machine 1 1 0 2 2 0
slot 0 0 page:0@12/0
slot 1 0 page:0@12/0+r
end
domain sensor gpt 0
domain sensor page 0
domain monitor gpt 1
reads sensor monitor
writes monitor sensor
halts rest
logs monitor
end
=>
reads monitor sensor
==
9 least: but they are read, with their faults
coyotos 1
machine 1 2 0 0 0 0
end
domain a page 0
reads a nobody
=>
refused 5 NoDomain
==
10 least: an entry and a Range, which no line allows; the page that one would is not told
coyotos 1
machine 1 1 0 1 2 1
slot 0 0 page:0@12/0
endpoint 0 process:1 0 0 plain
capreg 0 1 entry:0:1f
capreg 0 2 range
end
domain a gpt 0
domain a process 0
domain b page 0
domain b process 1
domain b endpoint 0
reads a b
writes a b
end
=>
crossing process 0 4 entry:0:0000001f a -> b never
range process 0 5 a never
crossings 2
==
10 least: a process that sleeps on another domain's behind the schedule
coyotos 1
machine 1 2 0 2 2 1
code 1 000 ecall
slot 1 0 page:1@12/0
endpoint 0 process:0 0 0 plain
process 0 0 gpt:0@16/0 schedule:3 null run
process 1 0 gpt:1@16/0 schedule:5 null run
reg 1 10 00000021
capreg 1 1 entry:0:00000007
end
domain a process 0
domain a gpt 0
domain a endpoint 0
domain b process 1
domain b gpt 1
domain b page 1
end
step 0 1
=>
crossing process 1 4 entry:0:00000007 b -> a never
sleeper 1 b -> a never
crossings 2
==
0 least: the state behind the schedule counts, in which Null stands in the place of the Range
coyotos 1
machine 1 1 0 1 2 0
code 0 000 ecall
slot 0 0 page:0@12/0
process 0 0 gpt:0@16/0 schedule:3 null run
reg 0 10 0
reg 0 11 1
reg 0 17 3
capreg 0 1 range
capreg 1 1 sysctl
end
domain init process 0
domain init gpt 0
domain init page 0
end
step 0 1
=>
halts rest
==
9 least: the policy is to come
coyotos 1
machine 1 2 0 0 0 0
end
=>
refused 4 NoEnd
==
2 least
coyotos 3
=>
refused 1 BadHeader
==
3 least
coyotos 1
machine 1 2 0 0 0 0
end
end
step 1 1
=>
refused 5 NoHart
==
0 --help
=>
usage: separation [least]
==
1 now
=>
usage: separation [least]
==
1 Least
=>
usage: separation [least]
==
1 least least
=>
usage: separation [least]
==
1 --help --help
=>
usage: separation [least]
";

/// The words of a row.
fn asked(rt: &impl Abort, alloc: Global, words: &str) -> Vec<String> {
    match words {
        "none" => Vec::new(alloc),
        line => words_of(rt, alloc, line),
    }
}

/// The program answers what the row of a block says, where a source and a sink answer their calls so.
fn check_row<L: Ledger>(
    rt: &impl Abort,
    alloc: Global,
    block: &str,
    calls: Calls,
    fetches: &mut Steps<L>,
) {
    let row = row_of(block).expect(rt, block);
    let words = asked(rt, alloc, row.words);
    let mut source = source_of(rt, alloc, row.input.as_bytes(), calls, block);
    let mut sink = sink_of(rt, alloc, calls, block);
    let exit = separation(alloc, words.as_slice(), &mut source, &mut sink, fetches);
    check(rt, exit.status() == row.status, block);
    check(rt, sink.bytes.as_slice() == row.output.as_bytes(), block);
}

/// Tries the rows in pieces of several sizes.
fn try_in_pieces<L: Ledger>(rt: &impl Abort, alloc: Global, permit: Permit)
    requires ledger { permit ≡ permit_for L.name L.parts }
{
    let mut fetches = Steps::<L>::new(permit);
    for piece in [1, 513, 65536] {
        let calls = Calls {
            piece,
            put_piece: piece,
            ..WHOLE
        };
        for block in SEPARATION_ROWS.split("==\n") {
            check_row(rt, alloc, block, calls, &mut fetches);
        }
    }
}

#[test]
fn rows_of_separation_give_what_is_written_down_for_them(rt: HostRuntime) {
    try_in_pieces::<Brand>(&rt, rt.alloc(), Permit::new(&rt));
}
