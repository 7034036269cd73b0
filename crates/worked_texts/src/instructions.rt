//! Words of instructions with their texts, as the GNU assembler for RV32I wrote and read them. Operands are spelled
//! here with spaces and plain registers.

use crate::rows::{check, hex};
use coy_text::{LineBuf, read_hex};
use rv32_asm::{AsmFault, assemble, disassemble};
use rv32_decode::{Insn, decode, encode};
use std::process::Abort;

/// The word of each instruction, and its text.
const INSTRUCTIONS: &str = "\
00000037|lui x0 0
00000fb7|lui x31 0
000012b7|lui x5 1
00001737|lui x14 1
000022b7|lui x5 2
000023b7|lui x7 2
00010537|lui x10 16
00010db7|lui x27 16
00080537|lui x10 128
000807b7|lui x15 128
000ffb37|lui x22 255
00fff437|lui x8 4095
010000b7|lui x1 4096
7ffff137|lui x2 524287
800000b7|lui x1 524288
ffffe037|lui x0 1048574
ffffff37|lui x30 1048575
ffffffb7|lui x31 1048575
00000017|auipc x0 0
00000117|auipc x2 0
00001417|auipc x8 1
00002917|auipc x18 2
00010897|auipc x17 16
00080f17|auipc x30 128
000ff017|auipc x0 255
00fff417|auipc x8 4095
01000297|auipc x5 4096
7ffffe97|auipc x29 524287
80000297|auipc x5 524288
ffffe017|auipc x0 1048574
fffff017|auipc x0 1048575
ffffff97|auipc x31 1048575
0000006f|jal x0 0
000000ef|jal x1 0
000018ef|jal x17 4096
000807ef|jal x15 524288
0010086f|jal x16 2048
002000ef|jal x1 2
00200f6f|jal x30 2
004002ef|jal x5 4
7fdff8ef|jal x17 1048572
7fe0086f|jal x16 2046
7ff00d6f|jal x26 4094
7ffff8ef|jal x17 1048574
800000ef|jal x1 -1048576
8008016f|jal x2 -524288
800ff06f|jal x0 -4096
801ff06f|jal x0 -2048
802000ef|jal x1 -1048574
fd5ff06f|jal x0 -44
fedff06f|jal x0 -20
fedff2ef|jal x5 -20
ffdff06f|jal x0 -4
ffdff2ef|jal x5 -4
fffff0ef|jal x1 -2
ffffffef|jal x31 -2
00000067|jalr x0 0(x0)
00078167|jalr x2 0(x15)
001f8fe7|jalr x31 1(x31)
00480167|jalr x2 4(x16)
7ff70167|jalr x2 2047(x14)
7fff8fe7|jalr x31 2047(x31)
80008f67|jalr x30 -2048(x1)
ffcf80e7|jalr x1 -4(x31)
fff087e7|jalr x15 -1(x1)
000f8463|beq x31 x0 8
00208263|beq x1 x2 4
008280e3|beq x5 x8 2048
01010163|beq x2 x16 2
01e10063|beq x2 x30 0
03e28063|beq x5 x30 32
7e140fe3|beq x8 x1 4094
7ef88f63|beq x17 x15 2046
800780e3|beq x15 x0 -2048
80510063|beq x2 x5 -4096
fef08f63|beq x1 x15 -2050
fef286e3|beq x5 x15 -20
ff000fe3|beq x0 x16 -2
ff0300e3|beq x6 x16 -32
fff00ce3|beq x0 x31 -8
000f9463|bne x31 x0 8
00109163|bne x1 x1 2
008790e3|bne x15 x8 2048
01109f63|bne x1 x17 30
016f1263|bne x30 x22 4
03e09063|bne x1 x30 32
7e029fe3|bne x5 x0 4094
7e289ee3|bne x17 x2 4092
7f989f63|bne x17 x25 2046
808f9063|bne x31 x8 -4096
fe0294e3|bne x5 x0 -24
fe0296e3|bne x5 x0 -20
fe041ae3|bne x8 x0 -12
fe081f63|bne x16 x0 -2050
fef89ee3|bne x17 x15 -4
ff089fe3|bne x17 x16 -2
fff01ce3|bne x0 x31 -8
000fc463|blt x31 x0 8
00214163|blt x2 x2 2
010fcf63|blt x31 x16 30
01efc0e3|blt x31 x30 2048
7e2f4ee3|blt x30 x2 4092
7fe84fe3|blt x16 x30 4094
8058c0e3|blt x17 x5 -2048
81044063|blt x8 x16 -4096
fe0fc0e3|blt x31 x0 -32
ffb2cf63|blt x5 x27 -2050
ffe04fe3|blt x0 x30 -2
ffef4ee3|blt x30 x30 -4
fff04ce3|blt x0 x31 -8
000fd463|bge x31 x0 8
005050e3|bge x0 x5 2048
008fdf63|bge x31 x8 30
00f05263|bge x0 x15 4
7e005fe3|bge x0 x0 4094
8000d063|bge x1 x0 -4096
802c50e3|bge x24 x2 -2048
ff0150e3|bge x2 x16 -32
ffe15f63|bge x2 x30 -2050
fff05ce3|bge x0 x31 -8
fff7dfe3|bge x15 x31 -2
000fe463|bltu x31 x0 8
005fe263|bltu x31 x5 4
00f16f63|bltu x2 x15 30
00f8e163|bltu x17 x15 2
01e2e0e3|bltu x5 x30 2048
020f6063|bltu x30 x0 32
7f18efe3|bltu x17 x17 4094
7fe8eee3|bltu x17 x30 4092
810060e3|bltu x0 x16 -2048
81f2e063|bltu x5 x31 -4096
fe02eee3|bltu x5 x0 -4
fe80e6e3|bltu x1 x8 -20
ff116f63|bltu x2 x17 -2050
fff06ce3|bltu x0 x31 -8
ffff6fe3|bltu x30 x31 -2
000ff463|bgeu x31 x0 8
00f17f63|bgeu x2 x15 30
011370e3|bgeu x6 x17 2048
01187163|bgeu x16 x17 2
028ff063|bgeu x31 x8 32
7e087ee3|bgeu x16 x0 4092
7ef2ffe3|bgeu x5 x15 4094
81e0f063|bgeu x1 x30 -4096
fe0ffee3|bgeu x31 x0 -4
ff0f70e3|bgeu x30 x16 -32
ff1ff6e3|bgeu x31 x17 -20
ffe17fe3|bgeu x2 x30 -2
fff07ce3|bgeu x0 x31 -8
00000003|lb x0 0(x0)
00038f03|lb x30 0(x7)
00188f83|lb x31 1(x17)
00488403|lb x8 4(x17)
7ff28783|lb x15 2047(x5)
7fff8f83|lb x31 2047(x31)
80000783|lb x15 -2048(x0)
ffc00103|lb x2 -4(x0)
fff08003|lb x0 -1(x1)
00001003|lh x0 0(x0)
00029883|lh x17 0(x5)
00189883|lh x17 1(x17)
00429783|lh x15 4(x5)
7fff1803|lh x16 2047(x30)
7fff9f83|lh x31 2047(x31)
800f1883|lh x17 -2048(x30)
ffc11403|lh x8 -4(x2)
fff89403|lh x8 -1(x17)
00002003|lw x0 0(x0)
0002a303|lw x6 0(x5)
0002a383|lw x7 0(x5)
0002a483|lw x9 0(x5)
0003a403|lw x8 0(x7)
0003a903|lw x18 0(x7)
000f2803|lw x16 0(x30)
0010a283|lw x5 1(x1)
0042a003|lw x0 4(x5)
7ff42883|lw x17 2047(x8)
7fffaf83|lw x31 2047(x31)
8002a083|lw x1 -2048(x5)
ffcf2403|lw x8 -4(x30)
fff12783|lw x15 -1(x2)
00004003|lbu x0 0(x0)
00044783|lbu x15 0(x8)
00104803|lbu x16 1(x0)
0048c103|lbu x2 4(x17)
7ff94403|lbu x8 2047(x18)
7fffcf83|lbu x31 2047(x31)
800f4083|lbu x1 -2048(x30)
ffcbc083|lbu x1 -4(x23)
fff2c803|lbu x16 -1(x5)
00005003|lhu x0 0(x0)
00015003|lhu x0 0(x2)
0017d403|lhu x8 1(x15)
0040d083|lhu x1 4(x1)
7fffd003|lhu x0 2047(x31)
7fffdf83|lhu x31 2047(x31)
8000d703|lhu x14 -2048(x1)
ffc8df03|lhu x30 -4(x17)
fff25003|lhu x0 -1(x4)
00000023|sb x0 0(x0)
000000a3|sb x0 1(x0)
005f0fa3|sb x5 31(x30)
00f28223|sb x15 4(x5)
01e40023|sb x30 0(x8)
03f80023|sb x31 32(x16)
7f1f0fa3|sb x17 2047(x30)
80080023|sb x0 -2048(x16)
fc278fa3|sb x2 -33(x15)
fe0f0023|sb x0 -32(x30)
ff008fa3|sb x16 -1(x1)
fff100a3|sb x31 -31(x2)
fff40e23|sb x31 -4(x8)
ffff8fa3|sb x31 -1(x31)
00001023|sh x0 0(x0)
005110a3|sh x5 1(x2)
01011fa3|sh x16 31(x2)
011f9023|sh x17 0(x31)
01c79223|sh x28 4(x15)
02209023|sh x2 32(x1)
7e5f1fa3|sh x5 2047(x30)
80179023|sh x1 -2048(x15)
fc841fa3|sh x8 -33(x8)
fe0f1023|sh x0 -32(x30)
fe281e23|sh x2 -4(x16)
fe8110a3|sh x8 -31(x2)
fef41fa3|sh x15 -1(x8)
ffff9fa3|sh x31 -1(x31)
00002023|sw x0 0(x0)
00042023|sw x0 0(x8)
000f20a3|sw x0 1(x30)
001f2223|sw x1 4(x30)
0063a023|sw x6 0(x7)
00a2afa3|sw x10 31(x5)
03e82023|sw x30 32(x16)
7fe0afa3|sw x30 2047(x1)
80012023|sw x0 -2048(x2)
fc57afa3|sw x5 -33(x15)
fe282023|sw x2 -32(x16)
fea32fa3|sw x10 -1(x6)
fef120a3|sw x15 -31(x2)
fff2ae23|sw x31 -4(x5)
ffffafa3|sw x31 -1(x31)
00000013|addi x0 x0 0
00028593|addi x11 x5 0
00040093|addi x1 x8 0
00100613|addi x12 x0 1
00108093|addi x1 x1 1
00148493|addi x9 x9 1
00180113|addi x2 x16 1
00200613|addi x12 x0 2
00200693|addi x13 x0 2
00280b93|addi x23 x16 2
00300913|addi x18 x0 3
00600593|addi x11 x0 6
00800593|addi x11 x0 8
00900593|addi x11 x0 9
00f00593|addi x11 x0 15
01050513|addi x10 x10 16
02100513|addi x10 x0 33
02150513|addi x10 x10 33
02450513|addi x10 x10 36
02500513|addi x10 x0 37
04000513|addi x10 x0 64
04050513|addi x10 x10 64
06150513|addi x10 x10 97
06550513|addi x10 x10 101
3ff00013|addi x0 x0 1023
40078793|addi x15 x15 1024
7fe80293|addi x5 x16 2046
7fff8f93|addi x31 x31 2047
80078813|addi x16 x15 -2048
80108813|addi x16 x1 -2047
bfff0813|addi x16 x30 -1025
fff28293|addi x5 x5 -1
fff40413|addi x8 x8 -1
fff80413|addi x8 x16 -1
ffff8f93|addi x31 x31 -1
00002013|slti x0 x0 0
00082113|slti x2 x16 0
001fa113|slti x2 x31 1
00212013|slti x0 x2 2
3ff8a093|slti x1 x17 1023
4007a793|slti x15 x15 1024
7fefa113|slti x2 x31 2046
7fffab13|slti x22 x31 2047
800fa893|slti x17 x31 -2048
80102013|slti x0 x0 -2047
bff2ad13|slti x26 x5 -1025
fff42013|slti x0 x8 -1
ffffaf93|slti x31 x31 -1
00003013|sltiu x0 x0 0
0007b893|sltiu x17 x15 0
0010b013|sltiu x0 x1 1
002f3113|sltiu x2 x30 2
3ff43d13|sltiu x26 x8 1023
400f3f93|sltiu x31 x30 1024
7fe13413|sltiu x8 x2 2046
7ff03093|sltiu x1 x0 2047
8007b013|sltiu x0 x15 -2048
8017b093|sltiu x1 x15 -2047
bff43813|sltiu x16 x8 -1025
ffff3113|sltiu x2 x30 -1
ffffbf93|sltiu x31 x31 -1
00004013|xori x0 x0 0
0000cf13|xori x30 x1 0
0018c893|xori x17 x17 1
002fcf93|xori x31 x31 2
3ff8c793|xori x15 x17 1023
4007c993|xori x19 x15 1024
7fe8c113|xori x2 x17 2046
7ff8cf13|xori x30 x17 2047
8002c793|xori x15 x5 -2048
8014c793|xori x15 x9 -2047
bff94893|xori x17 x18 -1025
ffff4813|xori x16 x30 -1
ffffcf93|xori x31 x31 -1
00006013|ori x0 x0 0
0002e013|ori x0 x5 0
00106293|ori x5 x0 1
00246893|ori x17 x8 2
3ff0ea93|ori x21 x1 1023
4000e113|ori x2 x1 1024
7fefe413|ori x8 x31 2046
7fffe813|ori x16 x31 2047
8002e813|ori x16 x5 -2048
80146113|ori x2 x8 -2047
bff16013|ori x0 x2 -1025
fff06f93|ori x31 x0 -1
ffffef93|ori x31 x31 -1
00007013|andi x0 x0 0
0008f893|andi x17 x17 0
00147113|andi x2 x8 1
00207293|andi x5 x0 2
3ff47813|andi x16 x8 1023
40007793|andi x15 x0 1024
7fe87893|andi x17 x16 2046
7ffdff13|andi x30 x27 2047
800a7113|andi x2 x20 -2048
8013ff13|andi x30 x7 -2047
bff2f413|andi x8 x5 -1025
ffff7793|andi x15 x30 -1
ffffff93|andi x31 x31 -1
00001013|slli x0 x0 0
00081793|slli x15 x16 0
00189013|slli x0 x17 1
00501893|slli x17 x0 5
00f11293|slli x5 x2 15
01029793|slli x15 x5 16
01e81413|slli x8 x16 30
01f79f93|slli x31 x15 31
01ff9f93|slli x31 x31 31
00005013|srli x0 x0 0
0000df93|srli x31 x1 0
0013d813|srli x16 x7 1
0058df13|srli x30 x17 5
00f45013|srli x0 x8 15
01045093|srli x1 x8 16
01e0d393|srli x7 x1 30
01ff5793|srli x15 x30 31
01ffdf93|srli x31 x31 31
40005013|srai x0 x0 0
4000d793|srai x15 x1 0
4010d813|srai x16 x1 1
40585793|srai x15 x16 5
40f7d413|srai x8 x15 15
410f5113|srai x2 x30 16
41e2d813|srai x16 x5 30
41f85413|srai x8 x16 31
41ffdf93|srai x31 x31 31
00000033|add x0 x0 x0
000f82b3|add x5 x31 x0
000f8833|add x16 x31 x0
003100b3|add x1 x2 x3
007282b3|add x5 x5 x7
00b30333|add x6 x6 x11
00b585b3|add x11 x11 x11
00f00fb3|add x31 x0 x15
00f78433|add x8 x15 x15
01ff8fb3|add x31 x31 x31
40000033|sub x0 x0 x0
400f8833|sub x16 x31 x0
402987b3|sub x15 x19 x2
403100b3|sub x1 x2 x3
40578033|sub x0 x15 x5
40f00fb3|sub x31 x0 x15
41ff8fb3|sub x31 x31 x31
00001033|sll x0 x0 x0
000f9833|sll x16 x31 x0
003110b3|sll x1 x2 x3
00f01833|sll x16 x0 x15
00f01fb3|sll x31 x0 x15
01181433|sll x8 x16 x17
01ff9fb3|sll x31 x31 x31
00002033|slt x0 x0 x0
000fa833|slt x16 x31 x0
003120b3|slt x1 x2 x3
00f02fb3|slt x31 x0 x15
0102a833|slt x16 x5 x16
01e021b3|slt x3 x0 x30
01ffafb3|slt x31 x31 x31
00003033|sltu x0 x0 x0
000fb833|sltu x16 x31 x0
003130b3|sltu x1 x2 x3
00bfb033|sltu x0 x31 x11
00f03fb3|sltu x31 x0 x15
011337b3|sltu x15 x6 x17
01ffbfb3|sltu x31 x31 x31
00004033|xor x0 x0 x0
000fc833|xor x16 x31 x0
003140b3|xor x1 x2 x3
00f04fb3|xor x31 x0 x15
00f2c7b3|xor x15 x5 x15
01e7c1b3|xor x3 x15 x30
01ffcfb3|xor x31 x31 x31
00005033|srl x0 x0 x0
000fd833|srl x16 x31 x0
00105f33|srl x30 x0 x1
003150b3|srl x1 x2 x3
008fd433|srl x8 x31 x8
00f05fb3|srl x31 x0 x15
01ffdfb3|srl x31 x31 x31
40005033|sra x0 x0 x0
400fd833|sra x16 x31 x0
403150b3|sra x1 x2 x3
4050d833|sra x16 x1 x5
40f05fb3|sra x31 x0 x15
4117d0b3|sra x1 x15 x17
41ffdfb3|sra x31 x31 x31
00006033|or x0 x0 x0
000fe833|or x16 x31 x0
003160b3|or x1 x2 x3
008168b3|or x17 x2 x8
00f06fb3|or x31 x0 x15
0158ef33|or x30 x17 x21
01ffefb3|or x31 x31 x31
00007033|and x0 x0 x0
000ff833|and x16 x31 x0
003170b3|and x1 x2 x3
00887833|and x16 x16 x8
00f07fb3|and x31 x0 x15
00f177b3|and x15 x2 x15
01ffffb3|and x31 x31 x31
0ff0000f|fence
00000073|ecall
00100073|ebreak";

/// Other spellings: the line, its word, and the text that is printed for it.
const SPELLINGS: &str = "\
lui x10 0x10|00010537|lui x10 16
lui x10 0x80|00080537|lui x10 128
lui x1 0xFFFFF|fffff0b7|lui x1 1048575
lui x1 0x000FfFfF|fffff0b7|lui x1 1048575
lui x1 0001048575|fffff0b7|lui x1 1048575
addi x1 x2 0x7ff|7ff10093|addi x1 x2 2047
addi x1 x2 0x0|00010093|addi x1 x2 0
addi x1 x2 0x00000010|01010093|addi x1 x2 16
addi x1 x2 -0|00010093|addi x1 x2 0
addi x1 x2 007|00710093|addi x1 x2 7
addi x1 x2 -0000000001|fff10093|addi x1 x2 -1
addi x1 x2 0000002047|7ff10093|addi x1 x2 2047
  addi   x1  x2    5  |00510093|addi x1 x2 5
lw x3 0x4(x2)|00412183|lw x3 4(x2)
lw x3 -0(x2)|00012183|lw x3 0(x2)
lw x3 007(x2)|00712183|lw x3 7(x2)
sw x1 0x7fF(x2)|7e112fa3|sw x1 2047(x2)
jalr x0 0x0(x1)|00008067|jalr x0 0(x1)
beq x1 x2 0x10|00208863|beq x1 x2 16
beq x1 x2 0xffe|7e208fe3|beq x1 x2 4094
beq x1 x2 0xFFE|7e208fe3|beq x1 x2 4094
beq x1 x2 -0000004096|80208063|beq x1 x2 -4096
jal x0 0xffffe|7ffff06f|jal x0 1048574
jal x1 0x2|002000ef|jal x1 2
slli x1 x1 0x1f|01f09093|slli x1 x1 31
srai x1 x1 00031|41f0d093|srai x1 x1 31
auipc x5 0x12345|12345297|auipc x5 74565
 fence|0ff0000f|fence
ecall |00000073|ecall
 ebreak |00100073|ebreak";

/// Lines whose first word is no mnemonic.
const BAD_MNEMONICS: &str = "\
nop

   
li x1 5
mv x1 x2
ret
j 8
ADDI x1 x2 5
Ecall
addi. x1 x2 5
fence.i
mul x1 x2 x3
ld x1 0(x2)
lwu x1 0(x2)
csrrw x1 0 x2
subi x1 x2 1
bgt x1 x2 8
c.nop
#addi x1 x2 5
x1
5
sltui x1 x2 1";

/// Lines whose operands are not those of the mnemonic.
const BAD_OPERANDS: &str = "\
addi
addi x1
addi x1 x2
addi x1 x2 5 6
addi x1 x2 2048
addi x1 x2 -2049
addi x1 x2 0xfff
addi x1 x2 0xffffffff
addi x1 x2 4294967295
addi x1 x2 +5
addi x1 x2 -0x1
addi x1 x2 0X10
addi x1 x2 0x
addi x1 x2 0x000000001
addi x1 x2 00000000005
addi x1 x2 --1
addi x1 x2 -
addi x1 x2 5a
addi x1 x2 x3
addi x1, x2, 5
addi x32 x2 5
addi x01 x2 5
addi X1 x2 5
addi x x2 5
addi x-1 x2 5
addi a0 x2 5
addi zero x2 5
addi x1 x2 5(x0)
addi 1 2 3
add x1 x2 3
add x1 x2
add x1 x2 x3 x4
add x1 x2 x032
slli x1 x2 32
slli x1 x2 -1
srai x1 x2 64
srli x1 x2 x3
lw x3 x2
lw x3 0 (x2)
lw x3 0( x2)
lw x3 (x2)
lw x3 0(x2
lw x3 0x2)
lw x3 0(x2))
lw x3 0((x2))
lw x3 0(x2)(x2)
lw x3 2048(x2)
lw x3 -2049(x2)
lw x3 0(x32)
lw x3 0()
lw x3 0
lw 0(x2) x3
sw x1 2048(x2)
sw x1
sw x1 0(x2) x3
jalr x1
jalr x1 x2 0
jalr x1 2048(x2)
beq x1 x2 1
beq x1 x2 4096
beq x1 x2 -4098
beq x1 x2 4095
beq x1 x2
beq x1 8
bne x1 x2 0x1000
jal 8
jal x0
jal x0 1
jal x0 1048576
jal x0 -1048578
jal x0 8 8
jal x0 1048575
lui x1 -1
lui x1 1048576
lui x1 0x100000
lui x1 0xfffff000
lui x1
lui 1 x1
auipc x1 -0x1
auipc x1 1048576
fence iorw iorw
fence 0
ecall 0
ecall x0
ebreak 1";

/// Words of `fence` in its spellings.
const FENCES: &str = "\
0000000f
0ff0000f
0330000f
0110000f
0220000f
0100000f
8330000f
fff0000f
0ff00f8f
0ff0008f
0fff800f
000f8f8f
ffff8f8f
1230000f
7770000f
80000a8f";

/// Words of RISC-V's other extensions and of other lengths, reserved words, and words of instructions with one bit
/// changed.
const ILLEGAL: &str = "\
00000000 all zeros
ffffffff all ones
023100b3 mul
03ff8fb3 mul
02000033 mul
023110b3 mulh
03ff9fb3 mulh
02001033 mulh
023120b3 mulhsu
03ffafb3 mulhsu
02002033 mulhsu
023130b3 mulhu
03ffbfb3 mulhu
02003033 mulhu
023140b3 div
03ffcfb3 div
02004033 div
023150b3 divu
03ffdfb3 divu
02005033 divu
023160b3 rem
03ffefb3 rem
02006033 rem
023170b3 remu
03ffffb3 remu
02007033 remu
403110b3 opcode 0110011 funct3 001 with funct7 0100000
403120b3 opcode 0110011 funct3 010 with funct7 0100000
403130b3 opcode 0110011 funct3 011 with funct7 0100000
403140b3 opcode 0110011 funct3 100 with funct7 0100000
403160b3 opcode 0110011 funct3 110 with funct7 0100000
403170b3 opcode 0110011 funct3 111 with funct7 0100000
047302b3 opcode 0110011 funct3 000 with funct7 0000010
087302b3 opcode 0110011 funct3 000 with funct7 0000100
107302b3 opcode 0110011 funct3 000 with funct7 0001000
207302b3 opcode 0110011 funct3 000 with funct7 0010000
427302b3 opcode 0110011 funct3 000 with funct7 0100001
7e7302b3 opcode 0110011 funct3 000 with funct7 0111111
807302b3 opcode 0110011 funct3 000 with funct7 1000000
c07302b3 opcode 0110011 funct3 000 with funct7 1100000
fe7302b3 opcode 0110011 funct3 000 with funct7 1111111
047312b3 opcode 0110011 funct3 001 with funct7 0000010
087312b3 opcode 0110011 funct3 001 with funct7 0000100
107312b3 opcode 0110011 funct3 001 with funct7 0001000
207312b3 opcode 0110011 funct3 001 with funct7 0010000
427312b3 opcode 0110011 funct3 001 with funct7 0100001
7e7312b3 opcode 0110011 funct3 001 with funct7 0111111
807312b3 opcode 0110011 funct3 001 with funct7 1000000
c07312b3 opcode 0110011 funct3 001 with funct7 1100000
fe7312b3 opcode 0110011 funct3 001 with funct7 1111111
047322b3 opcode 0110011 funct3 010 with funct7 0000010
087322b3 opcode 0110011 funct3 010 with funct7 0000100
107322b3 opcode 0110011 funct3 010 with funct7 0001000
207322b3 opcode 0110011 funct3 010 with funct7 0010000
427322b3 opcode 0110011 funct3 010 with funct7 0100001
7e7322b3 opcode 0110011 funct3 010 with funct7 0111111
807322b3 opcode 0110011 funct3 010 with funct7 1000000
c07322b3 opcode 0110011 funct3 010 with funct7 1100000
fe7322b3 opcode 0110011 funct3 010 with funct7 1111111
047332b3 opcode 0110011 funct3 011 with funct7 0000010
087332b3 opcode 0110011 funct3 011 with funct7 0000100
107332b3 opcode 0110011 funct3 011 with funct7 0001000
207332b3 opcode 0110011 funct3 011 with funct7 0010000
427332b3 opcode 0110011 funct3 011 with funct7 0100001
7e7332b3 opcode 0110011 funct3 011 with funct7 0111111
807332b3 opcode 0110011 funct3 011 with funct7 1000000
c07332b3 opcode 0110011 funct3 011 with funct7 1100000
fe7332b3 opcode 0110011 funct3 011 with funct7 1111111
047342b3 opcode 0110011 funct3 100 with funct7 0000010
087342b3 opcode 0110011 funct3 100 with funct7 0000100
107342b3 opcode 0110011 funct3 100 with funct7 0001000
207342b3 opcode 0110011 funct3 100 with funct7 0010000
427342b3 opcode 0110011 funct3 100 with funct7 0100001
7e7342b3 opcode 0110011 funct3 100 with funct7 0111111
807342b3 opcode 0110011 funct3 100 with funct7 1000000
c07342b3 opcode 0110011 funct3 100 with funct7 1100000
fe7342b3 opcode 0110011 funct3 100 with funct7 1111111
047352b3 opcode 0110011 funct3 101 with funct7 0000010
087352b3 opcode 0110011 funct3 101 with funct7 0000100
107352b3 opcode 0110011 funct3 101 with funct7 0001000
207352b3 opcode 0110011 funct3 101 with funct7 0010000
427352b3 opcode 0110011 funct3 101 with funct7 0100001
7e7352b3 opcode 0110011 funct3 101 with funct7 0111111
807352b3 opcode 0110011 funct3 101 with funct7 1000000
c07352b3 opcode 0110011 funct3 101 with funct7 1100000
fe7352b3 opcode 0110011 funct3 101 with funct7 1111111
047362b3 opcode 0110011 funct3 110 with funct7 0000010
087362b3 opcode 0110011 funct3 110 with funct7 0000100
107362b3 opcode 0110011 funct3 110 with funct7 0001000
207362b3 opcode 0110011 funct3 110 with funct7 0010000
427362b3 opcode 0110011 funct3 110 with funct7 0100001
7e7362b3 opcode 0110011 funct3 110 with funct7 0111111
807362b3 opcode 0110011 funct3 110 with funct7 1000000
c07362b3 opcode 0110011 funct3 110 with funct7 1100000
fe7362b3 opcode 0110011 funct3 110 with funct7 1111111
047372b3 opcode 0110011 funct3 111 with funct7 0000010
087372b3 opcode 0110011 funct3 111 with funct7 0000100
107372b3 opcode 0110011 funct3 111 with funct7 0001000
207372b3 opcode 0110011 funct3 111 with funct7 0010000
427372b3 opcode 0110011 funct3 111 with funct7 0100001
7e7372b3 opcode 0110011 funct3 111 with funct7 0111111
807372b3 opcode 0110011 funct3 111 with funct7 1000000
c07372b3 opcode 0110011 funct3 111 with funct7 1100000
fe7372b3 opcode 0110011 funct3 111 with funct7 1111111
02449493 slli with funct7 0000001
04449493 slli with funct7 0000010
08449493 slli with funct7 0000100
10449493 slli with funct7 0001000
20449493 slli with funct7 0010000
40449493 slli with funct7 0100000
42449493 slli with funct7 0100001
80449493 slli with funct7 1000000
fe449493 slli with funct7 1111111
0244d493 srli or srai with funct7 0000001
0444d493 srli or srai with funct7 0000010
0844d493 srli or srai with funct7 0000100
1044d493 srli or srai with funct7 0001000
2044d493 srli or srai with funct7 0010000
4244d493 srli or srai with funct7 0100001
4444d493 srli or srai with funct7 0100010
6044d493 srli or srai with funct7 0110000
8044d493 srli or srai with funct7 1000000
c044d493 srli or srai with funct7 1100000
fe44d493 srli or srai with funct7 1111111
004110e7 opcode 1100111 with funct3 001
004120e7 opcode 1100111 with funct3 010
004130e7 opcode 1100111 with funct3 011
004140e7 opcode 1100111 with funct3 100
004150e7 opcode 1100111 with funct3 101
004160e7 opcode 1100111 with funct3 110
004170e7 opcode 1100111 with funct3 111
00412463 branch with funct3 010
ffffafe3 branch with funct3 010
00413463 branch with funct3 011
ffffbfe3 branch with funct3 011
00413403 load with funct3 011 (ld)
ffffbf83 load with funct3 011 (ld)
00003003 load with funct3 011 (ld)
00416403 load with funct3 110 (lwu)
ffffef83 load with funct3 110 (lwu)
00006003 load with funct3 110 (lwu)
00417403 load with funct3 111
ffffff83 load with funct3 111
00007003 load with funct3 111
00413423 store with funct3 011 (sd)
ffffbfa3 store with funct3 011 (sd)
00414423 store with funct3 100
ffffcfa3 store with funct3 100
00415423 store with funct3 101
ffffdfa3 store with funct3 101
00416423 store with funct3 110
ffffefa3 store with funct3 110
00417423 store with funct3 111
ffffffa3 store with funct3 111
0000100f opcode 0001111 with funct3 001 (fence.i)
0000200f opcode 0001111 with funct3 010 (cbo)
0000300f opcode 0001111 with funct3 011
0000400f opcode 0001111 with funct3 100
0000500f opcode 0001111 with funct3 101
0000600f opcode 0001111 with funct3 110
0000700f opcode 0001111 with funct3 111
0ff0100f fence.i with other fields
ffff9f8f fence.i with other fields
0ff0700f opcode 0001111 with funct3 111
00200073 uret
10200073 sret
30200073 mret
10500073 wfi
12000073 sfence.vma
7b200073 dret
00d00073 wrs.nto
01d00073 wrs.sto
16000073 sinval.vma
000000f3 ecall with rd 1
00008073 ecall with rs1 1
001000f3 ebreak with rd 1
00108073 ebreak with rs1 1
00000ff3 ecall with rd 31
000f8073 ecall with rs1 31
00100ff3 ebreak with rd 31
80000073 ecall with the highest bit
80100073 ebreak with the highest bit
00300073 opcode 1110011 funct3 000, immediate 3
fff00073 opcode 1110011 funct3 000, immediate all ones
02000073 ecall with bit 25
02100073 ebreak with bit 25
00029573 csrrw of csr 000
00129573 csrrw of csr 001
30029573 csrrw of csr 300
c0029573 csrrw of csr c00
c8029573 csrrw of csr c80
fff29573 csrrw of csr fff
00001073 csrrw with all other fields 0
0002a573 csrrs of csr 000
0012a573 csrrs of csr 001
3002a573 csrrs of csr 300
c002a573 csrrs of csr c00
c802a573 csrrs of csr c80
fff2a573 csrrs of csr fff
00002073 csrrs with all other fields 0
0002b573 csrrc of csr 000
0012b573 csrrc of csr 001
3002b573 csrrc of csr 300
c002b573 csrrc of csr c00
c802b573 csrrc of csr c80
fff2b573 csrrc of csr fff
00003073 csrrc with all other fields 0
0002d573 csrrwi of csr 000
0012d573 csrrwi of csr 001
3002d573 csrrwi of csr 300
c002d573 csrrwi of csr c00
c802d573 csrrwi of csr c80
fff2d573 csrrwi of csr fff
00005073 csrrwi with all other fields 0
0002e573 csrrsi of csr 000
0012e573 csrrsi of csr 001
3002e573 csrrsi of csr 300
c002e573 csrrsi of csr c00
c802e573 csrrsi of csr c80
fff2e573 csrrsi of csr fff
00006073 csrrsi with all other fields 0
0002f573 csrrci of csr 000
0012f573 csrrci of csr 001
3002f573 csrrci of csr 300
c002f573 csrrci of csr c00
c802f573 csrrci of csr c80
fff2f573 csrrci of csr fff
00007073 csrrci with all other fields 0
00004073 opcode 1110011 with funct3 100
c0104573 opcode 1110011 with funct3 100
00000007 major opcode 0000111 (load-fp)
00312087 major opcode 0000111 (load-fp)
ffffff87 major opcode 0000111 (load-fp)
0000000b major opcode 0001011 (custom-0)
0031208b major opcode 0001011 (custom-0)
ffffff8b major opcode 0001011 (custom-0)
0000001b major opcode 0011011 (op-imm-32)
0031209b major opcode 0011011 (op-imm-32)
ffffff9b major opcode 0011011 (op-imm-32)
0000001f major opcode 0011111 (48-bit)
0031209f major opcode 0011111 (48-bit)
ffffff9f major opcode 0011111 (48-bit)
00000027 major opcode 0100111 (store-fp)
003120a7 major opcode 0100111 (store-fp)
ffffffa7 major opcode 0100111 (store-fp)
0000002b major opcode 0101011 (custom-1)
003120ab major opcode 0101011 (custom-1)
ffffffab major opcode 0101011 (custom-1)
0000002f major opcode 0101111 (amo)
003120af major opcode 0101111 (amo)
ffffffaf major opcode 0101111 (amo)
0000003b major opcode 0111011 (op-32)
003120bb major opcode 0111011 (op-32)
ffffffbb major opcode 0111011 (op-32)
0000003f major opcode 0111111 (64-bit)
003120bf major opcode 0111111 (64-bit)
ffffffbf major opcode 0111111 (64-bit)
00000043 major opcode 1000011 (madd)
003120c3 major opcode 1000011 (madd)
ffffffc3 major opcode 1000011 (madd)
00000047 major opcode 1000111 (msub)
003120c7 major opcode 1000111 (msub)
ffffffc7 major opcode 1000111 (msub)
0000004b major opcode 1001011 (nmsub)
003120cb major opcode 1001011 (nmsub)
ffffffcb major opcode 1001011 (nmsub)
0000004f major opcode 1001111 (nmadd)
003120cf major opcode 1001111 (nmadd)
ffffffcf major opcode 1001111 (nmadd)
00000053 major opcode 1010011 (op-fp)
003120d3 major opcode 1010011 (op-fp)
ffffffd3 major opcode 1010011 (op-fp)
00000057 major opcode 1010111 (op-v)
003120d7 major opcode 1010111 (op-v)
ffffffd7 major opcode 1010111 (op-v)
0000005b major opcode 1011011 (custom-2)
003120db major opcode 1011011 (custom-2)
ffffffdb major opcode 1011011 (custom-2)
0000005f major opcode 1011111 (48-bit)
003120df major opcode 1011111 (48-bit)
ffffffdf major opcode 1011111 (48-bit)
0000006b major opcode 1101011 (reserved)
003120eb major opcode 1101011 (reserved)
ffffffeb major opcode 1101011 (reserved)
00000077 major opcode 1110111 (op-p)
003120f7 major opcode 1110111 (op-p)
fffffff7 major opcode 1110111 (op-p)
0000007b major opcode 1111011 (custom-3)
003120fb major opcode 1111011 (custom-3)
fffffffb major opcode 1111011 (custom-3)
0000007f major opcode 1111111 (80-bit and more)
003120ff major opcode 1111111 (80-bit and more)
100120af lr.w
183120af sc.w
083120af amoswap.w
00012087 flw
00112027 fsw
003100d3 fadd.s
0031011b addiw
003100bb addw
403100bb subw
023100bb mulw
203120b3 sh1add
60011093 clz
60511093 sext.h
0a3140b3 min
60315093 rori
483110b3 bclr
0e3150b3 czero.eqz
00004504 low two bits 00 (16-bit form 4504)
00008080 low two bits 00 (16-bit form 8080)
00009000 low two bits 00 (16-bit form 9000)
0000fffc low two bits 00 (16-bit form fffc)
00000010 low two bits 00 (16-bit form 0010)
00000001 low two bits 01 (16-bit form 0001)
00004505 low two bits 01 (16-bit form 4505)
00008081 low two bits 01 (16-bit form 8081)
00009001 low two bits 01 (16-bit form 9001)
0000fffd low two bits 01 (16-bit form fffd)
00000011 low two bits 01 (16-bit form 0011)
00000002 low two bits 10 (16-bit form 0002)
00004506 low two bits 10 (16-bit form 4506)
00008082 low two bits 10 (16-bit form 8082)
00009002 low two bits 10 (16-bit form 9002)
0000fffe low two bits 10 (16-bit form fffe)
00000012 low two bits 10 (16-bit form 0012)
00010001 c.nop twice
80828082 c.ret twice
90029002 c.ebreak twice
12345678 low two bits 00
deadbeee low two bits 10
00500092 addi with low two bits 10
00500091 addi with low two bits 01
00500090 addi with low two bits 00
00000072 ecall with low two bits 10
00000070 ecall with low two bits 00
000000b5 lui with low two bits 01
0ff0000e fence with low two bits 10
00112022 sw with low two bits 10
22222222 the number 22222222
33333334 the number 33333334
000fa873 slt x16 x31 x0 with bit 6 changed
03e28062 beq x5 x30 32 with bit 0 changed
00147103 andi x2 x8 1 with bit 4 changed
000022b6 lui x5 2 with bit 0 changed
06150511 addi x10 x10 97 with bit 1 changed
7fe8c11b xori x2 x17 2046 with bit 3 changed
fe0294e7 bne x5 x0 -24 with bit 2 changed
bff4381b sltiu x16 x8 -1025 with bit 3 changed
00000021 sb x0 0(x0) with bit 1 changed
7fff9f93 lh x31 2047(x31) with bit 4 changed
00100053 ebreak with bit 5 changed
fe8110a1 sh x8 -31(x2) with bit 1 changed
fe0f1027 sh x0 -32(x30) with bit 2 changed
00f17f61 bgeu x2 x15 30 with bit 1 changed
ffffe035 lui x0 1048574 with bit 1 changed
00010527 lui x10 16 with bit 4 changed
ffff4812 xori x16 x30 -1 with bit 0 changed
ff000ff3 beq x0 x16 -2 with bit 4 changed
01e7c1a3 xor x3 x15 x30 with bit 4 changed
0017d443 lhu x8 1(x15) with bit 6 changed
0010b012 sltiu x0 x1 1 with bit 0 changed
fff4041b addi x8 x8 -1 with bit 3 changed
02209027 sh x2 32(x1) with bit 2 changed
fc57afa2 sw x5 -33(x15) with bit 0 changed
7fffdf81 lhu x31 2047(x31) with bit 1 changed
003130b1 sltu x1 x2 x3 with bit 1 changed
3ff47853 andi x16 x8 1023 with bit 6 changed
0002e01b ori x0 x5 0 with bit 3 changed
41ff8fb2 sub x31 x31 x31 with bit 0 changed
ff116f73 bltu x2 x17 -2050 with bit 4 changed
fef120a7 sw x15 -31(x2) with bit 2 changed
fe282027 sw x2 -32(x16) with bit 2 changed
ffffe057 auipc x0 1048574 with bit 6 changed
000fd467 bge x31 x0 8 with bit 2 changed
4007a792 slti x15 x15 1024 with bit 0 changed
801ff04f jal x0 -2048 with bit 5 changed
00214173 blt x2 x2 2 with bit 4 changed
008280e1 beq x5 x8 2048 with bit 1 changed
7fe84fe7 blt x16 x30 4094 with bit 2 changed
01ff5792 srli x15 x30 31 with bit 0 changed";

/// The text assembles to the word, and the word is an instruction printed as `printed`.
fn check_row(rt: &impl Abort, text: &str, word: &str, printed: &str) {
    let word = read_hex(word.as_bytes()).expect(rt, text);
    check(rt, assemble(text.as_bytes()) == Ok(word), text);
    let mut line = LineBuf::new();
    disassemble(decode(word).expect(rt, text), &mut line);
    check(rt, line.as_bytes() == printed.as_bytes(), text);
}

#[test]
fn instructions_have_their_words_and_texts(rt: HostRuntime) {
    for row in INSTRUCTIONS.lines() {
        let (word, text) = row.split_once('|').expect(&rt, row);
        check_row(&rt, text, word, text);
    }
}

#[test]
fn other_spellings_have_their_words_too(rt: HostRuntime) {
    for row in SPELLINGS.lines() {
        let (text, rest) = row.split_once('|').expect(&rt, row);
        let (word, printed) = rest.split_once('|').expect(&rt, row);
        check_row(&rt, text, word, printed);
    }
}

#[test]
fn other_first_words_are_refused(rt: HostRuntime) {
    for text in BAD_MNEMONICS.lines() {
        check(
            &rt,
            assemble(text.as_bytes()) == Err(AsmFault::BadMnemonic),
            text,
        );
    }
}

#[test]
fn other_operands_are_refused(rt: HostRuntime) {
    for text in BAD_OPERANDS.lines() {
        check(
            &rt,
            assemble(text.as_bytes()) == Err(AsmFault::BadOperand),
            text,
        );
    }
}

#[test]
fn other_words_are_illegal(rt: HostRuntime) {
    for row in ILLEGAL.lines() {
        check(&rt, decode(hex(&rt, row, 0)).is_err(), row);
    }
}

#[test]
fn each_word_of_fence_is_fence(rt: HostRuntime) {
    for row in FENCES.lines() {
        check(
            &rt,
            matches!(decode(hex(&rt, row, 0)), Ok(Insn::Fence)),
            row,
        );
    }
    assert!(rt; encode(Insn::Fence) == 0x0ff0_000f);
}
