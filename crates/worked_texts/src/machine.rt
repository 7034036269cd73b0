//! What a step gives for edge operands, against what QEMU's user emulator gave.
//!
//! The expected values were printed by `tools/rv32_values/values.c`, compiled by
//! riscv64-unknown-elf-gcc 12.2.0 and run on qemu-riscv32 7.2.22, both from Debian 12.

use crate::rows::{byte, check, hex};
use coy_text::words_from;
use rv32_asm::assemble_insn;
use rv32_user::{Effect, finish_load, step};
use std::process::Abort;

/// The pc, what x1 and x2 hold, what x3 holds after the instruction, the next pc, and the instruction. Before it
/// x3 holds what x1 holds.
const STEPS: &str = "\
1000 0 0 0 1004 add x3 x1 x2
1000 0 1 1 1004 add x3 x1 x2
1000 1 0 1 1004 add x3 x1 x2
1000 1 ffffffff 0 1004 add x3 x1 x2
1000 ffffffff 1 0 1004 add x3 x1 x2
1000 ffffffff ffffffff fffffffe 1004 add x3 x1 x2
1000 80000000 1 80000001 1004 add x3 x1 x2
1000 80000000 ffffffff 7fffffff 1004 add x3 x1 x2
1000 80000000 80000000 0 1004 add x3 x1 x2
1000 80000000 7fffffff ffffffff 1004 add x3 x1 x2
1000 7fffffff 80000000 ffffffff 1004 add x3 x1 x2
1000 7fffffff 1 80000000 1004 add x3 x1 x2
1000 7fffffff 1f 8000001e 1004 add x3 x1 x2
1000 80000000 1f 8000001f 1004 add x3 x1 x2
1000 ffffffff 20 1f 1004 add x3 x1 x2
1000 12345678 21 12345699 1004 add x3 x1 x2
1000 deadbeef 13 deadbf02 1004 add x3 x1 x2
1000 fffffffe ffffffff fffffffd 1004 add x3 x1 x2
1000 0 0 0 1004 sub x3 x1 x2
1000 0 1 ffffffff 1004 sub x3 x1 x2
1000 1 0 1 1004 sub x3 x1 x2
1000 1 ffffffff 2 1004 sub x3 x1 x2
1000 ffffffff 1 fffffffe 1004 sub x3 x1 x2
1000 ffffffff ffffffff 0 1004 sub x3 x1 x2
1000 80000000 1 7fffffff 1004 sub x3 x1 x2
1000 80000000 ffffffff 80000001 1004 sub x3 x1 x2
1000 80000000 80000000 0 1004 sub x3 x1 x2
1000 80000000 7fffffff 1 1004 sub x3 x1 x2
1000 7fffffff 80000000 ffffffff 1004 sub x3 x1 x2
1000 7fffffff 1 7ffffffe 1004 sub x3 x1 x2
1000 7fffffff 1f 7fffffe0 1004 sub x3 x1 x2
1000 80000000 1f 7fffffe1 1004 sub x3 x1 x2
1000 ffffffff 20 ffffffdf 1004 sub x3 x1 x2
1000 12345678 21 12345657 1004 sub x3 x1 x2
1000 deadbeef 13 deadbedc 1004 sub x3 x1 x2
1000 fffffffe ffffffff ffffffff 1004 sub x3 x1 x2
1000 0 0 0 1004 sll x3 x1 x2
1000 0 1 0 1004 sll x3 x1 x2
1000 1 0 1 1004 sll x3 x1 x2
1000 1 ffffffff 80000000 1004 sll x3 x1 x2
1000 ffffffff 1 fffffffe 1004 sll x3 x1 x2
1000 ffffffff ffffffff 80000000 1004 sll x3 x1 x2
1000 80000000 1 0 1004 sll x3 x1 x2
1000 80000000 ffffffff 0 1004 sll x3 x1 x2
1000 80000000 80000000 80000000 1004 sll x3 x1 x2
1000 80000000 7fffffff 0 1004 sll x3 x1 x2
1000 7fffffff 80000000 7fffffff 1004 sll x3 x1 x2
1000 7fffffff 1 fffffffe 1004 sll x3 x1 x2
1000 7fffffff 1f 80000000 1004 sll x3 x1 x2
1000 80000000 1f 0 1004 sll x3 x1 x2
1000 ffffffff 20 ffffffff 1004 sll x3 x1 x2
1000 12345678 21 2468acf0 1004 sll x3 x1 x2
1000 deadbeef 13 f7780000 1004 sll x3 x1 x2
1000 fffffffe ffffffff 0 1004 sll x3 x1 x2
1000 0 0 0 1004 slt x3 x1 x2
1000 0 1 1 1004 slt x3 x1 x2
1000 1 0 0 1004 slt x3 x1 x2
1000 1 ffffffff 0 1004 slt x3 x1 x2
1000 ffffffff 1 1 1004 slt x3 x1 x2
1000 ffffffff ffffffff 0 1004 slt x3 x1 x2
1000 80000000 1 1 1004 slt x3 x1 x2
1000 80000000 ffffffff 1 1004 slt x3 x1 x2
1000 80000000 80000000 0 1004 slt x3 x1 x2
1000 80000000 7fffffff 1 1004 slt x3 x1 x2
1000 7fffffff 80000000 0 1004 slt x3 x1 x2
1000 7fffffff 1 0 1004 slt x3 x1 x2
1000 7fffffff 1f 0 1004 slt x3 x1 x2
1000 80000000 1f 1 1004 slt x3 x1 x2
1000 ffffffff 20 1 1004 slt x3 x1 x2
1000 12345678 21 0 1004 slt x3 x1 x2
1000 deadbeef 13 1 1004 slt x3 x1 x2
1000 fffffffe ffffffff 1 1004 slt x3 x1 x2
1000 0 0 0 1004 sltu x3 x1 x2
1000 0 1 1 1004 sltu x3 x1 x2
1000 1 0 0 1004 sltu x3 x1 x2
1000 1 ffffffff 1 1004 sltu x3 x1 x2
1000 ffffffff 1 0 1004 sltu x3 x1 x2
1000 ffffffff ffffffff 0 1004 sltu x3 x1 x2
1000 80000000 1 0 1004 sltu x3 x1 x2
1000 80000000 ffffffff 1 1004 sltu x3 x1 x2
1000 80000000 80000000 0 1004 sltu x3 x1 x2
1000 80000000 7fffffff 0 1004 sltu x3 x1 x2
1000 7fffffff 80000000 1 1004 sltu x3 x1 x2
1000 7fffffff 1 0 1004 sltu x3 x1 x2
1000 7fffffff 1f 0 1004 sltu x3 x1 x2
1000 80000000 1f 0 1004 sltu x3 x1 x2
1000 ffffffff 20 0 1004 sltu x3 x1 x2
1000 12345678 21 0 1004 sltu x3 x1 x2
1000 deadbeef 13 0 1004 sltu x3 x1 x2
1000 fffffffe ffffffff 1 1004 sltu x3 x1 x2
1000 0 0 0 1004 xor x3 x1 x2
1000 0 1 1 1004 xor x3 x1 x2
1000 1 0 1 1004 xor x3 x1 x2
1000 1 ffffffff fffffffe 1004 xor x3 x1 x2
1000 ffffffff 1 fffffffe 1004 xor x3 x1 x2
1000 ffffffff ffffffff 0 1004 xor x3 x1 x2
1000 80000000 1 80000001 1004 xor x3 x1 x2
1000 80000000 ffffffff 7fffffff 1004 xor x3 x1 x2
1000 80000000 80000000 0 1004 xor x3 x1 x2
1000 80000000 7fffffff ffffffff 1004 xor x3 x1 x2
1000 7fffffff 80000000 ffffffff 1004 xor x3 x1 x2
1000 7fffffff 1 7ffffffe 1004 xor x3 x1 x2
1000 7fffffff 1f 7fffffe0 1004 xor x3 x1 x2
1000 80000000 1f 8000001f 1004 xor x3 x1 x2
1000 ffffffff 20 ffffffdf 1004 xor x3 x1 x2
1000 12345678 21 12345659 1004 xor x3 x1 x2
1000 deadbeef 13 deadbefc 1004 xor x3 x1 x2
1000 fffffffe ffffffff 1 1004 xor x3 x1 x2
1000 0 0 0 1004 srl x3 x1 x2
1000 0 1 0 1004 srl x3 x1 x2
1000 1 0 1 1004 srl x3 x1 x2
1000 1 ffffffff 0 1004 srl x3 x1 x2
1000 ffffffff 1 7fffffff 1004 srl x3 x1 x2
1000 ffffffff ffffffff 1 1004 srl x3 x1 x2
1000 80000000 1 40000000 1004 srl x3 x1 x2
1000 80000000 ffffffff 1 1004 srl x3 x1 x2
1000 80000000 80000000 80000000 1004 srl x3 x1 x2
1000 80000000 7fffffff 1 1004 srl x3 x1 x2
1000 7fffffff 80000000 7fffffff 1004 srl x3 x1 x2
1000 7fffffff 1 3fffffff 1004 srl x3 x1 x2
1000 7fffffff 1f 0 1004 srl x3 x1 x2
1000 80000000 1f 1 1004 srl x3 x1 x2
1000 ffffffff 20 ffffffff 1004 srl x3 x1 x2
1000 12345678 21 91a2b3c 1004 srl x3 x1 x2
1000 deadbeef 13 1bd5 1004 srl x3 x1 x2
1000 fffffffe ffffffff 1 1004 srl x3 x1 x2
1000 0 0 0 1004 sra x3 x1 x2
1000 0 1 0 1004 sra x3 x1 x2
1000 1 0 1 1004 sra x3 x1 x2
1000 1 ffffffff 0 1004 sra x3 x1 x2
1000 ffffffff 1 ffffffff 1004 sra x3 x1 x2
1000 ffffffff ffffffff ffffffff 1004 sra x3 x1 x2
1000 80000000 1 c0000000 1004 sra x3 x1 x2
1000 80000000 ffffffff ffffffff 1004 sra x3 x1 x2
1000 80000000 80000000 80000000 1004 sra x3 x1 x2
1000 80000000 7fffffff ffffffff 1004 sra x3 x1 x2
1000 7fffffff 80000000 7fffffff 1004 sra x3 x1 x2
1000 7fffffff 1 3fffffff 1004 sra x3 x1 x2
1000 7fffffff 1f 0 1004 sra x3 x1 x2
1000 80000000 1f ffffffff 1004 sra x3 x1 x2
1000 ffffffff 20 ffffffff 1004 sra x3 x1 x2
1000 12345678 21 91a2b3c 1004 sra x3 x1 x2
1000 deadbeef 13 fffffbd5 1004 sra x3 x1 x2
1000 fffffffe ffffffff ffffffff 1004 sra x3 x1 x2
1000 0 0 0 1004 or x3 x1 x2
1000 0 1 1 1004 or x3 x1 x2
1000 1 0 1 1004 or x3 x1 x2
1000 1 ffffffff ffffffff 1004 or x3 x1 x2
1000 ffffffff 1 ffffffff 1004 or x3 x1 x2
1000 ffffffff ffffffff ffffffff 1004 or x3 x1 x2
1000 80000000 1 80000001 1004 or x3 x1 x2
1000 80000000 ffffffff ffffffff 1004 or x3 x1 x2
1000 80000000 80000000 80000000 1004 or x3 x1 x2
1000 80000000 7fffffff ffffffff 1004 or x3 x1 x2
1000 7fffffff 80000000 ffffffff 1004 or x3 x1 x2
1000 7fffffff 1 7fffffff 1004 or x3 x1 x2
1000 7fffffff 1f 7fffffff 1004 or x3 x1 x2
1000 80000000 1f 8000001f 1004 or x3 x1 x2
1000 ffffffff 20 ffffffff 1004 or x3 x1 x2
1000 12345678 21 12345679 1004 or x3 x1 x2
1000 deadbeef 13 deadbeff 1004 or x3 x1 x2
1000 fffffffe ffffffff ffffffff 1004 or x3 x1 x2
1000 0 0 0 1004 and x3 x1 x2
1000 0 1 0 1004 and x3 x1 x2
1000 1 0 0 1004 and x3 x1 x2
1000 1 ffffffff 1 1004 and x3 x1 x2
1000 ffffffff 1 1 1004 and x3 x1 x2
1000 ffffffff ffffffff ffffffff 1004 and x3 x1 x2
1000 80000000 1 0 1004 and x3 x1 x2
1000 80000000 ffffffff 80000000 1004 and x3 x1 x2
1000 80000000 80000000 80000000 1004 and x3 x1 x2
1000 80000000 7fffffff 0 1004 and x3 x1 x2
1000 7fffffff 80000000 0 1004 and x3 x1 x2
1000 7fffffff 1 1 1004 and x3 x1 x2
1000 7fffffff 1f 1f 1004 and x3 x1 x2
1000 80000000 1f 0 1004 and x3 x1 x2
1000 ffffffff 20 20 1004 and x3 x1 x2
1000 12345678 21 20 1004 and x3 x1 x2
1000 deadbeef 13 3 1004 and x3 x1 x2
1000 fffffffe ffffffff fffffffe 1004 and x3 x1 x2
1000 0 0 0 1010 beq x1 x2 16
1000 0 1 0 1004 beq x1 x2 16
1000 1 0 1 1004 beq x1 x2 16
1000 1 ffffffff 1 1004 beq x1 x2 16
1000 ffffffff 1 ffffffff 1004 beq x1 x2 16
1000 ffffffff ffffffff ffffffff 1010 beq x1 x2 16
1000 80000000 1 80000000 1004 beq x1 x2 16
1000 80000000 ffffffff 80000000 1004 beq x1 x2 16
1000 80000000 80000000 80000000 1010 beq x1 x2 16
1000 80000000 7fffffff 80000000 1004 beq x1 x2 16
1000 7fffffff 80000000 7fffffff 1004 beq x1 x2 16
1000 7fffffff 1 7fffffff 1004 beq x1 x2 16
1000 7fffffff 1f 7fffffff 1004 beq x1 x2 16
1000 80000000 1f 80000000 1004 beq x1 x2 16
1000 ffffffff 20 ffffffff 1004 beq x1 x2 16
1000 12345678 21 12345678 1004 beq x1 x2 16
1000 deadbeef 13 deadbeef 1004 beq x1 x2 16
1000 fffffffe ffffffff fffffffe 1004 beq x1 x2 16
1000 0 0 0 1004 bne x1 x2 16
1000 0 1 0 1010 bne x1 x2 16
1000 1 0 1 1010 bne x1 x2 16
1000 1 ffffffff 1 1010 bne x1 x2 16
1000 ffffffff 1 ffffffff 1010 bne x1 x2 16
1000 ffffffff ffffffff ffffffff 1004 bne x1 x2 16
1000 80000000 1 80000000 1010 bne x1 x2 16
1000 80000000 ffffffff 80000000 1010 bne x1 x2 16
1000 80000000 80000000 80000000 1004 bne x1 x2 16
1000 80000000 7fffffff 80000000 1010 bne x1 x2 16
1000 7fffffff 80000000 7fffffff 1010 bne x1 x2 16
1000 7fffffff 1 7fffffff 1010 bne x1 x2 16
1000 7fffffff 1f 7fffffff 1010 bne x1 x2 16
1000 80000000 1f 80000000 1010 bne x1 x2 16
1000 ffffffff 20 ffffffff 1010 bne x1 x2 16
1000 12345678 21 12345678 1010 bne x1 x2 16
1000 deadbeef 13 deadbeef 1010 bne x1 x2 16
1000 fffffffe ffffffff fffffffe 1010 bne x1 x2 16
1000 0 0 0 1004 blt x1 x2 16
1000 0 1 0 1010 blt x1 x2 16
1000 1 0 1 1004 blt x1 x2 16
1000 1 ffffffff 1 1004 blt x1 x2 16
1000 ffffffff 1 ffffffff 1010 blt x1 x2 16
1000 ffffffff ffffffff ffffffff 1004 blt x1 x2 16
1000 80000000 1 80000000 1010 blt x1 x2 16
1000 80000000 ffffffff 80000000 1010 blt x1 x2 16
1000 80000000 80000000 80000000 1004 blt x1 x2 16
1000 80000000 7fffffff 80000000 1010 blt x1 x2 16
1000 7fffffff 80000000 7fffffff 1004 blt x1 x2 16
1000 7fffffff 1 7fffffff 1004 blt x1 x2 16
1000 7fffffff 1f 7fffffff 1004 blt x1 x2 16
1000 80000000 1f 80000000 1010 blt x1 x2 16
1000 ffffffff 20 ffffffff 1010 blt x1 x2 16
1000 12345678 21 12345678 1004 blt x1 x2 16
1000 deadbeef 13 deadbeef 1010 blt x1 x2 16
1000 fffffffe ffffffff fffffffe 1010 blt x1 x2 16
1000 0 0 0 1010 bge x1 x2 16
1000 0 1 0 1004 bge x1 x2 16
1000 1 0 1 1010 bge x1 x2 16
1000 1 ffffffff 1 1010 bge x1 x2 16
1000 ffffffff 1 ffffffff 1004 bge x1 x2 16
1000 ffffffff ffffffff ffffffff 1010 bge x1 x2 16
1000 80000000 1 80000000 1004 bge x1 x2 16
1000 80000000 ffffffff 80000000 1004 bge x1 x2 16
1000 80000000 80000000 80000000 1010 bge x1 x2 16
1000 80000000 7fffffff 80000000 1004 bge x1 x2 16
1000 7fffffff 80000000 7fffffff 1010 bge x1 x2 16
1000 7fffffff 1 7fffffff 1010 bge x1 x2 16
1000 7fffffff 1f 7fffffff 1010 bge x1 x2 16
1000 80000000 1f 80000000 1004 bge x1 x2 16
1000 ffffffff 20 ffffffff 1004 bge x1 x2 16
1000 12345678 21 12345678 1010 bge x1 x2 16
1000 deadbeef 13 deadbeef 1004 bge x1 x2 16
1000 fffffffe ffffffff fffffffe 1004 bge x1 x2 16
1000 0 0 0 1004 bltu x1 x2 16
1000 0 1 0 1010 bltu x1 x2 16
1000 1 0 1 1004 bltu x1 x2 16
1000 1 ffffffff 1 1010 bltu x1 x2 16
1000 ffffffff 1 ffffffff 1004 bltu x1 x2 16
1000 ffffffff ffffffff ffffffff 1004 bltu x1 x2 16
1000 80000000 1 80000000 1004 bltu x1 x2 16
1000 80000000 ffffffff 80000000 1010 bltu x1 x2 16
1000 80000000 80000000 80000000 1004 bltu x1 x2 16
1000 80000000 7fffffff 80000000 1004 bltu x1 x2 16
1000 7fffffff 80000000 7fffffff 1010 bltu x1 x2 16
1000 7fffffff 1 7fffffff 1004 bltu x1 x2 16
1000 7fffffff 1f 7fffffff 1004 bltu x1 x2 16
1000 80000000 1f 80000000 1004 bltu x1 x2 16
1000 ffffffff 20 ffffffff 1004 bltu x1 x2 16
1000 12345678 21 12345678 1004 bltu x1 x2 16
1000 deadbeef 13 deadbeef 1004 bltu x1 x2 16
1000 fffffffe ffffffff fffffffe 1010 bltu x1 x2 16
1000 0 0 0 1010 bgeu x1 x2 16
1000 0 1 0 1004 bgeu x1 x2 16
1000 1 0 1 1010 bgeu x1 x2 16
1000 1 ffffffff 1 1004 bgeu x1 x2 16
1000 ffffffff 1 ffffffff 1010 bgeu x1 x2 16
1000 ffffffff ffffffff ffffffff 1010 bgeu x1 x2 16
1000 80000000 1 80000000 1010 bgeu x1 x2 16
1000 80000000 ffffffff 80000000 1004 bgeu x1 x2 16
1000 80000000 80000000 80000000 1010 bgeu x1 x2 16
1000 80000000 7fffffff 80000000 1010 bgeu x1 x2 16
1000 7fffffff 80000000 7fffffff 1004 bgeu x1 x2 16
1000 7fffffff 1 7fffffff 1010 bgeu x1 x2 16
1000 7fffffff 1f 7fffffff 1010 bgeu x1 x2 16
1000 80000000 1f 80000000 1010 bgeu x1 x2 16
1000 ffffffff 20 ffffffff 1010 bgeu x1 x2 16
1000 12345678 21 12345678 1010 bgeu x1 x2 16
1000 deadbeef 13 deadbeef 1010 bgeu x1 x2 16
1000 fffffffe ffffffff fffffffe 1004 bgeu x1 x2 16
1000 0 0 ffffffff 1004 addi x3 x1 -1
1000 1 0 fffff801 1004 addi x3 x1 -2048
1000 ffffffff 0 fffffffe 1004 addi x3 x1 -1
1000 ffffffff 0 0 1004 addi x3 x1 1
1000 80000000 0 7fffffff 1004 addi x3 x1 -1
1000 80000000 0 80000000 1004 addi x3 x1 0
1000 7fffffff 0 80000000 1004 addi x3 x1 1
1000 7fffffff 0 800007fe 1004 addi x3 x1 2047
1000 fffff800 0 fffff000 1004 addi x3 x1 -2048
1000 fffff7ff 0 ffffefff 1004 addi x3 x1 -2048
1000 12345678 0 12345555 1004 addi x3 x1 -291
1000 0 0 0 1004 slti x3 x1 -1
1000 1 0 0 1004 slti x3 x1 -2048
1000 ffffffff 0 0 1004 slti x3 x1 -1
1000 ffffffff 0 1 1004 slti x3 x1 1
1000 80000000 0 1 1004 slti x3 x1 -1
1000 80000000 0 1 1004 slti x3 x1 0
1000 7fffffff 0 0 1004 slti x3 x1 1
1000 7fffffff 0 0 1004 slti x3 x1 2047
1000 fffff800 0 0 1004 slti x3 x1 -2048
1000 fffff7ff 0 1 1004 slti x3 x1 -2048
1000 12345678 0 0 1004 slti x3 x1 -291
1000 0 0 1 1004 sltiu x3 x1 -1
1000 1 0 1 1004 sltiu x3 x1 -2048
1000 ffffffff 0 0 1004 sltiu x3 x1 -1
1000 ffffffff 0 0 1004 sltiu x3 x1 1
1000 80000000 0 1 1004 sltiu x3 x1 -1
1000 80000000 0 0 1004 sltiu x3 x1 0
1000 7fffffff 0 0 1004 sltiu x3 x1 1
1000 7fffffff 0 0 1004 sltiu x3 x1 2047
1000 fffff800 0 0 1004 sltiu x3 x1 -2048
1000 fffff7ff 0 1 1004 sltiu x3 x1 -2048
1000 12345678 0 1 1004 sltiu x3 x1 -291
1000 0 0 ffffffff 1004 xori x3 x1 -1
1000 1 0 fffff801 1004 xori x3 x1 -2048
1000 ffffffff 0 0 1004 xori x3 x1 -1
1000 ffffffff 0 fffffffe 1004 xori x3 x1 1
1000 80000000 0 7fffffff 1004 xori x3 x1 -1
1000 80000000 0 80000000 1004 xori x3 x1 0
1000 7fffffff 0 7ffffffe 1004 xori x3 x1 1
1000 7fffffff 0 7ffff800 1004 xori x3 x1 2047
1000 fffff800 0 0 1004 xori x3 x1 -2048
1000 fffff7ff 0 fff 1004 xori x3 x1 -2048
1000 12345678 0 edcba8a5 1004 xori x3 x1 -291
1000 0 0 ffffffff 1004 ori x3 x1 -1
1000 1 0 fffff801 1004 ori x3 x1 -2048
1000 ffffffff 0 ffffffff 1004 ori x3 x1 -1
1000 ffffffff 0 ffffffff 1004 ori x3 x1 1
1000 80000000 0 ffffffff 1004 ori x3 x1 -1
1000 80000000 0 80000000 1004 ori x3 x1 0
1000 7fffffff 0 7fffffff 1004 ori x3 x1 1
1000 7fffffff 0 7fffffff 1004 ori x3 x1 2047
1000 fffff800 0 fffff800 1004 ori x3 x1 -2048
1000 fffff7ff 0 ffffffff 1004 ori x3 x1 -2048
1000 12345678 0 fffffefd 1004 ori x3 x1 -291
1000 0 0 0 1004 andi x3 x1 -1
1000 1 0 0 1004 andi x3 x1 -2048
1000 ffffffff 0 ffffffff 1004 andi x3 x1 -1
1000 ffffffff 0 1 1004 andi x3 x1 1
1000 80000000 0 80000000 1004 andi x3 x1 -1
1000 80000000 0 0 1004 andi x3 x1 0
1000 7fffffff 0 1 1004 andi x3 x1 1
1000 7fffffff 0 7ff 1004 andi x3 x1 2047
1000 fffff800 0 fffff800 1004 andi x3 x1 -2048
1000 fffff7ff 0 fffff000 1004 andi x3 x1 -2048
1000 12345678 0 12345658 1004 andi x3 x1 -291
1000 80000000 0 80000000 1004 slli x3 x1 0
1000 80000000 0 0 1004 slli x3 x1 31
1000 7fffffff 0 80000000 1004 slli x3 x1 31
1000 ffffffff 0 fffffffe 1004 slli x3 x1 1
1000 1 0 80000000 1004 slli x3 x1 31
1000 deadbeef 0 dbeef000 1004 slli x3 x1 12
1000 80000000 0 80000000 1004 srli x3 x1 0
1000 80000000 0 1 1004 srli x3 x1 31
1000 7fffffff 0 0 1004 srli x3 x1 31
1000 ffffffff 0 7fffffff 1004 srli x3 x1 1
1000 1 0 0 1004 srli x3 x1 31
1000 deadbeef 0 deadb 1004 srli x3 x1 12
1000 80000000 0 80000000 1004 srai x3 x1 0
1000 80000000 0 ffffffff 1004 srai x3 x1 31
1000 7fffffff 0 0 1004 srai x3 x1 31
1000 ffffffff 0 ffffffff 1004 srai x3 x1 1
1000 1 0 0 1004 srai x3 x1 31
1000 deadbeef 0 fffdeadb 1004 srai x3 x1 12
112f8 0 0 0 112fc lui x3 0
11358 0 0 1000 1135c lui x3 1
113b4 0 0 7ffff000 113b8 lui x3 524287
11410 0 0 80000000 11414 lui x3 524288
1146c 0 0 fffff000 11470 lui x3 1048575
112f8 0 0 112f8 112fc auipc x3 0
11358 0 0 12358 1135c auipc x3 1
113b4 0 0 800103b4 113b8 auipc x3 524287
11410 0 0 80011410 11414 auipc x3 524288
1146c 0 0 1046c 11470 auipc x3 1048575
114d4 0 0 114d8 114e0 jal x3 12
11544 0 0 11548 1153c jal x3 -8
115bc 115c4 0 115c0 115c4 jalr x3 0(x3)
11634 1163d 0 11638 1163c jalr x3 0(x3)
116ac 10eb5 0 116b0 116b4 jalr x3 2047(x3)
11728 11f2f 0 1172c 11730 jalr x3 -2046(x3)
117a4 11fa4 0 117a8 117ac jalr x3 -2040(x3)";

/// The word in memory, what x3 holds after the load, and the load.
const LOADS: &str = "\
0 0 lb x3 0(x1)
7f 7f lb x3 0(x1)
80 ffffff80 lb x3 0(x1)
7fff ffffffff lb x3 0(x1)
8000 0 lb x3 0(x1)
7fffffff ffffffff lb x3 0(x1)
80000000 0 lb x3 0(x1)
ffffffff ffffffff lb x3 0(x1)
1234567f 7f lb x3 0(x1)
0 0 lh x3 0(x1)
7f 7f lh x3 0(x1)
80 80 lh x3 0(x1)
7fff 7fff lh x3 0(x1)
8000 ffff8000 lh x3 0(x1)
7fffffff ffffffff lh x3 0(x1)
80000000 0 lh x3 0(x1)
ffffffff ffffffff lh x3 0(x1)
1234567f 567f lh x3 0(x1)
0 0 lw x3 0(x1)
7f 7f lw x3 0(x1)
80 80 lw x3 0(x1)
7fff 7fff lw x3 0(x1)
8000 8000 lw x3 0(x1)
7fffffff 7fffffff lw x3 0(x1)
80000000 80000000 lw x3 0(x1)
ffffffff ffffffff lw x3 0(x1)
1234567f 1234567f lw x3 0(x1)
0 0 lbu x3 0(x1)
7f 7f lbu x3 0(x1)
80 80 lbu x3 0(x1)
7fff ff lbu x3 0(x1)
8000 0 lbu x3 0(x1)
7fffffff ff lbu x3 0(x1)
80000000 0 lbu x3 0(x1)
ffffffff ff lbu x3 0(x1)
1234567f 7f lbu x3 0(x1)
0 0 lhu x3 0(x1)
7f 7f lhu x3 0(x1)
80 80 lhu x3 0(x1)
7fff 7fff lhu x3 0(x1)
8000 8000 lhu x3 0(x1)
7fffffff ffff lhu x3 0(x1)
80000000 0 lhu x3 0(x1)
ffffffff ffff lhu x3 0(x1)
1234567f 567f lhu x3 0(x1)";

/// What x2 holds, the address, size and value that are written, and the store.
const STORES: &str = "\
ffffffff fffffffc 1 ff sb x2 -4(x1)
ffffffff fffffffc 2 ffff sh x2 -4(x1)
ffffffff fffffffc 4 ffffffff sw x2 -4(x1)
12345678 fffffffc 1 78 sb x2 -4(x1)
12345678 fffffffc 2 5678 sh x2 -4(x1)
12345678 fffffffc 4 12345678 sw x2 -4(x1)";

/// The registers, where x1 and x3 hold `a` and x2 holds `b`, after the instruction behind a row's `n` numbers.
fn stepped(rt: &impl Abort, row: &str, n: usize, pc: u32, a: u32, b: u32) -> ([u32; 32], Effect) {
    let insn = assemble_insn(words_from(row.as_bytes(), n)).expect(rt, row);
    let mut regs = [0; 32];
    regs[1] = a;
    regs[2] = b;
    regs[3] = a;
    let effect = step(&mut regs, pc, insn);
    (regs, effect)
}

#[test]
fn a_step_leaves_and_goes_on_as_on_qemu(rt: HostRuntime) {
    for row in STEPS.lines() {
        let (pc, a, b) = (hex(&rt, row, 0), hex(&rt, row, 1), hex(&rt, row, 2));
        let (regs, effect) = stepped(&rt, row, 5, pc, a, b);
        check(&rt, regs[3] == hex(&rt, row, 3), row);
        let next = hex(&rt, row, 4);
        check(&rt, matches!(effect, Effect::Next(to) if to == next), row);
    }
}

/// What a load leaves in x3, where this word stands in memory.
fn loaded(rt: &impl Abort, row: &str, word: u32) -> u32 {
    let insn = assemble_insn(words_from(row.as_bytes(), 2)).expect(rt, row);
    let mut regs = [0; 32];
    let Effect::Load {
        size,
        signed,
        rd,
        ..
    } = step(&mut regs, 0x1000, insn)
    else {
        panic!(rt; "{row}")
    };
    let value = match size {
        1 => word % 0x100,
        2 => word % 0x1_0000,
        _ => word,
    };
    finish_load(&mut regs, rd, size, signed, value);
    regs[3]
}

#[test]
fn a_load_extends_as_qemu_extends(rt: HostRuntime) {
    for row in LOADS.lines() {
        let x3 = loaded(&rt, row, hex(&rt, row, 0));
        check(&rt, x3 == hex(&rt, row, 1), row);
    }
}

#[test]
fn a_store_gives_the_bytes_that_qemu_writes(rt: HostRuntime) {
    for row in STORES.lines() {
        let (_, effect) = stepped(&rt, row, 4, 0x1000, 0, hex(&rt, row, 0));
        let wanted = (hex(&rt, row, 1), byte(&rt, row, 2), hex(&rt, row, 3));
        let stored = match effect {
            Effect::Store { at, size, value } => Some((at, size, value)),
            _ => None,
        };
        check(&rt, stored == Some(wanted), row);
    }
}
