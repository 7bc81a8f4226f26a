//! Words that spell instructions, what instructions come to, and their accesses of queues.

use dae_base::Side;
use dae_encode::{Inst, decode, encode, is_in_range, next, queue_use, value};
use dae_rows::{number, part, word_in};
use std::alloc::{AllocError, Global};
use std::process::Abort;

// A word and the instruction that it spells.
static WORDS: [(u32, Inst); 157] = [
    (0x00000073, Inst::Ecall),
    (0x003100b3, Inst::Add(1, 2, 3)),
    (0x023100b3, Inst::Mul(1, 2, 3)),
    (0x000f0293, Inst::Addi(5, 30, 0)),
    (0x0002af03, Inst::Lw(30, 5, 0)),
    (0x01e2a223, Inst::Sw(5, 30, 4)),
    (0x000e8463, Inst::Beq(29, 0, 8)),
    (0xffdff06f, Inst::Jal(0, -4)),
    (0x123452b7, Inst::Lui(5, 305418240)),
    (0x01f902b3, Inst::Add(5, 18, 31)),
    (0x00ee0f33, Inst::Add(30, 28, 14)),
    (0x00f00eb3, Inst::Add(29, 0, 15)),
    (0x41ee0033, Inst::Sub(0, 28, 30)),
    (0x41d80eb3, Inst::Sub(29, 16, 29)),
    (0x41e00333, Inst::Sub(6, 0, 30)),
    (0x01ee1eb3, Inst::Sll(29, 28, 30)),
    (0x01df1033, Inst::Sll(0, 30, 29)),
    (0x000f9e33, Inst::Sll(28, 31, 0)),
    (0x003e2fb3, Inst::Slt(31, 28, 3)),
    (0x01de2fb3, Inst::Slt(31, 28, 29)),
    (0x01e02fb3, Inst::Slt(31, 0, 30)),
    (0x01de3033, Inst::Sltu(0, 28, 29)),
    (0x01d03f33, Inst::Sltu(30, 0, 29)),
    (0x00003eb3, Inst::Sltu(29, 0, 0)),
    (0x000e4eb3, Inst::Xor(29, 28, 0)),
    (0x01fe4fb3, Inst::Xor(31, 28, 31)),
    (0x01d04eb3, Inst::Xor(29, 0, 29)),
    (0x01eedeb3, Inst::Srl(29, 29, 30)),
    (0x01cf52b3, Inst::Srl(5, 30, 28)),
    (0x01ce5033, Inst::Srl(0, 28, 28)),
    (0x41ce55b3, Inst::Sra(11, 28, 28)),
    (0x400edab3, Inst::Sra(21, 29, 0)),
    (0x41de5d33, Inst::Sra(26, 28, 29)),
    (0x01deeeb3, Inst::Or(29, 29, 29)),
    (0x000befb3, Inst::Or(31, 23, 0)),
    (0x01fb6e33, Inst::Or(28, 22, 31)),
    (0x000f7fb3, Inst::And(31, 30, 0)),
    (0x000effb3, Inst::And(31, 29, 0)),
    (0x01cefeb3, Inst::And(29, 29, 28)),
    (0x03ee8f33, Inst::Mul(30, 29, 30)),
    (0x020e0e33, Inst::Mul(28, 28, 0)),
    (0x03fe8eb3, Inst::Mul(29, 29, 31)),
    (0x03f01e33, Inst::Mulh(28, 0, 31)),
    (0x03ff9033, Inst::Mulh(0, 31, 31)),
    (0x03df1eb3, Inst::Mulh(29, 30, 29)),
    (0x020faeb3, Inst::Mulhsu(29, 31, 0)),
    (0x020f2e33, Inst::Mulhsu(28, 30, 0)),
    (0x02cfae33, Inst::Mulhsu(28, 31, 12)),
    (0x02053e33, Inst::Mulhu(28, 10, 0)),
    (0x03d03fb3, Inst::Mulhu(31, 0, 29)),
    (0x03ce3fb3, Inst::Mulhu(31, 28, 28)),
    (0x03ee4eb3, Inst::Div(29, 28, 30)),
    (0x03de4fb3, Inst::Div(31, 28, 29)),
    (0x03f04e33, Inst::Div(28, 0, 31)),
    (0x03cedfb3, Inst::Divu(31, 29, 28)),
    (0x020adeb3, Inst::Divu(29, 21, 0)),
    (0x03eedf33, Inst::Divu(30, 29, 30)),
    (0x03efee33, Inst::Rem(28, 31, 30)),
    (0x03ff6eb3, Inst::Rem(29, 30, 31)),
    (0x020eefb3, Inst::Rem(31, 29, 0)),
    (0x03f37033, Inst::Remu(0, 6, 31)),
    (0x02017433, Inst::Remu(8, 2, 0)),
    (0x026ef033, Inst::Remu(0, 29, 6)),
    (0x5c2e0c13, Inst::Addi(24, 28, 1474)),
    (0x8c550b13, Inst::Addi(22, 10, -1851)),
    (0x7ff00593, Inst::Addi(11, 0, 2047)),
    (0x00100f93, Inst::Addi(31, 0, 1)),
    (0x000f2e13, Inst::Slti(28, 30, 0)),
    (0x7ffe2213, Inst::Slti(4, 28, 2047)),
    (0x6a0baf13, Inst::Slti(30, 23, 1696)),
    (0x800fba13, Inst::Sltiu(20, 31, -2048)),
    (0x80073f13, Inst::Sltiu(30, 14, -2048)),
    (0x30b03013, Inst::Sltiu(0, 0, 779)),
    (0x60804f93, Inst::Xori(31, 0, 1544)),
    (0x0b57c093, Inst::Xori(1, 15, 181)),
    (0x992ec013, Inst::Xori(0, 29, -1646)),
    (0x001fee13, Inst::Ori(28, 31, 1)),
    (0x000e6793, Inst::Ori(15, 28, 0)),
    (0x0f636613, Inst::Ori(12, 6, 246)),
    (0x7ff27e93, Inst::Andi(29, 4, 2047)),
    (0x03a9f813, Inst::Andi(16, 19, 58)),
    (0x001eff13, Inst::Andi(30, 29, 1)),
    (0x001f9013, Inst::Slli(0, 31, 1)),
    (0x001f9513, Inst::Slli(10, 31, 1)),
    (0x001f1e93, Inst::Slli(29, 30, 1)),
    (0x000f5013, Inst::Srli(0, 30, 0)),
    (0x01f05413, Inst::Srli(8, 0, 31)),
    (0x00ff5e93, Inst::Srli(29, 30, 15)),
    (0x40455013, Inst::Srai(0, 10, 4)),
    (0x40005f13, Inst::Srai(30, 0, 0)),
    (0x400f5e93, Inst::Srai(29, 30, 0)),
    (0x80000003, Inst::Lb(0, 0, -2048)),
    (0x7ffe8003, Inst::Lb(0, 29, 2047)),
    (0x60370e03, Inst::Lb(28, 14, 1539)),
    (0x7ff01e83, Inst::Lh(29, 0, 2047)),
    (0x000f1e83, Inst::Lh(29, 30, 0)),
    (0x962f1f83, Inst::Lh(31, 30, -1694)),
    (0xd44e2e83, Inst::Lw(29, 28, -700)),
    (0xfe902003, Inst::Lw(0, 0, -23)),
    (0x7ffeaa03, Inst::Lw(20, 29, 2047)),
    (0x7ffea003, Inst::Lw(0, 29, 2047)),
    (0x05bfcf83, Inst::Lbu(31, 31, 91)),
    (0x6d0e4e83, Inst::Lbu(29, 28, 1744)),
    (0x000e4c83, Inst::Lbu(25, 28, 0)),
    (0x68ffd003, Inst::Lhu(0, 31, 1679)),
    (0x0013d003, Inst::Lhu(0, 7, 1)),
    (0x02fdd703, Inst::Lhu(14, 27, 47)),
    (0x01d000a3, Inst::Sb(0, 29, 1)),
    (0x7e0f8fa3, Inst::Sb(31, 0, 2047)),
    (0x03338e23, Inst::Sb(7, 19, 60)),
    (0x99de9623, Inst::Sh(29, 29, -1652)),
    (0x962e9823, Inst::Sh(29, 2, -1680)),
    (0x37de9b23, Inst::Sh(29, 29, 886)),
    (0x01c020a3, Inst::Sw(0, 28, 1)),
    (0x000e20a3, Inst::Sw(28, 0, 1)),
    (0x01fe20a3, Inst::Sw(28, 31, 1)),
    (0x00192023, Inst::Sw(18, 1, 0)),
    (0x59ef06e3, Inst::Beq(30, 30, 3468)),
    (0x01de0163, Inst::Beq(28, 29, 2)),
    (0xbbff06e3, Inst::Beq(30, 31, -1108)),
    (0x01ff8063, Inst::Beq(31, 31, 0)),
    (0x00cf9163, Inst::Bne(31, 12, 2)),
    (0x81df1063, Inst::Bne(30, 29, -4096)),
    (0x01ce1163, Inst::Bne(28, 28, 2)),
    (0x35c94063, Inst::Blt(18, 28, 832)),
    (0x01cec063, Inst::Blt(29, 28, 0)),
    (0x7f6ecfe3, Inst::Blt(29, 22, 4094)),
    (0x01ed5163, Inst::Bge(26, 30, 2)),
    (0x013952e3, Inst::Bge(18, 19, 2052)),
    (0x000ed163, Inst::Bge(29, 0, 2)),
    (0x81d06063, Inst::Bltu(0, 29, -4096)),
    (0x00c96163, Inst::Bltu(18, 12, 2)),
    (0x7e0e6fe3, Inst::Bltu(28, 0, 4094)),
    (0xf21ef1e3, Inst::Bgeu(29, 1, -222)),
    (0xdbcef763, Inst::Bgeu(29, 28, -2642)),
    (0xb7fff6e3, Inst::Bgeu(31, 31, -1172)),
    (0x81d0f063, Inst::Bgeu(1, 29, -4096)),
    (0x00200fef, Inst::Jal(31, 2)),
    (0x0b605bef, Inst::Jal(23, 20662)),
    (0x01325aef, Inst::Jal(21, 153618)),
    (0x0159e8ef, Inst::Jal(17, 649236)),
    (0x802d906f, Inst::Jal(0, -159742)),
    (0xda634cef, Inst::Jal(25, -834138)),
    (0x816ff7ef, Inst::Jal(15, -4074)),
    (0x6b425f6f, Inst::Jal(30, 153268)),
    (0x000e0fe7, Inst::Jalr(31, 28, 0)),
    (0x3ba48467, Inst::Jalr(8, 9, 954)),
    (0x000f0f67, Inst::Jalr(30, 30, 0)),
    (0x800d0e67, Inst::Jalr(28, 26, -2048)),
    (0x000013b7, Inst::Lui(7, 4096)),
    (0x037c64b7, Inst::Lui(9, 58482688)),
    (0x41c09b37, Inst::Lui(22, 1103138816)),
    (0x030723b7, Inst::Lui(7, 50798592)),
    (0xffffff17, Inst::Auipc(30, -4096)),
    (0x0a532717, Inst::Auipc(14, 173219840)),
    (0x0b1a2a17, Inst::Auipc(20, 186261504)),
    (0x3504e997, Inst::Auipc(19, 889511936)),
];

// The words of instructions that blocks are made of, as binutils and LLVM assemble them; behind each its disassembly.
static WORDS_OF_BLOCKS: [(u32, Inst); 119] = [
    (0x123452b7, Inst::Lui(5, 305_418_240)), // lui t0,0x12345
    (0xfffff437, Inst::Lui(8, -4096)), // lui s0,0xfffff
    (0x00001297, Inst::Auipc(5, 4096)), // auipc t0,0x1
    (0xfffff297, Inst::Auipc(5, -4096)), // auipc t0,0xfffff
    (0xff828067, Inst::Jalr(0, 5, -8)), // jalr zero,-8(t0) # fffff004 <.text+0xfffff004>
    (0x7f828067, Inst::Jalr(0, 5, 2040)), // jalr zero,2040(t0)
    (0x800280e7, Inst::Jalr(1, 5, -2048)), // jalr ra,-2048(t0)
    (0x00008067, Inst::Jalr(0, 1, 0)), // jalr zero,0(ra)
    (0x7fc000e7, Inst::Jalr(1, 0, 2044)), // jalr ra,2044(zero) # 7fc <.text+0x7fc>
    (0x00029663, Inst::Bne(5, 0, 12)), // bne t0,zero,2c <.text+0x2c>
    (0x000e9663, Inst::Bne(29, 0, 12)), // bne t4,zero,30 <.text+0x30>
    (0x00041a63, Inst::Bne(8, 0, 20)), // bne s0,zero,3c <.text+0x3c>
    (0x00050663, Inst::Beq(10, 0, 12)), // beq a0,zero,3c <.text+0x3c>
    (0x00030663, Inst::Beq(6, 0, 12)), // beq t1,zero,40 <.text+0x40>
    (0x00736663, Inst::Bltu(6, 7, 12)), // bltu t1,t2,44 <.text+0x44>
    (0x00656663, Inst::Bltu(10, 6, 12)), // bltu a0,t1,48 <.text+0x48>
    (0x00337663, Inst::Bgeu(6, 3, 12)), // bgeu t1,gp,4c <.text+0x4c>
    (0x7ff00293, Inst::Addi(5, 0, 2047)), // addi t0,zero,2047
    (0x80028293, Inst::Addi(5, 5, -2048)), // addi t0,t0,-2048
    (0x00400e93, Inst::Addi(29, 0, 4)), // addi t4,zero,4
    (0x00028e93, Inst::Addi(29, 5, 0)), // addi t4,t0,0
    (0x00040f13, Inst::Addi(30, 8, 0)), // addi t5,s0,0 # fffff000 <.text+0xfffff000>
    (0x000d8e13, Inst::Addi(28, 27, 0)), // addi t3,s11,0
    (0x000f0413, Inst::Addi(8, 30, 0)), // addi s0,t5,0
    (0x000f8493, Inst::Addi(9, 31, 0)), // addi s1,t6,0
    (0x000e0593, Inst::Addi(11, 28, 0)), // addi a1,t3,0
    (0x000e8513, Inst::Addi(10, 29, 0)), // addi a0,t4,0
    (0x00150513, Inst::Addi(10, 10, 1)), // addi a0,a0,1
    (0xfff50513, Inst::Addi(10, 10, -1)), // addi a0,a0,-1
    (0xff040313, Inst::Addi(6, 8, -16)), // addi t1,s0,-16
    (0x00500893, Inst::Addi(17, 0, 5)), // addi a7,zero,5
    (0x00080313, Inst::Addi(6, 16, 0)), // addi t1,a6,0
    (0x00347313, Inst::Andi(6, 8, 3)), // andi t1,s0,3
    (0x0ff4f413, Inst::Andi(8, 9, 255)), // andi s0,s1,255
    (0x01849413, Inst::Slli(8, 9, 24)), // slli s0,s1,0x18
    (0x41045413, Inst::Srai(8, 8, 16)), // srai s0,s0,0x10
    (0x01045413, Inst::Srli(8, 8, 16)), // srli s0,s0,0x10
    (0x00143413, Inst::Sltiu(8, 8, 1)), // sltiu s0,s0,1
    (0x00144413, Inst::Xori(8, 8, 1)), // xori s0,s0,1
    (0x00803433, Inst::Sltu(8, 0, 8)), // sltu s0,zero,s0
    (0x00b4a433, Inst::Slt(8, 9, 11)), // slt s0,s1,a1
    (0x00b4aeb3, Inst::Slt(29, 9, 11)), // slt t4,s1,a1
    (0x0013be93, Inst::Sltiu(29, 7, 1)), // sltiu t4,t2,1
    (0x00703eb3, Inst::Sltu(29, 0, 7)), // sltu t4,zero,t2
    (0x0013ce93, Inst::Xori(29, 7, 1)), // xori t4,t2,1
    (0x005181b3, Inst::Add(3, 3, 5)), // add gp,gp,t0
    (0x405181b3, Inst::Sub(3, 3, 5)), // sub gp,gp,t0
    (0x00510133, Inst::Add(2, 2, 5)), // add sp,sp,t0
    (0x40510133, Inst::Sub(2, 2, 5)), // sub sp,sp,t0
    (0x002383b3, Inst::Add(7, 7, 2)), // add t2,t2,sp
    (0x00518433, Inst::Add(8, 3, 5)), // add s0,gp,t0
    (0x02b48433, Inst::Mul(8, 9, 11)), // mul s0,s1,a1
    (0x02b4c433, Inst::Div(8, 9, 11)), // div s0,s1,a1
    (0x02b4d433, Inst::Divu(8, 9, 11)), // divu s0,s1,a1
    (0x02b4e433, Inst::Rem(8, 9, 11)), // rem s0,s1,a1
    (0x02b4f433, Inst::Remu(8, 9, 11)), // remu s0,s1,a1
    (0x00b4f433, Inst::And(8, 9, 11)), // and s0,s1,a1
    (0x00b4e433, Inst::Or(8, 9, 11)), // or s0,s1,a1
    (0x00b4c433, Inst::Xor(8, 9, 11)), // xor s0,s1,a1
    (0x00b49433, Inst::Sll(8, 9, 11)), // sll s0,s1,a1
    (0x00b4d433, Inst::Srl(8, 9, 11)), // srl s0,s1,a1
    (0x40b4d433, Inst::Sra(8, 9, 11)), // sra s0,s1,a1
    (0x00040f03, Inst::Lb(30, 8, 0)), // lb t5,0(s0)
    (0x00044f83, Inst::Lbu(31, 8, 0)), // lbu t6,0(s0)
    (0x00029f03, Inst::Lh(30, 5, 0)), // lh t5,0(t0)
    (0x0002df83, Inst::Lhu(31, 5, 0)), // lhu t6,0(t0)
    (0x00042f03, Inst::Lw(30, 8, 0)), // lw t5,0(s0)
    (0x04042f03, Inst::Lw(30, 8, 64)), // lw t5,64(s0)
    (0x7fc12403, Inst::Lw(8, 2, 2044)), // lw s0,2044(sp)
    (0x00012083, Inst::Lw(1, 2, 0)), // lw ra,0(sp)
    (0x80042403, Inst::Lw(8, 8, -2048)), // lw s0,-2048(s0)
    (0x01e40023, Inst::Sb(8, 30, 0)), // sb t5,0(s0)
    (0x01e41023, Inst::Sh(8, 30, 0)), // sh t5,0(s0)
    (0x01e42023, Inst::Sw(8, 30, 0)), // sw t5,0(s0)
    (0x05e42023, Inst::Sw(8, 30, 64)), // sw t5,64(s0)
    (0x00112023, Inst::Sw(2, 1, 0)), // sw ra,0(sp)
    (0x05b12423, Inst::Sw(2, 27, 72)), // sw s11,72(sp)
    (0x8053a023, Inst::Sw(7, 5, -2048)), // sw t0,-2048(t2)
    (0x04042293, Inst::Slti(5, 8, 64)), // slti t0,s0,64
    (0x80042293, Inst::Slti(5, 8, -2048)), // slti t0,s0,-2048
    (0x7ff43293, Inst::Sltiu(5, 8, 2047)), // sltiu t0,s0,2047
    (0xfff43293, Inst::Sltiu(5, 8, -1)), // sltiu t0,s0,-1
    (0x7ff4e413, Inst::Ori(8, 9, 2047)), // ori s0,s1,2047
    (0x8004e413, Inst::Ori(8, 9, -2048)), // ori s0,s1,-2048
    (0xfff4c413, Inst::Xori(8, 9, -1)), // xori s0,s1,-1
    (0xffc4f413, Inst::Andi(8, 9, -4)), // andi s0,s1,-4
    (0x80048413, Inst::Addi(8, 9, -2048)), // addi s0,s1,-2048
    (0x7ff48413, Inst::Addi(8, 9, 2047)), // addi s0,s1,2047
    (0xfff00e93, Inst::Addi(29, 0, -1)), // addi t4,zero,-1
    (0x01f49413, Inst::Slli(8, 9, 31)), // slli s0,s1,31
    (0x00049413, Inst::Slli(8, 9, 0)), // slli s0,s1,0
    (0x41f4d413, Inst::Srai(8, 9, 31)), // srai s0,s1,31
    (0x0014d413, Inst::Srli(8, 9, 1)), // srli s0,s1,1
    (0x000101b7, Inst::Lui(3, 65_536)), // lui gp,0x10
    (0xff348313, Inst::Addi(6, 9, -13)), // addi t1,s1,-13
    (0xff148313, Inst::Addi(6, 9, -15)), // addi t1,s1,-15
    (0xff048313, Inst::Addi(6, 9, -16)), // addi t1,s1,-16
    (0x00436663, Inst::Bltu(6, 4, 12)), // bltu t1,tp,12
    (0x7f020213, Inst::Addi(4, 4, 2032)), // addi tp,tp,2032
    (0x0040006f, Inst::Jal(0, 4)), // jal zero,4
    (0x7fdff06f, Inst::Jal(0, 1_048_572)), // jal zero,1048572
    (0xffdff06f, Inst::Jal(0, -4)), // jal zero,-4
    (0x8000006f, Inst::Jal(0, -1_048_576)), // jal zero,-1048576
    (0x0000006f, Inst::Jal(0, 0)), // jal zero,0
    (0x00028263, Inst::Beq(5, 0, 4)), // beq t0,zero,4
    (0x7a9400e3, Inst::Beq(8, 9, 4000)), // beq s0,s1,4000
    (0x7a0410e3, Inst::Bne(8, 0, 4000)), // bne s0,zero,4000
    (0x00944463, Inst::Blt(8, 9, 8)), // blt s0,s1,8
    (0x7a9440e3, Inst::Blt(8, 9, 4000)), // blt s0,s1,4000
    (0x00645663, Inst::Bge(8, 6, 12)), // bge s0,t1,12
    (0x7a8050e3, Inst::Bge(0, 8, 4000)), // bge zero,s0,4000
    (0x7a9460e3, Inst::Bltu(8, 9, 4000)), // bltu s0,s1,4000
    (0x00647263, Inst::Bgeu(8, 6, 4)), // bgeu s0,t1,4
    (0x000e8463, Inst::Beq(29, 0, 8)), // beq t4,zero,8
    (0x000e8863, Inst::Beq(29, 0, 16)), // beq t4,zero,16
    (0x00200513, Inst::Addi(10, 0, 2)), // addi a0,zero,2
    (0x06810113, Inst::Addi(2, 2, 104)), // addi sp,sp,104
    (0xf9810113, Inst::Addi(2, 2, -104)), // addi sp,sp,-104
    (0x00000073, Inst::Ecall), // ecall
];

fn words() -> &'static [(u32, Inst)] {
    WORDS.as_slice()
}

fn words_of_blocks() -> &'static [(u32, Inst)] {
    WORDS_OF_BLOCKS.as_slice()
}

/// The word of an instruction, if its fields are in range.
fn word_of(inst: Inst) -> Option<u32> {
    if is_in_range(&inst) {
        Some(encode(inst))
    } else {
        None
    }
}

/// Each word is that of its instruction, and of the one that it is decoded to.
fn check_words(rt: &impl Abort, rows: &[(u32, Inst)]) {
    for (word, want) in rows {
        assert_eq!(rt; word_of(*want), Some(*word), "at {word}");
        assert_eq!(rt; decode(*word).and_then(word_of), Some(*word), "at {word}");
    }
}

#[test]
fn words_spell_instructions(rt: HostRuntime) {
    check_words(&rt, words());
    check_words(&rt, words_of_blocks());
}

/// The number that a word of a row's question spells.
fn asked(row: &str, at: usize) -> u32 {
    number(word_in(part(row, 2), at))
}

/// Whether a row's word spells no instruction.
pub fn other_told(alloc: Global, row: &str) -> Result<String, AllocError> {
    let is_other = decode(asked(row, 0)).is_none();
    format!(in alloc; "{is_other}")
}

/// What the instruction of a row's word gives at 256 with these sources, and where it leads to.
pub fn result_told(alloc: Global, row: &str) -> Result<String, AllocError> {
    match decode(asked(row, 0)) {
        Some(inst) => {
            let (first, second) = (asked(row, 1), asked(row, 2));
            let given = value(&inst, 0x100, first, second);
            let behind = next(&inst, 0x100, first, second);
            format!(in alloc; "{given} {behind}")
        }
        None => Ok(String::new(alloc)),
    }
}

/// Where it leads to.
pub fn way_told(alloc: Global, row: &str) -> Result<String, AllocError> {
    match decode(asked(row, 0)) {
        Some(inst) => {
            let behind = next(&inst, 0x100, asked(row, 1), asked(row, 2));
            format!(in alloc; "{behind}")
        }
        None => Ok(String::new(alloc)),
    }
}

fn side_of(name: &str) -> Side {
    match name {
        "A" => Side::A,
        _ => Side::E,
    }
}

/// The access of queues of the instruction of a row's word, on its side and with or without copies.
pub fn access_told(alloc: Global, row: &str) -> Result<String, AllocError> {
    let question = part(row, 2);
    let (side, copies) = (
        side_of(word_in(question, 0)),
        word_in(question, 1) == "true",
    );
    match decode(asked(row, 2)) {
        Some(inst) => {
            let access = queue_use(side, &inst, copies);
            format!(in alloc; "{access:?}")
        }
        None => Ok(String::new(alloc)),
    }
}
