//! Calls of the jobs that compile or assemble and run nothing, and of words that spell no job, with what is due where nothing fails.

/// Calls of the jobs that compile or assemble and run nothing, and of words that spell no job.
pub const COMPILATIONS: &str =
    r#"compile --to=q a.c||0|1|q||budget ld 2 al 0 sa 1 sd 1 ab 1 eb 0 cq 0`^kept q`|a.c|@sums
compile --to=q a.c||2|1|||refused syntax a.c:1:24`|a.c|int main(void){return 0}
report a.c||0|1||{"budget":{"ab":1,"al":0,"cq":0,"eb":0,"ld":2,"sa":1,"sd":1},"functions":[{"conditions_a":2,"conditions_e":0,"loads_a":0,"loads_e":3,"name":"main","stores":1}]}`|budget ld 2 al 0 sa 1 sd 1 ab 1 eb 0 cq 0`|a.c|@sums
report a.c||0|1||{"budget":{"ab":0,"al":0,"cq":0,"eb":0,"ld":1,"sa":1,"sd":1},"functions":[{"conditions_a":0,"conditions_e":0,"loads_a":0,"loads_e":2,"name":"main","stores":2}]}`|budget ld 1 al 0 sa 1 sd 1 ab 0 eb 0 cq 0`|a.c|#include <stdio.h>`int g;int h;int main(void){g=3;h=g*g;printf("%d\n",h);return 0;}
report a.c||2|1|||refused syntax a.c:1:24`|a.c|int main(void){return 0}
asm --to=q t||0|0|q||kept q`|t|@listing
asm --to=q t||2|1|||refused asm-value 9`|t|.budget 1 0 1 1 0 0 0`.memory 64`.calls 1`.private 0 0`.entry 0 0`.a`sw x30,16(x0)`lw x30,20(x0)`beq x0,x0,3`.e`addi x10,x30,0`addi x30,x10,1`ecall`.data`.byte 0 0 0 0 7 0 0 0`
asm --to=q t||2|1|||refused asm-label 9`|t|.budget 1 0 1 1 0 0 0`.memory 64`.calls 1`.private 0 0`.entry 0 0`.a`sw x30,16(x0)`lw x30,20(x0)`jal x0,up`.e`addi x10,x30,0`addi x30,x10,1`ecall`.data`.byte 0 0 0 0 7 0 0 0`
asm --to=q t||2|1|||refused asm-line 14`|t|.budget 1 0 1 1 0 0 0`.memory 64`.calls 1`.private 0 0`.entry 0 0`.a`sw x30,16(x0)`lw x30,20(x0)`ecall`.e`addi x10,x30,0`addi x30,x10,1`ecall`.byte 0 0 0 0 7 0 0 0`
walk a.c||64|1|||words`"#;
