//! Calls of the jobs that compile and run, `run` and `big`, with what is due where nothing fails.

/// The sums of two arrays, which are printed.
pub const SUMS: &str =
    "#include <stdio.h>\nint a[4]={1,2,3,4};int b[4]={10,20,30,40};int c[4];int main(void){int i;for(i=0;i<4;i++)c[i]=a[i]+b[i];for(i=0;i<4;i++)printf(\"%d\\n\",c[i]);return 0;}";

/// Calls of the jobs that compile and run, `run` and `big`.
pub const PROGRAMS: &str =
    r#"run --ld=2 --al=1 --sa=1 --sd=1 --ab=1 --eb=1 --cq=1 a.c||0|1||11^`^22^`^33^`^44^`|budget ld 2 al 0 sa 1 sd 1 ab 1 eb 0 cq 0`^ended 0`^steps |a.c|@sums
run a.c||1|1||5^`|budget ld 1 al 0 sa 0 sd 0 ab 0 eb 1 cq 0`^trapped 1`^steps |a.c|#include <stdio.h>`int z;int main(void){printf("%d\n",5);return 7/z;}
run --steps=100 --show=16,1 a.c||3|4|||budget ld 0 al 0 sa 0 sd 0 ab 1 eb 0 cq 0`^running`^steps 100`^memory 16: 00`|a.c|int main(void){for(;;);return 0;}
run --ld=1 a.c||4|2|||budget ld 2 al 0 sa 1 sd 1 ab 1 eb 0 cq 0`^depth ld needs 2 has 1`|a.c|@sums
run a.c b.c||2|1|||refused syntax b.c:1:24`|a.c|int n;|b.c|int main(void){return 0}
run a.c b.c c.c||0|3|||budget ld 1 al 0 sa 0 sd 0 ab 1 eb 0 cq 0`^ended 7`^steps |a.c|int n=5;|b.c|int f(void){return 2;}|c.c|extern int n;int f(void);int main(void){return n+f();}
run a.c||2|1|||refused not-constant a.c:1:15`|a.c|int g;short a=(int)&g;int main(void){return a;}
run a.c||0|3|||budget ld 1 al 0 sa 0 sd 0 ab 0 eb 0 cq 0`^ended 16`^steps |a.c|int g;int a=(int)&g;int main(void){return a;}
run a.c||0|3|||budget ld 1 al 0 sa 1 sd 1 ab 1 eb 1 cq 0`^ended 7`^steps |a.c|struct s{int v;}x;int main(void){struct s*p=&x;int i=1;x.v=7;return(i?p:(void*)0)->v;}
run a.c||2|1|||refused not-structure a.c:1:71`|a.c|struct s{int v;}x;int main(void){struct s*p=&x;int i=1;void*n=0;return(i?p:n)->v;}
run a.c||0|3|||budget ld 0 al 0 sa 0 sd 0 ab 0 eb 0 cq 0`^ended 123`^steps |a.c|int main(void){int i=0;int n=0;while(i<3){int k=(k?100:k)+i+1;n=n*10+k;i++;}return n;}
run a.c||0|3|||budget ld 0 al 0 sa 1 sd 1 ab 1 eb 0 cq 0`^ended 3`^steps |a.c|struct s{char a[67108864];};int f(void){struct s a0,a1,a2,a3,a4,a5,a6,a7,a8,a9,a10,a11,a12,a13,a14,a15,a16,a17,a18,a19,a20,a21,a22,a23,a24,a25,a26,a27,a28,a29,a30,a31,a32,a33,a34,a35,a36,a37,a38,a39,a40,a41,a42,a43,a44,a45,a46,a47,a48,a49,a50,a51,a52,a53,a54,a55,a56,a57,a58,a59,a60,a61,a62,a63;a63.a[0]=1;return a63.a[0];}int main(void){return 3;}
run a.c||1|3|||budget ld 1 al 0 sa 1 sd 1 ab 1 eb 0 cq 0`^trapped 4`^steps |a.c|struct s{char a[67108864];};int f(void){struct s a0,a1,a2,a3,a4,a5,a6,a7,a8,a9,a10,a11,a12,a13,a14,a15,a16,a17,a18,a19,a20,a21,a22,a23,a24,a25,a26,a27,a28,a29,a30,a31,a32,a33,a34,a35,a36,a37,a38,a39,a40,a41,a42,a43,a44,a45,a46,a47,a48,a49,a50,a51,a52,a53,a54,a55,a56,a57,a58,a59,a60,a61,a62,a63;a63.a[0]=1;return a63.a[0];}int main(void){return f();}
big 3||0|1||32^`|budget ld 1 al 0 sa 1 sd 1 ab 1 eb 0 cq 0`^ended 0`^steps 
big --steps=100 3||3|3|||budget ld 1 al 0 sa 1 sd 1 ab 1 eb 0 cq 0`^running`^steps 100`
big --memory=64 3||2|1|||refused data-too-large 276`"#;
