//! Texts of C, with ` for each line feed. Each row has its kind, what is due, and its text or texts.

/// Texts that break a rule of types, with its line and its column.
pub const BROKEN: &str = r#"types|Undeclared 1 16|int m(){return y;}
types|Undeclared 1 9|int m(){f();}
types|Undeclared 1 30|int m(){{int y=1;y=2;}return y;}
types|Undeclared 1 23|int m(){return sizeof x;}
types|Undeclared 2 9|#include <stdio.h>`int m(){exit(1);}
types|Redeclared 1 20|int m(){int a;char a;}
types|Redeclared 1 25|extern int a;static int a;
types|Redeclared 1 13|enum{A};int A;
types|Redeclared 1 18|int f(int a){int a;return 0;}
types|Redeclared 1 18|int f(int a,char a);
types|Redeclared 1 20|struct s{int a;int a;};
types|Redeclared 1 19|extern int a;char a;
types|Redeclared 1 16|int f(int);int f(char);
types|Redeclared 2 5|#include <stdio.h>`int printf(char*s);
types|Redefined 1 13|int a=1;int a=2;
types|Redefined 1 27|int f(void){return 0;}int f(void){return 0;}
types|Redefined 1 25|struct t{int a;};struct t{int a;};
types|Redefined 2 5|#include <stdio.h>`int putchar(int c){return c;}
types|TagKind 1 23|struct t{int a;};enum t x;
types|TagKind 1 26|enum t{A};int m(){struct t*p;p=0;}
types|Incomplete 1 10|struct t x;
types|Incomplete 1 28|struct t;struct s{struct t x;};
types|Incomplete 1 25|struct t;int m(){return sizeof(struct t);}
types|Incomplete 1 5|int a[];
types|Incomplete 1 16|int m(){return sizeof(int(void));}
types|Incomplete 1 13|int m(){int a[];}
types|VoidObject 1 15|struct s{void x;};
types|VoidObject 1 26|typedef void v;int m(){v x;}
types|VoidObject 1 18|int f(int a,void b);
types|BadFunctionType 1 5|int f(void)[2];
types|BadFunctionType 1 14|struct s{int f(void);};
types|BadFunctionType 1 5|int x{return 0;}
types|BadFunctionType 1 5|int f[2](void);
types|BadFunctionType 1 5|int g(void)(void);
types|FunctionPointer 1 6|int(*f)(void);
types|FunctionPointer 1 11|int f(int g(void));
types|FunctionValue 1 28|int f(void);int m(){return f==0;}
types|FunctionValue 1 36|int f(void);int m(){int*p;p=(int*)&f;}
types|FunctionValue 1 35|int f(void);int m(){return sizeof f;}
types|BadSize 1 7|int a[0];
types|BadSize 1 13|int n;int a[n];
types|BadSize 1 7|int a[-1];
types|ObjectTooLarge 1 6|char a[67108865];
types|ObjectTooLarge 1 23|int m(){return sizeof(int[16777217])>0;}
types|ObjectTooLarge 1 1|struct s{char a[40000000];char b[40000000];};
types|ObjectTooLarge 1 7|char(*p)[67108865];
types|NotLvalue 1 9|int m(){1=2;}
types|NotLvalue 1 23|int m(){int a;int*p;p=&(a+1);}
types|NotLvalue 1 15|int m(){int a;a++ ++;}
types|NotModifiable 1 18|int a[2];int m(){a++;}
types|NotModifiable 1 27|int a[2];int b[2];int m(){a=b;}
types|NotModifiable 1 30|struct t{int a[2];}x;int m(){x.a=0;}
types|NotScalar 1 30|struct t{int a;}x;int m(){if(x)return 1;}
types|NotScalar 1 30|void f(void){}int m(){return f()?1:0;}
types|NotScalar 1 33|struct t{int a;}x;int m(){return!x;}
types|NotInteger 1 22|int*p;int m(){return ~p;}
types|NotInteger 1 31|int a[2];int*p;int m(){switch(p){}}
types|BadOperands 1 28|int*p;int*q;int m(){return p+q;}
types|BadOperands 1 29|int*p;char*q;int m(){return p==q;}
types|BadOperands 1 22|int*p;int m(){return p<0;}
types|BadAssign 1 21|int a;int*p;int m(){p=a;}
types|BadAssign 1 14|char*p;int*q=p;
types|BadAssign 1 36|int m(){char*p;unsigned char*q;p=0;q=p;}
types|BadAssign 1 29|void f(void){}int a;int m(){a=f();}
types|BadCast 1 33|struct t{int a;}x;int m(){return(int)x;}
types|BadCast 1 28|void f(void);int m(){return(int)f();}
types|BadCast 1 15|int a;int m(){(int[1])a;}
types|BadCast 1 32|struct t{int a;};int a;int m(){(struct t)a;}
types|BadIndex 1 22|int a;int m(){return a[1];}
types|BadIndex 1 28|int*p;int*q;int m(){return p[q];}
types|BadIndex 1 35|void f(void);int a;int m(){return 1[a];}
types|BadDeref 1 21|int a;int m(){return*a;}
types|BadDeref 1 16|void*p;int m(){*p;}
types|BadDeref 1 21|int f(void*p){return*p;}
types|NotStructure 1 22|int a;int m(){return a.b;}
types|NotStructure 1 34|struct t{int a;}x;int m(){return x->a;}
types|BadMember 1 34|struct t{int a;}x;int m(){return x.b;}
types|BadMember 1 35|struct t{int a;}*p;int m(){return p->t;}
types|BadMember 1 51|struct t{int a;}x;struct u{int b;};int m(){return x.b;}
types|StructureValue 1 29|struct t{int a;}x,y;int m(){x=y;}
types|StructureValue 1 27|struct t{int a;};struct t f(void);
types|StructureValue 1 33|struct t{int a;};int f(struct t x);
types|StructureValue 1 38|struct t{int a;}x;int m(){struct t y=x;}
types|BadCall 1 22|int a;int m(){return a();}
types|BadCall 1 16|int m(){return 1(2);}
types|ArgumentCount 1 29|int f(int a);int m(){return f();}
types|ArgumentCount 1 28|int f(void);int m(){return f(1);}
types|ArgumentCount 1 29|int f(int a);int m(){return f(1,2);}
types|BadArgument 1 31|int f(int*p);int m(){return f(1);}
types|BadArgument 1 37|int f(int a);int*p;int m(){return f(p);}
types|BadArgument 1 48|int f(char*p);unsigned char c;int m(){return f(&c);}
types|BadReturn 1 14|void f(void){return 1;}
types|BadReturn 1 14|int*f(int a){return a;}
types|NotConstant 1 13|int a;int b=a;
types|NotConstant 1 27|int m(){int a=1;int b[1]={a};}
types|NotConstant 1 14|int a;enum{A=a};
types|NotConstant 1 30|int a;int m(){switch(a){case 1+a:;}}
types|NotConstant 1 13|int x;int y=!&x;
types|ConstantDivision 1 7|int a=1/0;
types|ConstantDivision 1 8|enum{A=1%0};
types|BadInitialiser 1 10|int a[1]=1;
types|BadInitialiser 1 5|int f(void)=1;
types|BadInitialiser 1 19|struct t{int a;}x=1;
types|TooManyInitialisers 1 13|int a[1]={1,2};
types|TooManyInitialisers 1 11|char a[2]="abc";
types|TooManyInitialisers 1 36|struct t{int a;int b[2];}x={1,{2,3,4}};
types|TooManyInitialisers 1 24|int m(){char a[1]={'a','b'};}
types|LoopOutside 1 9|int m(){break;}
types|LoopOutside 1 26|int m(){switch(1){case 1:continue;}}
types|LoopOutside 1 9|int m(){continue;}
types|StorageClass 1 10|struct t{static int a;};
types|StorageClass 1 7|int f(auto int a);
types|StorageClass 1 23|int m(){return sizeof(register int);}
types|StorageClass 1 7|int f(extern int a);
types|StorageClass 1 22|int a;int m(){return(static int)a;}
types|BlockStorage 1 9|int m(){static int a;}
types|BlockStorage 1 15|int a;int m(){extern int a;}
types|BlockFunction 1 13|int m(){int f(void);}
types|BlockFunction 1 31|typedef int t(void);int m(){t f;}
types|TypedefMisuse 1 13|typedef int t=1;
types|TypedefMisuse 1 7|int f(typedef int a);
types|TypedefMisuse 1 23|typedef int t(void);t f{return 0;}
types|TypedefMisuse 1 10|struct s{typedef int t;};
types|TypedefMisuse 1 13|typedef int f(void){return 0;}
types|TypedefMisuse 1 23|int m(){return sizeof(typedef int);}
types|ParameterName 1 7|int f(int){return 0;}
types|ParameterName 1 13|int f(int a,char*){return 0;}
types|BadFormat 2 16|#include <stdio.h>`int m(){printf("%q");}
types|BadFormat 2 27|#include <stdio.h>`int*p;int m(){printf("%d",p);}
types|BadFormat 2 27|#include <stdio.h>`int m(){char*s="a";printf(s);}
types|BadFormat 2 16|#include <stdio.h>`int m(){printf("%5d",1);}
types|BadFormat 2 16|#include <stdio.h>`int m(){printf("a\0b");}
types|BadFormat 2 27|#include <stdio.h>`int*p;int m(){printf("%s",p);}
types|BadFormat 2 16|#include <stdio.h>`int m(){printf("100%");}
types|PrintfPlace 2 16|#include <stdio.h>`int m(){return printf("a");}
types|PrintfPlace 2 13|#include <stdio.h>`int m(){for(printf("a");0;);}
types|BadMain 1 6|void main(void){}
types|BadMain 1 5|int main(int a){return a;}
types|MainCalled 1 23|int main(void){return main();}
types|MainCalled 1 34|int main(void);int f(void){return(main)();}int main(void){return 0;}
types|CaseOutside 1 20|int m(){switch(1){{case 1:;}}}
types|CaseOutside 1 24|int m(){switch(1){if(1)default:;}}
types|CaseOutside 1 27|int m(){switch(1){while(0)case 1:;}}
types|CaseDuplicate 1 33|int main(void){switch(1){case 1:case 1:;}return 0;}
types|CaseDuplicate 1 29|int m(){switch(1u){case -1:;case 4294967295u:;}}
types|CaseDuplicate 1 28|int m(){switch(1){case -1:;case 0xffffffff:;}}
types|DefaultTwice 1 27|int m(){switch(1){default:default:return 0;}}
types|DefaultTwice 1 36|int m(){switch(1){default:;case 1:;default:;}}
types|SwitchBody 1 18|int m(){switch(1)return 0;}
types|SwitchBody 1 19|int m(){switch(1){int a;case 1:;}}
types|SwitchBody 1 19|int m(){switch(1){typedef int t;case 1:;}}
types|Incomplete 1 6|void a[3];
types|Incomplete 1 12|int f(void a[2]);
types|NotScalar 1 34|struct s{int a;}x;int m(){return -x;}
types|NotScalar 1 30|void f(void){}int m(){return +f();}
types|NotScalar 1 34|struct s{int a;}x;int m(){return ~x;}
types|NotInteger 1 22|int*p;int m(){return -p;}
types|Incomplete 1 27|struct t*p;int m(){return p->a;}
types|Incomplete 1 34|extern struct t x;int m(){return x.a;}
types|Incomplete 1 29|struct s{int a;int b[sizeof(((struct s*)0)->a)];};
types|NotConstant 1 15|int g;short a=(int)&g;
types|NotConstant 1 8|char c=(int)(int*)65;
types|NotConstant 1 36|int g;struct s{int a;short b;}x={1,(int)&g};
types|NotConstant 1 20|int g;char a[2]={1,(int)&g};
types|NotConstant 1 27|int g;int m(){short a[1]={(int)&g};}
types|NotConstant 1 23|int g;unsigned char c=(unsigned)&g+4;
types|NotStructure 1 26|int m(int i,int*p){return(i?p:(void*)(char*)0)->v;}
types|BadSize 1 7|int a[(int)(void*)0+1];
types|ObjectTooLarge 1 6|char a[][67108864]={{1},{1},{1},{1},{1},{1},{1},{1},{1},{1},{1},{1},{1},{1},{1},{1},{1},{1},{1},{1},{1},{1},{1},{1},{1},{1},{1},{1},{1},{1},{1},{1},{1},{1},{1},{1},{1},{1},{1},{1},{1},{1},{1},{1},{1},{1},{1},{1},{1},{1},{1},{1},{1},{1},{1},{1},{1},{1},{1},{1},{1},{1},{1},{1},{1},{1},{1},{1},{1},{1}};"#;

/// Texts beside them that break none; and how a structure of a char, an int and a short is laid out: its size, its alignment, and the offsets of
/// its members and of a name that is none. Names are numbered as they come in the text.
pub const UNBROKEN: &str = r#"types|none|int f(void);int m(){return f();}int f(void){}
types|none|extern int a;int a;int m(){int a;{char a;}}
types|none|int a;int a=1;int a;int f(void);int f(void){return 0;}int f(void);
types|none|struct t{int a;};int m(){enum t{A}x;x=A;return x;}
types|none|struct t x;struct t{int a;};struct u*p;
types|none|void*p;void f(void){}
types|none|int*f(void);int a[2];
types|none|int*(f)(void);
types|none|int f(void){return 0;}int m(){return(f)()==0;}
types|none|int a[0||2-1];
types|none|int m(){return sizeof(char[67108864])>0;}int f(char a[67108865]){}
types|none|int m(){int a[2];int*p;int(*q)[2];q=&a;p=&(a[1]);(*p)=2;return q==0;}
types|none|int a[2];int m(){int*p=a;p++;a[0]++;}
types|none|int*p;int m(){if(p)return 1;return !p&&0;}
types|none|char c;int m(){switch(~c){}}
types|none|int*p;void*q;int m(){p=p+1;return(p==q)+(p-p)+(p==0)+(p<p);}
types|none|int*p;void*q;char c;int m(){p=0;q=p;p=q;c=300;}
types|none|int*p;int m(){(void)p;return(int)(char*)p;}
types|none|int a[2];int m(){return 1[a]+a[0];}
types|none|int a[1];int m(){return*a;}
types|none|struct t{int a;}x;int m(){return x.a+(&x)->a;}
types|none|struct t{int a;struct u{int b;}c;}x;int m(){return x.c.b;}
types|none|struct t{int a;}x={1};int f(struct t*p){return p->a;}int m(){return f(&x);}
types|none|int f(void){return 1;}int m(){return f();}
types|none|int f(int a,char b){return a+b;}int m(){return f(1,2);}
types|none|int f(int*p,int a[2],char c){return 0;}int b[3];int m(){return f(0,b,300);}
types|none|int*f(void){return 0;}int g(void){return;}void h(void){return;}
types|none|int a[3];int*p=&a[1];int*q=a+2;char*s="x"+1;int b=sizeof b;int m(){int c=b;return c;}
types|none|int a=0&&1/0;int m(){int b=1/0;}
types|none|int a={1};int b[1]={1};struct t{int a;}c={1};
types|none|char a[3]="abc";int b[2][2]={1,2,3,4};int c[]={1,2,};
types|none|int m(){switch(1){case 1:break;}while(0){if(1)continue;break;}}
types|none|auto int a;int f(register int a){return a;}
types|none|static int a;extern int b;int m(){auto int a;register int b;}
types|none|typedef int t(void);t f;int m(){typedef int u(void);}
types|none|typedef int t;int m(){typedef t u;u a=1;return a-1;}
types|none|int f(int,char*);int f(int a,char*b){return 0;}
types|none|#include <stdio.h>`char*s="a";int m(){printf("%s %lu%%%c" "%i",s,1,2,'x');}
types|none|#include <stdio.h>`int m(){if(1)printf("a");else printf("b");}
types|none|int main();int main(){return 0;}
types|none|int f(void){int main=1;return main;}int main(void){return 0;}
types|none|int m(){switch(1){case 1:case 2:;default:;}}
types|none|int m(){switch((char)1){case 1:;case 257:switch(1){case 1:;}}}
types|none|int m(){switch(1){default:switch(1){default:;}}}
types|none|int m(){switch(1){case 1:{int a;a=1;}}}
types|none|struct s{char c;int n;short h;};int a[sizeof(struct s)==12?1:-1];
types|none|#include <stdio.h>`typedef int num;int main(void){num i;int s=0;for(i=0;i<5;i++)switch(i){case 1:s+=10;case 2:s+=100;break;case 4:s+=1;break;default:s+=1000;}printf("%d\n",s);return 0;}
types|none|#include <stdio.h>`int main(void){int i;int s=0;for(i=0;i<4;i++){switch(i&1){case 0:continue;}s+=i;}printf("%d\n",s);return 0;}
types|none|#include <stdio.h>`typedef int t;int main(void){int t=3;printf("%d\n",t);return 0;}
types|none|int f(struct s*p){return p==0;}int m(){return f(0);}
types|none|struct t{int a;}x,y;int m(){int b=1;return(b?x:y).a;}
types|none|int m(){int x=x+1;return sizeof x-4;}
types|none|char c;int m(){return c<0?2:sizeof(c+c)==4?0:3;}
types|none|enum e{A=4,B}x=B;int y=A;int m(){int z=x;return z==y+1?0:1;}
types|none|int g;int a=(int)&g;unsigned b=(unsigned)&g+4;int*p=(int*)65;void*q=(void*)0;int*r=(void*)0;
types|none|struct t{int a;};int f(int i,struct t*p){return(i?p:(void*)0)->a+(i?(void*)(1-1):p)->a;}
types|none|struct s{char a[67108864];};int m(){struct s a0,a1,a2,a3,a4,a5,a6,a7,a8,a9,a10,a11,a12,a13,a14,a15,a16,a17,a18,a19,a20,a21,a22,a23,a24,a25,a26,a27,a28,a29,a30,a31,a32,a33,a34,a35,a36,a37,a38,a39,a40,a41,a42,a43,a44,a45,a46,a47,a48,a49,a50,a51,a52,a53,a54,a55,a56,a57,a58,a59,a60,a61,a62,a63;}
types|none|struct s{char a[67108864];};int m(){struct s a0,a1,a2,a3,a4,a5,a6,a7,a8,a9,a10,a11,a12,a13,a14,a15,a16,a17,a18,a19,a20,a21,a22,a23,a24,a25,a26,a27,a28,a29,a30,a31,a32,a33,a34,a35,a36,a37,a38,a39,a40,a41,a42,a43,a44,a45,a46,a47,a48,a49,a50,a51,a52,a53,a54,a55,a56,a57,a58,a59,a60,a61,a62,a63,a64,a65,a66,a67,a68,a69={{1,2}};char t[4]="abc";int n;int*p=&n;a63.a[1]=t[2];}
types|none|int f(int a){while(a){int k=k+1;a=a-k;}return 0;}
layout|Some(12) Some(4) Some(0) Some(4) Some(8) None|struct s{char c;int n;short h;}x;"#;

/// Pairs of files: the bytes of the program from address 16 on, in hexadecimal, and where its frames begin; or why they don't join.
pub const PAIRS: &str = r#"join|NoMain||
join|NoMain|static int main(void){return 0;}|
join|0500000025640a00 24|int n=5;|#include <stdio.h>`extern int n;int main(void){printf("%d\n",n);return 0;}
join|NotDefined(Place { file: 0, line: 2, col: 43 })|#include <stdio.h>`extern int n;int main(void){printf("%d\n",n);return 0;}|
join|NotDefined(Place { file: 1, line: 2, col: 43 })|static int n=5;|#include <stdio.h>`extern int n;int main(void){printf("%d\n",n);return 0;}
join|0500000006000000 24|static int n=5;|int n=6;int main(void){return 0;}
join|DefinedTwice(Place { file: 0, line: 1, col: 5 }, Place { file: 1, line: 1, col: 5 })|int n=5;|int n=6;int main(void){return 0;}
join|NotDefined(Place { file: 1, line: 1, col: 35 })|int f(void);|int f(void);int main(void){return f();}
join|00000000 20|int n;|int n;int n;int main(void){return n;}
join|07000000 20|int n;|int n=7;int main(void){return 0;}
join|0000000025640a00 24|int n;|#include <stdio.h>`extern int n;int main(void){printf("%d\n",n);return 0;}
join|TypesDiffer(Place { file: 0, line: 1, col: 5 }, Place { file: 1, line: 1, col: 5 })|int f(int x);int main(void){return f(1);}|int f(char x){return x;}
join|0500000006000000 24|extern int a[];int main(void){return a[0];}|int a[2]={5,6};
join|TypesDiffer(Place { file: 0, line: 1, col: 12 }, Place { file: 1, line: 1, col: 5 })|extern int a[];extern int a[2];int main(void){return 0;}|int a[3];
join|TypesDiffer(Place { file: 0, line: 1, col: 27 }, Place { file: 1, line: 1, col: 34 })|struct s{int n;};struct s v;int main(void){return 0;}|struct s{int m;};extern struct s v;
join|00000000 20|struct s{int n;};struct s*p;int main(void){return 0;}|struct s{int m;};extern struct s*p;
join|0100000002000000 24|char c=1;int n=2;|int main(void){return 0;}
join|14000000616200 24|char*s="ab";|int main(void){return 0;}
join|DataTooLarge(4194320)|int a[1048576];|int main(void){return 0;}"#;
