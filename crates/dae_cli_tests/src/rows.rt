//! Calls over source texts, a row a line, with `|` between its parts: the words, the status, what is put out, the lines that are
//! noted beside the budget and the number of steps, or `?` for any, and the files, each a name and what it tells. In the parts ` is a
//! line feed, ~ a carriage return, $ a tab and ^ a byte 255.

/// Worked calls.
pub const ROWS: &str = r#"run a.c|0||ended 0`|a.c|int main(void){return 0;}
run a.c|0|-3 -1`|ended 0`|a.c|#include <stdio.h>`int main(void){printf("%d %d\n",-7/2,-7%2);return 0;}
run a.c|0|11`22`33`44`|ended 0`|a.c|#include <stdio.h>`int a[4]={1,2,3,4};int b[4]={10,20,30,40};int c[4];int main(void){int i;for(i=0;i<4;i++)c[i]=a[i]+b[i];for(i=0;i<4;i++)printf("%d\n",c[i]);return 0;}
run --ld=2 --al=1 --sa=1 --sd=1 --ab=1 --eb=1 --cq=1 a.c|0|11`22`33`44`|ended 0`|a.c|#include <stdio.h>`int a[4]={1,2,3,4};int b[4]={10,20,30,40};int c[4];int main(void){int i;for(i=0;i<4;i++)c[i]=a[i]+b[i];for(i=0;i<4;i++)printf("%d\n",c[i]);return 0;}
run --ld=1 a.c|0|9`|ended 0`|a.c|#include <stdio.h>`int g;int h;int main(void){g=3;h=g*g;printf("%d\n",h);return 0;}
run --ld=1 a.c|4||depth ld needs 2 has 1`|a.c|#include <stdio.h>`int a[4]={1,2,3,4};int b[4]={10,20,30,40};int c[4];int main(void){int i;for(i=0;i<4;i++)c[i]=a[i]+b[i];for(i=0;i<4;i++)printf("%d\n",c[i]);return 0;}
run --schedule=a a.c|0|9`|ended 0`|a.c|#include <stdio.h>`int x[10];int main(void){int i;x[0]=0;for(i=1;i<10;i++)x[i]=x[i-1]+1;printf("%d\n",x[9]);return 0;}
run a.c|0|11220044`|ended 0`|a.c|#include <stdio.h>`unsigned a[1];int main(void){unsigned char*p=(unsigned char*)a;a[0]=0x11223344;p[1]=0;printf("%x\n",a[0]);return 0;}
run a.c|0|-2147483648 0`|ended 0`|a.c|#include <stdio.h>`int main(void){int m=-2147483647-1;int d=-1;printf("%d %d\n",m/d,m%d);return 0;}
run --schedule=a a.c|1|10`20`|trapped 2`|a.c|#include <stdio.h>`int u=10;int v=20;int*q[3]={&u,&v,0};int main(void){int i;for(i=0;i<3;i++)printf("%d\n",*q[i]);return 0;}
run --show=16,4 a.c|1|5`|trapped 1`memory 16: 07 00 00 00`|a.c|#include <stdio.h>`int g;int z;int main(void){printf("%d\n",5);g=7;g=g/z;return 0;}
run a.c|0|111`|ended 0`|a.c|#include <stdio.h>`int main(void){int n=27;int s=0;while(n!=1){if(n%2)n=3*n+1;else n=n/2;s++;}printf("%d\n",s);return 0;}
run a.c|0|7`5`6`|ended 0`|a.c|#include <stdio.h>`int a[3]={2,0,1};int b[3]={5,6,7};int main(void){int i;for(i=0;i<3;i++)printf("%d\n",b[a[i]]);return 0;}
run a.c|0|998`|ended 0`|a.c|#include <stdio.h>`int f(int n){return n?1+f(n-1):0;}int main(void){printf("%d\n",f(998));return 0;}
run a.c|1||trapped 4`|a.c|#include <stdio.h>`int f(int n){return n?1+f(n-1):0;}int main(void){printf("%d\n",f(999));return 0;}
run --calls=10 a.c|1||trapped 4`|a.c|#include <stdio.h>`int f(int n){return n?1+f(n-1):0;}int main(void){printf("%d\n",f(9));return 0;}
run a.c|0|256 4294967295`|ended 0`|a.c|#include <stdio.h>`int main(void){char c;c=255;printf("%d %u\n",c+1,0u-1);return 0;}
run a.c|2||refused goto a.c:3:5`|a.c|int main(void)`{`    goto a;`a:;}
run a.c|2||refused no-main`|a.c|
run a.c|2||refused bad-byte a.c:1:16`|a.c|int main(void){@}
run a.c|2||refused syntax a.c:1:24`|a.c|int main(void){return 0}
run a.c|2||refused undeclared a.c:1:23`|a.c|int main(void){return x;}
run a.c b.c|0|5`|ended 0`|a.c|int n=5;|b.c|#include <stdio.h>`extern int n;int main(void){printf("%d\n",n);return 0;}
run b.c|2||refused not-defined b.c:2:43`|b.c|#include <stdio.h>`extern int n;int main(void){printf("%d\n",n);return 0;}
run a.c b.c|2||refused defined-twice a.c:1:5 b.c:1:5`|a.c|int n=5;|b.c|int n=6;int main(void){return 0;}
run a.c b.c|2||refused types-differ a.c:1:5 b.c:1:13`|a.c|int n=5;|b.c|extern char n;int main(void){return 0;}
run a.c b.c|2||refused undeclared b.c:1:23`|a.c|int n=5;|b.c|int main(void){return y;}
run a.c|2||refused data-too-large 4194320`|a.c|int a[1048576];int main(void){return 0;}
run a.c|1||trapped 3`|a.c|int main(void){*(int*)18=1;return 0;}
run --show=1048572,4 a.c|0||ended 0`memory 1048572: 01 00 00 00`|a.c|int main(void){*(int*)1048572=1;return 0;}
run a.c|1||trapped 2`|a.c|int main(void){*(int*)1048576=1;return 0;}
run a.c|1||trapped 2`|a.c|int main(void){*(int*)12=1;return 0;}
run a.c|0|42`|ended 0`|a.c|#include <stdio.h>`int g;int h;int main(void){g=6;h=g*7;printf("%d\n",h);return 0;}
run a.c|0|3`|ended -1`|a.c|#include <stdio.h>`int main(void){printf("%d\n",3);return -1;}
run --memory=64 a.c|0||ended 48`|a.c|char a[48];int main(void){return sizeof a;}
run --memory=64 a.c|2||refused data-too-large 68`|a.c|char a[49];int main(void){return sizeof a;}
run a.c missing.c b.c|5||read missing.c`|a.c|int n;|b.c|int main(void){@}
run --cap=1 a.c|0|11`22`33`44`|ended 0`|a.c|#include <stdio.h>`int a[4]={1,2,3,4};int b[4]={10,20,30,40};int c[4];int main(void){int i;for(i=0;i<4;i++)c[i]=a[i]+b[i];for(i=0;i<4;i++)printf("%d\n",c[i]);return 0;}
run a.c|1||trapped 5`|a.c|#include <stdlib.h>`int main(void){abort();return 0;}
run a.c|0||ended 3`|a.c|#include <stdlib.h>`int main(void){exit(3);return 0;}
run --steps=100 a.c|3||running`|a.c|int main(void){for(;;);return 0;}
run a.c|1||trapped 1`|a.c|#include <stdio.h>`int main(void){int n=10;int d=0;if(n>5)n=n/d;printf("%d\n",n);return 0;}
run a.c|0|7`|ended 0`|a.c|#include <stdio.h>`int x[5];int main(void){int i;for(i=0;i<4;i++);x[i]=7;printf("%d\n",x[4]);return 0;}
run a.c|1||trapped 4`|a.c|int f(void){return f();}int main(void){return f();}
run --ld=1 --al=1 --sa=1 --sd=1 --ab=1 --eb=1 --cq=1 a.c|0|2`|ended 0`|a.c|#include <stdio.h>`int k=2;int x[4];int main(void){int j=k;x[j]=j;printf("%d\n",x[2]);return 0;}
run a.c|0|3`|ended 0`|a.c|#include <stdio.h>`int s[4];int main(void){int i=0;while(i<4){s[i]=i;i++;}printf("%d\n",s[3]);return 0;}
run a.c|0|2211`|ended 0`|a.c|#include <stdio.h>`typedef int num;int main(void){num i;int s=0;for(i=0;i<5;i++)switch(i){case 1:s+=10;case 2:s+=100;break;case 4:s+=1;break;default:s+=1000;}printf("%d\n",s);return 0;}
run a.c|0|4`|ended 0`|a.c|#include <stdio.h>`int main(void){int i;int s=0;for(i=0;i<4;i++){switch(i&1){case 0:continue;}s+=i;}printf("%d\n",s);return 0;}
run a.c|2||refused case-duplicate a.c:1:33`|a.c|int main(void){switch(1){case 1:case 1:;}return 0;}
run a.c|0|3`|ended 0`|a.c|#include <stdio.h>`typedef int t;int main(void){int t=3;printf("%d\n",t);return 0;}
run a.c b.c|2||refused types-differ a.c:1:5 b.c:1:5`|a.c|int f(int x);int main(void){return f(1);}|b.c|int f(char x){return x;}
run a.c|0|8`|ended 0`|a.c|#include <stdio.h>`int a;int b;int c;int d;int e;int main(void){a=1;b=2;c=3;d=4;e=5;printf("%d\n",a+b*c-d+e);return 0;}
|64||words`
run|64||words`
run --ld=0 a.c|64||words`
run --ld=08 a.c|64||words`
walk a.c|64||words`
run -a.c|64||words`
compile a.c|64||words`"#;

/// Texts of files. Their outputs are those of gcc with wrapping arithmetic.
pub const FILES: &str =
    r#"run a.c|0|-2860724`|?|a.c|#include <stdio.h>`int a;int b;int _c;int Dn;int int0;int main(void){a=1390851128;b=647892279;_c=1695753998;Dn=207388624;int0=311111475;_c=a+Dn-int0*b+a-_c-int0*int0*a+int0;printf("%d\n",Dn+_c*a*_c+int0-b+Dn*_c);return 0;}
run a.c|0|1854851000`-1969041155`97514245`|?|a.c|#include <stdio.h>`int a;int b;int _c;int Dn;int int0;int main(void){a=1390851128;b=647892279;_c=1695753998;Dn=207388624;int0=311111475;int0=a*1159380353*0*_c-a+int0-b-Dn;printf("%d\n",Dn-b*_c+b*b*Dn+_c-int0);int0=2*231897701-Dn-444688428+a-a*a*_c*b-2;printf("%d\n",a-Dn+a-2147483647+int0*b);int0=1;printf("%d\n",_c+2147483647*Dn-int0-a);return 0;}
run a.c|0|2147483647`1992725116`-1837634503`-1177686237`|?|a.c|#include <stdio.h>`int a;int b;int _c;int Dn;int int0;int main(void){a=1390851128;b=647892279;_c=1695753998;Dn=207388624;int0=311111475;_c=1478675319+a+Dn*Dn;printf("%d\n",2147483647);a=65536-b-1+65536+b+649187324*b*a+Dn+_c-int0;printf("%d\n",a*1519490800+int0*b+b);Dn=_c+int0+_c+int0*_c*Dn*3+Dn-Dn+1;printf("%d\n",3*b+_c+3*b-2+Dn);_c=a*Dn*_c+a-_c+_c;printf("%d\n",b-a+Dn+0+int0-a-int0);return 0;}
run a.c|0|925447800`-1550968396`308373392`|?|a.c|#include <stdio.h>`int a;int b;int _c;int Dn;int int0;int main(void){a=1390851128;b=647892279;_c=1695753998;Dn=207388624;int0=311111475;int0=a+a-7;printf("%d\n",int0+_c+a-b);a=int0+7*b+_c*a+b*int0-3+b-a-int0;printf("%d\n",b-a-Dn+int0);a=Dn-a*a*_c*_c;printf("%d\n",65536*0+a);return 0;}
run a.c|0|0`311111475`|?|a.c|#include <stdio.h>`int a;int b;int _c;int Dn;int int0;int main(void){a=1390851128;b=647892279;_c=1695753998;Dn=207388624;int0=311111475;_c=int0*0;printf("%d\n",a*1*1-a);b=Dn*Dn*int0+int0;printf("%d\n",int0+Dn+7*_c-Dn+_c);return 0;}
run a.c|0|774822424`-73847727`1403791111`-909955231`|?|a.c|#include <stdio.h>`int a;int b;int _c;int Dn;int int0;int main(void){a=1390851128;b=647892279;_c=1695753998;Dn=207388624;int0=311111475;a=int0+Dn+int0+_c-1;printf("%d\n",Dn-a*_c-_c);_c=_c+a;printf("%d\n",_c);a=_c-a-0-_c-_c*int0*a;printf("%d\n",2*a-Dn-_c+65536*int0*b);b=int0-_c;printf("%d\n",b*_c-b*a*Dn-_c*_c);return 0;}
run a.c|0|2006865473`512291494`-2071448487`|?|a.c|#include <stdio.h>`int a;int b;int _c;int Dn;int int0;int main(void){a=1390851128;b=647892279;_c=1695753998;Dn=207388624;int0=311111475;b=_c*Dn+_c*Dn+a+Dn+b*a+b*b+65536;printf("%d\n",int0+_c);int0=Dn;printf("%d\n",Dn-a+a-a+_c);Dn=_c;printf("%d\n",_c+Dn-b+_c-b+int0+b);return 0;}
run a.c|0|15624382`191971160`|?|a.c|#include <stdio.h>`int a;int b;int _c;int Dn;int int0;int main(void){a=1390851128;b=647892279;_c=1695753998;Dn=207388624;int0=311111475;Dn=Dn;printf("%d\n",a+b*_c-_c+a-_c-Dn+a);Dn=b-2147483647*b+Dn;printf("%d\n",_c-int0*_c*7+_c+b-Dn-b);return 0;}
run a.c|0|1679208590`-36990269`|?|a.c|#include <stdio.h>`int a;int b;int _c;int Dn;int int0;int main(void){a=1390851128;b=647892279;_c=1695753998;Dn=207388624;int0=311111475;a=_c*_c+Dn*a*int0;printf("%d\n",a+int0-Dn+b*int0-_c);_c=_c+Dn+b+_c*b-1-a+_c+a-a;printf("%d\n",7*1-a);return 0;}
run a.c|0|-1287185355`-1409648926`-918760107`|?|a.c|#include <stdio.h>`int a;int b;int _c;int Dn;int int0;int main(void){a=1390851128;b=647892279;_c=1695753998;Dn=207388624;int0=311111475;b=a;printf("%d\n",Dn-int0-a+Dn);Dn=1-65536-7*_c+Dn*Dn-a+a+Dn*a*a;printf("%d\n",_c+int0-Dn+b*a*1);b=int0*b*Dn+_c+3-0-int0*_c*Dn-int0*a;printf("%d\n",Dn-Dn-b-a+0*2147483647-int0*a);return 0;}
run a.c|0|-799793527`|?|a.c|#include <stdio.h>`int a;int b;int _c;int Dn;int int0;int main(void){a=1390851128;b=647892279;_c=1695753998;Dn=207388624;int0=311111475;b=b*_c*_c;printf("%d\n",_c-int0+_c+Dn+Dn);return 0;}
run a.c|0|647892279`1689258550`-2088598421`|?|a.c|#include <stdio.h>`int a;int b;int _c;int Dn;int int0;int main(void){a=1390851128;b=647892279;_c=1695753998;Dn=207388624;int0=311111475;a=Dn*int0-_c-_c+b-int0+2147483647-b-int0;printf("%d\n",b);int0=a+_c*Dn-b+b+Dn-2+a*int0+b+int0;printf("%d\n",b*a+Dn-int0+7-Dn*1);Dn=_c-a*_c;printf("%d\n",7+int0*b-2*_c*65536*int0);return 0;}
run a.c|0|-1857690026`|?|a.c|#include <stdio.h>`int a;int b;int _c;int Dn;int int0;int main(void){a=1390851128;b=647892279;_c=1695753998;Dn=207388624;int0=311111475;a=b+int0+a+_c+a+1*b;printf("%d\n",b+a);return 0;}
run a.c|0|-1988211423`|?|a.c|#include <stdio.h>`int a;int b;int _c;int Dn;int int0;int main(void){a=1390851128;b=647892279;_c=1695753998;Dn=207388624;int0=311111475;a=a+1-_c-_c-0*_c-a*Dn+3+Dn+a;printf("%d\n",Dn-int0+_c+b*347388120+_c);return 0;}
run a.c|0|0`647892289`481492992`-131067`|?|a.c|#include <stdio.h>`int a;int b;int _c;int Dn;int int0;int main(void){a=1390851128;b=647892279;_c=1695753998;Dn=207388624;int0=311111475;Dn=_c-_c;printf("%d\n",Dn*_c*Dn);int0=Dn-b+int0*7*b+b;printf("%d\n",7+2+b-Dn+1-Dn);a=65536;printf("%d\n",a*int0+0*b);int0=Dn*_c-b-Dn;printf("%d\n",int0-a-a+2-int0+int0*Dn+3);return 0;}
run a.c|0|207388624`689538431`726908903`-915446299`|?|a.c|#include <stdio.h>`int a;int b;int _c;int Dn;int int0;int main(void){a=1390851128;b=647892279;_c=1695753998;Dn=207388624;int0=311111475;int0=_c+Dn;printf("%d\n",Dn);_c=b+int0+b+1-b*_c+_c-65536+Dn*b;printf("%d\n",Dn-1+Dn*b+0);b=int0+b;printf("%d\n",b*int0-b-1-_c-Dn+Dn+Dn);int0=_c-2009874650-Dn-2+int0-int0+a+_c*Dn-Dn;printf("%d\n",_c-Dn-int0-a-2147483647-a-Dn);return 0;}
run a.c|0|2`|?|a.c|#include <stdio.h>`int a;int b;int _c;int Dn;int int0;int main(void){a=1390851128;b=647892279;_c=1695753998;Dn=207388624;int0=311111475;a=int0;printf("%d\n",2);return 0;}
run a.c|0|-1390851128`|?|a.c|#include <stdio.h>`int a;int b;int _c;int Dn;int int0;int main(void){a=1390851128;b=647892279;_c=1695753998;Dn=207388624;int0=311111475;b=a;printf("%d\n",a-b-b);return 0;}
run a.c|0|1924390407`|?|a.c|#include <stdio.h>`int a;int b;int _c;int Dn;int int0;int main(void){a=1390851128;b=647892279;_c=1695753998;Dn=207388624;int0=311111475;printf("%d\n",a*Dn*Dn+a-Dn-1+2*a+b-a*1040543360*_c*_c-2139309363+a-Dn*Dn*_c+1884304136*_c-Dn-int0*a*b-b+int0+7-_c+_c*int0+int0*b+int0+1698642047-Dn+a-int0+b*b*int0+int0-Dn-2147483647*_c*_c+a-_c*Dn-a+Dn*a+Dn+1+int0-b*b-a+int0*int0+a*b+1283305047-_c-_c);return 0;}
run a.c|0|211010104`|?|a.c|#include <stdio.h>`int a;int b;int _c;int Dn;int int0;int main(void){a=1390851128;b=647892279;_c=1695753998;Dn=207388624;int0=311111475;printf("%d\n",a+a+a+a+a+a+a+a+a+a+a+a+a+a+a+a+a+a+a+a+a+a+a+a+a+a+a+a+a+a+a+a+a+a+a+a+a+a+a+a+a+a+a+a+a+a+a+a+a+a+a+a+a+a+a+a+a+a+a+a+a+a+a+a+a);return 0;}
run a.c|0|-1179841024`|?|a.c|#include <stdio.h>`int a;int b;int _c;int Dn;int int0;int main(void){a=1390851128;b=647892279;_c=1695753998;Dn=207388624;int0=311111475;printf("%d\n",a+a+a+a+a+a+a+a+a+a+a+a+a+a+a+a+a+a+a+a+a+a+a+a+a+a+a+a+a+a+a+a+a+a+a+a+a+a+a+a+a+a+a+a+a+a+a+a+a+a+a+a+a+a+a+a+a+a+a+a+a+a+a+a);return 0;}
run a.c|0|625430122`|?|a.c|#include <stdio.h>`int a;int b;int _c;int Dn;int int0;int main(void){a=1390851128;b=647892279;_c=1695753998;Dn=207388624;int0=311111475;printf("%d\n",a+b*_c-Dn);return 0;}
run a.c|0|936541597`|?|a.c|#include <stdio.h>`int a;int b;int _c;int Dn;int int0;int main(void){a=1390851128;b=647892279;_c=1695753998;Dn=207388624;int0=311111475;printf("%d\n",a+b*_c-Dn+int0);return 0;}
run a.c|0|838209536`|?|a.c|#include <stdio.h>`int a;int b;int _c;int Dn;int int0;int main(void){a=1390851128;b=647892279;_c=1695753998;Dn=207388624;int0=311111475;printf("%d\n",a*a*a*a);return 0;}
run a.c|0|122413912`|?|a.c|#include <stdio.h>`int a;int b;int _c;int Dn;int int0;int main(void){a=1390851128;b=647892279;_c=1695753998;Dn=207388624;int0=311111475;printf("%d\n",a-a-a-a-a);return 0;}
run a.c|0|3`|?|a.c|#include <stdio.h>`int a;int b;int _c;int Dn;int int0;int main(void){a=2147483647;b=a*a;printf("%d\n",b-a*2);return 0;}
run a.c|0|-2147483648`-2147483648`|?|a.c|#include <stdio.h>`int a;int b;int _c;int Dn;int int0;int main(void){a=0;printf("%d\n",a-1-2147483647);printf("%d\n",0-2147483647-1);return 0;}
run a.c|0|1`|?|a.c|#include <stdio.h>`int a;int b;int _c;int Dn;int int0;int main(void){printf("%d\n",2147483647*2147483647);return 0;}
run a.c|0|-19`5`|?|a.c|#include <stdio.h>`int a;int b;int _c;int Dn;int int0;int main(void){printf("%d\n",1-2*3-4*5+6);printf("%d\n",10-3-2);return 0;}
run a.c|0||?|a.c|#include <stdio.h>`int a;int b;int _c;int Dn;int int0;int main(void){a=2147483648;return 0;}
run a.c|2||?|a.c|#include <stdio.h>`int a;int b;int _c;int Dn;int int0;int main(void){a=08;return 0;}
run a.c|0||?|a.c|#include <stdio.h>`int a;int b;int _c;int Dn;int int0;int main(void){a=1u;return 0;}
run a.c|0||?|a.c|#include <stdio.h>`int a;int b;int _c;int Dn;int int0;int main(void){a=-1;return 0;}
run a.c|0||?|a.c|#include <stdio.h>`int a;int b;int _c;int Dn;int int0;int main(void){a=(1);return 0;}
run a.c|0||?|a.c|#include <stdio.h>`int a;int b;int _c;int Dn;int int0;int main(void){a=1/2;return 0;}
run a.c|0||?|a.c|#include <stdio.h>`int a;int b;int _c;int Dn;int int0;int main(void){a=b=1;return 0;}
run a.c|2||?|a.c|#include <stdio.h>`int a;int b;int _c;int Dn;int int0;int main(void){z=1;return 0;}
run a.c|2||?|a.c|#include <stdio.h>`int for;int main(void){return 0;}
run a.c|2||?|a.c|#include <stdio.h>`int printf;int main(void){return 0;}
run a.c|2||?|a.c|#include <stdio.h>`int NULL;int main(void){return 0;}
run a.c|0||?|a.c|#include <stdio.h>`int a;int a;int main(void){return 0;}
run a.c|2||?|a.c|int a;int b;int _c;int Dn;int int0;int main(void){printf("%d\n",1);return 0;}
run a.c|0|1|?|a.c|#include <stdio.h>`int a;int b;int _c;int Dn;int int0;int main(void){printf("%d",1);return 0;}
run a.c|2||?|a.c|#include <stdio.h>`int a;int b;int _c;int Dn;int int0;int main(void){printf("% d\n",1);return 0;}
run a.c|2||?|a.c|#include <stdio.h>`int a;int b;int _c;int Dn;int int0;int main(void){return 0;
run a.c|2||?|a.c|#include <stdio.h>`int a;int b;int _c;int Dn;int int0;int main(void){return 0;};
run a.c|2||?|a.c|
run a.c|2||?|a.c|#include <stdio.h>`int a;int b;int _c;int Dn;int int0;int main(void){a=1 2;return 0;}
run a.c|0||?|a.c|#include <stdio.h>`int a;int b;int _c;int Dn;int int0;int main(void){a=+1;return 0;}
run a.c|0||?|a.c|#include <stdio.h>`int a;int b;int _c;int Dn;int int0;int main(void){/* */return 0;}
run a.c|0||?|a.c|#include <stdio.h>`int a;int b;int _c;int Dn;int int0;int main(void){a=1;~`return 0;}
run a.c|0|7`|?|a.c|#include <stdio.h>`$int  a`;`int main ( void )`{ a = 1 + 2$*`3 ; printf ( "%d\n" , a ) ; return 0 ; }`
run a.c|0||?|a.c|int a;int main(void){a=5;return 0;}
run a.c|0||?|a.c|#include <stdio.h>`int main(void){return 0;}
run a.c|0|7`|?|a.c|#include <stdio.h>`#define N 7`int g;int main(void){/* */g=N;printf("%d\n",g);return 0;}"#;

/// Long texts: the status, the note, and the parts of the text, each with how often it stands there.
pub const LONG: &str = r#"2|refused bad-byte a.c:1:26`|1*int main(void){return 0;}^
2|refused bad-byte a.c:1:16`|1*int main(void){@}
2|refused syntax a.c:1:24`|1*int main(void){return 0}
2|refused goto a.c:3:5`|1*int main(void)`{`    goto a;`a:;}
0|ended 0`|1*int main(void){return |196*(|1*0|196*)|1*;}
2|refused too-deep a.c:1:220`|1*int main(void){return |197*(|1*0|197*)|1*;}
0|ended 0`|1*int main(void){|8185*;|1*}
2|refused function-too-long a.c:1:1`|1*int main(void){|8186*;|1*}
2|refused no-main`
2|refused source-too-long a.c`|1048577* 
2|refused redeclared a.c:2:5`|1*#include <stdlib.h>`int exit;int main(void){exit=1;return 0;}
0|ended 0`|1*typedef int t;int main(void){int t=3;t=4;return 0;}
2|refused function-pointer a.c:1:41`|1*typedef int t;int f(t);int g(t x);int h(int(t));|1*int main(void){int x;x=(t)3;x=sizeof(t);return x;}
2|refused syntax a.c:1:40`|1*typedef int t;int main(void){int t=3;t x;return 0;}
0|ended 0`|1*int main(void){switch(1){case 1:case 2:;default:;}return 0;}
0|ended 0`|1*int a[2]={1,2,};enum{A,B,}x;int main(void){return 0;}
2|refused syntax a.c:1:27`|1*int main(void){int a;a=1+2=3;return 0;}
2|refused syntax a.c:1:25`|1*int main(void){return 0;
2|refused too-deep a.c:1:23`|1*int main(void){return (0)|299*+(0)|1*;}
2|refused too-deep a.c:1:220`|1*int main(void){return |10000*(|1*0|10000*)|1*;}"#;

/// Texts that are read twice, in one room for their bytes and one for their tokens.
pub const TWICE: &str = r#"2|refused no-main`|524288* 
2|refused source-too-long a.c`|524289* 
2|refused no-main`|10922*int a;
2|refused too-many-tokens a.c:2:1`|10922*int a;|1*int`a;"#;
