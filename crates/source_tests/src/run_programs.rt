//! Programs without tasks: what their cells of static storage hold in the end is what a C compiler for 32-bit x86 gives
//! (vectors/runs.c).
ghost use Rattle.concrete_worlds.specs.Running.{IsWorld};

use crate::run_pictures::push_cells;
use crate::stations::{Run, Way, rows_are_so};
use concrete_steps::{Choice, Stepped};
use concrete_worlds::World;
use std::alloc::Global;
use std::test::Fail;
use tm_lattice::NoMemory;

// A program, and what its cells of static storage hold when `main` has returned.
static PROGRAMS: [(&str, &str); 37] = [
    (
        "signed char a;unsigned char b;short c;unsigned short d;_Bool e;int f;unsigned g;long long h;\
unsigned long long k;int main(void){a=200;b=-1;c=70000;d=-2;e=256;f=4000000000u;g=-5;h=-1;k=-1;a=a+b;\
h=h+g;return 0;}",
        "-57 255 4464 65534 1 -294967296 4294967291 4294967290 18446744073709551615 ",
    ),
    (
        "unsigned char a=200,b=100;int c,d,e;unsigned short s=65535;unsigned u;short t=-1;int main(void){c=a+b;\
d=~a;e=-s;u=s*2u;t=t*s;b=a+b;a=a<<1;return 0;}",
        "144 44 300 -201 -65535 65535 131070 1 ",
    ),
    (
        "int r[10];long l=-1;unsigned u=1;long long q=-1;unsigned char c=255;int main(void){r[0]=-1<1u;r[1]=l<u;\
r[2]=q<u;r[3]=c>-1;r[4]=(char)c==-1;r[5]=(unsigned short)-1==65535;r[6]=-1<(unsigned short)1;r[7]=u-2>0;\
r[8]=q+u==0;r[9]=l>=0u;return 0;}",
        "0 0 1 1 1 1 1 1 1 1 -1 1 -1 255 ",
    ),
    (
        "int a=-7,b=2,q,r,s,t;unsigned u=4294967289u,v,w;short n=-32768;int x;int main(void){q=a/b;r=a%b;s=a/-b;\
t=a%-b;v=u/2;w=u%10;x=n/-1;n/=3;return 0;}",
        "-7 2 -3 -1 3 -1 4294967289 2147483644 9 -10922 32768 ",
    ),
    (
        "int a=-8,b,c,d;unsigned u=2147483648u,v,w;unsigned char k=255;long long l=1,m;int main(void){b=a>>1;\
c=a>>31;v=u>>31;w=u>>4;d=k<<4;k>>=3;m=l<<40;l=m>>38;a=1<<30;return 0;}",
        "1073741824 -4 -1 4080 2147483648 1 134217728 31 4 1099511627776 ",
    ),
    (
        "int a=100,b=100,c=100,d=100,e=100,f=3,g=-64,h=255,i=255,j=16;int main(void){a+=7;b-=107;c*=-3;d/=7;e%=7;\
f<<=4;g>>=3;h&=60;i^=85;j|=5;return 0;}",
        "107 -7 -300 14 2 48 -8 60 170 21 ",
    ),
    (
        "signed char c=100;unsigned char b=250;short s=20000;unsigned short t=1;_Bool o=1;long long l=1;int r;\
int main(void){r=(c+=100);b*=3;s*=3;t-=2;o+=1;o-=1;l-=2u;c/=2;b%=7;t>>=3;return 0;}",
        "-28 0 -5536 8191 0 -1 -56 ",
    ),
    (
        "signed char c=127;unsigned char b=0;unsigned u=0;short s=-32768;_Bool o=0;int a[3]={1,2,3};int i,r[6];\
int main(void){r[0]=c++;r[1]=--b;r[2]=u--==0;r[3]=s--;r[4]=o++;r[5]=a[i++]++;a[i]+=a[i-1];++a[++i];--o;\
return 0;}",
        "-128 255 4294967295 32767 0 2 4 4 2 127 255 1 -32768 0 1 ",
    ),
    (
        "int a[4]={10,20,30,40};int r[6];int main(void){int*p=a;r[0]=*p++;r[1]=*p;r[2]=*++p;r[3]=(*p)++;r[4]=*p--;\
r[5]=*p;p+=2;*p-=1;p-=3;++*p;return 0;}",
        "11 20 31 39 10 20 30 30 31 20 ",
    ),
    (
        "int n,r[8];int hit(int v){n=n*10+1;return v;}int main(void){r[0]=hit(0)&&hit(1);r[1]=hit(2)&&hit(0);\
r[2]=hit(3)||hit(4);r[3]=hit(0)||hit(0);r[4]=!hit(0);r[5]=!!n;r[6]=hit(0)||hit(1)&&hit(0);\
r[7]=(n>0)+(n<0);return 0;}",
        "1111111111 0 0 1 0 1 1 0 1 ",
    ),
    (
        "int a=5,b,c,d;unsigned u;long long l;signed char k=-1;int main(void){b=a>3?a<6?1:2:3;c=a==0?1:a==5?2:3;\
l=a?-1:0u;u=a?k:1u;d=(a?k:0)<0;a?b++:c++;return 0;}",
        "5 2 2 1 4294967295 4294967295 -1 ",
    ),
    (
        "int a,b,c,i,j;int main(void){a=(1,2,3);b=(a++,a+1);for(i=0,j=10;i<j;i++,j--)c+=i*j;(a=9),b=b*2;return 0;}",
        "9 10 70 5 5 ",
    ),
    (
        "int r[8];int f(int v){int s=0;switch(v){case 1:s+=1;case 2:s+=2;break;default:s+=100;case 3:s+=3;\
case -4:s+=4;break;case 'A':s=65;}return s;}int main(void){r[0]=f(1);r[1]=f(2);r[2]=f(3);r[3]=f(-4);\
r[4]=f(65);r[5]=f(7);r[6]=f(0);return 0;}",
        "3 2 7 4 65 107 107 0 ",
    ),
    (
        "int a,b,c,d;int main(void){int i;for(i=0;i<9;i++){switch(i%4){case 0:continue;case 1:a++;break;\
case 2:switch(i){case 2:b+=10;break;case 6:b+=100;}c++;default:d+=i;}if(i==7)break;}a=a*100+i;return 0;}",
        "207 110 2 18 ",
    ),
    (
        "int a,b,c,d;int main(void){int i=0,j;while(i<10){i++;if(i%2)continue;a+=i;}do{b++;if(b<3)continue;c+=b;}\
while(b<6);for(j=0;;j++){if(j==3)continue;if(j>5)break;d=d*10+j;}return 0;}",
        "30 6 18 1245 ",
    ),
    (
        "int a[2][3]={{1,2,3},{4,5,6}},b[3][2]={{1,2},{3,4},{5,6}},c[2][2];int main(void){int i,j,k;for(i=0;i<2;\
i++)for(j=0;j<2;j++)for(k=0;k<3;k++)c[i][j]+=a[i][k]*b[k][j];return 0;}",
        "1 2 3 4 5 6 1 2 3 4 5 6 22 28 49 64 ",
    ),
    (
        "int a[6]={3,1,4,1,5,9},s,t,u,v;int main(void){int*p,*e=&a[6];for(p=a;p!=e;p++)s+=*p;p=&a[1];t=p[2]+p[-1];\
u=*(p+3)+*(2+p);*p=s;v=&a[1]==p;v=v*2+(p==a);p=a+5;*p=-*p;return 0;}",
        "3 23 4 1 5 -9 23 4 6 2 ",
    ),
    (
        "struct I{short lo;signed char v[3];};struct S{int n;struct I in;unsigned m;}s,t[2];int r;int main(void){\
struct S*p=&s;struct I*q;p->n=5;p->in.lo=70000;p->in.v[1]=-3;(*p).m=-1;p=t;p++;p->n=s.n+1;q=&p->in;\
q->v[2]=300;q->lo=q->v[2]*2;p[-1].in.v[0]=q->v[2]--;r=t[1].in.lo+t[0].in.v[0];return 0;}",
        "5 4464 0 -3 0 4294967295 0 0 44 0 0 0 6 88 0 0 43 0 132 ",
    ),
    (
        "struct N{int v;struct N*next;};struct N n[4];int s,c;int main(void){struct N*p;int i;for(i=0;i<3;i++){\
n[i].v=i*i+1;n[i].next=&n[i+1];}n[3].v=50;for(p=n;p;p=p->next){s+=p->v;c++;}p=n;\
while(p->next!=0)p=p->next;p->v=c;for(i=0;i<4;i++)n[i].next=0;return 0;}",
        "1 0 2 0 5 0 4 0 58 4 ",
    ),
    (
        "struct P{signed char x;int y[2];}a={1,{2,3}},b[2]={{4,{5}},{6}},c={0};int d[5]={1,2},m[2][2]={{1},{2,3}},\
e[]={7,8,9};unsigned char f=300-44;int*g=0;int main(void){a.y[1]+=b[0].y[0];c.x=b[1].x;\
d[4]=sizeof(e)/sizeof(e[0]);return 0;}",
        "1 2 8 4 5 0 6 0 0 6 0 0 1 2 0 0 3 1 0 2 3 7 8 9 0 0 ",
    ),
    (
        "struct P{int x;signed char y[2];};int r[9],k=2;int main(void){int a[4]={k,k*2,k+5};struct P p={300,{k,-k}\
},q[2]={{1},{2,{3,4}}};int z[2][2]={{0,k},{k}};unsigned char c=k-3;r[0]=a[0]+a[1]*10+a[2]*100+a[3];\
r[1]=p.x;r[2]=p.y[0]*10+p.y[1];r[3]=q[0].y[1];r[4]=q[1].y[1];r[5]=z[0][1]+z[1][0]*10+z[1][1];r[6]=c;\
r[7]=z[0][0];return 0;}",
        "742 300 18 0 4 22 255 0 0 2 ",
    ),
    (
        "struct S{char a;short b;char c;int d;char e;}s;struct T{struct S s[2];char z;}t;int a[7];int*p;int r[16];\
int main(void){char c;short m[3][5];long long l;r[0]=sizeof(char);r[1]=sizeof(short);r[2]=sizeof(int);\
r[3]=sizeof(long);r[4]=sizeof l;r[5]=sizeof p;r[6]=sizeof a;r[7]=sizeof(struct S);r[8]=sizeof t;\
r[9]=sizeof m[0];r[10]=sizeof(m)/sizeof(m[0][0]);r[11]=sizeof(c+c);r[12]=sizeof(c,l);\
r[13]=sizeof(a[0]++);r[14]=sizeof(_Bool);r[15]=-1<sizeof c;return 0;}",
        "0 0 0 0 0 0 0 0 0 0 0 0 0 0 0 0 0 0 0 0 0 0 0 0 1 2 4 4 8 4 28 16 36 10 15 4 8 4 1 0 ",
    ),
    (
        "int r[6];signed char low(int v){return v;}int add(signed char a,unsigned char b,_Bool c){\
return a*10000+b*10+c;}unsigned up(short s){s++;return s;}int pick(int n,int a,int b){if(n)return a;\
return b;}int main(void){r[0]=low(200);r[1]=add(129,257,7);r[2]=up(32766);r[3]=up(-2)>5;r[4]=pick(0,\
low(1),pick(1,low(511),9));r[5]=add(low(3),low(-1),0);return 0;}",
        "-56 -1269989 32767 1 -1 32550 ",
    ),
    (
        "int r[4];int*cell(void){static int n=5;return&n;}unsigned char*byte(void){static unsigned char w;\
return&w;}int once(void){int n=1;n+=n;return n;}int main(void){int i;for(i=0;i<3;i++){*cell()+=*cell();\
*byte()+=100;r[i]=*cell()+*byte();}r[3]=once()+once()*10;return 0;}",
        "110 220 84 22 40 44 ",
    ),
    (
        "typedef unsigned char byte;typedef struct P{byte a;int b;}P;enum E{A,B=10,C,D=-3};enum{F=C*2};P p;\
byte q[2];int r[5];enum E e;int main(void){e=C;r[0]=A;r[1]=F;r[2]=e+D;r[3]=(byte)D;p.a=F*20;p.b=e==B+1;\
q[1]=~p.a;switch(e){case B:r[4]=1;break;case C:r[4]=2;}return 0;}",
        "184 1 0 71 0 22 8 253 2 11 ",
    ),
    (
        "int a=1,b=2,c[2]={3,4},r;void swap(int*x,int*y){int t=*x;*x=*y;*y=t;}void set(int**p,int*to){*p=to;}\
int main(void){int*p=&a;int**q=&p;swap(&a,&b);swap(c,c+1);**q=7;set(q,&c[1]);**q+=10;swap(p,&b);r=p==c+1;\
r=r*10+(*q!=p);return 0;}",
        "7 13 4 1 10 ",
    ),
    (
        "int m[3][4],s[3],t;int sum(int*r,int n){int s=0;while(n--)s+=*r++;return s;}int main(void){int(*r)[4]=m;\
int i,j;for(i=0;i<3;i++,r++)for(j=0;j<4;j++)(*r)[j]=i*10+j;r=m;for(i=0;i<3;i++)s[i]=sum(m[i],4);\
t=*(*(r+2)+3)+r[1][2];m[1][0]=sum(&m[2][1],2);return 0;}",
        "0 1 2 3 43 11 12 13 20 21 22 23 6 46 86 35 ",
    ),
    (
        "long long a=4000000000LL,b,c,d;unsigned long long u=1,v,w;int r,s;int main(void){b=a*3;c=b-(a<<2);\
d=-a>>1;u<<=63;v=u-1;w=v*v;r=u>v;s=c<-1;a=(int)b;b=b&0xffffffffLL;u=(unsigned)d;return 0;}",
        "-884901888 3410065408 -4000000000 -2000000000 2294967296 9223372036854775807 1 1 1 ",
    ),
    (
        "unsigned c=0xffffffffu;unsigned char d[4]={0x31,0x32,0x33,0};int n;int main(void){int i,k;for(i=0;i<3;\
i++){c^=d[i];for(k=0;k<8;k++)c=c&1?c>>1^0xEDB88320u:c>>1;}c=~c;for(k=0;k<32;k++)n+=c>>k&1;return 0;}",
        "2286445522 49 50 51 0 12 ",
    ),
    (
        "int a[8]={5,-2,9,0,7,7,-30,1},n;int main(void){int i,j;for(i=0;i<7;i++)for(j=0;j<7-i;j++)if(a[j]>a[j+1]){\
int t=a[j];a[j]=a[j+1];a[j+1]=t;n++;}return 0;}",
        "-30 -2 0 1 5 7 7 9 15 ",
    ),
    (
        "_Bool a,b,c,d,e;int r[5];unsigned char k=2;int main(void){a=2;b=k/3;c=0x100;d=!a;e=&k!=0;r[0]=a+c;\
r[1]=-a;r[2]=~a;r[3]=a<<3;r[4]=(_Bool)k*3;return 0;}",
        "1 0 1 0 1 2 -1 -2 8 3 2 ",
    ),
    (
        "unsigned char z[30];int p[10],n,g;int gcd(int a,int b){while(b){int t=a%b;a=b;b=t;}return a;}\
int main(void){int i,j;for(i=2;i<30;i++){if(z[i])continue;p[n++]=i;for(j=i*i;j<30;j+=i)z[j]=1;}\
g=gcd(1071,gcd(462,-1386));return 0;}",
        "0 0 0 0 1 0 1 0 1 1 1 0 1 0 1 1 1 0 1 0 1 1 1 0 1 1 1 1 1 0 2 3 5 7 11 13 17 19 23 29 10 21 ",
    ),
    (
        "int r[12];int main(void){r[0]='a';r[1]='\\n';r[2]='\\377';r[3]='\\x7f';r[4]=017;r[5]=0xFF;\
r[6]=4294967295u==-1;r[7]=2147483648u>0;r[8]=-2147483647-1<0;r[9]=0x80000000>0;r[10]='\\0';\
r[11]=100000L*2;return 0;}",
        "97 10 -1 127 15 255 1 1 1 1 0 200000 ",
    ),
    (
        "unsigned char b=1;signed char c=-128;short s=-32768;unsigned u=1;int r[6];int main(void){r[0]=-b;r[1]=-c;\
r[2]=~s;r[3]=-u>0;r[4]=+c;r[5]=!s+!r[5];c=-c;s=-s;b=~b;return 0;}",
        "254 -128 -32768 1 -1 128 32767 1 -128 1 ",
    ),
    (
        "int a;signed char b;unsigned short c;_Bool d;long long e;int main(void){e=a=b=c=-100;d=e;c=a=b=200;\
a=(b=7)+(c=b*3)*10;e=(c=-1)+1;return 0;}",
        "217 7 65535 1 65536 ",
    ),
    (
        "struct M{int len;int d[5];}m={2,{1,2}};int r;int push(struct M*q,int v){if(q->len>=5)return 0;\
q->d[q->len++]=v;return 1;}int pop(struct M*q){return q->d[--q->len];}int main(void){int i;for(i=0;i<5;\
i++)r=r*2+push(&m,i*i+10);r=r*100+pop(&m)+pop(&m);m.d[m.len]|=128;return 0;}",
        "3 1 2 10 139 14 2825 ",
    ),
    (
        "int n,r[3];int f(int k){return n=n*10+k;}int two(int a,int b){return a*1000+b;}int main(void){r[0]=(f(1),\
two(n,7));r[1]=f(2)&&f(3)?f(4):f(5);r[2]=two((n=n%100,n*5),3);return 0;}",
        "34 1007 1234 170003 ",
    ),
];

// Runs `main` to its end: no action of it leaves a value open.
fn run_main(world: &mut World) -> Result<Stepped, NoMemory>
    requires { IsWorld world.old }
{
    for _turn in 0..20_000 {
        let stepped = world.step(Choice::Run { task: 0, value: 0 })?;
        match stepped {
            Stepped::Done => {}
            _ => return Ok(stepped),
        }
    }
    Ok(Stepped::Done)
}

fn is_done(stepped: Stepped) -> bool {
    match stepped {
        Stepped::NotAllowed => true,
        _ => false,
    }
}

/// What the first cells hold at the end.
pub fn push_end(alloc: Global, text: &mut String, world: &mut World, cells: u32) -> Result<(), Fail>
    requires { IsWorld world.old }
{
    let last = run_main(world)?;
    if is_done(last) && !world.is_stopped() {
        push_cells(alloc, text, world, cells)
    } else {
        text.push_str("not at its end")?;
        Ok(())
    }
}

#[test]
fn programs(rt: HostRuntime) -> Result<(), Fail> {
    rows_are_so(&rt, rt.alloc(), Way::Plain(Run::End), &PROGRAMS)?;
    rows_are_so(&rt, rt.alloc(), Way::Along(Run::End), &PROGRAMS)
}
