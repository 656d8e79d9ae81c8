//! Whole solutions: sources, and the states of all their bodies with the store, in the lines of a certificate. An
//! independent implementation gave these.

/// A source in which tasks lock mutexes or ask whether they are held, and the lines of its solution.
pub static MUTEXES: [(&str, &str); 5] = [
    (
        "__mutex m0; int g1=1; int g2; int h3(void) { __lock(m0); __unlock(m0); return __islocked(m0); } __task(3) \
void t0(void) { __lock(m0); g2=3; g2=5; __unlock(m0); }",
        "task 0\nnode 0\nc 0 i 1 1 0\nc 1 i 0 0 0\nnode 1\nc 0 i 1 1 0\nc 1 i 0 0 0\nnode 2\nt 0 p 0 0 1 0 0 0\nc 0 i \
1 1 0\nc 1 i 0 0 0\nnode 3\nt 0 p 0 0 1 0 0 0\nt 1 i 3 3 0\nc 0 i 1 1 0\nc 1 i 0 0 0\nnode 4\nc 0 i 1 1 0\nc 1 i 3 3 \
0\np 1 1\nf 1\nnode 5\nt 2 p 0 0 1 0 0 0\nc 0 i 1 1 0\nc 1 i 3 3 0\np 1 1\nf 1\nnode 6\nt 2 p 0 0 1 0 0 0\nt 3 i 5 5 \
0\nc 0 i 1 1 0\nc 1 i 3 3 0\np 1 1\nf 1\nnode 7\nc 0 i 1 1 0\nc 1 i 5 5 0\np 1 1\nf 1\nnode 8\nc 0 i 1 1 0\nc 1 i 5 5 \
0\nf 1\nstore\nw 0 1 1 i 3 5 2\ny 0 0 1 i 5 5 0\n",
    ),
    (
        "__mutex m0; __mutex m1; int g1=2; int g2=1; int g3; __task(1) void t0(void) { int v4=(g3&3)-(g1&7); if \
(__islocked(m1)) { if (g3==2) { if((32768?(__input(-1,1)):v4)<=(__input(3,186)))return; if (4L<=3) { } } else { } } \
else { } }",
        "task 0\nnode 0\nc 0 i 2 2 0\nc 1 i 1 1 0\nc 2 i 0 0 0\nc 3 i -2147483648 2147483647 1\nnode 1\nc 0 i 2 2 0\nc \
1 i 1 1 0\nc 2 i 0 0 0\nc 3 i -2147483648 2147483647 1\nnode 2\nt 0 p 0 0 3 0 0 0\nc 0 i 2 2 0\nc 1 i 1 1 0\nc 2 i 0 0 \
0\nc 3 i -2147483648 2147483647 1\nnode 3\nt 0 p 0 0 3 0 0 0\nt 1 p 0 0 2 0 0 0\nc 0 i 2 2 0\nc 1 i 1 1 0\nc 2 i 0 0 \
0\nc 3 i -2147483648 2147483647 1\nnode 4\nt 0 p 0 0 3 0 0 0\nt 2 i 0 0 0\nc 0 i 2 2 0\nc 1 i 1 1 0\nc 2 i 0 0 0\nc 3 \
i -2147483648 2147483647 1\nk 2 2\nnode 5\nt 0 p 0 0 3 0 0 0\nt 2 i 0 0 0\nt 3 i 3 3 0\nc 0 i 2 2 0\nc 1 i 1 1 0\nc 2 \
i 0 0 0\nc 3 i -2147483648 2147483647 1\nk 2 2\nnode 6\nt 0 p 0 0 3 0 0 0\nt 4 i 0 0 0\nc 0 i 2 2 0\nc 1 i 1 1 0\nc 2 \
i 0 0 0\nc 3 i -2147483648 2147483647 1\nnode 7\nt 0 p 0 0 3 0 0 0\nt 4 i 0 0 0\nt 5 p 0 0 0 0 0 0\nc 0 i 2 2 0\nc 1 i \
1 1 0\nc 2 i 0 0 0\nc 3 i -2147483648 2147483647 1\nnode 8\nt 0 p 0 0 3 0 0 0\nt 4 i 0 0 0\nt 6 i 2 2 0\nc 0 i 2 2 0\n\
c 1 i 1 1 0\nc 2 i 0 0 0\nc 3 i -2147483648 2147483647 1\nk 6 0\nnode 9\nt 0 p 0 0 3 0 0 0\nt 4 i 0 0 0\nt 6 i 2 2 0\n\
t 7 i 7 7 0\nc 0 i 2 2 0\nc 1 i 1 1 0\nc 2 i 0 0 0\nc 3 i -2147483648 2147483647 1\nk 6 0\nnode 10\nt 0 p 0 0 3 0 0 0\n\
t 4 i 0 0 0\nt 8 i 2 2 0\nc 0 i 2 2 0\nc 1 i 1 1 0\nc 2 i 0 0 0\nc 3 i -2147483648 2147483647 1\nnode 11\nt 0 p 0 0 3 \
0 0 0\nt 9 i -2 -2 0\nc 0 i 2 2 0\nc 1 i 1 1 0\nc 2 i 0 0 0\nc 3 i -2147483648 2147483647 1\nnode 12\nc 0 i 2 2 0\nc 1 \
i 1 1 0\nc 2 i 0 0 0\nc 3 i -2 -2 0\nf 3\ns 3\nnode 13\nt 10 i 1 1 0\nc 0 i 2 2 0\nc 1 i 1 1 0\nc 2 i 0 0 0\nc 3 i -2 \
-2 0\nf 3\ns 3\nnode 14\nt 10 i 0 0 0\nc 0 i 2 2 0\nc 1 i 1 1 0\nc 2 i 0 0 0\nc 3 i -2 -2 0\nf 3\ns 3\nnode 15\nc 0 i \
2 2 0\nc 1 i 1 1 0\nc 2 i 0 0 0\nc 3 i -2 -2 0\nf 3\ns 3\nnode 18\nc 0 i 2 2 0\nc 1 i 1 1 0\nc 2 i 0 0 0\nc 3 i -2 -2 \
0\nf 3\ns 3\nnode 19\nt 11 p 0 0 2 0 0 0\nc 0 i 2 2 0\nc 1 i 1 1 0\nc 2 i 0 0 0\nc 3 i -2 -2 0\nf 3\ns 3\nnode 21\nt \
12 i 0 0 0\nc 0 i 2 2 0\nc 1 i 1 1 0\nc 2 i 0 0 0\nc 3 i -2 -2 0\nf 3\ns 3\nk 12 2\nnode 23\nt 12 i 0 0 0\nt 13 i 2 2 \
0\nc 0 i 2 2 0\nc 1 i 1 1 0\nc 2 i 0 0 0\nc 3 i -2 -2 0\nf 3\ns 3\nk 12 2\nnode 27\nc 0 i 2 2 0\nc 1 i 1 1 0\nc 2 i 0 \
0 0\nc 3 i -2 -2 0\nf 3\ns 3\nnode 65\nc 0 i 2 2 0\nc 1 i 1 1 0\nc 2 i 0 0 0\nc 3 i -2 -2 0\nf 3\ns 3\nnode 67\nc 0 i \
2 2 0\nc 1 i 1 1 0\nc 2 i 0 0 0\nc 3 i -2 -2 0\nf 3\ns 3\nnode 68\nc 0 i 2 2 0\nc 1 i 1 1 0\nc 2 i 0 0 0\nc 3 i -2 -2 \
0\nf 3\ns 3\nnode 69\nc 0 i 2 2 0\nc 1 i 1 1 0\nc 2 i 0 0 0\nc 3 i -2 -2 0\nf 3\ns 3\nnode 70\nc 0 i 2 2 0\nc 1 i 1 1 \
0\nc 2 i 0 0 0\nc 3 i -2 -2 0\nf 3\ns 3\nstore\n",
    ),
    (
        "__mutex m0; int g1=1; int g2=2; int main(void) { if (7<3) { if((!(__input(0,4)))/g1)return g1; } else { \
if(!__islocked(m0)&&g1)g2=10/g1; g2=3; g2=6; } return 0; } __task(1) void t0(void) { int v3=(__input(0,8)); if (g2!=7) \
{ __yield(); } else { if (!__islocked(m0)) { g2=5; g2=10/g2; } } }",
        "task 0\nnode 0\nc 0 i 1 1 0\nc 1 i 6 6 0\nc 2 i -2147483648 2147483647 1\nnode 1\nc 0 i 1 1 0\nc 1 i 6 6 0\nc \
2 i -2147483648 2147483647 1\nnode 2\nt 0 p 0 0 2 0 0 0\nc 0 i 1 1 0\nc 1 i 6 6 0\nc 2 i -2147483648 2147483647 1\n\
node 3\nt 0 p 0 0 2 0 0 0\nt 1 i 0 8 1\nc 0 i 1 1 0\nc 1 i 6 6 0\nc 2 i -2147483648 2147483647 1\nnode 4\nc 0 i 1 1 0\n\
c 1 i 6 6 0\nc 2 i 0 8 1\nf 2\ns 2\nnode 5\nt 2 p 0 0 1 0 0 0\nc 0 i 1 1 0\nc 1 i 6 6 0\nc 2 i 0 8 1\nf 2\ns 2\nnode \
6\nt 3 i 6 6 0\nc 0 i 1 1 0\nc 1 i 6 6 0\nc 2 i 0 8 1\nf 2\ns 2\nk 3 1\nnode 7\nt 3 i 6 6 0\nt 4 i 7 7 0\nc 0 i 1 1 0\n\
c 1 i 6 6 0\nc 2 i 0 8 1\nf 2\ns 2\nk 3 1\nnode 8\nc 0 i 1 1 0\nc 1 i 6 6 0\nc 2 i 0 8 1\nf 2\ns 2\nnode 10\nc 0 i 1 1 \
0\nc 1 i 6 6 0\nc 2 i 0 8 1\ns 2\nnode 37\nc 0 i 1 1 0\nc 1 i 6 6 0\nc 2 i 0 8 1\ns 2\ntask 1\nnode 0\nc 0 i 1 1 0\nc \
1 i 2 2 0\nnode 1\nt 0 i 7 7 0\nc 0 i 1 1 0\nc 1 i 2 2 0\nnode 2\nt 0 i 7 7 0\nt 1 i 3 3 0\nc 0 i 1 1 0\nc 1 i 2 2 0\n\
node 4\nc 0 i 1 1 0\nc 1 i 2 2 0\nnode 20\nt 10 i 1 1 0\nc 0 i 1 1 0\nc 1 i 2 2 0\nnode 21\nt 10 i 0 0 0\nc 0 i 1 1 0\n\
c 1 i 2 2 0\nnode 22\nc 0 i 1 1 0\nc 1 i 2 2 0\nnode 25\nc 0 i 1 1 0\nc 1 i 2 2 0\nnode 27\nt 11 p 0 0 0 0 0 0\nc 0 i \
1 1 0\nc 1 i 2 2 0\nnode 29\nt 12 i 1 1 0\nc 0 i 1 1 0\nc 1 i 2 2 0\nk 12 0\nnode 31\nc 0 i 1 1 0\nc 1 i 2 2 0\nnode \
34\nc 0 i 1 1 0\nc 1 i 2 2 0\nnode 37\nt 13 p 0 0 1 0 0 0\nc 0 i 1 1 0\nc 1 i 2 2 0\nnode 39\nt 13 p 0 0 1 0 0 0\nt 14 \
i 10 10 0\nc 0 i 1 1 0\nc 1 i 2 2 0\nnode 41\nt 13 p 0 0 1 0 0 0\nt 14 i 10 10 0\nt 15 p 0 0 0 0 0 0\nc 0 i 1 1 0\nc 1 \
i 2 2 0\nnode 43\nt 13 p 0 0 1 0 0 0\nt 14 i 10 10 0\nt 16 i 1 1 0\nc 0 i 1 1 0\nc 1 i 2 2 0\nk 16 0\nnode 45\nt 13 p \
0 0 1 0 0 0\nt 17 i 10 10 0\nc 0 i 1 1 0\nc 1 i 2 2 0\nnode 47\nc 0 i 1 1 0\nc 1 i 10 10 0\nf 1\nnode 48\nc 0 i 1 1 0\n\
c 1 i 2 2 0\nnode 49\nc 0 i 1 1 0\nc 1 i 10 10 0\nf 1\nnode 50\nt 18 p 0 0 1 0 0 0\nc 0 i 1 1 0\nc 1 i 2 2 0\nnode 51\n\
t 18 p 0 0 1 0 0 0\nc 0 i 1 1 0\nc 1 i 10 10 0\nf 1\nnode 52\nt 18 p 0 0 1 0 0 0\nt 19 i 3 3 0\nc 0 i 1 1 0\nc 1 i 2 2 \
0\nnode 53\nt 18 p 0 0 1 0 0 0\nt 19 i 3 3 0\nc 0 i 1 1 0\nc 1 i 10 10 0\nf 1\nnode 54\nc 0 i 1 1 0\nc 1 i 3 3 0\nf 1\n\
node 55\nc 0 i 1 1 0\nc 1 i 3 3 0\nf 1\nnode 56\nt 20 p 0 0 1 0 0 0\nc 0 i 1 1 0\nc 1 i 3 3 0\nf 1\nnode 57\nt 20 p 0 \
0 1 0 0 0\nc 0 i 1 1 0\nc 1 i 3 3 0\nf 1\nnode 58\nt 20 p 0 0 1 0 0 0\nt 21 i 6 6 0\nc 0 i 1 1 0\nc 1 i 3 3 0\nf 1\n\
node 59\nt 20 p 0 0 1 0 0 0\nt 21 i 6 6 0\nc 0 i 1 1 0\nc 1 i 3 3 0\nf 1\nnode 60\nc 0 i 1 1 0\nc 1 i 6 6 0\nf 1\nnode \
61\nc 0 i 1 1 0\nc 1 i 6 6 0\nf 1\nnode 62\nc 0 i 1 1 0\nc 1 i 6 6 0\nf 1\nnode 63\nc 0 i 1 1 0\nc 1 i 6 6 0\nf 1\n\
node 64\nt 22 i 0 0 0\nc 0 i 1 1 0\nc 1 i 6 6 0\nf 1\nnode 65\nt 22 i 0 0 0\nc 0 i 1 1 0\nc 1 i 6 6 0\nf 1\nnode 66\nc \
0 i 1 1 0\nc 1 i 6 6 0\nf 1\nnode 67\nc 0 i 1 1 0\nc 1 i 6 6 0\nf 1\nnode 68\nc 0 i 1 1 0\nc 1 i 6 6 0\nf 1\nnode 69\n\
c 0 i 1 1 0\nc 1 i 6 6 0\nf 1\nstore\n",
    ),
    (
        "__mutex m0; int g1=2; int g2; int g3=1; __task(2) void t0(void) { int v4=g1; __lock(m0); __yield(); \
if(g2<6)g2++; __unlock(m0); } __task(3) void t1(void) { volatile int v5=g2&&2; __lock(m0); g2=6; if (g3) { v5=g2; } \
__unlock(m0); }",
        "task 0\nnode 0\nc 0 i 2 2 0\nc 1 i 0 0 0\nc 2 i 1 1 0\nc 3 i -2147483648 2147483647 1\nnode 1\nc 0 i 2 2 0\nc \
1 i 0 0 0\nc 2 i 1 1 0\nc 3 i -2147483648 2147483647 1\nnode 2\nt 0 p 0 0 3 0 0 0\nc 0 i 2 2 0\nc 1 i 0 0 0\nc 2 i 1 1 \
0\nc 3 i -2147483648 2147483647 1\nnode 3\nt 0 p 0 0 3 0 0 0\nt 1 p 0 0 0 0 0 0\nc 0 i 2 2 0\nc 1 i 0 0 0\nc 2 i 1 1 \
0\nc 3 i -2147483648 2147483647 1\nnode 4\nt 0 p 0 0 3 0 0 0\nt 2 i 2 2 0\nc 0 i 2 2 0\nc 1 i 0 0 0\nc 2 i 1 1 0\nc 3 \
i -2147483648 2147483647 1\nk 2 0\nnode 5\nc 0 i 2 2 0\nc 1 i 0 0 0\nc 2 i 1 1 0\nc 3 i 2 2 0\nf 3\ns 3\nnode 6\nc 0 i \
2 2 0\nc 1 i 0 6 6\nc 2 i 1 1 0\nc 3 i 2 2 0\ns 3\nnode 7\nc 0 i 2 2 0\nc 1 i 0 6 6\nc 2 i 1 1 0\nc 3 i 2 2 0\ns 3\n\
node 8\nt 3 p 0 0 1 0 0 0\nc 0 i 2 2 0\nc 1 i 0 6 6\nc 2 i 1 1 0\nc 3 i 2 2 0\ns 3\nnode 9\nt 4 i 0 6 6\nc 0 i 2 2 0\n\
c 1 i 0 6 6\nc 2 i 1 1 0\nc 3 i 2 2 0\ns 3\nk 4 1\nnode 10\nt 4 i 0 6 6\nt 5 i 6 6 0\nc 0 i 2 2 0\nc 1 i 0 6 6\nc 2 i \
1 1 0\nc 3 i 2 2 0\ns 3\nk 4 1\nnode 11\nc 0 i 2 2 0\nc 1 i 0 0 0\nc 2 i 1 1 0\nc 3 i 2 2 0\ns 3\nnode 12\nc 0 i 2 2 \
0\nc 1 i 6 6 0\nc 2 i 1 1 0\nc 3 i 2 2 0\ns 3\nnode 13\nt 6 p 0 0 1 0 0 0\nc 0 i 2 2 0\nc 1 i 0 0 0\nc 2 i 1 1 0\nc 3 \
i 2 2 0\ns 3\nnode 14\nt 6 p 0 0 1 0 0 0\nt 7 i 0 0 0\nc 0 i 2 2 0\nc 1 i 0 0 0\nc 2 i 1 1 0\nc 3 i 2 2 0\ns 3\nk 7 1\n\
node 15\nt 6 p 0 0 1 0 0 0\nt 7 i 0 0 0\nt 8 i 1 1 0\nc 0 i 2 2 0\nc 1 i 0 0 0\nc 2 i 1 1 0\nc 3 i 2 2 0\ns 3\nk 7 1\n\
node 16\nt 6 p 0 0 1 0 0 0\nt 9 i 1 1 0\nc 0 i 2 2 0\nc 1 i 0 0 0\nc 2 i 1 1 0\nc 3 i 2 2 0\ns 3\nnode 17\nc 0 i 2 2 \
0\nc 1 i 1 1 0\nc 2 i 1 1 0\nc 3 i 2 2 0\np 1 1\nf 1\ns 3\nnode 18\nc 0 i 2 2 0\nc 1 i 1 6 5\nc 2 i 1 1 0\nc 3 i 2 2 \
0\np 1 1\ns 3\nnode 19\nc 0 i 2 2 0\nc 1 i 1 6 5\nc 2 i 1 1 0\nc 3 i 2 2 0\ns 3\ntask 1\nnode 0\nc 0 i 2 2 0\nc 1 i 0 \
0 0\nc 2 i 1 1 0\nc 4 i -2147483648 2147483647 1\nnode 1\nc 0 i 2 2 0\nc 1 i 0 0 0\nc 2 i 1 1 0\nc 4 i -2147483648 \
2147483647 1\nnode 2\nt 0 p 0 0 4 0 0 0\nc 0 i 2 2 0\nc 1 i 0 0 0\nc 2 i 1 1 0\nc 4 i -2147483648 2147483647 1\nnode \
3\nt 0 p 0 0 4 0 0 0\nt 1 p 0 0 1 0 0 0\nc 0 i 2 2 0\nc 1 i 0 0 0\nc 2 i 1 1 0\nc 4 i -2147483648 2147483647 1\nnode \
4\nt 0 p 0 0 4 0 0 0\nt 2 i 0 1 1\nc 0 i 2 2 0\nc 1 i 0 0 0\nc 2 i 1 1 0\nc 4 i -2147483648 2147483647 1\nk 2 1\nnode \
5\nt 0 p 0 0 4 0 0 0\nc 0 i 2 2 0\nc 1 e\nc 2 i 1 1 0\nc 4 i -2147483648 2147483647 1\nnode 6\nt 0 p 0 0 4 0 0 0\nc 0 \
i 2 2 0\nc 1 i 0 0 0\nc 2 i 1 1 0\nc 4 i -2147483648 2147483647 1\nnode 7\nt 0 p 0 0 4 0 0 0\nt 3 i 2 2 0\nc 0 i 2 2 \
0\nc 1 e\nc 2 i 1 1 0\nc 4 i -2147483648 2147483647 1\nnode 8\nt 0 p 0 0 4 0 0 0\nc 0 i 2 2 0\nc 1 e\nc 2 i 1 1 0\nc 4 \
i -2147483648 2147483647 1\nnode 10\nt 0 p 0 0 4 0 0 0\nc 0 i 2 2 0\nc 1 i 0 0 0\nc 2 i 1 1 0\nc 4 i -2147483648 \
2147483647 1\nnode 11\nt 0 p 0 0 4 0 0 0\nt 4 i 1 1 0\nc 0 i 2 2 0\nc 1 e\nc 2 i 1 1 0\nc 4 i -2147483648 2147483647 \
1\nnode 12\nt 0 p 0 0 4 0 0 0\nt 4 i 0 0 0\nc 0 i 2 2 0\nc 1 i 0 0 0\nc 2 i 1 1 0\nc 4 i -2147483648 2147483647 1\n\
node 13\nt 0 p 0 0 4 0 0 0\nt 4 i 0 1 1\nc 0 i 2 2 0\nc 1 i 0 0 0\nc 2 i 1 1 0\nc 4 i -2147483648 2147483647 1\nnode \
14\nc 0 i 2 2 0\nc 1 i 0 0 0\nc 2 i 1 1 0\nc 4 i 0 1 1\nf 4\ns 4\nnode 15\nc 0 i 2 2 0\nc 1 i 0 6 1\nc 2 i 1 1 0\nc 4 \
i 0 1 1\ns 4\nnode 16\nt 5 p 0 0 1 0 0 0\nc 0 i 2 2 0\nc 1 i 0 6 1\nc 2 i 1 1 0\nc 4 i 0 1 1\ns 4\nnode 17\nt 5 p 0 0 \
1 0 0 0\nt 6 i 6 6 0\nc 0 i 2 2 0\nc 1 i 0 6 1\nc 2 i 1 1 0\nc 4 i 0 1 1\ns 4\nnode 18\nc 0 i 2 2 0\nc 1 i 6 6 0\nc 2 \
i 1 1 0\nc 4 i 0 1 1\np 1 1\nf 1\ns 4\nnode 19\nt 7 p 0 0 2 0 0 0\nc 0 i 2 2 0\nc 1 i 6 6 0\nc 2 i 1 1 0\nc 4 i 0 1 1\n\
p 1 1\nf 1\ns 4\nnode 20\nt 8 i 1 1 0\nc 0 i 2 2 0\nc 1 i 6 6 0\nc 2 i 1 1 0\nc 4 i 0 1 1\np 1 1\nf 1\ns 4\nk 8 2\n\
node 21\nc 0 i 2 2 0\nc 1 i 6 6 0\nc 2 i 1 1 0\nc 4 i 0 1 1\np 1 1\nf 1\ns 4\nnode 23\nt 9 p 0 0 4 0 0 0\nc 0 i 2 2 0\n\
c 1 i 6 6 0\nc 2 i 1 1 0\nc 4 i 0 1 1\np 1 1\nf 1\ns 4\nnode 24\nt 9 p 0 0 4 0 0 0\nt 10 p 0 0 1 0 0 0\nc 0 i 2 2 0\nc \
1 i 6 6 0\nc 2 i 1 1 0\nc 4 i 0 1 1\np 1 1\nf 1\ns 4\nnode 25\nt 9 p 0 0 4 0 0 0\nt 11 i 6 6 0\nc 0 i 2 2 0\nc 1 i 6 6 \
0\nc 2 i 1 1 0\nc 4 i 0 1 1\np 1 1\nf 1\ns 4\nk 11 1\nnode 26\nc 0 i 2 2 0\nc 1 i 6 6 0\nc 2 i 1 1 0\nc 4 i 6 6 0\np 1 \
1\nf 1\nf 4\ns 4\nnode 27\nc 0 i 2 2 0\nc 1 i 6 6 0\nc 2 i 1 1 0\nc 4 i 6 6 0\np 1 1\nf 1\nf 4\ns 4\nnode 28\nc 0 i 2 \
2 0\nc 1 i 6 6 0\nc 2 i 1 1 0\nc 4 i 6 6 0\nf 1\nf 4\ns 4\nstore\nw 0 1 1 i 1 1 0\nw 1 1 1 i 6 6 0\ny 0 0 1 i 1 6 5\ny \
1 0 1 i 6 6 0\n",
    ),
    (
        "__mutex m0; int g1; int g2=2; int g3=2; int g4; __task(2) void t0(void) { __lock(m0); g4=g4; __unlock(m0); \
if(g1<6)g1++; } __task(0) void t1(void) { while (1) { if ((g4||g2)<=(__islocked(m0))) { if(g4>5)break; __lock(m0); \
g3=g4; __unlock(m0); } while (g4==7L) { } __yield(); } }",
        "task 0\nnode 0\nc 0 i 0 0 0\nc 1 i 2 2 0\nc 2 i 2 2 0\nc 3 i 0 0 0\nnode 1\nc 0 i 0 0 0\nc 1 i 2 2 0\nc 2 i 0 \
2 2\nc 3 i 0 0 0\nnode 2\nt 0 p 0 0 3 0 0 0\nc 0 i 0 0 0\nc 1 i 2 2 0\nc 2 i 0 2 2\nc 3 i 0 0 0\nnode 3\nt 0 p 0 0 3 0 \
0 0\nt 1 p 0 0 3 0 0 0\nc 0 i 0 0 0\nc 1 i 2 2 0\nc 2 i 0 2 2\nc 3 i 0 0 0\nnode 4\nt 0 p 0 0 3 0 0 0\nt 2 i 0 0 0\nc \
0 i 0 0 0\nc 1 i 2 2 0\nc 2 i 0 2 2\nc 3 i 0 0 0\nk 2 3\nnode 5\nc 0 i 0 0 0\nc 1 i 2 2 0\nc 2 i 0 2 2\nc 3 i 0 0 0\np \
3 1\nf 3\nnode 6\nc 0 i 0 0 0\nc 1 i 2 2 0\nc 2 i 0 2 2\nc 3 i 0 0 0\nf 3\nnode 7\nt 3 p 0 0 0 0 0 0\nc 0 i 0 0 0\nc 1 \
i 2 2 0\nc 2 i 0 2 2\nc 3 i 0 0 0\nf 3\nnode 8\nt 4 i 0 0 0\nc 0 i 0 0 0\nc 1 i 2 2 0\nc 2 i 0 2 2\nc 3 i 0 0 0\nf 3\n\
k 4 0\nnode 9\nt 4 i 0 0 0\nt 5 i 6 6 0\nc 0 i 0 0 0\nc 1 i 2 2 0\nc 2 i 0 2 2\nc 3 i 0 0 0\nf 3\nk 4 0\nnode 10\nc 0 \
i 0 0 0\nc 1 i 2 2 0\nc 2 i 0 2 2\nc 3 i 0 0 0\nf 3\nnode 12\nt 6 p 0 0 0 0 0 0\nc 0 i 0 0 0\nc 1 i 2 2 0\nc 2 i 0 2 \
2\nc 3 i 0 0 0\nf 3\nnode 13\nt 6 p 0 0 0 0 0 0\nt 7 i 0 0 0\nc 0 i 0 0 0\nc 1 i 2 2 0\nc 2 i 0 2 2\nc 3 i 0 0 0\nf 3\n\
k 7 0\nnode 14\nt 6 p 0 0 0 0 0 0\nt 7 i 0 0 0\nt 8 i 1 1 0\nc 0 i 0 0 0\nc 1 i 2 2 0\nc 2 i 0 2 2\nc 3 i 0 0 0\nf 3\n\
k 7 0\nnode 15\nt 6 p 0 0 0 0 0 0\nt 9 i 1 1 0\nc 0 i 0 0 0\nc 1 i 2 2 0\nc 2 i 0 2 2\nc 3 i 0 0 0\nf 3\nnode 16\nc 0 \
i 1 1 0\nc 1 i 2 2 0\nc 2 i 0 2 2\nc 3 i 0 0 0\nf 0\nf 3\nnode 17\nc 0 i 1 1 0\nc 1 i 2 2 0\nc 2 i 0 2 2\nc 3 i 0 0 0\n\
f 0\nf 3\ntask 1\nnode 0\nc 0 i 0 0 0\nc 1 i 2 2 0\nc 2 i 2 2 0\nc 3 i 0 0 0\nnode 1\nc 0 i 0 0 0\nc 1 i 2 2 0\nc 2 i \
0 2 2\nc 3 i 0 0 0\nnode 2\nt 0 i 1 1 0\nc 0 i 0 0 0\nc 1 i 2 2 0\nc 2 i 0 2 2\nc 3 i 0 0 0\nnode 3\nc 0 i 0 0 0\nc 1 \
i 2 2 0\nc 2 i 0 2 2\nc 3 i 0 0 0\nnode 5\nt 1 p 0 0 3 0 0 0\nc 0 i 0 0 0\nc 1 i 2 2 0\nc 2 i 0 2 2\nc 3 i 0 0 0\nnode \
6\nt 2 i 0 0 0\nc 0 i 0 0 0\nc 1 i 2 2 0\nc 2 i 0 2 2\nc 3 i 0 0 0\nk 2 3\nnode 8\nc 0 i 0 0 0\nc 1 i 2 2 0\nc 2 i 0 2 \
2\nc 3 i 0 0 0\nnode 9\nt 3 p 0 0 1 0 0 0\nc 0 i 0 0 0\nc 1 i 2 2 0\nc 2 i 0 2 2\nc 3 i 0 0 0\nnode 10\nt 4 i 2 2 0\nc \
0 i 0 0 0\nc 1 i 2 2 0\nc 2 i 0 2 2\nc 3 i 0 0 0\nk 4 1\nnode 11\nc 0 i 0 0 0\nc 1 i 2 2 0\nc 2 i 0 2 2\nc 3 i 0 0 0\n\
node 13\nc 0 i 0 0 0\nc 1 i 2 2 0\nc 2 i 0 2 2\nc 3 i 0 0 0\nnode 14\nt 5 i 1 1 0\nc 0 i 0 0 0\nc 1 i 2 2 0\nc 2 i 0 2 \
2\nc 3 i 0 0 0\nnode 16\nt 5 i 1 1 0\nc 0 i 0 0 0\nc 1 i 2 2 0\nc 2 i 0 2 2\nc 3 i 0 0 0\nnode 17\nt 5 i 1 1 0\nt 6 i \
1 1 0\nc 0 i 0 0 0\nc 1 i 2 2 0\nc 2 i 0 2 2\nc 3 i 0 0 0\nnode 18\nt 5 i 1 1 0\nt 6 i 0 0 0\nc 0 i 0 0 0\nc 1 i 2 2 \
0\nc 2 i 0 2 2\nc 3 i 0 0 0\nnode 19\nc 0 i 0 0 0\nc 1 i 2 2 0\nc 2 i 0 2 2\nc 3 i 0 0 0\nnode 22\nc 0 i 0 0 0\nc 1 i \
2 2 0\nc 2 i 0 2 2\nc 3 i 0 0 0\nnode 23\nt 7 p 0 0 3 0 0 0\nc 0 i 0 0 0\nc 1 i 2 2 0\nc 2 i 0 2 2\nc 3 i 0 0 0\nnode \
25\nt 8 i 0 0 0\nc 0 i 0 0 0\nc 1 i 2 2 0\nc 2 i 0 2 2\nc 3 i 0 0 0\nk 8 3\nnode 27\nt 8 i 0 0 0\nt 9 i 5 5 0\nc 0 i 0 \
0 0\nc 1 i 2 2 0\nc 2 i 0 2 2\nc 3 i 0 0 0\nk 8 3\nnode 31\nc 0 i 0 0 0\nc 1 i 2 2 0\nc 2 i 0 2 2\nc 3 i 0 0 0\nnode \
33\nc 0 i 0 0 0\nc 1 i 2 2 0\nc 2 i 0 2 2\nc 3 i 0 0 0\nnode 35\nc 0 i 0 0 0\nc 1 i 2 2 0\nc 2 i 0 2 2\nc 3 i 0 0 0\n\
node 36\nt 10 p 0 0 2 0 0 0\nc 0 i 0 0 0\nc 1 i 2 2 0\nc 2 i 0 2 2\nc 3 i 0 0 0\nnode 37\nt 10 p 0 0 2 0 0 0\nt 11 p 0 \
0 3 0 0 0\nc 0 i 0 0 0\nc 1 i 2 2 0\nc 2 i 0 2 2\nc 3 i 0 0 0\nnode 38\nt 10 p 0 0 2 0 0 0\nt 12 i 0 0 0\nc 0 i 0 0 0\n\
c 1 i 2 2 0\nc 2 i 0 2 2\nc 3 i 0 0 0\nk 12 3\nnode 39\nc 0 i 0 0 0\nc 1 i 2 2 0\nc 2 i 0 0 0\nc 3 i 0 0 0\np 2 1\nf \
2\nnode 40\nc 0 i 0 0 0\nc 1 i 2 2 0\nc 2 i 0 0 0\nc 3 i 0 0 0\nf 2\nnode 41\nc 0 i 0 0 0\nc 1 i 2 2 0\nc 2 i 0 0 0\nc \
3 i 0 0 0\nf 2\nnode 42\nc 0 i 0 0 0\nc 1 i 2 2 0\nc 2 i 0 2 2\nc 3 i 0 0 0\nnode 43\nc 0 i 0 0 0\nc 1 i 2 2 0\nc 2 i \
0 0 0\nc 3 i 0 0 0\nf 2\nnode 44\nc 0 i 0 0 0\nc 1 i 2 2 0\nc 2 i 0 2 2\nc 3 i 0 0 0\nnode 45\nt 13 p 0 0 3 0 0 0\nc 0 \
i 0 0 0\nc 1 i 2 2 0\nc 2 i 0 0 0\nc 3 i 0 0 0\nf 2\nnode 46\nt 13 p 0 0 3 0 0 0\nc 0 i 0 0 0\nc 1 i 2 2 0\nc 2 i 0 2 \
2\nc 3 i 0 0 0\nnode 47\nt 14 i 0 0 0\nc 0 i 0 0 0\nc 1 i 2 2 0\nc 2 i 0 0 0\nc 3 i 0 0 0\nf 2\nk 14 3\nnode 48\nt 14 \
i 0 0 0\nc 0 i 0 0 0\nc 1 i 2 2 0\nc 2 i 0 2 2\nc 3 i 0 0 0\nk 14 3\nnode 49\nt 14 i 0 0 0\nt 15 i 7 7 0\nc 0 i 0 0 0\n\
c 1 i 2 2 0\nc 2 i 0 0 0\nc 3 i 0 0 0\nf 2\nk 14 3\nnode 50\nt 14 i 0 0 0\nt 15 i 7 7 0\nc 0 i 0 0 0\nc 1 i 2 2 0\nc 2 \
i 0 2 2\nc 3 i 0 0 0\nk 14 3\nnode 53\nc 0 i 0 0 0\nc 1 i 2 2 0\nc 2 i 0 0 0\nc 3 i 0 0 0\nf 2\nnode 54\nc 0 i 0 0 0\n\
c 1 i 2 2 0\nc 2 i 0 2 2\nc 3 i 0 0 0\nnode 55\nc 0 i 0 0 0\nc 1 i 2 2 0\nc 2 i 0 0 0\nc 3 i 0 0 0\nf 2\nnode 56\nc 0 \
i 0 0 0\nc 1 i 2 2 0\nc 2 i 0 2 2\nc 3 i 0 0 0\nnode 57\nc 0 i 0 0 0\nc 1 i 2 2 0\nc 2 i 0 2 2\nc 3 i 0 0 0\nstore\nw \
0 0 0 i 1 1 0\nw 0 1 3 i 0 0 0\nw 1 1 2 i 0 0 0\ny 0 0 3 i 0 0 0\ny 1 0 2 i 0 0 0\n",
    ),
];

/// A source with loops, most with an initial section too, and the lines of its solution.
pub static LOOPS: [(&str, &str); 5] = [
    (
        "typedef unsigned char u8; __mutex m0; struct S0 { short f0[2]; unsigned short f1; }; int g1=(-5); int g2=0; \
int g3=017; short *g4; int g5[1]; static int g6; int main(void) { __lock(m0); __lock(m0); int l7=g3; if(l7)g2=1/l7; \
int l8=g2; if(l8)g1=1/l8; __unlock(m0); return 0; } __task(1) void t0(void) { int v9='\\2'; __lock(m0); if(g6>0)g6--; \
__yield(); v9=(-4); if(g6)g1=10/g6; __unlock(m0); } __task(2) void t1(void) { int v10[10]={0}; g4=g4; __lock(m0); int \
*p11; if(__input(0,1))p11=&g3;else p11=&g1; *p11=1; __unlock(m0); }",
        "task 0\ntask 1\ntask 2\nnode 0\nc 0 i -5 -5 0\nc 1 i 0 0 0\nc 2 i 15 15 0\nc 3 p 1 0\nc 4 i 0 0 0\nc 5 i 0 0 \
0\nc 18 i -2147483648 2147483647 1\nc 19 i -2147483648 2147483647 1\nnode 1\nc 0 i -5 -5 0\nc 1 i 0 0 0\nc 2 i 15 15 \
0\nc 3 p 1 0\nc 4 i 0 0 0\nc 5 i 0 0 0\nc 18 i -2147483648 2147483647 1\nc 19 i -2147483648 2147483647 1\nstore\n",
    ),
    (
        "__mutex m0; int g1=1; int g2=1; int g3[2]={1,1}; int g4; __task(0) void t0(void) { g4=g2; while (g1) { \
g2=__input(2,6); __lock(m0); g4=2; g4=3; if(g1<4)g1++; __unlock(m0); } }",
        "task 0\nnode 0\nc 0 i 1 1 0\nc 1 i 1 1 0\nc 2 i 1 1 0\nc 3 i 1 1 0\nc 4 i 0 0 0\nnode 1\nt 0 p 0 0 3 0 0 0\nc \
0 i 1 1 0\nc 1 i 1 1 0\nc 2 i 1 1 0\nc 3 i 1 1 0\nc 4 i 0 0 0\nnode 2\nt 0 p 0 0 3 0 0 0\nt 1 p 0 0 1 0 0 0\nc 0 i 1 1 \
0\nc 1 i 1 1 0\nc 2 i 1 1 0\nc 3 i 1 1 0\nc 4 i 0 0 0\nnode 3\nt 0 p 0 0 3 0 0 0\nt 2 i 1 1 0\nc 0 i 1 1 0\nc 1 i 1 1 \
0\nc 2 i 1 1 0\nc 3 i 1 1 0\nc 4 i 0 0 0\nk 2 1\nnode 4\nc 0 i 1 1 0\nc 1 i 1 1 0\nc 2 i 1 1 0\nc 3 i 1 1 0\nc 4 i 1 1 \
0\nf 4\nnode 5\nc 0 i 1 4 1\nc 1 i 1 6 1\nc 2 i 1 1 0\nc 3 i 1 1 0\nc 4 i 1 3 2\nf 4\nnode 6\nt 3 p 0 0 0 0 0 0\nc 0 i \
1 4 1\nc 1 i 1 6 1\nc 2 i 1 1 0\nc 3 i 1 1 0\nc 4 i 1 3 2\nf 4\nnode 7\nt 4 i 1 4 1\nc 0 i 1 4 1\nc 1 i 1 6 1\nc 2 i 1 \
1 0\nc 3 i 1 1 0\nc 4 i 1 3 2\nf 4\nk 4 0\nnode 8\nc 0 i 1 4 1\nc 1 i 1 6 1\nc 2 i 1 1 0\nc 3 i 1 1 0\nc 4 i 1 3 2\nf \
4\nnode 10\nt 5 p 0 0 1 0 0 0\nc 0 i 1 4 1\nc 1 i 1 6 1\nc 2 i 1 1 0\nc 3 i 1 1 0\nc 4 i 1 3 2\nf 4\nnode 11\nt 5 p 0 \
0 1 0 0 0\nt 6 i 2 6 1\nc 0 i 1 4 1\nc 1 i 1 6 1\nc 2 i 1 1 0\nc 3 i 1 1 0\nc 4 i 1 3 2\nf 4\nnode 12\nc 0 i 1 4 1\nc \
1 i 2 6 1\nc 2 i 1 1 0\nc 3 i 1 1 0\nc 4 i 1 3 2\nf 1\nf 4\nnode 13\nc 0 i 1 4 1\nc 1 i 2 6 1\nc 2 i 1 1 0\nc 3 i 1 1 \
0\nc 4 i 1 3 2\nnode 14\nt 7 p 0 0 3 0 0 0\nc 0 i 1 4 1\nc 1 i 2 6 1\nc 2 i 1 1 0\nc 3 i 1 1 0\nc 4 i 1 3 2\nnode 15\n\
t 7 p 0 0 3 0 0 0\nt 8 i 2 2 0\nc 0 i 1 4 1\nc 1 i 2 6 1\nc 2 i 1 1 0\nc 3 i 1 1 0\nc 4 i 1 3 2\nnode 16\nc 0 i 1 4 1\n\
c 1 i 2 6 1\nc 2 i 1 1 0\nc 3 i 1 1 0\nc 4 i 2 2 0\np 4 1\nf 4\nnode 17\nt 9 p 0 0 3 0 0 0\nc 0 i 1 4 1\nc 1 i 2 6 1\n\
c 2 i 1 1 0\nc 3 i 1 1 0\nc 4 i 2 2 0\np 4 1\nf 4\nnode 18\nt 9 p 0 0 3 0 0 0\nt 10 i 3 3 0\nc 0 i 1 4 1\nc 1 i 2 6 1\n\
c 2 i 1 1 0\nc 3 i 1 1 0\nc 4 i 2 2 0\np 4 1\nf 4\nnode 19\nc 0 i 1 4 1\nc 1 i 2 6 1\nc 2 i 1 1 0\nc 3 i 1 1 0\nc 4 i \
3 3 0\np 4 1\nf 4\nnode 20\nt 11 p 0 0 0 0 0 0\nc 0 i 1 4 1\nc 1 i 2 6 1\nc 2 i 1 1 0\nc 3 i 1 1 0\nc 4 i 3 3 0\np 4 \
1\nf 4\nnode 21\nt 12 i 1 4 1\nc 0 i 1 4 1\nc 1 i 2 6 1\nc 2 i 1 1 0\nc 3 i 1 1 0\nc 4 i 3 3 0\np 4 1\nf 4\nk 12 0\n\
node 22\nt 12 i 1 4 1\nt 13 i 4 4 0\nc 0 i 1 4 1\nc 1 i 2 6 1\nc 2 i 1 1 0\nc 3 i 1 1 0\nc 4 i 3 3 0\np 4 1\nf 4\nk 12 \
0\nnode 23\nc 0 i 1 3 1\nc 1 i 2 6 1\nc 2 i 1 1 0\nc 3 i 1 1 0\nc 4 i 3 3 0\np 4 1\nf 4\nnode 24\nc 0 i 4 4 0\nc 1 i 2 \
6 1\nc 2 i 1 1 0\nc 3 i 1 1 0\nc 4 i 3 3 0\np 4 1\nf 4\nnode 25\nt 14 p 0 0 0 0 0 0\nc 0 i 1 3 1\nc 1 i 2 6 1\nc 2 i 1 \
1 0\nc 3 i 1 1 0\nc 4 i 3 3 0\np 4 1\nf 4\nnode 26\nt 14 p 0 0 0 0 0 0\nt 15 i 1 3 1\nc 0 i 1 3 1\nc 1 i 2 6 1\nc 2 i \
1 1 0\nc 3 i 1 1 0\nc 4 i 3 3 0\np 4 1\nf 4\nk 15 0\nnode 27\nt 14 p 0 0 0 0 0 0\nt 15 i 1 3 1\nt 16 i 1 1 0\nc 0 i 1 \
3 1\nc 1 i 2 6 1\nc 2 i 1 1 0\nc 3 i 1 1 0\nc 4 i 3 3 0\np 4 1\nf 4\nk 15 0\nnode 28\nt 14 p 0 0 0 0 0 0\nt 17 i 2 4 \
1\nc 0 i 1 3 1\nc 1 i 2 6 1\nc 2 i 1 1 0\nc 3 i 1 1 0\nc 4 i 3 3 0\np 4 1\nf 4\nnode 29\nc 0 i 2 4 1\nc 1 i 2 6 1\nc 2 \
i 1 1 0\nc 3 i 1 1 0\nc 4 i 3 3 0\np 0 1\np 4 1\nf 0\nf 4\nnode 30\nc 0 i 2 4 1\nc 1 i 2 6 1\nc 2 i 1 1 0\nc 3 i 1 1 \
0\nc 4 i 3 3 0\np 0 1\np 4 1\nf 4\nnode 31\nc 0 i 2 4 1\nc 1 i 2 6 1\nc 2 i 1 1 0\nc 3 i 1 1 0\nc 4 i 3 3 0\nf 4\n\
store\nw 0 0 1 i 2 6 1\nw 0 0 4 i 1 1 0\nw 0 1 0 i 2 4 1\nw 0 1 4 i 2 3 1\ny 0 0 0 i 2 4 1\ny 0 0 4 i 3 3 0\n",
    ),
    (
        "__mutex m0; int g1; int g2; int g3; int g4; __task(0) void t0(void) { while (1) { while \
((__input(3,262))!=6L) { while (g1>=g4) { __lock(m0); while (g3) { __yield(); __yield(); } g1=g2; if (g2>=2) { } else \
{ } __unlock(m0); } } __yield(); } }",
        "task 0\nnode 0\nc 0 i 0 0 0\nc 1 i 0 0 0\nc 2 i 0 0 0\nc 3 i 0 0 0\nnode 1\nc 0 i 0 0 0\nc 1 i 0 0 0\nc 2 i 0 \
0 0\nc 3 i 0 0 0\nnode 2\nt 0 i 1 1 0\nc 0 i 0 0 0\nc 1 i 0 0 0\nc 2 i 0 0 0\nc 3 i 0 0 0\nnode 3\nc 0 i 0 0 0\nc 1 i \
0 0 0\nc 2 i 0 0 0\nc 3 i 0 0 0\nnode 5\nc 0 i 0 0 0\nc 1 i 0 0 0\nc 2 i 0 0 0\nc 3 i 0 0 0\nnode 6\nt 1 i 3 262 1\nc \
0 i 0 0 0\nc 1 i 0 0 0\nc 2 i 0 0 0\nc 3 i 0 0 0\nnode 7\nt 1 i 3 262 1\nt 2 i 6 6 0\nc 0 i 0 0 0\nc 1 i 0 0 0\nc 2 i \
0 0 0\nc 3 i 0 0 0\nnode 8\nc 0 i 0 0 0\nc 1 i 0 0 0\nc 2 i 0 0 0\nc 3 i 0 0 0\nnode 9\nc 0 i 0 0 0\nc 1 i 0 0 0\nc 2 \
i 0 0 0\nc 3 i 0 0 0\nnode 10\nc 0 i 0 0 0\nc 1 i 0 0 0\nc 2 i 0 0 0\nc 3 i 0 0 0\nnode 11\nt 3 p 0 0 0 0 0 0\nc 0 i 0 \
0 0\nc 1 i 0 0 0\nc 2 i 0 0 0\nc 3 i 0 0 0\nnode 12\nt 4 i 0 0 0\nc 0 i 0 0 0\nc 1 i 0 0 0\nc 2 i 0 0 0\nc 3 i 0 0 0\n\
k 4 0\nnode 13\nt 4 i 0 0 0\nt 5 p 0 0 3 0 0 0\nc 0 i 0 0 0\nc 1 i 0 0 0\nc 2 i 0 0 0\nc 3 i 0 0 0\nk 4 0\nnode 14\nt \
4 i 0 0 0\nt 6 i 0 0 0\nc 0 i 0 0 0\nc 1 i 0 0 0\nc 2 i 0 0 0\nc 3 i 0 0 0\nk 4 0\nk 6 3\nnode 15\nc 0 i 0 0 0\nc 1 i \
0 0 0\nc 2 i 0 0 0\nc 3 i 0 0 0\nnode 17\nc 0 i 0 0 0\nc 1 i 0 0 0\nc 2 i 0 0 0\nc 3 i 0 0 0\nnode 18\nc 0 i 0 0 0\nc \
1 i 0 0 0\nc 2 i 0 0 0\nc 3 i 0 0 0\nnode 19\nt 7 p 0 0 2 0 0 0\nc 0 i 0 0 0\nc 1 i 0 0 0\nc 2 i 0 0 0\nc 3 i 0 0 0\n\
node 20\nt 8 i 0 0 0\nc 0 i 0 0 0\nc 1 i 0 0 0\nc 2 i 0 0 0\nc 3 i 0 0 0\nk 8 2\nnode 22\nc 0 i 0 0 0\nc 1 i 0 0 0\nc \
2 i 0 0 0\nc 3 i 0 0 0\nnode 25\nc 0 i 0 0 0\nc 1 i 0 0 0\nc 2 i 0 0 0\nc 3 i 0 0 0\nnode 26\nt 9 p 0 0 0 0 0 0\nc 0 i \
0 0 0\nc 1 i 0 0 0\nc 2 i 0 0 0\nc 3 i 0 0 0\nnode 27\nt 9 p 0 0 0 0 0 0\nt 10 p 0 0 1 0 0 0\nc 0 i 0 0 0\nc 1 i 0 0 \
0\nc 2 i 0 0 0\nc 3 i 0 0 0\nnode 28\nt 9 p 0 0 0 0 0 0\nt 11 i 0 0 0\nc 0 i 0 0 0\nc 1 i 0 0 0\nc 2 i 0 0 0\nc 3 i 0 \
0 0\nk 11 1\nnode 29\nc 0 i 0 0 0\nc 1 i 0 0 0\nc 2 i 0 0 0\nc 3 i 0 0 0\np 0 1\nf 0\nnode 30\nt 12 p 0 0 1 0 0 0\nc 0 \
i 0 0 0\nc 1 i 0 0 0\nc 2 i 0 0 0\nc 3 i 0 0 0\np 0 1\nf 0\nnode 31\nt 13 i 0 0 0\nc 0 i 0 0 0\nc 1 i 0 0 0\nc 2 i 0 0 \
0\nc 3 i 0 0 0\np 0 1\nf 0\nk 13 1\nnode 32\nt 13 i 0 0 0\nt 14 i 2 2 0\nc 0 i 0 0 0\nc 1 i 0 0 0\nc 2 i 0 0 0\nc 3 i \
0 0 0\np 0 1\nf 0\nk 13 1\nnode 34\nc 0 i 0 0 0\nc 1 i 0 0 0\nc 2 i 0 0 0\nc 3 i 0 0 0\np 0 1\nf 0\nnode 35\nc 0 i 0 0 \
0\nc 1 i 0 0 0\nc 2 i 0 0 0\nc 3 i 0 0 0\np 0 1\nf 0\nnode 36\nc 0 i 0 0 0\nc 1 i 0 0 0\nc 2 i 0 0 0\nc 3 i 0 0 0\nf \
0\nnode 38\nc 0 i 0 0 0\nc 1 i 0 0 0\nc 2 i 0 0 0\nc 3 i 0 0 0\nnode 39\nc 0 i 0 0 0\nc 1 i 0 0 0\nc 2 i 0 0 0\nc 3 i \
0 0 0\nstore\nw 0 1 0 i 0 0 0\ny 0 0 0 i 0 0 0\n",
    ),
    (
        "__mutex m0; int g1=1; int g2=2; int g3; int h4(void) { __unlock(m0); return 0; } int main(void) { g1=32767; \
if(sizeof(int)!=7)return g2|g1; if (g3>=7L) { } else { } return 0; } __task(2) void t0(void) { int v5[4]={0}; while \
(1) { __lock(m0); __lock(m0); g2|=((-(unsigned char)(4294967295u))&31); g1=5; g2=10/g1; __unlock(m0); __lock(m0); \
while ((-7)) { if(g1<100)g1++; } __unlock(m0); __yield(); } } __task(1) void t1(void) { if (g2>7L) { g3=g1; if (g3) { \
g1=__input(1,5); if(g2>0)g2--; g2=3; g2=5; } } }",
        "task 0\nnode 0\nc 0 i 32767 32767 0\nc 1 i 2 2 0\nc 2 i 0 0 0\nc 3 i -2147483648 2147483647 1\nc 4 i \
-2147483648 2147483647 1\nc 5 i -2147483648 2147483647 1\nc 6 i -2147483648 2147483647 1\nnode 1\nc 0 i 32767 32767 0\n\
c 1 i 2 2 0\nc 2 i 0 0 0\nc 3 i -2147483648 2147483647 1\nc 4 i -2147483648 2147483647 1\nc 5 i -2147483648 2147483647 \
1\nc 6 i -2147483648 2147483647 1\nnode 2\nt 0 p 0 0 3 0 0 0\nc 0 i 32767 32767 0\nc 1 i 2 2 0\nc 2 i 0 0 0\nc 3 i \
-2147483648 2147483647 1\nc 4 i -2147483648 2147483647 1\nc 5 i -2147483648 2147483647 1\nc 6 i -2147483648 2147483647 \
1\nnode 3\nt 1 p 0 0 3 0 0 0\nc 0 i 32767 32767 0\nc 1 i 2 2 0\nc 2 i 0 0 0\nc 3 i -2147483648 2147483647 1\nc 4 i \
-2147483648 2147483647 1\nc 5 i -2147483648 2147483647 1\nc 6 i -2147483648 2147483647 1\nnode 4\nt 1 p 0 0 3 0 0 0\nt \
2 i 0 0 0\nc 0 i 32767 32767 0\nc 1 i 2 2 0\nc 2 i 0 0 0\nc 3 i -2147483648 2147483647 1\nc 4 i -2147483648 2147483647 \
1\nc 5 i -2147483648 2147483647 1\nc 6 i -2147483648 2147483647 1\nnode 5\nc 0 i 32767 32767 0\nc 1 i 2 2 0\nc 2 i 0 0 \
0\nc 3 i 0 0 0\nc 4 i -2147483648 2147483647 1\nc 5 i -2147483648 2147483647 1\nc 6 i -2147483648 2147483647 1\nf 3\ns \
3\nnode 6\nt 3 p 0 0 3 0 0 0\nc 0 i 32767 32767 0\nc 1 i 2 2 0\nc 2 i 0 0 0\nc 3 i 0 0 0\nc 4 i -2147483648 2147483647 \
1\nc 5 i -2147483648 2147483647 1\nc 6 i -2147483648 2147483647 1\nf 3\ns 3\nnode 7\nt 4 p 0 0 3 1 1 0\nc 0 i 32767 \
32767 0\nc 1 i 2 2 0\nc 2 i 0 0 0\nc 3 i 0 0 0\nc 4 i -2147483648 2147483647 1\nc 5 i -2147483648 2147483647 1\nc 6 i \
-2147483648 2147483647 1\nf 3\ns 3\nnode 8\nt 4 p 0 0 3 1 1 0\nt 5 i 0 0 0\nc 0 i 32767 32767 0\nc 1 i 2 2 0\nc 2 i 0 \
0 0\nc 3 i 0 0 0\nc 4 i -2147483648 2147483647 1\nc 5 i -2147483648 2147483647 1\nc 6 i -2147483648 2147483647 1\nf 3\n\
s 3\nnode 9\nc 0 i 32767 32767 0\nc 1 i 2 2 0\nc 2 i 0 0 0\nc 3 i 0 0 0\nc 4 i 0 0 0\nc 5 i -2147483648 2147483647 1\n\
c 6 i -2147483648 2147483647 1\nf 3\nf 4\ns 3\ns 4\nnode 10\nt 6 p 0 0 3 0 0 0\nc 0 i 32767 32767 0\nc 1 i 2 2 0\nc 2 \
i 0 0 0\nc 3 i 0 0 0\nc 4 i 0 0 0\nc 5 i -2147483648 2147483647 1\nc 6 i -2147483648 2147483647 1\nf 3\nf 4\ns 3\ns 4\n\
node 11\nt 7 p 0 0 3 2 2 0\nc 0 i 32767 32767 0\nc 1 i 2 2 0\nc 2 i 0 0 0\nc 3 i 0 0 0\nc 4 i 0 0 0\nc 5 i -2147483648 \
2147483647 1\nc 6 i -2147483648 2147483647 1\nf 3\nf 4\ns 3\ns 4\nnode 12\nt 7 p 0 0 3 2 2 0\nt 8 i 0 0 0\nc 0 i 32767 \
32767 0\nc 1 i 2 2 0\nc 2 i 0 0 0\nc 3 i 0 0 0\nc 4 i 0 0 0\nc 5 i -2147483648 2147483647 1\nc 6 i -2147483648 \
2147483647 1\nf 3\nf 4\ns 3\ns 4\nnode 13\nc 0 i 32767 32767 0\nc 1 i 2 2 0\nc 2 i 0 0 0\nc 3 i 0 0 0\nc 4 i 0 0 0\nc \
5 i 0 0 0\nc 6 i -2147483648 2147483647 1\nf 3\nf 4\nf 5\ns 3\ns 4\ns 5\nnode 14\nt 9 p 0 0 3 0 0 0\nc 0 i 32767 32767 \
0\nc 1 i 2 2 0\nc 2 i 0 0 0\nc 3 i 0 0 0\nc 4 i 0 0 0\nc 5 i 0 0 0\nc 6 i -2147483648 2147483647 1\nf 3\nf 4\nf 5\ns \
3\ns 4\ns 5\nnode 15\nt 10 p 0 0 3 3 3 0\nc 0 i 32767 32767 0\nc 1 i 2 2 0\nc 2 i 0 0 0\nc 3 i 0 0 0\nc 4 i 0 0 0\nc 5 \
i 0 0 0\nc 6 i -2147483648 2147483647 1\nf 3\nf 4\nf 5\ns 3\ns 4\ns 5\nnode 16\nt 10 p 0 0 3 3 3 0\nt 11 i 0 0 0\nc 0 \
i 32767 32767 0\nc 1 i 2 2 0\nc 2 i 0 0 0\nc 3 i 0 0 0\nc 4 i 0 0 0\nc 5 i 0 0 0\nc 6 i -2147483648 2147483647 1\nf 3\n\
f 4\nf 5\ns 3\ns 4\ns 5\nnode 17\nc 0 i 32767 32767 0\nc 1 i 2 2 0\nc 2 i 0 0 0\nc 3 i 0 0 0\nc 4 i 0 0 0\nc 5 i 0 0 \
0\nc 6 i 0 0 0\nf 3\nf 4\nf 5\nf 6\ns 3\ns 4\ns 5\ns 6\nnode 18\nc 0 i 32767 32767 0\nc 1 i 2 2 0\nc 2 i 0 0 0\nc 3 i \
0 0 0\nc 4 i 0 0 0\nc 5 i 0 0 0\nc 6 i 0 0 0\nf 3\nf 4\nf 5\nf 6\ns 3\ns 4\ns 5\ns 6\nnode 19\nt 12 i 1 1 0\nc 0 i \
32767 32767 0\nc 1 i 2 2 0\nc 2 i 0 0 0\nc 3 i 0 0 0\nc 4 i 0 0 0\nc 5 i 0 0 0\nc 6 i 0 0 0\nf 3\nf 4\nf 5\nf 6\ns 3\n\
s 4\ns 5\ns 6\nnode 20\nc 0 i 32767 32767 0\nc 1 i 2 2 0\nc 2 i 0 0 0\nc 3 i 0 0 0\nc 4 i 0 0 0\nc 5 i 0 0 0\nc 6 i 0 \
0 0\nf 3\nf 4\nf 5\nf 6\ns 3\ns 4\ns 5\ns 6\nnode 22\nc 0 i 32767 32767 0\nc 1 i 2 2 0\nc 2 i 0 0 0\nc 3 i 0 0 0\nc 4 \
i 0 0 0\nc 5 i 0 0 0\nc 6 i 0 0 0\ns 3\ns 4\ns 5\ns 6\ntask 1\nnode 0\nc 0 i 32767 32767 0\nc 1 i 2 2 0\nc 2 i 0 0 0\n\
node 1\nt 0 p 0 0 1 0 0 0\nc 0 i 32767 32767 0\nc 1 i 2 2 0\nc 2 i 0 0 0\nnode 2\nt 1 i 2 2 0\nc 0 i 32767 32767 0\nc \
1 i 2 2 0\nc 2 i 0 0 0\nk 1 1\nnode 3\nt 1 i 2 2 0\nt 2 i 7 7 0\nc 0 i 32767 32767 0\nc 1 i 2 2 0\nc 2 i 0 0 0\nk 1 1\n\
node 5\nc 0 i 32767 32767 0\nc 1 i 2 2 0\nc 2 i 0 0 0\nnode 35\nc 0 i 32767 32767 0\nc 1 i 2 2 0\nc 2 i 0 0 0\ntask 2\n\
node 0\nc 0 i 1 1 0\nc 1 i 2 2 0\nc 2 i 0 0 0\nnode 1\nt 0 p 0 0 0 0 0 0\nc 0 i 1 1 0\nc 1 i 2 2 0\nc 2 i 0 0 0\nnode \
2\nt 0 p 0 0 0 0 0 0\nt 1 i 32767 32767 0\nc 0 i 1 1 0\nc 1 i 2 2 0\nc 2 i 0 0 0\nnode 3\nc 0 i 32767 32767 0\nc 1 i 2 \
2 0\nc 2 i 0 0 0\nf 0\nnode 4\nt 2 i 4 4 0\nc 0 i 32767 32767 0\nc 1 i 2 2 0\nc 2 i 0 0 0\nf 0\nnode 5\nt 2 i 4 4 0\nt \
3 i 7 7 0\nc 0 i 32767 32767 0\nc 1 i 2 2 0\nc 2 i 0 0 0\nf 0\nnode 6\nt 2 i 4 4 0\nt 4 i 7 7 0\nc 0 i 32767 32767 0\n\
c 1 i 2 2 0\nc 2 i 0 0 0\nf 0\nnode 7\nc 0 i 32767 32767 0\nc 1 i 2 2 0\nc 2 i 0 0 0\nf 0\nnode 9\nt 5 p 0 0 1 0 0 0\n\
c 0 i 32767 32767 0\nc 1 i 2 2 0\nc 2 i 0 0 0\nf 0\nnode 10\nt 6 i 2 2 0\nc 0 i 32767 32767 0\nc 1 i 2 2 0\nc 2 i 0 0 \
0\nf 0\nk 6 1\nnode 11\nt 6 i 2 2 0\nt 7 p 0 0 0 0 0 0\nc 0 i 32767 32767 0\nc 1 i 2 2 0\nc 2 i 0 0 0\nf 0\nk 6 1\n\
node 12\nt 6 i 2 2 0\nt 8 i 32767 32767 0\nc 0 i 32767 32767 0\nc 1 i 2 2 0\nc 2 i 0 0 0\nf 0\nk 6 1\nk 8 0\nnode 13\n\
t 9 i 32767 32767 0\nc 0 i 32767 32767 0\nc 1 i 2 2 0\nc 2 i 0 0 0\nf 0\nnode 14\nc 0 i 32767 32767 0\nc 1 i 2 2 0\nc \
2 i 0 0 0\nf 0\nnode 24\nc 0 i 32767 32767 0\nc 1 i 2 2 0\nc 2 i 0 0 0\nf 0\nstore\n",
    ),
    (
        "typedef unsigned char u8; int g1; int g2=0x5; static int g3[4]={4,1}; int main(void) { g2; \
g3[1]=(__input(0,7)-((__input(3,8))&1))%7; g2=8; g2+=1; for (;;) { g1=__input(2,3); g2=7; \
if(__input(2,9)==65535)break; __yield(); } return 0; } __task(2) void t0(void) { int v4=(int)(g1); while (1) { \
__yield(); g2=0u<<3; v4++; g1=4; g2=v4; __yield(); g2=0x2; g3[(unsigned)(127)%4u]++; __yield(); } } __task(0) void \
t1(void) { while (1) { g1=(g2&15)<<((__input(0,283))&7); g1=g3[3]; g1='\\5'; g1=g3[0]; g2+=(-7); if(((unsigned \
char)(5u)<<((__input(-1,2))&7))==(g1|g1))continue; __yield(); } }",
        "task 0\ntask 1\ntask 2\nnode 0\nc 0 i 0 0 0\nc 1 i 5 5 0\nc 2 i 4 4 0\nc 3 i 1 1 0\nc 4 i 0 0 0\nc 5 i 0 0 0\n\
node 1\nt 0 p 0 0 1 0 0 0\nc 0 i 0 0 0\nc 1 i 5 5 0\nc 2 i 4 4 0\nc 3 i 1 1 0\nc 4 i 0 0 0\nc 5 i 0 0 0\nnode 2\nc 0 i \
0 0 0\nc 1 i 5 5 0\nc 2 i 4 4 0\nc 3 i 1 1 0\nc 4 i 0 0 0\nc 5 i 0 0 0\nnode 3\nt 2 p 0 0 2 0 0 0\nc 0 i 0 0 0\nc 1 i \
5 5 0\nc 2 i 4 4 0\nc 3 i 1 1 0\nc 4 i 0 0 0\nc 5 i 0 0 0\nnode 4\nt 2 p 0 0 2 0 0 0\nt 3 i 1 1 0\nc 0 i 0 0 0\nc 1 i \
5 5 0\nc 2 i 4 4 0\nc 3 i 1 1 0\nc 4 i 0 0 0\nc 5 i 0 0 0\nnode 5\nt 4 p 0 0 2 1 1 0\nc 0 i 0 0 0\nc 1 i 5 5 0\nc 2 i \
4 4 0\nc 3 i 1 1 0\nc 4 i 0 0 0\nc 5 i 0 0 0\nnode 6\nt 4 p 0 0 2 1 1 0\nt 5 i 0 7 1\nc 0 i 0 0 0\nc 1 i 5 5 0\nc 2 i \
4 4 0\nc 3 i 1 1 0\nc 4 i 0 0 0\nc 5 i 0 0 0\nnode 7\nt 4 p 0 0 2 1 1 0\nt 5 i 0 7 1\nt 6 i 3 8 1\nc 0 i 0 0 0\nc 1 i \
5 5 0\nc 2 i 4 4 0\nc 3 i 1 1 0\nc 4 i 0 0 0\nc 5 i 0 0 0\nnode 8\nt 4 p 0 0 2 1 1 0\nt 5 i 0 7 1\nt 6 i 3 8 1\nt 7 i \
1 1 0\nc 0 i 0 0 0\nc 1 i 5 5 0\nc 2 i 4 4 0\nc 3 i 1 1 0\nc 4 i 0 0 0\nc 5 i 0 0 0\nnode 9\nt 4 p 0 0 2 1 1 0\nt 5 i \
0 7 1\nt 8 i 0 1 1\nc 0 i 0 0 0\nc 1 i 5 5 0\nc 2 i 4 4 0\nc 3 i 1 1 0\nc 4 i 0 0 0\nc 5 i 0 0 0\nnode 10\nt 4 p 0 0 2 \
1 1 0\nt 9 i -1 7 1\nc 0 i 0 0 0\nc 1 i 5 5 0\nc 2 i 4 4 0\nc 3 i 1 1 0\nc 4 i 0 0 0\nc 5 i 0 0 0\nnode 11\nt 4 p 0 0 \
2 1 1 0\nt 9 i -1 7 1\nt 10 i 7 7 0\nc 0 i 0 0 0\nc 1 i 5 5 0\nc 2 i 4 4 0\nc 3 i 1 1 0\nc 4 i 0 0 0\nc 5 i 0 0 0\n\
node 12\nt 4 p 0 0 2 1 1 0\nt 11 i -1 6 1\nc 0 i 0 0 0\nc 1 i 5 5 0\nc 2 i 4 4 0\nc 3 i 1 1 0\nc 4 i 0 0 0\nc 5 i 0 0 \
0\nnode 13\nc 0 i 0 0 0\nc 1 i 5 5 0\nc 2 i 4 4 0\nc 3 i -1 6 1\nc 4 i 0 0 0\nc 5 i 0 0 0\nf 3\nnode 14\nt 12 p 0 0 1 \
0 0 0\nc 0 i 0 0 0\nc 1 i 5 5 0\nc 2 i 4 4 0\nc 3 i -1 6 1\nc 4 i 0 0 0\nc 5 i 0 0 0\nf 3\nnode 15\nt 12 p 0 0 1 0 0 \
0\nt 13 i 8 8 0\nc 0 i 0 0 0\nc 1 i 5 5 0\nc 2 i 4 4 0\nc 3 i -1 6 1\nc 4 i 0 0 0\nc 5 i 0 0 0\nf 3\nnode 16\nc 0 i 0 \
0 0\nc 1 i 8 8 0\nc 2 i 4 4 0\nc 3 i -1 6 1\nc 4 i 0 0 0\nc 5 i 0 0 0\nf 1\nf 3\nnode 17\nt 14 p 0 0 1 0 0 0\nc 0 i 0 \
0 0\nc 1 i 8 8 0\nc 2 i 4 4 0\nc 3 i -1 6 1\nc 4 i 0 0 0\nc 5 i 0 0 0\nf 1\nf 3\nnode 18\nt 14 p 0 0 1 0 0 0\nt 15 i 8 \
8 0\nc 0 i 0 0 0\nc 1 i 8 8 0\nc 2 i 4 4 0\nc 3 i -1 6 1\nc 4 i 0 0 0\nc 5 i 0 0 0\nf 1\nf 3\nk 15 1\nnode 19\nt 14 p \
0 0 1 0 0 0\nt 15 i 8 8 0\nt 16 i 1 1 0\nc 0 i 0 0 0\nc 1 i 8 8 0\nc 2 i 4 4 0\nc 3 i -1 6 1\nc 4 i 0 0 0\nc 5 i 0 0 \
0\nf 1\nf 3\nk 15 1\nnode 20\nt 14 p 0 0 1 0 0 0\nt 17 i 9 9 0\nc 0 i 0 0 0\nc 1 i 8 8 0\nc 2 i 4 4 0\nc 3 i -1 6 1\nc \
4 i 0 0 0\nc 5 i 0 0 0\nf 1\nf 3\nnode 21\nc 0 i 0 0 0\nc 1 i 9 9 0\nc 2 i 4 4 0\nc 3 i -1 6 1\nc 4 i 0 0 0\nc 5 i 0 0 \
0\nf 1\nf 3\nnode 22\nc 0 i 0 3 1\nc 1 i 7 9 2\nc 2 i 4 4 0\nc 3 i -1 6 1\nc 4 i 0 0 0\nc 5 i 0 0 0\nnode 23\nt 18 p 0 \
0 0 0 0 0\nc 0 i 0 3 1\nc 1 i 7 9 2\nc 2 i 4 4 0\nc 3 i -1 6 1\nc 4 i 0 0 0\nc 5 i 0 0 0\nnode 24\nt 18 p 0 0 0 0 0 0\n\
t 19 i 2 3 1\nc 0 i 0 3 1\nc 1 i 7 9 2\nc 2 i 4 4 0\nc 3 i -1 6 1\nc 4 i 0 0 0\nc 5 i 0 0 0\nnode 25\nc 0 i 2 3 1\nc 1 \
i 7 9 2\nc 2 i 4 4 0\nc 3 i -1 6 1\nc 4 i 0 0 0\nc 5 i 0 0 0\nf 0\nnode 26\nt 20 p 0 0 1 0 0 0\nc 0 i 2 3 1\nc 1 i 7 9 \
2\nc 2 i 4 4 0\nc 3 i -1 6 1\nc 4 i 0 0 0\nc 5 i 0 0 0\nf 0\nnode 27\nt 20 p 0 0 1 0 0 0\nt 21 i 7 7 0\nc 0 i 2 3 1\nc \
1 i 7 9 2\nc 2 i 4 4 0\nc 3 i -1 6 1\nc 4 i 0 0 0\nc 5 i 0 0 0\nf 0\nnode 28\nc 0 i 2 3 1\nc 1 i 7 7 0\nc 2 i 4 4 0\nc \
3 i -1 6 1\nc 4 i 0 0 0\nc 5 i 0 0 0\nf 0\nf 1\nnode 29\nt 22 i 2 9 1\nc 0 i 2 3 1\nc 1 i 7 7 0\nc 2 i 4 4 0\nc 3 i -1 \
6 1\nc 4 i 0 0 0\nc 5 i 0 0 0\nf 0\nf 1\nnode 30\nt 22 i 2 9 1\nt 23 i 65535 65535 0\nc 0 i 2 3 1\nc 1 i 7 7 0\nc 2 i \
4 4 0\nc 3 i -1 6 1\nc 4 i 0 0 0\nc 5 i 0 0 0\nf 0\nf 1\nnode 32\nc 0 i 2 3 1\nc 1 i 7 7 0\nc 2 i 4 4 0\nc 3 i -1 6 1\n\
c 4 i 0 0 0\nc 5 i 0 0 0\nf 0\nf 1\nnode 33\nc 0 i 2 3 1\nc 1 i 7 7 0\nc 2 i 4 4 0\nc 3 i -1 6 1\nc 4 i 0 0 0\nc 5 i 0 \
0 0\nf 0\nf 1\nnode 34\nc 0 i 2 3 1\nc 1 i 7 7 0\nc 2 i 4 4 0\nc 3 i -1 6 1\nc 4 i 0 0 0\nc 5 i 0 0 0\nstore\n",
    ),
];

/// A source with pointers, structures, enumerations and conversions, and the lines of its solution.
pub static TYPES: [(&str, &str); 3] = [
    (
        "void fn0(int *a8,int *a9); typedef unsigned char u8; __mutex m0; __mutex m1; enum E { EA, EB = 5, EC }; \
struct S0 { unsigned long *f0; }; struct S1 { long long f0; }; int g1; static int g2; struct S1 g3; const int \
g4[1]={255}; u8 g5; int g6=0x4; int h7(void) { __yield(); return 0; } void fn0(int *a8,int *a9) { if(a9)g5=(*a9); } \
__task(0) void t0(void) { while (1) { __yield(); g3.f0=((g1&7)*((g4[0])&63))^g6; switch (g6) { case 0: { \
if(g5)g1=10/g5; g5=1L; break; } case 11: { break; } } __yield(); } }",
        "task 0\nnode 0\nc 0 i 0 0 0\nc 1 i 0 0 0\nc 2 i 0 0 0\nc 3 i 255 255 0\nc 4 i 0 0 0\nc 5 i 4 4 0\nnode 1\nc 0 \
i 0 0 0\nc 1 i 0 0 0\nc 2 i 0 4 4\nc 3 i 255 255 0\nc 4 i 0 0 0\nc 5 i 4 4 0\nnode 2\nt 0 i 1 1 0\nc 0 i 0 0 0\nc 1 i \
0 0 0\nc 2 i 0 4 4\nc 3 i 255 255 0\nc 4 i 0 0 0\nc 5 i 4 4 0\nnode 3\nc 0 i 0 0 0\nc 1 i 0 0 0\nc 2 i 0 4 4\nc 3 i \
255 255 0\nc 4 i 0 0 0\nc 5 i 4 4 0\nnode 5\nc 0 i 0 0 0\nc 1 i 0 0 0\nc 2 i 0 4 4\nc 3 i 255 255 0\nc 4 i 0 0 0\nc 5 \
i 4 4 0\nnode 6\nt 1 p 0 0 2 0 0 0\nc 0 i 0 0 0\nc 1 i 0 0 0\nc 2 i 0 4 4\nc 3 i 255 255 0\nc 4 i 0 0 0\nc 5 i 4 4 0\n\
node 7\nt 2 p 0 0 2 0 0 0\nc 0 i 0 0 0\nc 1 i 0 0 0\nc 2 i 0 4 4\nc 3 i 255 255 0\nc 4 i 0 0 0\nc 5 i 4 4 0\nnode 8\nt \
2 p 0 0 2 0 0 0\nt 3 p 0 0 0 0 0 0\nc 0 i 0 0 0\nc 1 i 0 0 0\nc 2 i 0 4 4\nc 3 i 255 255 0\nc 4 i 0 0 0\nc 5 i 4 4 0\n\
node 9\nt 2 p 0 0 2 0 0 0\nt 4 i 0 0 0\nc 0 i 0 0 0\nc 1 i 0 0 0\nc 2 i 0 4 4\nc 3 i 255 255 0\nc 4 i 0 0 0\nc 5 i 4 4 \
0\nk 4 0\nnode 10\nt 2 p 0 0 2 0 0 0\nt 4 i 0 0 0\nt 5 i 7 7 0\nc 0 i 0 0 0\nc 1 i 0 0 0\nc 2 i 0 4 4\nc 3 i 255 255 \
0\nc 4 i 0 0 0\nc 5 i 4 4 0\nk 4 0\nnode 11\nt 2 p 0 0 2 0 0 0\nt 6 i 0 0 0\nc 0 i 0 0 0\nc 1 i 0 0 0\nc 2 i 0 4 4\nc \
3 i 255 255 0\nc 4 i 0 0 0\nc 5 i 4 4 0\nnode 12\nt 2 p 0 0 2 0 0 0\nt 6 i 0 0 0\nt 7 p 0 0 3 0 0 0\nc 0 i 0 0 0\nc 1 \
i 0 0 0\nc 2 i 0 4 4\nc 3 i 255 255 0\nc 4 i 0 0 0\nc 5 i 4 4 0\nnode 13\nt 2 p 0 0 2 0 0 0\nt 6 i 0 0 0\nt 7 p 0 0 3 \
0 0 0\nt 8 i 0 0 0\nc 0 i 0 0 0\nc 1 i 0 0 0\nc 2 i 0 4 4\nc 3 i 255 255 0\nc 4 i 0 0 0\nc 5 i 4 4 0\nnode 14\nt 2 p 0 \
0 2 0 0 0\nt 6 i 0 0 0\nt 9 p 0 0 3 0 0 0\nc 0 i 0 0 0\nc 1 i 0 0 0\nc 2 i 0 4 4\nc 3 i 255 255 0\nc 4 i 0 0 0\nc 5 i \
4 4 0\nnode 15\nt 2 p 0 0 2 0 0 0\nt 6 i 0 0 0\nt 10 i 255 255 0\nc 0 i 0 0 0\nc 1 i 0 0 0\nc 2 i 0 4 4\nc 3 i 255 255 \
0\nc 4 i 0 0 0\nc 5 i 4 4 0\nk 10 3\nnode 16\nt 2 p 0 0 2 0 0 0\nt 6 i 0 0 0\nt 10 i 255 255 0\nt 11 i 63 63 0\nc 0 i \
0 0 0\nc 1 i 0 0 0\nc 2 i 0 4 4\nc 3 i 255 255 0\nc 4 i 0 0 0\nc 5 i 4 4 0\nk 10 3\nnode 17\nt 2 p 0 0 2 0 0 0\nt 6 i \
0 0 0\nt 12 i 63 63 0\nc 0 i 0 0 0\nc 1 i 0 0 0\nc 2 i 0 4 4\nc 3 i 255 255 0\nc 4 i 0 0 0\nc 5 i 4 4 0\nnode 18\nt 2 \
p 0 0 2 0 0 0\nt 13 i 0 0 0\nc 0 i 0 0 0\nc 1 i 0 0 0\nc 2 i 0 4 4\nc 3 i 255 255 0\nc 4 i 0 0 0\nc 5 i 4 4 0\nnode \
19\nt 2 p 0 0 2 0 0 0\nt 13 i 0 0 0\nt 14 p 0 0 5 0 0 0\nc 0 i 0 0 0\nc 1 i 0 0 0\nc 2 i 0 4 4\nc 3 i 255 255 0\nc 4 i \
0 0 0\nc 5 i 4 4 0\nnode 20\nt 2 p 0 0 2 0 0 0\nt 13 i 0 0 0\nt 15 i 4 4 0\nc 0 i 0 0 0\nc 1 i 0 0 0\nc 2 i 0 4 4\nc 3 \
i 255 255 0\nc 4 i 0 0 0\nc 5 i 4 4 0\nk 15 5\nnode 21\nt 2 p 0 0 2 0 0 0\nt 16 i 4 4 0\nc 0 i 0 0 0\nc 1 i 0 0 0\nc 2 \
i 0 4 4\nc 3 i 255 255 0\nc 4 i 0 0 0\nc 5 i 4 4 0\nnode 22\nc 0 i 0 0 0\nc 1 i 0 0 0\nc 2 i 4 4 0\nc 3 i 255 255 0\nc \
4 i 0 0 0\nc 5 i 4 4 0\nf 2\nnode 23\nt 17 p 0 0 5 0 0 0\nc 0 i 0 0 0\nc 1 i 0 0 0\nc 2 i 4 4 0\nc 3 i 255 255 0\nc 4 \
i 0 0 0\nc 5 i 4 4 0\nf 2\nnode 24\nt 18 i 4 4 0\nc 0 i 0 0 0\nc 1 i 0 0 0\nc 2 i 4 4 0\nc 3 i 255 255 0\nc 4 i 0 0 0\n\
c 5 i 4 4 0\nf 2\nk 18 5\nnode 26\nt 18 i 4 4 0\nc 0 i 0 0 0\nc 1 i 0 0 0\nc 2 i 4 4 0\nc 3 i 255 255 0\nc 4 i 0 0 0\n\
c 5 i 4 4 0\nf 2\nk 18 5\nnode 28\nc 0 i 0 0 0\nc 1 i 0 0 0\nc 2 i 4 4 0\nc 3 i 255 255 0\nc 4 i 0 0 0\nc 5 i 4 4 0\nf \
2\nnode 46\nc 0 i 0 0 0\nc 1 i 0 0 0\nc 2 i 4 4 0\nc 3 i 255 255 0\nc 4 i 0 0 0\nc 5 i 4 4 0\nf 2\nnode 47\nc 0 i 0 0 \
0\nc 1 i 0 0 0\nc 2 i 4 4 0\nc 3 i 255 255 0\nc 4 i 0 0 0\nc 5 i 4 4 0\nstore\nw 0 0 2 i 4 4 0\n",
    ),
    (
        "void fn0(unsigned a3,unsigned short *a4); typedef unsigned char u8; int g1; int g2; void fn0(unsigned \
a3,unsigned short *a4) { a3=a3; } void fn1(void) { if (g1>=8u) { if(g2>0)g2--; g1+=1; } g2='\\377'; } __task(1) void \
t0(void) { int v5=g2; g2=((unsigned char)(v5)*(g1&1))?((unsigned char)(v5)+(unsigned char)(v5)):(~g1); v5=2; g2+=(-1); \
g2*=(unsigned char)(g2); }",
        "task 0\nnode 0\nc 0 i 0 0 0\nc 1 i 0 0 0\nc 2 i -2147483648 2147483647 1\nnode 1\nc 0 i 0 0 0\nc 1 i 0 0 0\nc \
2 i -2147483648 2147483647 1\nnode 2\nt 0 p 0 0 2 0 0 0\nc 0 i 0 0 0\nc 1 i 0 0 0\nc 2 i -2147483648 2147483647 1\n\
node 3\nt 0 p 0 0 2 0 0 0\nt 1 p 0 0 1 0 0 0\nc 0 i 0 0 0\nc 1 i 0 0 0\nc 2 i -2147483648 2147483647 1\nnode 4\nt 0 p \
0 0 2 0 0 0\nt 2 i 0 0 0\nc 0 i 0 0 0\nc 1 i 0 0 0\nc 2 i -2147483648 2147483647 1\nk 2 1\nnode 5\nc 0 i 0 0 0\nc 1 i \
0 0 0\nc 2 i 0 0 0\nf 2\ns 2\nnode 6\nt 3 p 0 0 1 0 0 0\nc 0 i 0 0 0\nc 1 i 0 0 0\nc 2 i 0 0 0\nf 2\ns 2\nnode 7\nt 3 \
p 0 0 1 0 0 0\nt 4 p 0 0 2 0 0 0\nc 0 i 0 0 0\nc 1 i 0 0 0\nc 2 i 0 0 0\nf 2\ns 2\nnode 8\nt 3 p 0 0 1 0 0 0\nt 5 i 0 \
0 0\nc 0 i 0 0 0\nc 1 i 0 0 0\nc 2 i 0 0 0\nf 2\ns 2\nk 5 2\nnode 9\nt 3 p 0 0 1 0 0 0\nt 6 i 0 0 0\nc 0 i 0 0 0\nc 1 \
i 0 0 0\nc 2 i 0 0 0\nf 2\ns 2\nnode 10\nt 3 p 0 0 1 0 0 0\nt 6 i 0 0 0\nt 7 p 0 0 0 0 0 0\nc 0 i 0 0 0\nc 1 i 0 0 0\n\
c 2 i 0 0 0\nf 2\ns 2\nnode 11\nt 3 p 0 0 1 0 0 0\nt 6 i 0 0 0\nt 8 i 0 0 0\nc 0 i 0 0 0\nc 1 i 0 0 0\nc 2 i 0 0 0\nf \
2\ns 2\nk 8 0\nnode 12\nt 3 p 0 0 1 0 0 0\nt 6 i 0 0 0\nt 8 i 0 0 0\nt 9 i 1 1 0\nc 0 i 0 0 0\nc 1 i 0 0 0\nc 2 i 0 0 \
0\nf 2\ns 2\nk 8 0\nnode 13\nt 3 p 0 0 1 0 0 0\nt 6 i 0 0 0\nt 10 i 0 0 0\nc 0 i 0 0 0\nc 1 i 0 0 0\nc 2 i 0 0 0\nf 2\n\
s 2\nnode 14\nt 3 p 0 0 1 0 0 0\nt 11 i 0 0 0\nc 0 i 0 0 0\nc 1 i 0 0 0\nc 2 i 0 0 0\nf 2\ns 2\nnode 16\nt 3 p 0 0 1 0 \
0 0\nc 0 i 0 0 0\nc 1 i 0 0 0\nc 2 i 0 0 0\nf 2\ns 2\nnode 25\nt 3 p 0 0 1 0 0 0\nt 20 p 0 0 0 0 0 0\nc 0 i 0 0 0\nc 1 \
i 0 0 0\nc 2 i 0 0 0\nf 2\ns 2\nnode 26\nt 3 p 0 0 1 0 0 0\nt 21 i 0 0 0\nc 0 i 0 0 0\nc 1 i 0 0 0\nc 2 i 0 0 0\nf 2\n\
s 2\nk 21 0\nnode 27\nt 3 p 0 0 1 0 0 0\nt 22 i -1 -1 0\nc 0 i 0 0 0\nc 1 i 0 0 0\nc 2 i 0 0 0\nf 2\ns 2\nnode 28\nt 3 \
p 0 0 1 0 0 0\nt 19 i -1 -1 0\nc 0 i 0 0 0\nc 1 i 0 0 0\nc 2 i 0 0 0\nf 2\ns 2\nnode 29\nt 3 p 0 0 1 0 0 0\nt 19 i -1 \
-1 0\nc 0 i 0 0 0\nc 1 i 0 0 0\nc 2 i 0 0 0\nf 2\ns 2\nnode 30\nc 0 i 0 0 0\nc 1 i -1 -1 0\nc 2 i 0 0 0\nf 1\nf 2\ns \
2\nnode 31\nt 23 p 0 0 2 0 0 0\nc 0 i 0 0 0\nc 1 i -1 -1 0\nc 2 i 0 0 0\nf 1\nf 2\ns 2\nnode 32\nt 23 p 0 0 2 0 0 0\nt \
24 i 2 2 0\nc 0 i 0 0 0\nc 1 i -1 -1 0\nc 2 i 0 0 0\nf 1\nf 2\ns 2\nnode 33\nc 0 i 0 0 0\nc 1 i -1 -1 0\nc 2 i 2 2 0\n\
f 1\nf 2\ns 2\nnode 34\nt 25 p 0 0 1 0 0 0\nc 0 i 0 0 0\nc 1 i -1 -1 0\nc 2 i 2 2 0\nf 1\nf 2\ns 2\nnode 35\nt 25 p 0 \
0 1 0 0 0\nt 26 i -1 -1 0\nc 0 i 0 0 0\nc 1 i -1 -1 0\nc 2 i 2 2 0\nf 1\nf 2\ns 2\nk 26 1\nnode 36\nt 25 p 0 0 1 0 0 \
0\nt 26 i -1 -1 0\nt 27 i -1 -1 0\nc 0 i 0 0 0\nc 1 i -1 -1 0\nc 2 i 2 2 0\nf 1\nf 2\ns 2\nk 26 1\nnode 37\nt 25 p 0 0 \
1 0 0 0\nt 28 i -2 -2 0\nc 0 i 0 0 0\nc 1 i -1 -1 0\nc 2 i 2 2 0\nf 1\nf 2\ns 2\nnode 38\nc 0 i 0 0 0\nc 1 i -2 -2 0\n\
c 2 i 2 2 0\nf 1\nf 2\ns 2\nnode 39\nt 29 p 0 0 1 0 0 0\nc 0 i 0 0 0\nc 1 i -2 -2 0\nc 2 i 2 2 0\nf 1\nf 2\ns 2\nnode \
40\nt 29 p 0 0 1 0 0 0\nt 30 i -2 -2 0\nc 0 i 0 0 0\nc 1 i -2 -2 0\nc 2 i 2 2 0\nf 1\nf 2\ns 2\nk 30 1\nnode 41\nt 29 \
p 0 0 1 0 0 0\nt 30 i -2 -2 0\nt 31 p 0 0 1 0 0 0\nc 0 i 0 0 0\nc 1 i -2 -2 0\nc 2 i 2 2 0\nf 1\nf 2\ns 2\nk 30 1\n\
node 42\nt 29 p 0 0 1 0 0 0\nt 30 i -2 -2 0\nt 32 i -2 -2 0\nc 0 i 0 0 0\nc 1 i -2 -2 0\nc 2 i 2 2 0\nf 1\nf 2\ns 2\nk \
30 1\nk 32 1\nnode 43\nt 29 p 0 0 1 0 0 0\nt 30 i -2 -2 0\nt 33 i 254 254 0\nc 0 i 0 0 0\nc 1 i -2 -2 0\nc 2 i 2 2 0\n\
f 1\nf 2\ns 2\nk 30 1\nnode 44\nt 29 p 0 0 1 0 0 0\nt 34 i -508 -508 0\nc 0 i 0 0 0\nc 1 i -2 -2 0\nc 2 i 2 2 0\nf 1\n\
f 2\ns 2\nnode 45\nc 0 i 0 0 0\nc 1 i -508 -508 0\nc 2 i 2 2 0\nf 1\nf 2\ns 2\nstore\nw 0 0 1 i -32768 -1 1\n",
    ),
    (
        "typedef unsigned char u8; __mutex m0; enum E { EA, EB = 5, EC }; struct S0 { int f0; long long f1; }; int \
g1=0; int g2; int *g3; int g4; __task(0) void t0(void) { if (__input(0,1)) { g1=4L; g4=((((*g3))+4)&7)>>((g2+3)&7); \
if(g1<6)g1++; } else { __yield(); for (int i5=0;i5<3;i5+=3) { } } } __task(1) void t1(void) { signed char v6=g4<=3L; \
__lock(m0); g2=10/g2; __unlock(m0); int *p7; if(__input(0,1))p7=&g2;else p7=&g1; *p7=2; }",
        "task 0\nnode 0\nc 0 i 0 0 0\nc 1 i 0 0 0\nc 2 p 1 0\nc 3 i 0 0 0\nc 4 i -2147483648 2147483647 1\nnode 1\nt 0 \
i 0 1 1\nc 0 i 0 0 0\nc 1 i 0 0 0\nc 2 p 1 0\nc 3 i 0 0 0\nc 4 i -2147483648 2147483647 1\nnode 2\nc 0 i 0 0 0\nc 1 i \
0 0 0\nc 2 p 1 0\nc 3 i 0 0 0\nc 4 i -2147483648 2147483647 1\nnode 3\nc 0 i 0 0 0\nc 1 i 0 0 0\nc 2 p 1 0\nc 3 i 0 0 \
0\nc 4 i -2147483648 2147483647 1\nnode 4\nt 1 p 0 0 0 0 0 0\nc 0 i 0 0 0\nc 1 i 0 0 0\nc 2 p 1 0\nc 3 i 0 0 0\nc 4 i \
-2147483648 2147483647 1\nnode 5\nt 1 p 0 0 0 0 0 0\nt 2 i 4 4 0\nc 0 i 0 0 0\nc 1 i 0 0 0\nc 2 p 1 0\nc 3 i 0 0 0\nc \
4 i -2147483648 2147483647 1\nnode 6\nc 0 i 4 4 0\nc 1 i 0 0 0\nc 2 p 1 0\nc 3 i 0 0 0\nc 4 i -2147483648 2147483647 \
1\nf 0\nnode 7\nt 3 p 0 0 3 0 0 0\nc 0 i 4 4 0\nc 1 i 0 0 0\nc 2 p 1 0\nc 3 i 0 0 0\nc 4 i -2147483648 2147483647 1\nf \
0\nnode 8\nt 3 p 0 0 3 0 0 0\nt 4 p 0 0 2 0 0 0\nc 0 i 4 4 0\nc 1 i 0 0 0\nc 2 p 1 0\nc 3 i 0 0 0\nc 4 i -2147483648 \
2147483647 1\nf 0\nnode 9\nt 3 p 0 0 3 0 0 0\nt 5 p 1 0\nc 0 i 4 4 0\nc 1 i 0 0 0\nc 2 p 1 0\nc 3 i 0 0 0\nc 4 i \
-2147483648 2147483647 1\nf 0\nk 5 2\nnode 35\nc 0 i 0 0 0\nc 1 i 0 0 0\nc 2 p 1 0\nc 3 i 0 0 0\nc 4 i -2147483648 \
2147483647 1\nnode 36\nc 0 i 0 0 0\nc 1 i 0 0 0\nc 2 p 1 0\nc 3 i 0 0 0\nc 4 i -2147483648 2147483647 1\nnode 37\nt 26 \
p 0 0 4 0 0 0\nc 0 i 0 0 0\nc 1 i 0 0 0\nc 2 p 1 0\nc 3 i 0 0 0\nc 4 i -2147483648 2147483647 1\nnode 38\nt 26 p 0 0 4 \
0 0 0\nt 27 i 0 0 0\nc 0 i 0 0 0\nc 1 i 0 0 0\nc 2 p 1 0\nc 3 i 0 0 0\nc 4 i -2147483648 2147483647 1\nnode 39\nc 0 i \
0 0 0\nc 1 i 0 0 0\nc 2 p 1 0\nc 3 i 0 0 0\nc 4 i 0 0 0\nf 4\ns 4\nnode 40\nc 0 i 0 0 0\nc 1 i 0 0 0\nc 2 p 1 0\nc 3 i \
0 0 0\nc 4 i 0 3 3\nf 4\ns 4\nnode 41\nt 28 p 0 0 4 0 0 0\nc 0 i 0 0 0\nc 1 i 0 0 0\nc 2 p 1 0\nc 3 i 0 0 0\nc 4 i 0 3 \
3\nf 4\ns 4\nnode 42\nt 29 i 0 3 3\nc 0 i 0 0 0\nc 1 i 0 0 0\nc 2 p 1 0\nc 3 i 0 0 0\nc 4 i 0 3 3\nf 4\ns 4\nk 29 4\n\
node 43\nt 29 i 0 3 3\nt 30 i 3 3 0\nc 0 i 0 0 0\nc 1 i 0 0 0\nc 2 p 1 0\nc 3 i 0 0 0\nc 4 i 0 3 3\nf 4\ns 4\nk 29 4\n\
node 44\nc 0 i 0 0 0\nc 1 i 0 0 0\nc 2 p 1 0\nc 3 i 0 0 0\nc 4 i 0 0 0\nf 4\ns 4\nnode 45\nc 0 i 0 0 0\nc 1 i 0 0 0\nc \
2 p 1 0\nc 3 i 0 0 0\nc 4 i 3 3 0\nf 4\ns 4\nnode 46\nt 31 p 0 0 4 0 0 0\nc 0 i 0 0 0\nc 1 i 0 0 0\nc 2 p 1 0\nc 3 i 0 \
0 0\nc 4 i 0 0 0\nf 4\ns 4\nnode 47\nt 31 p 0 0 4 0 0 0\nt 32 i 0 0 0\nc 0 i 0 0 0\nc 1 i 0 0 0\nc 2 p 1 0\nc 3 i 0 0 \
0\nc 4 i 0 0 0\nf 4\ns 4\nk 32 4\nnode 48\nt 31 p 0 0 4 0 0 0\nt 32 i 0 0 0\nt 33 i 3 3 0\nc 0 i 0 0 0\nc 1 i 0 0 0\nc \
2 p 1 0\nc 3 i 0 0 0\nc 4 i 0 0 0\nf 4\ns 4\nk 32 4\nnode 49\nt 31 p 0 0 4 0 0 0\nt 34 i 3 3 0\nc 0 i 0 0 0\nc 1 i 0 0 \
0\nc 2 p 1 0\nc 3 i 0 0 0\nc 4 i 0 0 0\nf 4\ns 4\nnode 50\nc 0 i 0 0 0\nc 1 i 0 0 0\nc 2 p 1 0\nc 3 i 0 0 0\nc 4 i 3 3 \
0\nf 4\ns 4\nnode 51\nc 0 i 0 0 0\nc 1 i 0 0 0\nc 2 p 1 0\nc 3 i 0 0 0\nc 4 i 3 3 0\nf 4\ns 4\nnode 52\nc 0 i 0 0 0\nc \
1 i 0 0 0\nc 2 p 1 0\nc 3 i 0 0 0\nc 4 i 3 3 0\nf 4\ns 4\ntask 1\nnode 0\nc 0 i 0 0 0\nc 1 i 0 0 0\nc 2 p 1 0\nc 3 i 0 \
0 0\nc 5 i -128 127 1\nc 6 p 0 1\nnode 1\nc 0 i 0 0 0\nc 1 i 0 0 0\nc 2 p 1 0\nc 3 i 0 0 0\nc 5 i -128 127 1\nc 6 p 0 \
1\nnode 2\nt 0 p 0 0 5 0 0 0\nc 0 i 0 0 0\nc 1 i 0 0 0\nc 2 p 1 0\nc 3 i 0 0 0\nc 5 i -128 127 1\nc 6 p 0 1\nnode 3\nt \
0 p 0 0 5 0 0 0\nt 1 p 0 0 3 0 0 0\nc 0 i 0 0 0\nc 1 i 0 0 0\nc 2 p 1 0\nc 3 i 0 0 0\nc 5 i -128 127 1\nc 6 p 0 1\n\
node 4\nt 0 p 0 0 5 0 0 0\nt 2 i 0 0 0\nc 0 i 0 0 0\nc 1 i 0 0 0\nc 2 p 1 0\nc 3 i 0 0 0\nc 5 i -128 127 1\nc 6 p 0 1\n\
k 2 3\nnode 5\nt 0 p 0 0 5 0 0 0\nt 2 i 0 0 0\nt 3 i 3 3 0\nc 0 i 0 0 0\nc 1 i 0 0 0\nc 2 p 1 0\nc 3 i 0 0 0\nc 5 i \
-128 127 1\nc 6 p 0 1\nk 2 3\nnode 6\nt 0 p 0 0 5 0 0 0\nt 4 i 1 1 0\nc 0 i 0 0 0\nc 1 i 0 0 0\nc 2 p 1 0\nc 3 i 0 0 \
0\nc 5 i -128 127 1\nc 6 p 0 1\nnode 7\nt 0 p 0 0 5 0 0 0\nt 5 i 1 1 0\nc 0 i 0 0 0\nc 1 i 0 0 0\nc 2 p 1 0\nc 3 i 0 0 \
0\nc 5 i -128 127 1\nc 6 p 0 1\nnode 8\nc 0 i 0 0 0\nc 1 i 0 0 0\nc 2 p 1 0\nc 3 i 0 0 0\nc 5 i 1 1 0\nc 6 p 0 1\nf 5\n\
s 5\nnode 9\nc 0 i 0 0 0\nc 1 i 0 0 0\nc 2 p 1 0\nc 3 i 0 0 0\nc 5 i 1 1 0\nc 6 p 0 1\ns 5\nnode 10\nt 6 p 0 0 1 0 0 \
0\nc 0 i 0 0 0\nc 1 i 0 0 0\nc 2 p 1 0\nc 3 i 0 0 0\nc 5 i 1 1 0\nc 6 p 0 1\ns 5\nnode 11\nt 6 p 0 0 1 0 0 0\nt 7 i 10 \
10 0\nc 0 i 0 0 0\nc 1 i 0 0 0\nc 2 p 1 0\nc 3 i 0 0 0\nc 5 i 1 1 0\nc 6 p 0 1\ns 5\nnode 12\nt 6 p 0 0 1 0 0 0\nt 7 i \
10 10 0\nt 8 p 0 0 1 0 0 0\nc 0 i 0 0 0\nc 1 i 0 0 0\nc 2 p 1 0\nc 3 i 0 0 0\nc 5 i 1 1 0\nc 6 p 0 1\ns 5\nnode 13\nt \
6 p 0 0 1 0 0 0\nt 7 i 10 10 0\nt 9 i 0 0 0\nc 0 i 0 0 0\nc 1 i 0 0 0\nc 2 p 1 0\nc 3 i 0 0 0\nc 5 i 1 1 0\nc 6 p 0 1\n\
s 5\nk 9 1\nstore\nw 0 0 0 i 4 4 0\n",
    ),
];
