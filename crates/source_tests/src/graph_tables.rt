//! Sources and the graphs of their bodies: of each how many nodes it has, and its edges as text.

use crate::stations::{Way, rows_are_so};
use std::test::Fail;

// Assignments, conditions, loops, `switch`, calls, arrays and structures, local objects, mutexes and other tasks, an
// initial section, operators, constants, and `return`. The graphs were made by an independent implementation.
static SOURCES: [(&str, &str); 13] = [
    (
        "int x;unsigned char u;long long l;\n__task(1) void t(void){x=1;u=x;l=u+x;x+=u;u++;--x;x=u=l;}",
        "40 nodes: 0>1 t0=&0; 1>2 t1=1; 2>3 [t0]=t1 Int of 0 2:25; 3>4 t2=&1; 4>5 t3=&0; 5>6 t4=[t3] Int 2:30; \
6>7 t5=(UChar)t4; 7>8 [t2]=t5 UChar of 1 2:29; 8>9 t6=&2; 9>10 t7=&1; 10>11 t8=[t7] UChar 2:34; 11>12 t9=&0; \
12>13 t10=[t9] Int 2:36; 13>14 t11=t8+t10 Int 2:35; 14>15 [t6]=t11 LLong of 2 2:33; 15>16 t12=&0; \
16>17 t13=[t12] Int 2:38; 17>18 t14=&1; 18>19 t15=[t14] UChar 2:41; 19>20 t16=t13+t15 Int 2:39; \
20>21 [t12]=t16 Int of 0 2:39; 21>22 t17=&1; 22>23 t18=[t17] UChar 2:43; 23>24 t19=1; 24>25 t20=t18+t19 Int 2:44; \
25>26 t21=(UChar)t20; 26>27 [t17]=t21 UChar of 1 2:44; 27>28 t22=&0; 28>29 t23=[t22] Int 2:49; 29>30 t24=1; \
30>31 t25=t23-t24 Int 2:47; 31>32 [t22]=t25 Int of 0 2:47; 32>33 t26=&0; 33>34 t27=&1; 34>35 t28=&2; \
35>36 t29=[t28] LLong 2:55; 36>37 t30=(UChar)t29; 37>38 [t27]=t30 UChar of 1 2:54; 38>39 [t26]=t30 Int of 0 2:52; ",
    ),
    (
        "int x;int y;int*p;\n__task(1) void t(void){if(x&&y)x=1;else x=2;if(!x||y<3)y=1;if(p)x=3;if(p==&x)x=4;\
x=x&&y;y=!x;x=x?y:3;}",
        "86 nodes: 0>1 t0=&0; 1>2 t1=[t0] Int 2:27; 2>3 if t1; 2>4 if !t1; 3>5 t2=&1; 5>6 t3=[t2] Int 2:30; \
6>7 if t3; 6>8 if !t3; 4>9 skip; 8>9 skip; 7>10 t4=&0; 10>11 t5=1; 11>12 [t4]=t5 Int of 0 2:33; 9>13 t6=&0; \
13>14 t7=2; 14>15 [t6]=t7 Int of 0 2:42; 12>16 skip; 15>16 skip; 16>17 t8=&0; 17>18 t9=[t8] Int 2:49; \
18>19 if t9; 18>20 if !t9; 19>21 t10=&1; 21>22 t11=[t10] Int 2:52; 22>23 t12=3; 23>24 if t11<t12; \
23>25 if t11>=t12; 20>26 skip; 24>26 skip; 26>27 t13=&1; 27>28 t14=1; 28>29 [t13]=t14 Int of 1 2:57; 29>30 skip; \
25>30 skip; 30>31 t15=&2; 31>32 t16=[t15] ptr 2:63; 32>33 usable t16 2:63; 33>34 if t16; 33>35 if !t16; \
34>36 t17=&0; 36>37 t18=3; 37>38 [t17]=t18 Int of 0 2:66; 38>39 skip; 35>39 skip; 39>40 t19=&2; \
40>41 t20=[t19] ptr 2:72; 41>42 t21=&0; 42>43 usable t20 2:73; 43>44 usable t21 2:73; 44>45 if t20==t21; \
44>46 if t20!=t21; 45>47 t22=&0; 47>48 t23=4; 48>49 [t22]=t23 Int of 0 2:79; 49>50 skip; 46>50 skip; \
50>51 t24=&0; 51>52 t25=&0; 52>53 t26=[t25] Int 2:84; 53>54 if t26; 53>55 if !t26; 54>56 t27=&1; \
56>57 t28=[t27] Int 2:87; 57>58 if t28; 57>59 if !t28; 55>60 skip; 59>60 skip; 58>61 t29=1; 60>62 t29=0; \
61>63 skip; 62>63 skip; 63>64 [t24]=t29 Int of 0 2:83; 64>65 t30=&1; 65>66 t31=&0; 66>67 t32=[t31] Int 2:92; \
67>68 if t32; 67>69 if !t32; 69>70 t33=1; 68>71 t33=0; 70>72 skip; 71>72 skip; 72>73 [t30]=t33 Int of 1 2:90; \
73>74 t34=&0; 74>75 t35=&0; 75>76 t36=[t35] Int 2:96; 76>77 if t36; 76>78 if !t36; 77>79 t37=&1; \
79>80 t38=[t37] Int 2:98; 80>81 t39=t38; 78>82 t40=3; 82>83 t39=t40; 81>84 skip; 83>84 skip; \
84>85 [t34]=t39 Int of 0 2:95; ",
    ),
    (
        "int i;int s;\n__task(1) void t(void){for(i=0;i<10;i++){if(i==3)continue;if(i==7)break;s+=i;}while(s>0){\
s--;if(s==5)continue;}do{s++;if(s==2)continue;if(s==9)break;}while(s<20);}",
        "83 nodes: 0>1 t0=&0; 1>2 t1=0; 2>3 [t0]=t1 Int of 0 2:29; 3>4 skip; 4>5 t2=&0; 5>6 t3=[t2] Int 2:32; \
6>7 t4=10; 7>8 if t3<t4; 7>9 if t3>=t4; 8>10 t5=&0; 10>11 t6=[t5] Int 2:45; 11>12 t7=3; 12>13 if t6==t7; \
12>14 if t6!=t7; 15>16 skip; 14>16 skip; 16>17 t8=&0; 17>18 t9=[t8] Int 2:62; 18>19 t10=7; 19>20 if t9==t10; \
19>21 if t9!=t10; 22>23 skip; 21>23 skip; 23>24 t11=&1; 24>25 t12=[t11] Int 2:73; 25>26 t13=&0; \
26>27 t14=[t13] Int 2:76; 27>28 t15=t12+t14 Int 2:74; 28>29 [t11]=t15 Int of 1 2:74; 13>30 skip; 29>30 skip; \
30>31 t16=&0; 31>32 t17=[t16] Int 2:37; 32>33 t18=1; 33>34 t19=t17+t18 Int 2:38; 34>35 [t16]=t19 Int of 0 2:38; \
35>4 skip; 9>36 skip; 20>36 skip; 36>37 skip; 37>38 t20=&1; 38>39 t21=[t20] Int 2:85; 39>40 t22=0; \
40>41 if t21>t22; 40>42 if t21<=t22; 41>43 t23=&1; 43>44 t24=[t23] Int 2:90; 44>45 t25=1; \
45>46 t26=t24-t25 Int 2:91; 46>47 [t23]=t26 Int of 1 2:91; 47>48 t27=&1; 48>49 t28=[t27] Int 2:97; 49>50 t29=5; \
50>51 if t28==t29; 50>52 if t28!=t29; 51>37 skip; 53>54 skip; 52>54 skip; 54>37 skip; 42>55 skip; 55>56 skip; \
56>57 t30=&1; 57>58 t31=[t30] Int 2:115; 58>59 t32=1; 59>60 t33=t31+t32 Int 2:116; \
60>61 [t30]=t33 Int of 1 2:116; 61>62 t34=&1; 62>63 t35=[t34] Int 2:122; 63>64 t36=2; 64>65 if t35==t36; \
64>66 if t35!=t36; 67>68 skip; 66>68 skip; 68>69 t37=&1; 69>70 t38=[t37] Int 2:139; 70>71 t39=9; \
71>72 if t38==t39; 71>73 if t38!=t39; 74>75 skip; 73>75 skip; 65>76 skip; 75>76 skip; 76>77 t40=&1; \
77>78 t41=[t40] Int 2:157; 78>79 t42=20; 79>80 if t41<t42; 79>81 if t41>=t42; 80>56 skip; 72>82 skip; 81>82 skip; ",
    ),
    (
        "int i;\n__task(1) void t(void){for(;;){i++;if(i>3)break;}for(;i;){i--;continue;}while(1){__yield();}}",
        "34 nodes: 0>1 skip; 1>2 t0=&0; 2>3 t1=[t0] Int 2:32; 3>4 t2=1; 4>5 t3=t1+t2 Int 2:33; \
5>6 [t0]=t3 Int of 0 2:33; 6>7 t4=&0; 7>8 t5=[t4] Int 2:39; 8>9 t6=3; 9>10 if t5>t6; 9>11 if t5<=t6; 12>13 skip; \
11>13 skip; 13>1 skip; 10>14 skip; 14>15 skip; 15>16 t7=&0; 16>17 t8=[t7] Int 2:55; 17>18 if t8; 17>19 if !t8; \
18>20 t9=&0; 20>21 t10=[t9] Int 2:59; 21>22 t11=1; 22>23 t12=t10-t11 Int 2:60; 23>24 [t9]=t12 Int of 0 2:60; \
24>26 skip; 25>26 skip; 26>15 skip; 19>27 skip; 27>28 skip; 28>29 t13=1; 29>30 if t13; 29>31 if !t13; \
30>32 yield; 32>28 skip; 31>33 skip; ",
    ),
    (
        "int x;int y;\n__task(1) void t(void){switch(x){case 1:y=1;break;case 2:case 3:y=2;default:y=3;}switch(y){\
case 4:x=1;}switch(x)  {default:break;case -1:y=0;}}",
        "47 nodes: 0>1 t0=&0; 1>2 t1=[t0] Int 2:31; 2>3 if t1==1; 2>4 if t1!=1; 4>5 if t1==2; 4>6 if t1!=2; \
6>7 if t1==3; 6>8 if t1!=3; 3>10 skip; 9>10 skip; 10>11 t2=&1; 11>12 t3=1; 12>13 [t2]=t3 Int of 1 2:42; \
5>15 skip; 14>15 skip; 7>16 skip; 15>16 skip; 16>17 t4=&1; 17>18 t5=2; 18>19 [t4]=t5 Int of 1 2:66; 8>20 skip; \
19>20 skip; 20>21 t6=&1; 21>22 t7=3; 22>23 [t6]=t7 Int of 1 2:78; 13>24 skip; 23>24 skip; 24>25 t8=&1; \
25>26 t9=[t8] Int 2:89; 26>27 if t9==4; 26>28 if t9!=4; 27>30 skip; 29>30 skip; 30>31 t10=&0; 31>32 t11=1; \
32>33 [t10]=t11 Int of 0 2:100; 28>34 skip; 33>34 skip; 34>35 t12=&0; 35>36 t13=[t12] Int 2:111; \
36>37 if t13==-1; 36>38 if t13!=-1; 38>40 skip; 39>40 skip; 37>42 skip; 41>42 skip; 42>43 t14=&1; 43>44 t15=0; \
44>45 [t14]=t15 Int of 1 2:139; 40>46 skip; 45>46 skip; ",
    ),
    (
        "int r;\nint max(int a,int b){if(a>b)return a;return b;}\nvoid put(int*p,int v){*p=v;}\nint none(int a){\
r=a;}\n__task(1) void t(void){r=max(r,max(2,r));put(&r,3);r=none(4);}",
        "74 nodes: 0>1 t0=&0; 1>2 t1=&0; 2>3 t2=[t1] Int 5:30; 3>4 t3=2; 4>5 t4=&0; 5>6 t5=[t4] Int 5:38; 6>7 t6=&3; \
7>8 [t6]=t3 Int of 3 5:32; 8>9 t7=&4; 9>10 [t7]=t5 Int of 4 5:32; 10>11 t8=&3; 11>12 t9=[t8] Int 2:25; \
12>13 t10=&4; 13>14 t11=[t10] Int 2:27; 14>15 if t9>t11; 14>16 if t9<=t11; 15>17 t12=&3; \
17>18 t13=[t12] Int 2:36; 18>19 t14=t13; 20>21 skip; 16>21 skip; 21>22 t15=&4; 22>23 t16=[t15] Int 2:45; \
23>24 t14=t16; 25>26 t14=-2147483648..2147483647; 19>27 skip; 24>27 skip; 26>27 skip; 27>28 t17=&1; \
28>29 [t17]=t2 Int of 1 5:26; 29>30 t18=&2; 30>31 [t18]=t14 Int of 2 5:26; 31>32 t19=&1; \
32>33 t20=[t19] Int 2:25; 33>34 t21=&2; 34>35 t22=[t21] Int 2:27; 35>36 if t20>t22; 35>37 if t20<=t22; \
36>38 t23=&1; 38>39 t24=[t23] Int 2:36; 39>40 t25=t24; 41>42 skip; 37>42 skip; 42>43 t26=&2; \
43>44 t27=[t26] Int 2:45; 44>45 t25=t27; 46>47 t25=-2147483648..2147483647; 40>48 skip; 45>48 skip; 47>48 skip; \
48>49 [t0]=t25 Int of 0 5:25; 49>50 t28=&0; 50>51 t29=3; 51>52 t30=&5; 52>53 [t30]=t28 ptr of 5 5:42; \
53>54 t31=&6; 54>55 [t31]=t29 Int of 6 5:42; 55>56 t32=&5; 56>57 t33=[t32] ptr 3:24; \
57>58 t34=*t33 Int on 3 3:23; 58>59 t35=&6; 59>60 t36=[t35] Int 3:26; 60>61 [t34]=t36 Int pointed 3:25; \
61>62 skip; 62>63 t37=&0; 63>64 t38=4; 64>65 t39=&7; 65>66 [t39]=t38 Int of 7 5:54; 66>67 t40=&0; 67>68 t41=&7; \
68>69 t42=[t41] Int 4:19; 69>70 [t40]=t42 Int of 0 4:18; 70>71 t43=-2147483648..2147483647; 71>72 skip; \
72>73 [t37]=t43 Int of 0 5:53; ",
    ),
    (
        "int a[4];int m[3][2];int*p;int i;\nstruct S{int x;int v[2];struct S*n;}s,*q;\n__task(1) void t(void){\
a[i]=1;m[i][1]=a[2];p=&a[i];p=p+i;*p=2;p[1]=3;s.v[i]=4;q=&s;q->x=5;q->n=q;q->n->v[0]=6;p++;i=p==&a[1];}",
        "92 nodes: 0>1 t0=&0; 1>2 t1=&3; 2>3 t2=[t1] Int 3:26; 3>4 t3=t0[t2] 4x1 3:25; 4>5 t4=1; \
5>6 [t3]=t4 Int of 0 3:28; 6>7 t5=&1; 7>8 t6=&3; 8>9 t7=[t6] Int 3:33; 9>10 t8=t5[t7] 3x2 3:32; 10>11 t9=1; \
11>12 t10=t8[t9] 2x1 3:35; 12>13 t11=&0; 13>14 t12=2; 14>15 t13=t11[t12] 4x1 3:40; 15>16 t14=[t13] Int 3:40; \
16>17 [t10]=t14 Int of 1 3:38; 17>18 t15=&2; 18>19 t16=&0; 19>20 t17=&3; 20>21 t18=[t17] Int 3:49; \
21>22 t19=t16+t18x1 3:48; 22>23 [t15]=t19 ptr of 2 3:45; 23>24 t20=&2; 24>25 t21=&2; 25>26 t22=[t21] ptr 3:54; \
26>27 t23=&3; 27>28 t24=[t23] Int 3:56; 28>29 t25=t22+t24x1 3:55; 29>30 [t20]=t25 ptr of 2 3:53; 30>31 t26=&2; \
31>32 t27=[t26] ptr 3:59; 32>33 t28=*t27 Int on 0 3:58; 33>34 t29=2; 34>35 [t28]=t29 Int pointed 3:60; \
35>36 t30=&2; 36>37 t31=[t30] ptr 3:63; 37>38 t32=1; 38>39 t33=t31+t32x1 3:64; 39>40 t34=*t33 Int on 0 3:64; \
40>41 t35=3; 41>42 [t34]=t35 Int pointed 3:67; 42>43 t36=&4; 43>44 t37=t36.1; 44>45 t38=&3; \
45>46 t39=[t38] Int 3:74; 46>47 t40=t37[t39] 2x1 3:73; 47>48 t41=4; 48>49 [t40]=t41 Int of 4 3:76; 49>50 t42=&5; \
50>51 t43=&4; 51>52 [t42]=t43 ptr of 5 3:80; 52>53 t44=&5; 53>54 t45=[t44] ptr 3:84; \
54>55 t46=*t45 struct on 0 3:85; 55>56 t47=t46.0; 56>57 t48=5; 57>58 [t47]=t48 Int pointed 3:88; 58>59 t49=&5; \
59>60 t50=[t49] ptr 3:91; 60>61 t51=*t50 struct on 0 3:92; 61>62 t52=t51.3; 62>63 t53=&5; \
63>64 t54=[t53] ptr 3:96; 64>65 [t52]=t54 ptr pointed 3:95; 65>66 t55=&5; 66>67 t56=[t55] ptr 3:98; \
67>68 t57=*t56 struct on 0 3:99; 68>69 t58=t57.3; 69>70 t59=[t58] ptr 3:99; 70>71 t60=*t59 struct on 0 3:102; \
71>72 t61=t60.1; 72>73 t62=0; 73>74 t63=t61[t62] 2x1 3:105; 74>75 t64=6; 75>76 [t63]=t64 Int pointed 3:108; \
76>77 t65=&2; 77>78 t66=[t65] ptr 3:111; 78>79 t67=1; 79>80 t68=t66+t67x1 3:112; 80>81 [t65]=t68 ptr of 2 3:112; \
81>82 t69=&3; 82>83 t70=&2; 83>84 t71=[t70] ptr 3:117; 84>85 t72=&0; 85>86 t73=1; 86>87 t74=t72+t73x1 3:122; \
87>88 usable t71 3:118; 88>89 usable t74 3:118; 89>90 t75=t71==t74 ptr; 90>91 [t69]=t75 Int of 3 3:116; ",
    ),
    (
        "int r;\n__task(1) void t(void){int v=3;int w[3]={1,2};struct P{int x;int y;}p={r};unsigned char c;c=300;{\
int v;v=w[1];r=v+p.y+c;}}",
        "51 nodes: 0>1 clear 1; 1>2 t0=&1; 2>3 t1=3; 3>4 [t0]=t1 Int of 1 2:29; 4>5 clear 2; 5>6 t2=&2; 6>7 t3=t2.0; \
7>8 t4=1; 8>9 [t3]=t4 Int of 2 2:40; 9>10 t5=&2; 10>11 t6=t5.1; 11>12 t7=2; 12>13 [t6]=t7 Int of 2 2:40; \
13>14 t8=&2; 14>15 t9=t8.2; 15>16 t10=0; 16>17 [t9]=t10 Int of 2 2:40; 17>18 clear 3; 18>19 t11=&3; \
19>20 t12=t11.0; 20>21 t13=&0; 21>22 t14=[t13] Int 2:72; 22>23 [t12]=t14 Int of 3 2:70; 23>24 t15=&3; \
24>25 t16=t15.1; 25>26 t17=0; 26>27 [t16]=t17 Int of 3 2:70; 27>28 clear 4; 28>29 t18=&4; 29>30 t19=300; \
30>31 t20=(UChar)t19; 31>32 [t18]=t20 UChar of 4 2:92; 32>33 clear 5; 33>34 t21=&5; 34>35 t22=&2; 35>36 t23=1; \
36>37 t24=t22[t23] 3x1 2:107; 37>38 t25=[t24] Int 2:107; 38>39 [t21]=t25 Int of 5 2:105; 39>40 t26=&0; \
40>41 t27=&5; 41>42 t28=[t27] Int 2:113; 42>43 t29=&3; 43>44 t30=t29.1; 44>45 t31=[t30] Int 2:116; \
45>46 t32=t28+t31 Int 2:114; 46>47 t33=&4; 47>48 t34=[t33] UChar 2:119; 48>49 t35=t32+t34 Int 2:118; \
49>50 [t26]=t35 Int of 0 2:112; ",
    ),
    (
        "__mutex m;__mutex n;int x;volatile int d;\n__task(2) void a(void){__lock(m);x=d;__unlock(m);__yield();\
if(!__islocked(n))x=__input(0,9);}\n__task(1) void b(void){while(1){__lock(n);x=x/2;__unlock(n);__yield();\
}}",
        "15 nodes: 0>1 lock 0 2:24; 1>2 t0=&0; 2>3 t1=&1; 3>4 t2=any[t1] Int 2:36; 4>5 [t0]=t2 Int of 0 2:35; \
5>6 unlock 0 2:38; 6>7 yield; 7>8 t3=probe 1 2:64; 8>9 if t3; 8>10 if !t3; 10>11 t4=&0; 11>12 t5=0..9; \
12>13 [t4]=t5 Int of 0 2:79; 13>14 skip; 9>14 skip; \
15 nodes: 0>1 skip; 1>2 t0=1; 2>3 if t0; 2>4 if !t0; 3>5 lock 1 3:33; 5>6 t1=&0; 6>7 t2=&0; \
7>8 t3=[t2] Int 3:45; 8>9 t4=2; 9>10 t5=t3/t4 Int 3:46; 10>11 [t1]=t5 Int of 0 3:44; 11>12 unlock 1 3:49; \
12>13 yield; 13>1 skip; 4>14 skip; ",
    ),
    (
        "int x;int r;\nint main(void){x=5;if(x)return 0;}\n__task(1) void t(void){r=10/x;}",
        "7 nodes: 0>1 t0=&1; 1>2 t1=10; 2>3 t2=&0; 3>4 t3=[t2] Int 3:29; 4>5 t4=t1/t3 Int 3:28; \
5>6 [t0]=t4 Int of 1 3:25; \
14 nodes: 0>1 t0=&0; 1>2 t1=5; 2>3 [t0]=t1 Int of 0 2:17; 3>4 t2=&0; 4>5 t3=[t2] Int 2:23; 5>6 if t3; \
5>7 if !t3; 6>8 t4=0; 8>9 t5=t4; 10>11 skip; 7>11 skip; 11>12 t5=-2147483648..2147483647; 9>13 skip; 12>13 skip; ",
    ),
    (
        "int x;unsigned u;long long l;int r;\n__task(1) void t(void){r=-x;r=~x;r=x%3;r=x<<2;u=u>>x;l=l*u;r=(char)x;\
r=x<u;r=x!=3&&(x,u);r=+x;x<<=u;l/=x;}",
        "83 nodes: 0>1 t0=&3; 1>2 t1=&0; 2>3 t2=[t1] Int 2:27; 3>4 t3=-t2 Int 2:26; 4>5 [t0]=t3 Int of 3 2:25; \
5>6 t4=&3; 6>7 t5=&0; 7>8 t6=[t5] Int 2:32; 8>9 t7=~t6 Int 2:31; 9>10 [t4]=t7 Int of 3 2:30; 10>11 t8=&3; \
11>12 t9=&0; 12>13 t10=[t9] Int 2:36; 13>14 t11=3; 14>15 t12=t10%t11 Int 2:37; 15>16 [t8]=t12 Int of 3 2:35; \
16>17 t13=&3; 17>18 t14=&0; 18>19 t15=[t14] Int 2:42; 19>20 t16=2; 20>21 t17=t15<<t16 Int 2:43; \
21>22 [t13]=t17 Int of 3 2:41; 22>23 t18=&1; 23>24 t19=&1; 24>25 t20=[t19] UInt 2:49; 25>26 t21=&0; \
26>27 t22=[t21] Int 2:52; 27>28 t23=t20>>t22 UInt 2:50; 28>29 [t18]=t23 UInt of 1 2:48; 29>30 t24=&2; \
30>31 t25=&2; 31>32 t26=[t25] LLong 2:56; 32>33 t27=&1; 33>34 t28=[t27] UInt 2:58; 34>35 t29=t26*t28 LLong 2:57; \
35>36 [t24]=t29 LLong of 2 2:55; 36>37 t30=&3; 37>38 t31=&0; 38>39 t32=[t31] Int 2:68; 39>40 t33=(Char)t32; \
40>41 [t30]=t33 Int of 3 2:61; 41>42 t34=&3; 42>43 t35=&0; 43>44 t36=[t35] Int 2:72; 44>45 t37=&1; \
45>46 t38=[t37] UInt 2:74; 46>47 t39=(UInt)t36; 47>48 t40=t39<t38 UInt 2:73; 48>49 [t34]=t40 Int of 3 2:71; \
49>50 t41=&3; 50>51 t42=&0; 51>52 t43=[t42] Int 2:78; 52>53 t44=3; 53>54 if t43!=t44; 53>55 if t43==t44; \
54>56 t45=&0; 56>57 t46=[t45] Int 2:85; 57>58 t47=&1; 58>59 t48=[t47] UInt 2:87; 59>60 if t48; 59>61 if !t48; \
55>62 skip; 61>62 skip; 60>63 t49=1; 62>64 t49=0; 63>65 skip; 64>65 skip; 65>66 [t41]=t49 Int of 3 2:77; \
66>67 t50=&3; 67>68 t51=&0; 68>69 t52=[t51] Int 2:93; 69>70 [t50]=t52 Int of 3 2:91; 70>71 t53=&0; \
71>72 t54=[t53] Int 2:95; 72>73 t55=&1; 73>74 t56=[t55] UInt 2:99; 74>75 t57=t54<<t56 Int 2:96; \
75>76 [t53]=t57 Int of 0 2:96; 76>77 t58=&2; 77>78 t59=[t58] LLong 2:101; 78>79 t60=&0; \
79>80 t61=[t60] Int 2:104; 80>81 t62=t59/t61 LLong 2:102; 81>82 [t58]=t62 LLong of 2 2:102; ",
    ),
    (
        "int x;int y;\n__task(1) void t(void){do{x=1;}while(0);if(1<2)y=1;while(0)y=2;y=sizeof(int)+2*3;if(2){y=4;}\
}",
        "36 nodes: 0>1 skip; 1>2 t0=&0; 2>3 t1=1; 3>4 [t0]=t1 Int of 0 2:28; 4>5 t2=0; 5>6 if t2; 5>7 if !t2; \
6>1 skip; 7>8 skip; 8>9 t3=1; 9>10 t4=2; 10>11 if t3<t4; 10>12 if t3>=t4; 11>13 t5=&1; 13>14 t6=1; \
14>15 [t5]=t6 Int of 1 2:49; 15>16 skip; 12>16 skip; 16>17 skip; 17>18 t7=0; 18>19 if t7; 18>20 if !t7; \
19>21 t8=&1; 21>22 t9=2; 22>23 [t8]=t9 Int of 1 2:61; 23>17 skip; 20>24 skip; 24>25 t10=&1; 25>26 t11=10; \
26>27 t12=(Int)t11; 27>28 [t10]=t12 Int of 1 2:65; 28>29 t13=2; 29>30 if t13; 29>31 if !t13; 30>32 t14=&1; \
32>33 t15=4; 33>34 [t14]=t15 Int of 1 2:89; 34>35 skip; 31>35 skip; ",
    ),
    (
        "__mutex m;int x;\nstatic void f(void){if(x)return;x=1;}\n__task(1) void t(void){if(x)return;f();x=2;\
while(x){if(x==2)return;x--;}}",
        "39 nodes: 0>1 t0=&0; 1>2 t1=[t0] Int 3:27; 2>3 if t1; 2>4 if !t1; 5>6 skip; 4>6 skip; 6>7 t2=&0; \
7>8 t3=[t2] Int 2:24; 8>9 if t3; 8>10 if !t3; 11>12 skip; 10>12 skip; 12>13 t4=&0; 13>14 t5=1; \
14>15 [t4]=t5 Int of 0 2:34; 9>16 skip; 15>16 skip; 16>17 t6=&0; 17>18 t7=2; 18>19 [t6]=t7 Int of 0 3:41; \
19>20 skip; 20>21 t8=&0; 21>22 t9=[t8] Int 3:50; 22>23 if t9; 22>24 if !t9; 23>25 t10=&0; \
25>26 t11=[t10] Int 3:56; 26>27 t12=2; 27>28 if t11==t12; 27>29 if t11!=t12; 30>31 skip; 29>31 skip; \
31>32 t13=&0; 32>33 t14=[t13] Int 3:68; 33>34 t15=1; 34>35 t16=t14-t15 Int 3:69; 35>36 [t13]=t16 Int of 0 3:69; \
36>20 skip; 24>37 skip; 3>38 skip; 28>38 skip; 37>38 skip; ",
    ),
];

// A loop that spins, and `&&` as a branch: made by hand from the rules.
static FORMS: [(&str, &str); 2] = [
    (
        "__task(1) void t(void){while(1);}",
        "6 nodes: 0>1 skip; 1>2 t0=1; 2>3 if t0; 2>4 if !t0; 3>1 skip; 4>5 skip; ",
    ),
    (
        "int x;int y;\n__task(1) void t(void){if(x&&y)x=1;}",
        "14 nodes: 0>1 t0=&0; 1>2 t1=[t0] Int 2:27; 2>3 if t1; 2>4 if !t1; 3>5 t2=&1; 5>6 t3=[t2] Int 2:30; \
6>7 if t3; 6>8 if !t3; 4>9 skip; 8>9 skip; 7>10 t4=&0; 10>11 t5=1; 11>12 [t4]=t5 Int of 0 2:33; 12>13 skip; \
9>13 skip; ",
    ),
];

#[test]
fn graphs(rt: HostRuntime) -> Result<(), Fail> {
    rows_are_so(&rt, rt.alloc(), Way::Graphs, &SOURCES)?;
    rows_are_so(&rt, rt.alloc(), Way::Graphs, &FORMS)
}
