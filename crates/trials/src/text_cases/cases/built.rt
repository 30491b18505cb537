// Texts at the limits of levels, rows and bytes, for word sets.

// 32 levels of prefixes, brackets and untils, and a 33rd.
pub const LEVELS: &str = "\
,31,!,m0: 1.0.0 3.0.0 3.1.0 3.2.0 3.3.0 3.4.0 3.5.0 3.6.0 3.7.0 3.8.0 3.9.0 3.10.0 3.11.0 3.12.0 3.13.0 3.14.0 3.15.0 3.16.0 3.17.0 3.18.0 3.19.0 3.20.0 3.21.0 3.22.0 3.23.0 3.24.0 3.25.0 3.26.0 3.27.0 3.28.0 3.29.0 3.30.0;
,32,!,m0: refused 4 at byte 32;
,32,!,: refused 2 at byte 32;
,33,!,: refused 4 at byte 32;
,33,!,m0: refused 4 at byte 32;
,32,!,): refused 2 at byte 32;
,32,!,&: refused 2 at byte 32;
,32,!,$: refused 1 at byte 32;
,32,!,m32: refused 3 at byte 32;
,32,!,m0 $: refused 4 at byte 32;
,31,!,E[m0 U m1]: refused 4 at byte 33;
,32,!,E[m0 U m1]: refused 4 at byte 32;
,30,!,E[m0 U !m1]: refused 4 at byte 38;
,31,!,EX m0: refused 4 at byte 34;
,31,!,(m0): refused 4 at byte 32;
,30,!,(m0): 1.0.0 3.0.0 3.1.0 3.2.0 3.3.0 3.4.0 3.5.0 3.6.0 3.7.0 3.8.0 3.9.0 3.10.0 3.11.0 3.12.0 3.13.0 3.14.0 3.15.0 3.16.0 3.17.0 3.18.0 3.19.0 3.20.0 3.21.0 3.22.0 3.23.0 3.24.0 3.25.0 3.26.0 3.27.0 3.28.0 3.29.0;
,31,EX ,m0: 1.0.0 6.0.0 6.1.0 6.2.0 6.3.0 6.4.0 6.5.0 6.6.0 6.7.0 6.8.0 6.9.0 6.10.0 6.11.0 6.12.0 6.13.0 6.14.0 6.15.0 6.16.0 6.17.0 6.18.0 6.19.0 6.20.0 6.21.0 6.22.0 6.23.0 6.24.0 6.25.0 6.26.0 6.27.0 6.28.0 6.29.0 6.30.0;
,32,EX ,m0: refused 4 at byte 96;
,32,EX ,: refused 2 at byte 96;
((((((((((((((((((((((((((((((( m0 ,31,),: 1.0.0;
(((((((((((((((((((((((((((((((m0,31,),&(m1): 1.0.0 1.1.0 4.0.1;
,31,(,m0: refused 2 at byte 33;
,31,(,m0&m1: refused 2 at byte 36;
,31,(,m0&!m1: refused 4 at byte 35;
,31,(,m0&(: refused 2 at byte 35;
,32,(,m0: refused 4 at byte 32;
,33,(,m0: refused 4 at byte 32;
,31,E[,m0: refused 2 at byte 64;
,32,A[,: refused 2 at byte 64;
,32,E[,m0: refused 4 at byte 64;
,33,A[,: refused 4 at byte 64;
";

// 32 and 33 rows.
pub const ROWS: &str = "\
!,15,m0&,m0: 1.0.0 3.0.0 1.0.0 4.1.2 1.0.0 4.3.4 1.0.0 4.5.6 1.0.0 4.7.8 1.0.0 4.9.10 1.0.0 4.11.12 1.0.0 4.13.14 1.0.0 4.15.16 1.0.0 4.17.18 1.0.0 4.19.20 1.0.0 4.21.22 1.0.0 4.23.24 1.0.0 4.25.26 1.0.0 4.27.28 1.0.0 4.29.30;
!!,15,m0&,m0: refused 5 at byte 49;
,16,m0&,m0: refused 5 at byte 50;
,16,m0|,m0  : refused 5 at byte 52;
,16,m0&,m0$: refused 1 at byte 50;
,16,m0&,m0 m1: refused 2 at byte 51;
,16,m0&,m0&: refused 2 at byte 51;
,16,m0&,m0&m32: refused 3 at byte 51;
,29,!,m0&m1: 1.0.0 3.0.0 3.1.0 3.2.0 3.3.0 3.4.0 3.5.0 3.6.0 3.7.0 3.8.0 3.9.0 3.10.0 3.11.0 3.12.0 3.13.0 3.14.0 3.15.0 3.16.0 3.17.0 3.18.0 3.19.0 3.20.0 3.21.0 3.22.0 3.23.0 3.24.0 3.25.0 3.26.0 3.27.0 3.28.0 1.1.0 4.29.30;
,30,!,m0&m1: refused 5 at byte 35;
,30,!,E[m0 U m1]: refused 5 at byte 40;
,7,AG ,AX m0: 0.0.0 0.0.0 0.0.0 0.0.0 0.0.0 0.0.0 0.0.0 1.0.0 3.7.0 6.8.0 3.9.0 3.10.0 7.6.11 3.12.0 3.13.0 7.5.14 3.15.0 3.16.0 7.4.17 3.18.0 3.19.0 7.3.20 3.21.0 3.22.0 7.2.23 3.24.0 3.25.0 7.1.26 3.27.0 3.28.0 7.0.29 3.30.0;
,8,AG ,m0: refused 5 at byte 26;
,16,EF ,m0: refused 5 at byte 50;
,11,AF ,m0: refused 5 at byte 35;
A[A[A[A[m0 U m1],3, U m1],: refused 5 at byte 34;
A[A[A[A[m0 U m1],2, U m1],: refused 2 at byte 28;
";

// 200 bytes and more.
pub const BYTES: &str = "\
,198, ,m0: 1.0.0;
m0,198, ,: 1.0.0;
E[m0,191, ,U m1]: 1.0.0 1.1.0 7.0.1;
,200, ,: refused 2 at byte 200;
,200,$,: refused 1 at byte 0;
,199, ,$: refused 1 at byte 199;
,197, ,m32: refused 3 at byte 197;
m1,198,0,: refused 3 at byte 0;
m0,198,0,: refused 1 at byte 0;
,201, ,: refused 9 at byte 200;
,201,$,: refused 9 at byte 200;
,199, ,m0: refused 9 at byte 200;
m0,199, ,: refused 9 at byte 200;
m1,199,0,: refused 9 at byte 200;
m32 m0 ,250,!,: refused 9 at byte 200;
";
