// Texts that are refused, for word sets.

// Unknown words and stray bytes.
pub const UNKNOWN: &str = "\
EXm0: refused 1 at byte 0;
m01: refused 1 at byte 0;
m00: refused 1 at byte 0;
m032: refused 1 at byte 0;
m: refused 1 at byte 0;
c: refused 1 at byte 0;
m1a: refused 1 at byte 0;
12: refused 1 at byte 0;
Yes: refused 1 at byte 0;
M0: refused 1 at byte 0;
ex m0: refused 1 at byte 0;
E[m0 u m1]: refused 1 at byte 5;
m0Um1: refused 1 at byte 0;
m0_: refused 1 at byte 2;
\t: refused 1 at byte 0;
m0\n: refused 1 at byte 2;
m0\0: refused 1 at byte 2;
m0\u{ff}: refused 1 at byte 2;
m0*m1: refused 1 at byte 2;
E{m0 U m1}: refused 1 at byte 1;
E[m0 U m1}: refused 1 at byte 9;
!$: refused 1 at byte 1;
m0 & x & m1: refused 1 at byte 5;
m0 & m1 & x: refused 1 at byte 10;
";

// Words that cannot follow, and unfinished ends.
pub const UNFIT: &str = "\
: refused 2 at byte 0;
   : refused 2 at byte 3;
m0 m1: refused 2 at byte 3;
m0 m1 & m2: refused 2 at byte 3;
yes yes: refused 2 at byte 4;
(m0: refused 2 at byte 3;
m0): refused 2 at byte 2;
): refused 2 at byte 0;
(): refused 2 at byte 1;
(: refused 2 at byte 1;
(m0]: refused 2 at byte 3;
(m0)(m1): refused 2 at byte 4;
m0 (m1): refused 2 at byte 3;
!: refused 2 at byte 1;
m0!: refused 2 at byte 2;
!&m0: refused 2 at byte 1;
EX: refused 2 at byte 2;
EX): refused 2 at byte 2;
EX U m0: refused 2 at byte 3;
m0 EX m1: refused 2 at byte 3;
&m0: refused 2 at byte 0;
|: refused 2 at byte 0;
m0&: refused 2 at byte 3;
m0 & : refused 2 at byte 5;
m0||m1: refused 2 at byte 3;
m0&|m1: refused 2 at byte 3;
U: refused 2 at byte 0;
m0 U m1: refused 2 at byte 3;
[m0]: refused 2 at byte 0;
E: refused 2 at byte 1;
A m0: refused 2 at byte 2;
E(m0): refused 2 at byte 1;
A E[m0 U m1]: refused 2 at byte 2;
E[: refused 2 at byte 2;
E[U m1]: refused 2 at byte 2;
E[m0: refused 2 at byte 4;
E[m0]: refused 2 at byte 4;
A[m0 | m1]: refused 2 at byte 9;
E[m0 & U m1]: refused 2 at byte 7;
E[m0 U ]: refused 2 at byte 7;
E[m0 U m1: refused 2 at byte 9;
E[m0 U m1): refused 2 at byte 9;
E[m0 U m1 U m2]: refused 2 at byte 10;
E[(m0 U m1)]: refused 2 at byte 6;
E[m0 U m1]]: refused 2 at byte 10;
A[E[m0 U m1] U m2: refused 2 at byte 17;
E[m0 U m1] U m2: refused 2 at byte 11;
";

// Marks above 31, and conditions from 6 on.
pub const OUT_OF_RANGE: &str = "\
m32: refused 3 at byte 0;
c6: refused 3 at byte 0;
m100: refused 3 at byte 0;
m256: refused 3 at byte 0;
c256: refused 3 at byte 0;
m4294967296: refused 3 at byte 0;
c4294967296: refused 3 at byte 0;
m18446744073709551616: refused 3 at byte 0;
m0 & m32 & m1: refused 3 at byte 5;
E[c6 U m1]: refused 3 at byte 2;
A[m0 U c6: refused 3 at byte 7;
";

// Two faults: of two words the first is told, and of one word 1, 3, 2, in this order.
pub const TWO_FAULTS: &str = "\
m0 m1 $: refused 2 at byte 3;
m0 $ m1 m2: refused 1 at byte 3;
m0 m32: refused 3 at byte 3;
m0 EXm1: refused 1 at byte 3;
m0 m1 m32: refused 2 at byte 3;
m32 m0 m1: refused 3 at byte 0;
m32 $: refused 3 at byte 0;
$ m32: refused 1 at byte 0;
(m32: refused 3 at byte 1;
m0)m32: refused 2 at byte 2;
E m32: refused 3 at byte 2;
E[m0 U m1] c9: refused 3 at byte 11;
(m0 $: refused 1 at byte 4;
";
