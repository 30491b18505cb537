// Texts for plain sets, which have no conditions.

pub const PLAIN: &str = "\
yes: 0.0.0;
m31: 1.31.0;
AG !EX yes: 0.0.0 0.0.0 6.1.0 3.2.0 3.3.0 7.0.4 3.5.0;
A[m0 U m1]: 1.0.0 1.1.0 3.0.0 3.1.0 4.2.3 7.3.4 8.3.0 5.5.6 3.7.0;
c0: refused 3 at byte 0;
c5: refused 3 at byte 0;
m32: refused 3 at byte 0;
m0 & c0: refused 3 at byte 5;
m0 c0: refused 3 at byte 3;
c0$: refused 3 at byte 0;
$c0: refused 1 at byte 0;
c00: refused 1 at byte 0;
c: refused 1 at byte 0;
: refused 2 at byte 0;
";
