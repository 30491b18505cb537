// Files that are plans, and their verdicts.

// The files as they are, and with changes that leave them plans.
pub const WHOLE: &str = "\
Empty: ;
NoPlace: 0 holds 0\n;
Trial: 0 breaks 0 0 1\n1 holds 1\n;
Ring: 0 breaks 0 0 5\n1 holds 0\n;
Eight: 0 holds 0\n1 holds 0\n2 holds 0\n3 holds 0\n4 holds 0\n5 holds 0\n6 holds 0\n7 holds 0\n;
Limits: 0 breaks 0 0 0\n1 holds 0\n;
Longest: 0 holds 0\n1 holds 0\n2 holds 0\n3 holds 0\n4 holds 0\n5 holds 0\n6 holds 0\n7 holds 0\n;
# Other marks: both places have mark 1; no entry; mark 31;
Trial, put 24 \x03: 0 holds 0\n1 holds 0\n;
Trial, put 24 \0: 0 holds 1\n1 holds 1\n;
Trial, put 27 \u{80}: 0 breaks 0 0 1\n1 holds 1\n;
# Another binding: always; never; from 0 to 0;
Trial, put 36 \u{FF}\u{FF}\u{FF}\u{FF}\u{FF}\u{FF}\u{FF}\u{FF}: 0 holds 1\n1 holds 1\n;
Trial, put 36 \0\0\0\0\0\0\0\0: 0 breaks 0 0 0\n1 breaks 0 1 0\n;
Trial, put 34 \0: 0 breaks 0 0 0\n1 breaks 0 1 0\n;
# Other texts;
Trial, put 46 AG m0: 0 breaks 0 1 1\n1 holds 1\n;
Trial, put 46 m1\x20\x20\x20: 0 breaks 0 0 0\n1 holds 1\n;
# No rule, one rule, three rules;
Trial, put 18 \0, cut 44: ;
Trial, put 18 \x01, cut 51: 0 breaks 0 0 1\n;
Trial, put 18 \x03, add \x03\0yes: 0 breaks 0 0 1\n1 holds 1\n2 holds 0\n;
# A text of 200 bytes;
NoPlace, put 24 \u{C8}, spaces 197: 0 holds 0\n;
# The last binding at the last place;
Longest, put 50188 \u{FF}\0\u{FF}\0: 0 holds 0\n1 holds 0\n2 holds 0\n3 holds 0\n4 holds 0\n5 holds 0\n6 holds 0\n7 holds 0\n;
";
