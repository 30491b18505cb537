// The trial networks as lists, and their rules as tables.
ghost use Rattle.std.specs.Prelude.{◌≡◌};
ghost use Rattle.samples.specs.Networks.{p_marks, p_records, l_marks, l_records};

use conditions::word::Word;
use routing::binding::Binding;
use tables::row::Operation;

// P: place 0 has mark 0 and place 1 has mark 1; 0 to 1 while condition 0 is on.
pub const P_MARKS: [u32; 2] = [1, 2];

pub const P_BINDINGS: [Binding<Word>; 1] = [Binding {
    from: 0,
    to: 1,
    set: Word(0xAAAA_AAAA_AAAA_AAAA),
}];

// L: place 0 has mark 0 and place 2 has mark 1; 0 to 1 always, 1 to 2 while condition 0 is on, 1 to 0 while it is off.
pub const L_MARKS: [u32; 3] = [1, 0, 2];

pub const L_BINDINGS: [Binding<Word>; 3] = [
    Binding {
        from: 0,
        to: 1,
        set: Word(0xFFFF_FFFF_FFFF_FFFF),
    },
    Binding {
        from: 1,
        to: 2,
        set: Word(0xAAAA_AAAA_AAAA_AAAA),
    },
    Binding {
        from: 1,
        to: 0,
        set: Word(0x5555_5555_5555_5555),
    },
];

// The marks of P's places.
pub fn p_marks() -> [u32; 2]
    ensures { result ≡ p_marks }
{
    P_MARKS
}

// P's bindings.
pub fn p_bindings() -> [Binding<Word>; 1]
    ensures { result ≡ p_records }
{
    P_BINDINGS
}

// The marks of L's places.
pub fn l_marks() -> [u32; 3]
    ensures { result ≡ l_marks }
{
    L_MARKS
}

// L's bindings.
pub fn l_bindings() -> [Binding<Word>; 3]
    ensures { result ≡ l_records }
{
    L_BINDINGS
}

// AF m1: m1, not, some route keeps to it, not.
pub const AF_M1: [Operation; 4] = [
    Operation::Mark(1),
    Operation::Not(0),
    Operation::Always(1),
    Operation::Not(2),
];

// EF m1: yes until m1.
pub const EF_M1: [Operation; 3] = [Operation::Yes, Operation::Mark(1), Operation::Until(0, 1)];

// EF m1 | !c0.
pub const EF_M1_OR_NOT_C0: [Operation; 6] = [
    Operation::Yes,
    Operation::Mark(1),
    Operation::Until(0, 1),
    Operation::Condition(0),
    Operation::Not(3),
    Operation::Or(2, 4),
];

// AG EF m1: not (yes until not EF m1).
pub const AG_EF_M1: [Operation; 7] = [
    Operation::Yes,
    Operation::Yes,
    Operation::Mark(1),
    Operation::Until(1, 2),
    Operation::Not(3),
    Operation::Until(0, 4),
    Operation::Not(5),
];
