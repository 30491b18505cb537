// Where the fields of a plan file stand.

// The bytes of the three counts.
pub(crate) const PLACE_COUNT: usize = 2;

pub(crate) const BINDING_COUNT: usize = 10;

pub(crate) const RULE_COUNT: usize = 18;

// The kinds of the bodies.
pub(crate) const PLACES: u16 = 1;

pub(crate) const BINDINGS: u16 = 2;

pub(crate) const RULES: u16 = 3;

// The byte where the first body begins: behind three contents entries of eight bytes.
pub(crate) const FIRST_BODY: usize = 24;

// The bytes of a place, and of a binding.
pub(crate) const PLACE_BYTES: usize = 4;

pub(crate) const BINDING_BYTES: usize = 12;
